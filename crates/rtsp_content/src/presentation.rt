//! A presentation: tracks that are played together.

ghost use Rattle.std.specs.Prelude.{◌≡◌, ◌≤◌, ◌*◌, true, length, option_copied, slice_get, IfOk};
ghost use Rattle.rtsp_content.specs.Distinct.{AreDistinct};
ghost use Rattle.rtsp_content.specs.TrackValue.{track_names};
ghost use Rattle.rtsp_content.specs.Form.{is_name};
ghost use Rattle.rtsp_content.specs.declared.limits.TheConstants.{MAX_UNITS, MAX_TRACKS};
ghost use Rattle.rtsp_content.specs.Sdp.{sdp_of};
ghost use Rattle.rtsp_content.specs.StartsValue.{start_at, longest_gap, IsLastStart};
ghost use Rattle.rtsp_content.specs.Rate.{rate_of, IsRate};

use crate::starts::Starts;
use crate::track::Track;
use rtsp_npt::UnitLength;
use std::alloc::AllocError;
use std::marker::Model;

/// Tracks that are played together, in units of one length.
#[derive(Drop)]
pub struct Presentation {
    pub(crate) name: String,
    pub(crate) units: u32,
    pub(crate) unit_ms: UnitLength,
    pub(crate) starts: Starts,
    // The most units from one start to the next.
    pub(crate) gap: u32,
    pub(crate) tracks: Vec<Track>,
    // Its description, made once.
    pub(crate) sdp: Vec<u8>,
}

impl Model for Presentation {
    ghost use Rattle.std.specs.Prelude.{◌≡◌};
    ghost use Rattle.rtsp_content.specs.Sdp.{sdp_of};
    ghost use Rattle.rtsp_content.specs.StartsValue.{longest_gap};
    ghost use Rattle.rtsp_content.specs.PresentationValue.{PresentationValue, IsPresentationWithin};

    ghost Value = { PresentationValue };

    ghost use Rattle.rtsp_content.specs.PresentationView.{presentation_value};

    ghost view = { presentation_value };

    ghost invariant = { λ p. IsPresentationWithin (presentation_value p)
        × (p.gap ≡ longest_gap p.starts p.units)
        × (p.sdp.items ≡ sdp_of (presentation_value p)) };
}

// Copies, in their order.
fn copies_of(tracks: &Vec<Track>) -> Result<Vec<Track>, AllocError>
    ensures { IfOk result (λ v. v.items ≡ tracks.now.items) }
{
    tracks.clone()
}

// A copy.
fn copy_of(bytes: &Vec<u8>) -> Result<Vec<u8>, AllocError>
    ensures { IfOk result (λ v. v.items ≡ bytes.now.items) }
{
    bytes.clone()
}

impl Presentation {
    // A copy.
    pub(crate) fn copied(&self) -> Result<Presentation, AllocError>
        ensures { IfOk result (λ p. p ≡ self.now) }
    {
        let name = self.name.clone()?;
        let starts = self.starts.copied()?;
        let tracks = copies_of(&self.tracks)?;
        let sdp = copy_of(&self.sdp)?;
        Ok(Presentation {
            name,
            units: self.units,
            unit_ms: self.unit_ms,
            starts,
            gap: self.gap,
            tracks,
            sdp,
        })
    }

    /// The name, which is its path without the slash.
    pub fn name(&self) -> &str
        ensures value { result.now ≡ self.now.name }
        ensures form { is_name result.now ≡ true }
    {
        self.name.as_str()
    }

    /// How many units it has.
    pub fn units(&self) -> u32
        ensures value { result ≡ self.now.units }
        ensures least { 1 ≤ result }
        ensures most { result ≤ MAX_UNITS }
    {
        self.units
    }

    /// How long a unit lasts.
    pub fn unit_ms(&self) -> UnitLength
        ensures { result ≡ self.now.unit_ms }
    {
        self.unit_ms
    }

    /// How long it lasts, in milliseconds.
    pub fn length_ms(&self) -> u64
        ensures { result ≡ self.now.units * self.now.unit_ms }
    {
        u64::from(self.units) * u64::from(self.unit_ms.ms())
    }

    /// The unit at which a play begins that is asked to begin at this one: the last start up to it.
    pub fn start_at(&self, asked: u32) -> u32
        ensures value { result ≡ start_at self.now.starts asked }
        ensures last { IsLastStart self.now.starts asked result }
    {
        self.starts.at(asked)
    }

    /// The most units from one start to the next, or from the last to the end: 1 where a play may
    /// begin at each unit.
    pub fn longest_gap(&self) -> u32
        ensures { result ≡ longest_gap self.now.starts self.now.units }
    {
        self.gap
    }

    /// The tracks in the order of the configuration.
    pub fn tracks(&self) -> &[Track]
        ensures value { result.now ≡ self.now.tracks }
        ensures least { 1 ≤ length result.now }
        ensures most { length result.now ≤ MAX_TRACKS }
        ensures distinct { AreDistinct (track_names result.now) }
    {
        self.tracks.as_slice()
    }

    /// The track with this index, counted from 0.
    pub fn track(&self, index: u16) -> Option<&Track>
        ensures { option_copied result ≡ slice_get self.now.tracks index }
    {
        self.tracks.get(usize::from(index))
    }

    /// Its description in SDP (RFC 4566, RFC 7826 appendix D).
    pub fn sdp(&self) -> &[u8]
        ensures { result.now ≡ sdp_of self.now }
    {
        self.sdp.as_slice()
    }

    /// The bits per second of a stream of one of its tracks: the packets of each unit, with 40 bytes
    /// of headers each, and a sender report each second where a unit has several.
    pub fn rate(&self, track: &Track) -> u64
        ensures value { result ≡ rate_of self.now.unit_ms track.now.octets track.now.packing }
        ensures least { IsRate self.now.unit_ms track.now.octets track.now.packing result }
    {
        let packing = track.packing();
        let bytes = u64::from(track.octets()) + u64::from(packing.packet_count()) * 40;
        (bytes * 8000).div_ceil(u64::from(self.unit_ms.ms())) + packing.report_rate()
    }
}
