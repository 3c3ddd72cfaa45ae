//! One media stream of a presentation.

ghost use Rattle.std.specs.Prelude.{◌≡◌, ◌≤◌, ◌<◌, true, IfSome, option_map};
ghost use Rattle.rtsp_content.specs.PackingLimits.{most_octets, unit_len, IsPackedWithin};
ghost use Rattle.rtsp_content.specs.Form.{is_name, is_encoding, is_format_parameters};
ghost use Rattle.rtsp_content.specs.declared.limits.TheConstants.{MAX_PAYLOAD_TYPE, MAX_CLOCK, MAX_TICKS, MAX_CHANNELS};
ghost use Rattle.rtsp_content.specs.Track.{media_text};

use crate::packing::Packing;
use std::marker::Model;

/// What kind of media a track has.
#[derive(Clone, Copy, PartialEq, Eq)]
pub enum Media {
    Audio,
    Video,
}

impl Media {
    /// Its name in a configuration and in SDP.
    pub fn as_str(self) -> &'static str
        ensures { result.now ≡ media_text self }
    {
        match self {
            Media::Audio => "audio",
            Media::Video => "video",
        }
    }
}

/// One media stream of a presentation: a raw file of units of one size, each of one RTP packet or
/// of several.
#[derive(Clone, Drop)]
pub struct Track {
    pub(crate) name: String,
    pub(crate) media: Media,
    pub(crate) payload_type: u8,
    pub(crate) encoding: String,
    pub(crate) clock: u32,
    pub(crate) packing: Packing,
    pub(crate) octets: u32,
    pub(crate) ticks: u32,
    pub(crate) file: String,
    pub(crate) format_parameters: Option<String>,
    pub(crate) channels: Option<u8>,
}

impl Model for Track {
    ghost use Rattle.rtsp_content.specs.TrackValue.{TrackValue, IsTrackWithin};

    ghost Value = { TrackValue };

    ghost use Rattle.rtsp_content.specs.TrackView.{track_value};

    ghost view = { track_value };

    ghost invariant = { λ t. IsTrackWithin (track_value t) };
}

impl Track {
    /// The name, which is in a path after its presentation's.
    pub fn name(&self) -> &str
        ensures value { result.now ≡ self.now.name }
        ensures form { is_name result.now ≡ true }
    {
        self.name.as_str()
    }

    /// What kind of media it has.
    pub fn media(&self) -> Media
        ensures { result ≡ self.now.media }
    {
        self.media
    }

    /// The name of its media, which lives as long as the track.
    pub(crate) fn media_name(&self) -> &str
        ensures { result.now ≡ media_text self.now.media }
    {
        self.media.as_str()
    }

    /// The payload type of its RTP packets.
    pub fn payload_type(&self) -> u8
        ensures value { result ≡ self.now.payload_type }
        ensures most { result ≤ MAX_PAYLOAD_TYPE }
    {
        self.payload_type
    }

    /// The name of its encoding in SDP.
    pub fn encoding(&self) -> &str
        ensures value { result.now ≡ self.now.encoding }
        ensures form { is_encoding result.now ≡ true }
    {
        self.encoding.as_str()
    }

    /// Clock ticks per second.
    pub fn clock(&self) -> u32
        ensures value { result ≡ self.now.clock }
        ensures least { 1 ≤ result }
        ensures most { result ≤ MAX_CLOCK }
    {
        self.clock
    }

    /// How the packets of a unit stand in the file.
    pub fn packing(&self) -> Packing
        ensures value { result ≡ self.now.packing }
        ensures within { IsPackedWithin result self.now.octets }
    {
        self.packing
    }

    /// How many bytes of media a unit has; at most so many where it is a slot.
    pub fn octets(&self) -> u32
        ensures value { result ≡ self.now.octets }
        ensures least { 1 ≤ result }
        ensures most { result ≤ most_octets self.now.packing }
    {
        self.octets
    }

    /// How many bytes a unit takes in the file.
    pub fn unit_len(&self) -> u32
        ensures { result ≡ unit_len self.now.packing self.now.octets }
    {
        self.packing.unit_len(self.octets)
    }

    /// How many clock ticks a unit lasts.
    pub fn ticks(&self) -> u32
        ensures value { result ≡ self.now.ticks }
        ensures least { 1 ≤ result }
        ensures most { result ≤ MAX_TICKS }
    {
        self.ticks
    }

    /// The path of the file that has its units: as the configuration has it, or taken from the
    /// folder of the media where it names one.
    pub fn file(&self) -> &str
        ensures { result.now ≡ self.now.file }
    {
        self.file.as_str()
    }

    /// The format parameters of its encoding, for SDP, if it has them.
    pub fn format_parameters(&self) -> Option<&str>
        ensures value { option_map (λ text. text.now) result ≡ self.now.format_parameters }
        ensures form { IfSome result (λ text. is_format_parameters text.now ≡ true) }
    {
        match &self.format_parameters {
            Some(text) => Some(text.as_str()),
            None => None,
        }
    }

    /// How many channels it has, for SDP, if it says so.
    pub fn channels(&self) -> Option<u8>
        ensures value { result ≡ self.now.channels }
        ensures least { IfSome result (λ n. 1 ≤ n) }
        ensures most { IfSome result (λ n. n ≤ MAX_CHANNELS) }
    {
        self.channels
    }
}
