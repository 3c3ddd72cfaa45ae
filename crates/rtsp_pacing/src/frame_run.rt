//! Frames of a channel that are put in one call.

ghost use Rattle.std.specs.Prelude.{◌≡◌, [], IsTrue, false};
ghost use Rattle.rtsp_pacing.specs.Runs.{added};

use std::alloc::{AllocError, Global};
use std::marker::Model;

// The most bytes of a run.
const MOST: usize = 32 * 1024;

// Frames of one track, one behind another: a run of them takes one call where each by itself takes one.
#[derive(Drop)]
pub(crate) struct FrameRun {
    track: u16,
    frames: u64,
    bytes: Vec<u8>,
}

impl Model for FrameRun {
    ghost use Rattle.rtsp_pacing.specs.Runs.{Run};

    ghost Value = { Run };

    ghost view = { λ r. record { track = r.track; frames = r.frames; bytes = r.bytes.items } };
}

impl FrameRun {
    // Takes the memory of a run.
    pub(crate) fn open(alloc: Global) -> Result<FrameRun, AllocError> {
        Ok(FrameRun {
            track: 0,
            frames: 0,
            bytes: Vec::with_capacity(alloc, MOST)?,
        })
    }

    // A run that takes no memory until it has a frame.
    pub(crate) fn empty(alloc: Global) -> FrameRun
        ensures { result ≡ record { track = 0; frames = 0; bytes = [] } }
    {
        FrameRun {
            track: 0,
            frames: 0,
            bytes: Vec::new(alloc),
        }
    }

    // Adds a frame of a track behind the others, where these are of that track, too, and it has room.
    // Whether it did.
    pub(crate) fn add(&mut self, track: u16, frame: &[u8]) -> bool
        ensures added { IsTrue result → self.new ≡ added self.old track frame.now }
        ensures kept { result ≡ false → self.new ≡ self.old }
    {
        let is_other = self.frames > 0 && self.track != track;
        if is_other || MOST.saturating_sub(self.bytes.len()) < frame.len() {
            return false;
        }
        if self.bytes.extend_from_slice(frame).is_err() {
            return false;
        }
        self.track = track;
        self.frames = self.frames.saturating_add(1);
        true
    }

    pub(crate) fn track(&self) -> u16
        ensures { result ≡ self.now.track }
    {
        self.track
    }

    // How many frames it has.
    pub(crate) fn frames(&self) -> u64
        ensures { result ≡ self.now.frames }
    {
        self.frames
    }

    pub(crate) fn as_bytes(&self) -> &[u8]
        ensures { result.now ≡ self.now.bytes }
    {
        self.bytes.as_slice()
    }

    // The frame that begins at a place, by the length in its head (RFC 7826 section 14).
    pub(crate) fn frame_at(&self, at: usize) -> Option<&[u8]> {
        let rest = self.bytes.as_slice().get(at..)?;
        let head = rest.first_chunk::<4>()?;
        let len = u16::from_be_bytes([head[2], head[3]]);
        rest.get(..4 + usize::from(len))
    }

    // Empties it.
    pub(crate) fn clear(&mut self)
        ensures { self.new ≡ record self.old { frames = 0; bytes = [] } }
    {
        self.frames = 0;
        self.bytes.clear();
    }
}
