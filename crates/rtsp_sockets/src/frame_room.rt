//! How much may wait of streams.

ghost use Rattle.std.specs.Prelude.{◌≡◌, ◌≤◌};
ghost use Rattle.rtsp_sockets.specs.Rooms.{frame_room, most_frames, room_of_rate};

use crate::message::{ALL_ROOM, FRAME_ROOM};
use std::marker::Model;

/// The most bytes that wait to be written to a connection, however much is lent to it: 4 MiB.
pub const MOST_ROOM: usize = 4 * 1024 * 1024;

/// The most bytes that are lent to all connections together for frames that wait: 256 MiB.
pub const LENT_IN_ALL: u64 = 256 * 1024 * 1024;

// The most bytes that wait once a frame waits too, however much is lent. They leave as much room to
// responses in `MOST_ROOM` as `FRAME_ROOM` does in `ALL_ROOM`.
const MOST_FRAMES: usize = FRAME_ROOM + (MOST_ROOM - ALL_ROOM);

/// How many bytes may wait once a frame of some streams waits too. What of them is beyond
/// `FRAME_ROOM` has to be lent.
#[derive(Clone, Copy, PartialEq, Eq)]
pub struct FrameRoom {
    bytes: usize,
}

impl Model for FrameRoom {
    ghost use Rattle.std.specs.Prelude.{ℕ, ◌≤◌};
    ghost use Rattle.rtsp_sockets.specs.Rooms.{frame_room, most_frames};

    ghost Value = { ℕ };

    ghost view = { λ r. r.bytes };

    ghost invariant = { λ r. (frame_room ≤ r.bytes) × (r.bytes ≤ most_frames) };

    ghost inverse = { λ n. record { bytes = n } };
}

impl FrameRoom {
    /// The room that each connection has by itself: `FRAME_ROOM`.
    pub const fn least() -> FrameRoom
        ensures { result ≡ frame_room }
    {
        FrameRoom { bytes: FRAME_ROOM }
    }

    /// Room for two seconds of streams that take so many bits a second together: `FRAME_ROOM` at
    /// least, and at most what leaves 192 KiB of `MOST_ROOM` to responses.
    pub fn of_rate(bits: u64) -> FrameRoom
        ensures { result ≡ room_of_rate bits }
    {
        let seconds = usize::try_from(bits / 4).unwrap_or(MOST_FRAMES);
        FrameRoom {
            bytes: seconds.min(MOST_FRAMES).max(FRAME_ROOM),
        }
    }

    /// In bytes.
    pub fn bytes(self) -> usize
        ensures value { result ≡ self }
        ensures least { frame_room ≤ result }
        ensures most { result ≤ most_frames }
    {
        self.bytes
    }
}
