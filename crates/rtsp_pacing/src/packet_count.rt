//! What came of packets, counted.

use crate::dropped::Dropped;
use crate::went::Went;

// Packets that are sent by one call: how many, and how many bytes of RTP these have.
#[derive(Clone, Copy)]
pub(crate) struct Portion {
    pub(crate) packets: u64,
    pub(crate) bytes: u64,
}

impl Portion {
    // One packet.
    pub(crate) fn one(datagram: &[u8]) -> Portion {
        Portion {
            packets: 1,
            bytes: datagram.len() as u64,
        }
    }

    // So many frames, one behind another: each has a packet behind a head of four bytes.
    pub(crate) fn of_frames(frames: u64, bytes: &[u8]) -> Portion {
        let heads = frames.saturating_mul(4);
        Portion {
            packets: frames,
            bytes: (bytes.len() as u64).saturating_sub(heads),
        }
    }
}

// How many packets were sent, and how many bytes of RTP these have; how many were lost, and what of these
// was dropped for want of room.
#[derive(Clone, Copy)]
pub(crate) struct PacketCount {
    pub(crate) sent: u64,
    pub(crate) bytes: u64,
    pub(crate) lost: u64,
    pub(crate) dropped: Option<Dropped>,
}

impl PacketCount {
    pub(crate) fn none() -> PacketCount {
        PacketCount {
            sent: 0,
            bytes: 0,
            lost: 0,
            dropped: None,
        }
    }

    // With a portion more, of all of which this came at a moment.
    pub(crate) fn with_more(self, portion: Portion, went: Went, now: u64) -> PacketCount {
        let dropped = match went {
            Went::Dropped(cause) => Some(Dropped::one(cause, now)),
            Went::Sent | Went::Lost => None,
        };
        let (sent, bytes, lost) = match went {
            Went::Sent => (portion.packets, portion.bytes, 0),
            Went::Lost | Went::Dropped(_) => (0, 0, portion.packets),
        };
        PacketCount {
            sent: self.sent.saturating_add(sent),
            bytes: self.bytes.saturating_add(bytes),
            lost: self.lost.saturating_add(lost),
            dropped: Dropped::count(self.dropped, dropped),
        }
    }
}
