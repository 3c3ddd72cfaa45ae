//! Room to make packets in.

ghost use Rattle.std.specs.Prelude.{◌≤◌, length};
ghost use Rattle.rtsp_rtp.specs.Parts.{MAX_UNIT_LEN};

use crate::buffer::Packet;
use rtsp_content::{MAX_PACKETS, MAX_UNIT_OCTETS, SLOT_HEAD};
use std::alloc::{AllocError, Global};

// The most bytes that a unit takes in its file.
const MAX_UNIT_LEN: usize = SLOT_HEAD as usize * MAX_PACKETS as usize + MAX_UNIT_OCTETS as usize;

/// Room to make packets in, one after another: of a packet, and of a unit of several, about 122,000
/// bytes. What it holds counts for nothing, and a caller that keeps it from turn to turn saves
/// clearing it.
#[derive(Drop)]
pub struct SendRoom {
    pub(crate) packet: Packet,
    pub(crate) unit: Vec<u8>,
    ghost long: { MAX_UNIT_LEN ≤ length unit.items },
}

impl SendRoom {
    /// Takes the memory.
    pub fn open(alloc: Global) -> Result<SendRoom, AllocError> {
        Ok(SendRoom {
            packet: Packet::new(),
            unit: Vec::from_elem(alloc, 0, MAX_UNIT_LEN)?,
        })
    }
}
