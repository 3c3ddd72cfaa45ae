//! What a pacer makes packets in.

use crate::frame_run::FrameRun;
use rtsp_rtp::SendRoom;
use std::alloc::{AllocError, Global};

/// Room to make the packets of a pacer's plays in, one unit after another, and to gather those that are
/// frames. So no packet takes memory of its own.
#[derive(Drop)]
pub struct PacerRoom {
    pub(crate) packets: SendRoom,
    pub(crate) frames: FrameRun,
}

impl PacerRoom {
    /// Takes the memory.
    pub fn open(alloc: Global) -> Result<PacerRoom, AllocError> {
        Ok(PacerRoom {
            packets: SendRoom::open(alloc)?,
            frames: FrameRun::open(alloc)?,
        })
    }
}
