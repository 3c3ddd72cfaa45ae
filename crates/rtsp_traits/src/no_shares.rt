//! Shares where no address has one.

use crate::shares::{ShareSpent, Shares};

/// No address has a share: each may have as many sessions as there are places for.
#[derive(Drop)]
pub struct NoShares;

impl Shares for NoShares {
    ghost use Rattle.rtsp_traits.specs.NoShares.{calls};

    ghost calls = { calls };

    fn take(&mut self, _peer: u32) -> Result<(), ShareSpent> {
        Ok(())
    }

    fn settle(&mut self, _opened: Option<u64>) {}
}
