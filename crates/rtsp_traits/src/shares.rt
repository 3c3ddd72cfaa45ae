//! Who counts the sessions of each player.

ghost use Rattle.std.specs.Prelude.{Option, OnOk, OnErr};
ghost use Rattle.rtsp_traits.specs.Devices.{ShareCalls, Took, TurnedAway};

use thiserror::Error;

/// An address has as many sessions as it may have.
#[derive(Clone, Copy, Debug, PartialEq, Eq, Error)]
#[error("the address has its share of the sessions")]
pub struct ShareSpent;

/// Who counts the sessions of each player's address. Its refusals are counted.
pub trait Shares {
    /// What each call does, and how many places were refused, up to the greatest `u64`.
    ghost calls: { ShareCalls Self };

    /// Takes a place for one more session of a player at this IPv4 address, until it is settled.
    fn take(&mut self, peer: u32) -> Result<(), ShareSpent>
        ensures ok { OnOk result (Took calls peer self.old self.new) }
        ensures err { OnErr result (TurnedAway calls peer self.old self.new) };

    /// What became of the place that was taken last: the session of this number was opened, or none
    /// was.
    fn settle(&mut self, opened: Option<u64>)
        ensures { calls.settles self.old opened self.new };
}
