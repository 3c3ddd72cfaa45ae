//! What connections hold of messages that aren't whole.

ghost use Rattle.std.specs.Prelude.{◌≡◌, ◌≤◌, ◌⊎◌};
ghost use Rattle.std.specs.Bool.{OnTrue};

use rtsp_sockets::{Loan, SharedRoom};
use std::sync::Arc;

// How many bytes of a message that isn't whole a connection may hold, whatever others hold.
const HELD: usize = 4 * 1_024;

/// The most memory that is lent to all connections together for messages of which they hold more:
/// 64 MiB.
pub(crate) const HELD_IN_ALL: u64 = 64 * 1_024 * 1_024;

/// What is lent to a connection for a message that isn't whole.
#[derive(Drop)]
pub(crate) struct UnreadLoan {
    loan: Loan,
}

impl UnreadLoan {
    /// Nothing is lent yet.
    pub(crate) fn of(room: &Arc<SharedRoom>) -> Option<UnreadLoan> {
        Some(UnreadLoan {
            loan: Loan::of(room)?,
        })
    }

    /// So many bytes of a message are held, in so much memory. Whether that may be, by itself or
    /// since it is lent.
    pub(crate) fn covers(&mut self, bytes: usize, memory: usize) -> bool
        ensures { OnTrue result ((bytes ≤ 4096) ⊎ (self.new.loan ≡ memory)) }
    {
        let needed = if bytes > HELD { memory } else { 0 };
        self.loan.settle(needed);
        self.loan.cover(needed)
    }
}
