//! A play that its session has left: what was counted of it is still sent, and it waits to hear of the next.

use super::{Next, PacedPlay};
use crate::when::patience_after;
use rtsp_record::Phase;
use rtsp_rtp::{LastTurn, Turn};

// Within how many milliseconds a pacer hears of a play, unless a thread is kept from running.
const HEARD_WITHIN: u64 = 250;

// For how many milliseconds a play waits to hear of the next where its session's phase tells that there
// was one: that one is on its way, however long its lane is kept from running. Pauses of the server don't
// count.
const AWAITED_FOR: u64 = 10_000;

impl PacedPlay {
    // What came of a turn. `last` is what came of the last one of a play that the session has left, for
    // the phase `left`. Media of such a play that can't be read is lost. Where no phase of that play leads
    // to it, there was another play between, of which the pacer hears.
    pub(super) fn after(&mut self, turn: Turn, last: Option<LastTurn>, left: Phase) -> Turn {
        match last {
            None => turn,
            Some(LastTurn::NotLeft) => {
                self.patience.get_or_insert(AWAITED_FOR);
                Turn::OtherPlay
            }
            Some(LastTurn::SinkFailed) => {
                self.patience = Some(0);
                Turn::OtherPlay
            }
            Some(LastTurn::More) => {
                self.left = Some(left);
                Turn::More
            }
            Some(LastTurn::Done) => {
                self.left = Some(left);
                Turn::OtherPlay
            }
        }
    }

    // When this play has its next turn, where the session has left it and nothing of it is to be sent now.
    // The session's next play may be on its way to the pacer: its phase says how far this play goes, and
    // what this play has sent is not to be sent by the next one, too.
    pub(super) fn wait(&mut self, unit_ms: u32, passed: u64, moment: u64) -> Next {
        let patience = match self.patience {
            None => HEARD_WITHIN,
            Some(patience) => patience_after(patience, unit_ms, passed),
        };
        self.patience = Some(patience);
        if patience == 0 {
            return Next::Never;
        }
        Next::At(moment.saturating_add(patience.min(u64::from(unit_ms))))
    }
}
