//! Which session a request has ended, and which track it has set up.

ghost use Rattle.std.specs.Prelude.{◌≡◌};
ghost use Rattle.rtsp_watch.specs.Ending.{closed_by};

use rtsp_engine::{Binder, Clock, Desk, Plays, Shares, Words};
use rtsp_grammar::Method;
use rtsp_lock::Numbers;
use rtsp_record::{Life, Record, Setup};
use std::sync::Wait;

// The status of a request that was done.
const OK: u16 = 200;

/// Who answers, and has at hand what the last step recorded that was accepted.
pub trait Recorder {
    /// The session that this step closed, if it closed one.
    fn closed(&self) -> Option<Life>;

    /// The track that this step set up, if it set one up.
    fn added(&self) -> Option<Setup>;
}

// The session that the records of a step close: no step closes another one, and none records more
// behind it.
fn closed_by(made: &[Record]) -> Option<Life>
    ensures { result ≡ closed_by made.now }
{
    match made.last() {
        Some(Record::Close(life)) => Some(*life),
        _ => None,
    }
}

// The track that the records of a step set up: no step sets up two.
fn added_by(made: &[Record]) -> Option<Setup> {
    for record in made {
        if let Record::Add(setup) = record {
            return Some(*setup);
        }
    }
    None
}

impl<R: Wait, B: Binder, W: Words, C: Clock, P: Plays, S: Shares, N: Numbers> Recorder
    for Desk<'_, R, B, W, C, P, S, N> {
    fn closed(&self) -> Option<Life> {
        closed_by(self.made.records())
    }

    fn added(&self) -> Option<Setup> {
        added_by(self.made.records())
    }
}

/// The session that a request of this method has ended, which was answered with this status: a TEARDOWN
/// that was done is the step that was accepted last.
pub(crate) fn ended_by<A: Recorder>(answerer: &A, method: &Method, status: u16) -> Option<Life> {
    match method {
        Method::Teardown if status == OK => answerer.closed(),
        _ => None,
    }
}

/// The track that a request of this method has set up, which was answered with this status.
pub(crate) fn set_up_by<A: Recorder>(answerer: &A, method: &Method, status: u16) -> Option<Setup> {
    match method {
        Method::Setup if status == OK => answerer.added(),
        _ => None,
    }
}
