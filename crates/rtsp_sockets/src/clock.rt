//! The clock of a server.

ghost use Rattle.std.specs.Prelude.{◌≡◌};
ghost use Rattle.std.specs.Option.{ForSome};

use crate::decisions::LaneDecisions;
use rtsp_traits::Clock;
use std::rt;
use std::time::{Duration, Instant};

/// A clock that counts from the beginning of the server. It never goes back: where the system
/// can't tell the time it tells the last moment again.
#[derive(Drop)]
pub struct RunningClock<'a, R> {
    rt: &'a R,
    begun: Instant,
    last: u64,
}

impl<'a, R: rt::Clock> RunningClock<'a, R> {
    /// A clock that counts from this instant.
    pub fn new(rt: &'a R, begun: Instant) -> RunningClock<'a, R>
        ensures { result.last ≡ 0 }
    {
        RunningClock { rt, begun, last: 0 }
    }

    /// How long it is until a moment: nothing where that is past. `None` where the system can't tell
    /// the time. Then no wait on a `Condvar` lasts, so who waits for the moment has to sleep.
    pub fn until(&self, moment: u64) -> Option<Duration> {
        let elapsed = self.begun.elapsed(self.rt).ok()?;
        Some(Duration::from_millis(moment).saturating_sub(elapsed))
    }
}

impl<R: rt::Clock> Clock for RunningClock<'_, R> {
    ghost use Rattle.rtsp_sockets.specs.Clocks.{GoesOn};

    ghost tells = { λ b moment c. GoesOn b.last moment c.last };

    fn now(&mut self) -> u64 {
        if let Ok(elapsed) = self.begun.elapsed(self.rt) {
            let moment = u64::try_from(elapsed.as_millis()).unwrap_or(u64::MAX);
            self.last = self.last.max(moment);
        }
        self.last
    }
}

/// A clock that is read at the first question, and tells that moment from then on, until its lane begins
/// to decide on a PLAY or a PAUSE: then it is read anew. A piece of input has one: its requests came
/// together, so one reading does for most.
#[derive(Drop)]
pub struct PieceClock<'a, R> {
    clock: RunningClock<'a, R>,
    decisions: LaneDecisions<'a>,
    moment: Option<u64>,
    ghost kept: { ForSome moment (λ m. m ≡ clock.last) },
}

impl<'a, R: rt::Clock> PieceClock<'a, R> {
    ghost use Rattle.std.specs.Prelude.{◌≡◌, None};

    /// A clock that counts from this instant, and wasn't read yet.
    pub fn new(rt: &'a R, begun: Instant, decisions: LaneDecisions<'a>) -> PieceClock<'a, R>
        ensures clock { result.clock.last ≡ 0 }
        ensures unread { result.moment ≡ None }
    {
        PieceClock {
            clock: RunningClock::new(rt, begun),
            decisions,
            moment: None,
        }
    }
}

impl<R: rt::Clock> Clock for PieceClock<'_, R> {
    ghost use Rattle.std.specs.Prelude.{◌≡◌, Some};
    ghost use Rattle.rtsp_sockets.specs.Clocks.{GoesOn};

    ghost tells = { λ b moment c. (c.moment ≡ Some moment) × GoesOn b.clock.last moment c.clock.last };

    fn now(&mut self) -> u64 {
        match self.moment {
            Some(moment) if !self.decisions.is_after(moment) => moment,
            _ => {
                let moment = self.clock.now();
                self.moment = Some(moment);
                moment
            }
        }
    }
}
