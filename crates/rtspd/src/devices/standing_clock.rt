//! The clock of a program in which no time passes.

ghost use Rattle.std.specs.Prelude.{◌≡◌};

use rtsp_engine::Clock;

/// A clock that stands at moment 0.
#[derive(Drop)]
pub struct StandingClock;

impl Clock for StandingClock {
    ghost tells = { λ b moment c. moment ≡ 0 };

    fn now(&mut self) -> u64 {
        0
    }
}
