//! The moments of a server.

ghost use Rattle.std.specs.Prelude.{ℕ};

/// A clock that tells moments.
pub trait Clock {
    /// A clock before a call, the moment that it tells, and the clock after.
    ghost tells: { Self → ℕ → Self → Type 0 };

    /// The present moment, in milliseconds.
    fn now(&mut self) -> u64
        ensures { tells self.old result self.new };
}
