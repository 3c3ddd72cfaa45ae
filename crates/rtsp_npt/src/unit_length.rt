//! How long a unit of media lasts.

ghost use Rattle.std.specs.Prelude.{◌≡◌, ◌≤◌};

use std::marker::Model;

/// How long a unit of media lasts: 1 to 1,000 milliseconds. A contract sees it as their number.
#[derive(Clone, Copy, PartialEq, Eq)]
pub struct UnitLength {
    ms: u32,
}

impl Model for UnitLength {
    ghost use Rattle.std.specs.Prelude.{ℕ, ◌≤◌};

    ghost Value = { ℕ };

    ghost view = { λ u. u.ms };

    ghost invariant = { λ u. (1 ≤ u.ms) × (u.ms ≤ 1000) };

    ghost inverse = { λ n. record { ms = n } };
}

impl UnitLength {
    /// A length in milliseconds.
    pub fn new(ms: u32) -> UnitLength
        requires least { 1 ≤ ms }
        requires most { ms ≤ 1000 }
        ensures { result ≡ ms }
    {
        UnitLength { ms }
    }

    /// How many milliseconds it lasts.
    pub fn ms(self) -> u32
        ensures value { result ≡ self }
        ensures least { 1 ≤ result }
        ensures most { result ≤ 1000 }
    {
        self.ms
    }
}
