//! The id of a session.

ghost use Rattle.std.specs.Prelude.{◌≡◌};

use std::marker::Model;

// How many numbers the lower half of an id can be.
const HALF: u128 = 1 << 64;

/// A session's id: 128 bits, drawn at random (RFC 7826 section 4.3). It is kept in two halves: a
/// u128 would align every record to 16 bytes.
#[derive(Clone, Copy, PartialEq, Eq)]
pub struct Id {
    high: u64,
    low: u64,
}

impl Model for Id {
    ghost use Rattle.std.specs.Prelude.{◌≡◌, ℕ, ◌+◌, ◌*◌, ◌/◌, ◌%◌, ◌^◌, ◌<◌};
    ghost use Rattle.std.proofs.Common.{arith};

    ghost Value = { ℕ };

    ghost view = { λ a. a.high * 2 ^ 64 + a.low };

    ghost invariant = { λ a. a.low < 2 ^ 64 };

    ghost inverse = { λ n. record { high = n / 2 ^ 64; low = n % 2 ^ 64 } };

    ghost inverse_ok = { λ a h.
        let high : (a.high * 2 ^ 64 + a.low) / 2 ^ 64 ≡ a.high = Prim.omega arith in
        let low : (a.high * 2 ^ 64 + a.low) % 2 ^ 64 ≡ a.low = Prim.omega arith in
        λ i. record { high = high i; low = low i } };
}

impl Id {
    /// The id with this number.
    pub fn new(number: u128) -> Self
        ensures { result ≡ number }
    {
        Id {
            high: (number / HALF) as u64,
            low: (number % HALF) as u64,
        }
    }

    /// The id as a number.
    pub fn number(&self) -> u128
        ensures { result ≡ self.now }
    {
        u128::from(self.high) * HALF + u128::from(self.low)
    }
}
