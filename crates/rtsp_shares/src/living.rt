//! Who tells what still lives.

ghost use Rattle.std.specs.Prelude.{ℕ, Bool};

/// Tells whether that lives for which a place is kept.
pub trait Living {
    /// Who was asked about a number, before and after, and whether it was told to live.
    ghost tells: { Self → ℕ → Bool → Self → Type 0 };

    /// Whether what has this number lives.
    fn lives(&mut self, number: u64) -> bool
        ensures { tells self.old number result self.new };
}
