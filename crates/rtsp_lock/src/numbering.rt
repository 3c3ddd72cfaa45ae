//! Which numbers the seats of a lock may name.

ghost use Rattle.std.specs.Prelude.{Bool, true, false};

/// Which numbers the seats of a lock hold and add under. It is chosen when the lock is opened.
pub trait Numbers {
    /// Whether each seat may name only numbers that it drew itself.
    ghost drawn: { Bool };
}

/// Any numbers, as the callers please.
pub struct AnyNumbers;

impl Numbers for AnyNumbers {
    ghost drawn = { false };
}

/// Numbers that the seat drew itself, and no others. So no seat uses another's.
pub struct DrawnNumbers;

impl Numbers for DrawnNumbers {
    ghost drawn = { true };
}
