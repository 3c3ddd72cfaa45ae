//! What a sweep did.

/// What a sweep did.
#[derive(Clone, Copy, PartialEq, Eq)]
pub struct Swept {
    /// How many of its steps were accepted.
    pub ended: u32,
    /// It stopped at its limit, so more may be due.
    pub more: bool,
    /// The session that the last accepted step was about, if there was one. `sweep` ended it;
    /// `hang_up` ended it or took a startup number away from it.
    pub last: Option<u64>,
}
