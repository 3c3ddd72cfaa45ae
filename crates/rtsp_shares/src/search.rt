//! Whose places are asked about, so that an address may have one more.

/// The most places of an address that one who asks for one more has asked about, where its share is
/// spent. Whoever ends what a place is kept for gives it back, so seldom is one found.
pub const LOOKS: usize = 1;

/// Whose places are to be asked about, and how many of them at most.
#[derive(Clone, Copy, PartialEq, Eq)]
pub struct Search {
    pub(crate) whose: Option<u32>,
    pub(crate) looks: usize,
    // What is asked about next stands below this index, or else at the end.
    pub(crate) below: usize,
}

impl Search {
    ghost use Rattle.std.specs.Prelude.{◌≡◌};

    /// How many places are to be asked about at most.
    pub fn looks(&self) -> usize
        ensures { result ≡ self.now.looks }
    {
        self.looks
    }
}
