//! A range of normal play time.

use crate::time::Time;

/// A range of normal play time, with the times as they were written: `npt`, `npt=a-`, `npt=-b` or
/// `npt=a-b`.
#[derive(Clone, Copy, PartialEq, Eq)]
pub struct Range {
    /// Where it begins; the resume point where none is written.
    pub start: Option<Time>,
    /// Where it stops; the end of the media where none is written.
    pub stop: Option<Time>,
}
