//! The numbers of places.

ghost use Rattle.std.specs.Prelude.{◌≡◌, ◌≤◌};
ghost use Rattle.rtsp_content.specs.Numbers.{number_at};

use crate::table::Table;

/// The number of a place.
pub(crate) fn number_at(numbers: &[u64], place: usize) -> u64
    ensures { result ≡ number_at numbers.now place }
{
    match numbers.get(place) {
        Some(number) => *number,
        None => 0,
    }
}

/// The greatest of these.
pub(crate) fn newest(numbers: &[u64]) -> u64
    ensures { (place : _) → number_at numbers.now place ≤ result }
{
    let mut newest = 0;
    for place in 0..numbers.len() {
        newest = newest.max(number_at(numbers, place));
    }
    newest
}

impl Table {
    /// The number of a place, which grows each time the place is given to another presentation.
    pub fn number(&self, place: u16) -> u64
        ensures { result ≡ number_at self.now.numbers place }
    {
        number_at(self.numbers.as_slice(), usize::from(place))
    }
}
