//! Numbers of sessions, a few at a time.

ghost use Rattle.std.specs.Prelude.{◌≡◌, ◌<◌, ◌≤◌, ℕ, [], true, length, take, slice_index_or, insert};
ghost use Rattle.rtsp_sessions.specs.Lookups.{is_above, inserted};

use arrayvec::ArrayVec;
use std::marker::Model;

/// Whether a number is above another, or there is no other.
pub fn is_above(above: Option<u64>, number: u64) -> bool
    ensures { result ≡ is_above above number }
{
    match above {
        None => true,
        Some(bound) => bound < number,
    }
}

/// Numbers of sessions in ascending order, at most 256. It is of fixed size and takes no memory.
#[derive(Drop)]
pub struct SessionNumbers {
    numbers: ArrayVec<u64, 256>,
}

impl Model for SessionNumbers {
    ghost use Rattle.std.specs.Prelude.{ℕ, List};
    ghost use Rattle.std.specs.List.Sorted.{IsNonDecreasing};

    ghost Value = { List ℕ };

    ghost view = { λ s. s.numbers.items };

    ghost invariant = { λ s. IsNonDecreasing s.numbers.items };
}

impl SessionNumbers {
    /// No number.
    pub fn new() -> Self
        ensures { result ≡ [] }
    {
        SessionNumbers {
            numbers: ArrayVec::new(),
        }
    }

    /// Forgets the numbers.
    pub fn clear(&mut self)
        ensures { self.new ≡ [] }
    {
        self.numbers.clear();
    }

    /// The numbers, the least first.
    pub fn as_slice(&self) -> &[u64]
        ensures value { result.now ≡ self.now }
        ensures short { length self.now ≤ 256 }
    {
        self.numbers.as_slice()
    }

    /// Puts a number among the others, unless it is there. Of 257 the greatest goes.
    pub fn insert(&mut self, number: u64)
        ensures { self.new ≡ take 256 (inserted number self.old) }
    {
        if self.is_beyond(number) {
            return;
        }
        match self.numbers.as_slice().binary_search(&number) {
            Ok(_) => {}
            Err(place) => self.insert_unless_last(place, number),
        }
    }

    // Whether there are 256 numbers, none of which is above this one.
    fn is_beyond(&self, number: u64) -> bool
        ensures { result ≡ true → (length self.now ≡ 256) × ((k : ℕ) → k < 256 → slice_index_or self.now k 0 ≤ number) }
    {
        self.numbers.is_full() && self.numbers.as_slice()[255] <= number
    }

    // Puts a number before the one at this place, unless it would be the 257th.
    fn insert_unless_last(&mut self, place: usize, number: u64)
        requires within { place ≤ length self.old }
        requires before { (k : ℕ) → k < place → slice_index_or self.old k 0 < number }
        requires behind { (k : ℕ) → place ≤ k → k < length self.old → number < slice_index_or self.old k 0 }
        ensures { self.new ≡ take 256 (insert self.old place number) }
    {
        let _len = self.numbers.len();
        if place < 256 {
            self.insert_at(place, number);
        }
    }

    // Puts a number before the one at this place; of 257 the last goes.
    fn insert_at(&mut self, place: usize, number: u64)
        requires within { (place ≤ length self.old) × (place < 256) }
        requires before { (k : ℕ) → k < place → slice_index_or self.old k 0 < number }
        requires behind { (k : ℕ) → place ≤ k → k < length self.old → number < slice_index_or self.old k 0 }
        ensures { self.new ≡ take 256 (insert self.old place number) }
    {
        self.make_room();
        self.numbers.insert(place, number);
    }

    // Leaves 255 numbers at most.
    fn make_room(&mut self)
        ensures { self.new ≡ take 255 self.old }
    {
        if self.numbers.is_full() {
            self.numbers.pop();
        }
    }
}
