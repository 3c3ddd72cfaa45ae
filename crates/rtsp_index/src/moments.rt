//! Moments by place, and the least of them.

ghost use Rattle.std.specs.Prelude.{◌≡◌, ◌≢◌, ◌+◌, ◌*◌, ◌<◌, ◌≤◌, ℕ, slice_index, IfOk, OnOk};
ghost use Rattle.rtsp_index.specs.Lessers.{AreLessers};

use std::alloc::{AllocError, Global};

/// A moment at each of so many places, in milliseconds; the greatest moment where nothing was
/// written. The least of them is read at once. A write looks at two numbers for each doubling of
/// the places, and stops where the lesser of the two stays as it was.
#[derive(Drop)]
pub(crate) struct Moments {
    places: usize,
    // The moments stand from index `places` on. Before them each number, from index 1 on, is the
    // lesser of the two at twice its index and right after that.
    least: Vec<u64>,
    ghost lessers: { AreLessers places least.items },
}

// Writes the moment of a place, and the lessers above it.
fn write(least: &mut Vec<u64>, places: usize, place: usize, moment: u64)
    requires lessers { AreLessers places least.old.items }
    requires within { place < places }
    ensures lessers { AreLessers places least.new.items }
    ensures here { slice_index least.new.items (places + place) ≡ moment }
    ensures others { (p : ℕ) → p ≢ place → slice_index least.new.items (places + p) ≡ slice_index least.old.items (places + p) }
{
    let mut below = places + place;
    least[below] = moment;
    'up: while below > 1 {
        let above = below / 2;
        let lesser = least[2 * above].min(least[2 * above + 1]);
        if least[above] == lesser {
            return;
        }
        least[above] = lesser;
        below = above;
    }
}

impl Moments {
    ghost use Rattle.rtsp_index.specs.Dating.{moment_at};

    /// No place.
    pub(crate) fn new(alloc: Global) -> Self
        ensures { result.places ≡ 0 }
    {
        Moments {
            places: 0,
            least: Vec::new(alloc),
        }
    }

    // So many places, at which nothing was written.
    fn blank(alloc: Global, places: usize) -> Result<Self, AllocError>
        ensures { IfOk result (λ m. m.places ≡ places) }
    {
        let Some(numbers) = places.checked_mul(2) else {
            return Err(AllocError);
        };
        let least = vec![in alloc; u64::MAX; numbers]?;
        Ok(Moments { places, least })
    }

    /// Takes memory for so many places in all.
    pub(crate) fn reserve(&mut self, places: usize) -> Result<(), AllocError>
        ensures wide { self.old.places ≤ self.new.places }
        ensures same { (p : ℕ) → p < self.old.places → moment_at self.new p ≡ moment_at self.old p }
        ensures room { OnOk result (places ≤ self.new.places) }
    {
        if places <= self.places {
            return Ok(());
        }
        let mut wider = Moments::blank(*self.least.allocator(), places)?;
        for place in 0..self.places {
            wider.set(place, self.at(place));
        }
        *self = wider;
        Ok(())
    }

    /// The moment of a place.
    pub(crate) fn at(&self, place: usize) -> u64
        requires { place < self.now.places }
        ensures { result ≡ moment_at self.now place }
    {
        self.least[self.places + place]
    }

    /// Writes the moment of a place.
    pub(crate) fn set(&mut self, place: usize, moment: u64)
        requires { place < self.old.places }
        ensures places { self.new.places ≡ self.old.places }
        ensures here { moment_at self.new place ≡ moment }
        ensures others { (p : ℕ) → p ≢ place → moment_at self.new p ≡ moment_at self.old p }
    {
        write(&mut self.least, self.places, place, moment);
    }

    /// The least of all; the greatest moment where there is no place.
    pub(crate) fn least(&self) -> u64
        ensures below { (p : ℕ) → p < self.now.places → result ≤ moment_at self.now p }
        ensures there { 0 < self.now.places → (p : ℕ) × (p < self.now.places) × (moment_at self.now p ≡ result) }
    {
        if self.places == 0 {
            u64::MAX
        } else {
            self.least[1]
        }
    }
}
