//! What stands at places while a table is made longer.

ghost use Rattle.std.specs.Prelude.{◌≡◌, ◌<◌, ◌≤◌, ◌++◌, ◌∷◌, [], length, IfOk, IfSome, OnOk, true, false, slice_set};
ghost use Rattle.rtsp_content.specs.Growing.{AreEven, Offers, StandsIn, is_free, places_in};
ghost use Rattle.rtsp_content.specs.Numbers.{number_at};
ghost use Rattle.rtsp_content.specs.PresentationValue.{presentation_names};
ghost use Rattle.rtsp_content.specs.Withdrawn.{is_withdrawn};

use crate::fault::TableFault;
use crate::numbers::number_at;
use crate::presentation::Presentation;
use crate::same::is_same;
use std::alloc::{AllocError, Global};

// Presentations by their places, which of them are offered no more, and the numbers of the places.
#[derive(Drop)]
pub(crate) struct Standing {
    pub(crate) presentations: Vec<Presentation>,
    pub(crate) withdrawn: Vec<bool>,
    pub(crate) numbers: Vec<u64>,
}

// Copies of these, in their order.
fn copies(alloc: Global, presentations: &Vec<Presentation>) -> Result<Vec<Presentation>, AllocError>
    ensures { IfOk result (λ v. v.items ≡ presentations.now.items) }
{
    let mut copies = Vec::new(alloc);
    for place in 0..presentations.len() {
        copies.push(presentations[place].copied()?)?;
    }
    Ok(copies)
}

// The numbers of so many places.
fn numbers_of(alloc: Global, numbers: &[u64], places: usize) -> Result<Vec<u64>, AllocError>
    ensures length { IfOk result (λ v. length v.items ≡ places) }
    ensures same { IfOk result (λ v. (place : _) → place < places → number_at v.items place ≡ number_at numbers.now place) }
{
    let mut all = Vec::new(alloc);
    for place in 0..places {
        all.push(number_at(numbers, place))?;
    }
    Ok(all)
}

// Whether what stands at a place is offered no more.
pub(crate) fn is_gone(withdrawn: &[bool], place: usize) -> bool
    ensures { result ≡ is_withdrawn withdrawn.now place }
{
    match withdrawn.get(place) {
        Some(gone) => *gone,
        None => false,
    }
}

// The first place of a presentation that is the same, but for those of which the media are others now.
pub(crate) fn place_of(
    presentations: &[Presentation],
    wanted: &Presentation,
    renewed: &[bool],
) -> Option<usize>
    ensures { IfSome result (λ place. StandsIn presentations.now wanted.now place) }
{
    for place in 0..presentations.len() {
        let is_renewed = matches!(renewed.get(place), Some(true));
        if !is_renewed && is_same(&presentations[place], wanted) {
            return Some(place);
        }
    }
    None
}

// The first place that is free, of those at which nothing is offered.
fn free_place(withdrawn: &[bool], free: &[bool]) -> Option<usize>
    ensures within { IfSome result (λ place. place < length withdrawn.now) }
    ensures gone { IfSome result (λ place. is_withdrawn withdrawn.now place ≡ true) }
    ensures free { IfSome result (λ place. is_free free.now place ≡ true) }
{
    for place in 0..withdrawn.len() {
        if is_gone(withdrawn, place) && is_gone(free, place) {
            return Some(place);
        }
    }
    None
}

// Offers what stands at a place.
fn offer_there(withdrawn: &mut Vec<bool>, place: usize)
    requires { place < length withdrawn.old.items }
    ensures { withdrawn.new.items ≡ slice_set withdrawn.old.items place false }
{
    withdrawn[place] = false;
}

// Puts a presentation at a place.
fn put_at(presentations: &mut Vec<Presentation>, place: usize, presentation: Presentation)
    requires { place < length presentations.old.items }
    ensures { presentations.new.items ≡ slice_set presentations.old.items place presentation }
{
    presentations[place] = presentation;
}

// Numbers a place.
fn set_number(numbers: &mut Vec<u64>, place: usize, number: u64)
    requires { place < length numbers.old.items }
    ensures { numbers.new.items ≡ slice_set numbers.old.items place number }
{
    numbers[place] = number;
}

impl Standing {
    // What stands at these places, and is offered no more.
    pub(crate) fn of(
        alloc: Global,
        presentations: &Vec<Presentation>,
        numbers: &[u64],
    ) -> Result<Standing, AllocError>
        ensures presentations { IfOk result (λ s. s.presentations.items ≡ presentations.now.items) }
        ensures even { IfOk result (λ s. AreEven (places_in s)) }
        ensures gone { IfOk result (λ s. (place : _) → place < length presentations.now.items → is_withdrawn s.withdrawn.items place ≡ true) }
        ensures numbers { IfOk result (λ s. (place : _) → place < length presentations.now.items → number_at s.numbers.items place ≡ number_at numbers.now place) }
    {
        let places = presentations.len();
        Ok(Standing {
            presentations: copies(alloc, presentations)?,
            withdrawn: Vec::from_elem(alloc, true, places)?,
            numbers: numbers_of(alloc, numbers, places)?,
        })
    }
    // Gives a place to a presentation, and offers it there.
    fn give(&mut self, place: usize, wanted: &Presentation, number: u64) -> Result<(), TableFault>
        requires even { AreEven (places_in self.old) }
        requires within { place < length self.old.withdrawn.items }
        ensures stands { OnOk result (self.new.presentations.items ≡ slice_set self.old.presentations.items place wanted.now) }
        ensures offered { OnOk result (self.new.withdrawn.items ≡ slice_set self.old.withdrawn.items place false) }
        ensures number { OnOk result (self.new.numbers.items ≡ slice_set self.old.numbers.items place number) }
    {
        let copy = wanted.copied()?;
        put_at(&mut self.presentations, place, copy);
        offer_there(&mut self.withdrawn, place);
        set_number(&mut self.numbers, place, number);
        Ok(())
    }

    // Offers a presentation behind all others.
    fn offer_behind(&mut self, wanted: &Presentation, number: u64) -> Result<(), TableFault>
        ensures stands { OnOk result (self.new.presentations.items ≡ self.old.presentations.items ++ wanted.now ∷ []) }
        ensures offered { OnOk result (self.new.withdrawn.items ≡ self.old.withdrawn.items ++ false ∷ []) }
        ensures number { OnOk result (self.new.numbers.items ≡ self.old.numbers.items ++ number ∷ []) }
    {
        self.presentations.push(wanted.copied()?)?;
        self.withdrawn.push(false)?;
        self.numbers.push(number)?;
        Ok(())
    }

    // Offers a presentation: at the place where it stands, at one that is given to it, or behind all others.
    pub(crate) fn offer(
        &mut self,
        wanted: &Presentation,
        renewed: &[bool],
        free: &[bool],
        given: u64,
        behind: u64,
    ) -> Result<(), TableFault>
        requires { AreEven (places_in self.old) }
        ensures { OnOk result (Offers (record { free = free.now; number = given; behind = behind }) (places_in self.old) wanted.now (places_in self.new)) }
    {
        if let Some(place) = place_of(self.presentations.as_slice(), wanted, renewed) {
            offer_there(&mut self.withdrawn, place);
            return Ok(());
        }
        match free_place(self.withdrawn.as_slice(), free) {
            Some(place) => self.give(place, wanted, given),
            None => self.offer_behind(wanted, behind),
        }
    }
}
