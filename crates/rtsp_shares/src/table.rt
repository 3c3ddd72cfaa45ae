//! The places that addresses have taken.

ghost use Rattle.std.specs.Prelude.{◌≡◌, ◌++◌, ◌∷◌, ◌<◌, ◌≤◌, ◌↔◌, [], length, IsTrue, IfOk, IfErr, OnOk, OnErr, IfSome, IfNone, slice_get, Some, None};
ghost use Rattle.std.specs.Bool.{OnTrue, OnFalse};
ghost use Rattle.rtsp_shares.specs.declared.place.Place.{Place};
ghost use Rattle.rtsp_shares.specs.Places.{places_of, held, HasHeld, HasRoom, Lacks, SameLimits, Exchanges, with_share};
ghost use Rattle.rtsp_shares.specs.Keeping.{kept, HasKept, IsKeptAt, GivesBackKept, Stands, IsOf, NoneKept, IsLastBelow, IsFound, IsSearch};

use crate::kept_place::{EndedPlace, KeptPlace};
use crate::no_place::NoPlace;
use crate::place::Place;
use crate::search::{LOOKS, Search};
use std::alloc::{AllocError, Global};
use std::marker::Model;

/// The places that addresses have taken. An address takes one where it has fewer than its share, as that is
/// then. All memory is taken at the beginning.
#[derive(Drop)]
pub struct ShareTable {
    share: usize,
    // The greatest share so far.
    widest: usize,
    most: usize,
    taken: Vec<Place>,
    // Where the next search begins.
    next: usize,
}

impl Model for ShareTable {
    ghost use Rattle.std.specs.Prelude.{◌≡◌};
    ghost use Rattle.std.specs.Vec.{vec_capacity};
    ghost use Rattle.rtsp_shares.specs.Places.{Places, ArePlacesWithin};

    ghost Value = { Places };

    ghost view = { λ s. record { share = s.share; widest = s.widest; most = s.most; taken = s.taken.items } };

    ghost invariant = { λ s. ArePlacesWithin (record { share = s.share; widest = s.widest; most = s.most; taken = s.taken.items })
        × (vec_capacity s.taken ≡ s.most) };
}

// How many of these places are of an address.
fn places_of(places: &[Place], address: u32) -> usize
    ensures { result ≡ places_of address places.now }
{
    let mut count = 0;
    for place in places {
        if place.address == address {
            count += 1;
        }
    }
    count
}

// The index of a place that an address holds: of several, the last one in the table.
fn held_at(places: &[Place], address: u32) -> Option<usize>
    ensures there { IfSome result (λ at. slice_get places.now at ≡ Some (held address)) }
    ensures none { IfNone result (HasHeld address places.now → ⊥) }
{
    let mut at = places.len();
    while at > 0 {
        at -= 1;
        if places[at].address == address && places[at].number.is_none() {
            return Some(at);
        }
    }
    None
}

// The index of a place that is kept for a number: of several, the last one in the table.
fn kept_at(places: &[Place], number: u64) -> Option<usize>
    ensures there { IfSome result (IsKeptAt number places.now) }
    ensures none { IfNone result (HasKept number places.now → ⊥) }
{
    let mut at = places.len();
    while at > 0 {
        at -= 1;
        if places[at].number == Some(number) {
            return Some(at);
        }
    }
    None
}

// Whether a place is of this address, or of any where none is named.
fn is_of(whose: Option<u32>, address: u32) -> bool
    ensures { IsTrue result ↔ IsOf whose address }
{
    match whose {
        Some(named) => address == named,
        None => true,
    }
}

// The last place below an index that is kept, of those of an address, or of any where none is named.
fn kept_below(places: &[Place], whose: Option<u32>, below: usize) -> Option<KeptPlace>
    ensures there { IfSome result (λ found. IsLastBelow whose below places.now found) }
    ensures none { IfNone result (NoneKept whose 0 below places.now) }
{
    let mut at = below.min(places.len());
    while at > 0 {
        at -= 1;
        let Place { address, number } = places[at];
        if let Some(number) = number
            && is_of(whose, address)
        {
            return Some(KeptPlace {
                at,
                address,
                number,
            });
        }
    }
    None
}

// Whether a place stands still where it stood.
fn stands(places: &[Place], kept: KeptPlace) -> bool
    ensures { IsTrue result ↔ Stands kept places.now }
{
    match places.get(kept.at) {
        Some(place) => place.address == kept.address && place.number == Some(kept.number),
        None => false,
    }
}

impl ShareTable {
    /// No place is taken, of at most so many of one address, and so many in all.
    pub fn new(alloc: Global, share: usize, most: usize) -> Result<ShareTable, AllocError>
        ensures { IfOk result (λ s. s ≡ record { share = share; widest = share; most = most; taken = [] }) }
    {
        Ok(ShareTable {
            share,
            widest: share,
            most,
            taken: Vec::with_capacity(alloc, most)?,
            next: 0,
        })
    }

    /// How many places are taken.
    pub fn len(&self) -> usize
        ensures { result ≡ length self.now.taken }
    {
        self.taken.len()
    }

    /// How many places one address may have by now.
    pub fn share(&self) -> usize
        ensures { result ≡ self.now.share }
    {
        self.share
    }

    /// One address may have so many places from now on. What is taken stays taken, also where that is more.
    pub fn set_share(&mut self, share: usize)
        ensures { self.new ≡ with_share share self.old }
    {
        self.share = share;
        self.widest = self.widest.max(share);
    }

    // Whether an address has its share. Its places aren't counted where all together are fewer.
    fn has_share(&self, address: u32) -> bool
        ensures { IsTrue result ↔ (self.now.share ≤ places_of address self.now.taken) }
    {
        self.share <= self.taken.len() && self.share <= places_of(&self.taken, address)
    }

    // Why an address gets no place, if it gets none.
    fn lacks(&self, address: u32) -> Option<NoPlace>
        ensures lacks { IfSome result (Lacks address self.now) }
        ensures room { IfNone result (HasRoom address self.now) }
    {
        if self.has_share(address) {
            Some(NoPlace::Share)
        } else if self.taken.len() >= self.most {
            Some(NoPlace::Full)
        } else {
            None
        }
    }

    /// An address takes a place, and whoever took it holds it. It is refused where as many of its places
    /// as its share are in use, or else where all that there are for addresses are. Each place that is
    /// taken has to be given back, or kept for what it was taken for.
    pub fn take(&mut self, address: u32) -> Result<(), NoPlace>
        ensures room { OnOk result (HasRoom address self.old) }
        ensures taken { OnOk result (self.new ≡ record self.old { taken = self.old.taken ++ held address ∷ [] }) }
        ensures refused { OnErr result (self.new ≡ self.old) }
        ensures in_use { IfErr result (Lacks address self.old) }
    {
        if let Some(why) = self.lacks(address) {
            return Err(why);
        }
        self.taken.push_reserved(Place {
            address,
            number: None,
        });
        Ok(())
    }

    // Drops the place at an index, where the last one comes to stand.
    fn drop_at(&mut self, at: usize)
        requires { at < length self.old.taken }
        ensures limits { SameLimits self.old self.new }
        ensures dropped { (gone : _) → slice_get self.old.taken at ≡ Some gone → Exchanges self.old.taken self.new.taken (gone ∷ []) [] }
    {
        self.taken.swap_remove(at);
    }

    // Puts a place of the same address in place of another.
    fn put_at(&mut self, at: usize, place: Place)
        requires inside { at < length self.old.taken }
        requires same { (old : _) → slice_get self.old.taken at ≡ Some old → old.address ≡ place.address }
        ensures limits { SameLimits self.old self.new }
        ensures put { (gone : _) → slice_get self.old.taken at ≡ Some gone → Exchanges self.old.taken self.new.taken (gone ∷ []) (place ∷ []) }
    {
        self.taken[at] = place;
    }

    /// Whoever holds a place of this address gives it back.
    pub fn give_back(&mut self, address: u32)
        ensures limits { SameLimits self.old self.new }
        ensures given { HasHeld address self.old.taken → Exchanges self.old.taken self.new.taken (held address ∷ []) [] }
        ensures none { (HasHeld address self.old.taken → ⊥) → self.new ≡ self.old }
    {
        if let Some(at) = held_at(&self.taken, address) {
            self.drop_at(at);
        }
    }

    /// A place of this address that is held is kept for what has this number, as long as that lives.
    pub fn keep(&mut self, address: u32, number: u64)
        ensures limits { SameLimits self.old self.new }
        ensures kept { HasHeld address self.old.taken → Exchanges self.old.taken self.new.taken (held address ∷ []) (kept address number ∷ []) }
        ensures none { (HasHeld address self.old.taken → ⊥) → self.new ≡ self.old }
    {
        if let Some(at) = held_at(&self.taken, address) {
            self.put_at(
                at,
                Place {
                    address,
                    number: Some(number),
                },
            );
        }
    }

    /// What has this number has ended: the place that is kept for it is given back. Whether one was kept.
    pub fn end(&mut self, number: u64) -> bool
        ensures kept { IsTrue result ↔ HasKept number self.old.taken }
        ensures given { OnTrue result (GivesBackKept number self.old self.new) }
        ensures none { OnFalse result (self.new ≡ self.old) }
    {
        let Some(ended) = kept_at(&self.taken, number) else {
            return false;
        };
        self.drop_at(ended);
        true
    }

    /// Whose places are to be asked about, so that an address may have one more: its own where its share
    /// is spent, `LOOKS` of them at most, or else those of all.
    pub fn search(&self, address: u32) -> Search
        ensures { IsSearch self.now address result }
    {
        let count = places_of(&self.taken, address);
        if count < self.share {
            Search {
                whose: None,
                looks: self.most,
                below: self.next,
            }
        } else {
            Search {
                whose: Some(address),
                looks: count.min(LOOKS),
                below: self.next,
            }
        }
    }

    /// The place that a search asks about next: each of those that it is of in turn, as they stand in the
    /// table. The next search goes on from there. `None` where none of them is kept.
    pub fn next_kept(&mut self, search: &mut Search) -> Option<KeptPlace>
        ensures same { self.new ≡ self.old }
        ensures whose { search.new.whose ≡ search.old.whose }
        ensures on { IfSome result (λ found. search.new.below ≡ found.at) }
        ensures there { IfSome result (IsFound search.old.whose self.old.taken) }
        ensures none { IfNone result (NoneKept search.old.whose 0 (length self.old.taken) self.old.taken) }
    {
        let whose = search.whose;
        let found = match kept_below(&self.taken, whose, search.below) {
            Some(found) => found,
            None => kept_below(&self.taken, whose, self.taken.len())?,
        };
        search.below = found.at;
        self.next = found.at;
        Some(found)
    }

    /// The last place that is kept of those that stand below an index. A place only ever moves to a lower
    /// one, so whoever looks from above and on below each that is found misses none that was there.
    pub fn kept_below(&self, below: usize) -> Option<KeptPlace>
        ensures there { IfSome result (λ found. IsLastBelow None below self.now.taken found) }
        ensures none { IfNone result (NoneKept None 0 below self.now.taken) }
    {
        kept_below(&self.taken, None, below)
    }

    /// Gives back a place that is kept for what has ended. Where it doesn't stand there any more, nothing
    /// changes: it has moved, or was given back by another.
    pub fn give_back_ended(&mut self, ended: EndedPlace)
        ensures limits { SameLimits self.old self.new }
        ensures given { Stands ended.kept self.old.taken → Exchanges self.old.taken self.new.taken (kept ended.kept.address ended.kept.number ∷ []) [] }
        ensures none { (Stands ended.kept self.old.taken → ⊥) → self.new ≡ self.old }
    {
        if stands(&self.taken, ended.kept) {
            self.drop_at(ended.kept.at);
        }
    }
}
