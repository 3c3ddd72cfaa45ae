//! A table that is made longer by another configuration: each place keeps what stands there, unless it is
//! free, and what isn't listed any more is withdrawn.

ghost use Rattle.std.specs.Prelude.{◌≡◌, ◌<◌, ◌≤◌, ◌⊎◌, length, IfOk, IfNone, true};
ghost use Rattle.rtsp_content.specs.Growing.{
  Extends,
  GivesOnly,
  GoesOn,
  GoesOnAt,
  IsBehind,
  IsFixed,
  OffersAlike,
  OffersWhat,
  is_free,
  table_with,
};
ghost use Rattle.rtsp_content.specs.Numbers.{number_at};
ghost use Rattle.rtsp_content.specs.PresentationValue.{presentation_names};
ghost use Rattle.rtsp_content.specs.Withdrawn.{is_withdrawn, AreOfferedDistinct};

use crate::fault::TableFault;
use crate::limits::MAX_PLACES;
use crate::numbers::{newest, number_at};
use crate::presentation::Presentation;
use crate::same::is_same;
use crate::server::Server;
use crate::standing::{Standing, is_gone};
use crate::table::Table;
use std::alloc::{AllocError, Global};

// Whether a presentation is offered that is the same as this one.
fn is_offered(table: &Table, presentation: &Presentation) -> bool {
    for place in 0..table.presentations.len() {
        if !is_gone(table.withdrawn.as_slice(), place)
            && is_same(&table.presentations[place], presentation)
        {
            return true;
        }
    }
    false
}

// Whether a place may be given to another presentation: it is free, and what stands there is offered no more, and
// doesn't come back either.
fn is_givable(table: &Table, wanted: &Table, renewed: &[bool], free: &[bool], place: usize) -> bool
    ensures { result ≡ true → (is_free free.now place ≡ true) × (is_withdrawn table.now.withdrawn place ≡ true) }
{
    if !is_gone(free, place) || !is_gone(table.withdrawn.as_slice(), place) {
        return false;
    }
    match table.presentations.get(place) {
        Some(presentation) => is_gone(renewed, place) || !is_offered(wanted, presentation),
        None => false,
    }
}

// Of each place whether it may be given to another presentation.
fn givable(
    alloc: Global,
    table: &Table,
    wanted: &Table,
    renewed: &[bool],
    free: &[bool],
) -> Result<Vec<bool>, AllocError>
    ensures { IfOk result (λ v. (place : _) → is_free v.items place ≡ true
        → (is_free free.now place ≡ true) × (is_withdrawn table.now.withdrawn place ≡ true)) }
{
    let mut givable = Vec::new(alloc);
    for place in 0..table.presentations.len() {
        givable.push(is_givable(table, wanted, renewed, free, place))?;
    }
    Ok(givable)
}

// What stands at the places of a table that goes on from this one, and which of it is offered no more.
fn grown(
    alloc: Global,
    old: &Table,
    wanted: &Table,
    renewed: &[bool],
    free: &[bool],
) -> Result<Standing, TableFault>
    ensures extends { IfOk result (λ s. (server : Server) → IsFixed old.now.server server → Extends old.now (table_with server s)) }
    ensures gives { IfOk result (λ s. GivesOnly old.now free.now (table_with old.now.server s)) }
    ensures offers { IfOk result (λ s. OffersWhat wanted.now s.presentations.items s.withdrawn.items) }
    ensures distinct { IfOk result (λ s. AreOfferedDistinct s.withdrawn.items (presentation_names s.presentations.items)) }
{
    let free = givable(alloc, old, wanted, renewed, free)?;
    let behind = newest(old.numbers.as_slice());
    let Some(given) = behind.checked_add(1) else {
        return Err(TableFault::TooMany);
    };
    let mut standing = Standing::of(alloc, &old.presentations, old.numbers.as_slice())?;
    for place in 0..wanted.presentations.len() {
        if !is_gone(wanted.withdrawn.as_slice(), place) {
            let presentation = &wanted.presentations[place];
            standing.offer(presentation, renewed, free.as_slice(), given, behind)?;
        }
    }
    Ok(standing)
}

// The key of those that stay as long as a server runs which is another in the new numbers, if one is.
fn changed_key(old: &Server, new: &Server) -> Option<&'static str>
    ensures { IfNone result (IsFixed old.now new.now) }
{
    if new.first_port != old.first_port {
        Some("first_port")
    } else if new.pairs != old.pairs {
        Some("pairs")
    } else if new.uplink != old.uplink {
        Some("uplink")
    } else if new.sessions != old.sessions {
        Some("sessions")
    } else if new.journal != old.journal {
        Some("journal")
    } else if new.workers != old.workers {
        Some("workers")
    } else {
        None
    }
}

// Whether a table has at a place what the old one has there, or the place was given to another: its number is
// greater than this one.
fn goes_on_at(all: &Table, old: &Table, newest: u64, place: usize) -> bool
    requires old { place < length old.now.presentations }
    requires all { place < length all.now.presentations }
    ensures { result ≡ true → GoesOnAt old.now newest all.now place }
{
    let number = number_at(all.numbers.as_slice(), place);
    if number != number_at(old.numbers.as_slice(), place) {
        return number > newest;
    }
    is_same(&old.presentations[place], &all.presentations[place])
}

// Whether a table goes on at each place of the old one.
fn goes_on(all: &Table, old: &Table, newest: u64) -> bool
    ensures { result ≡ true → GoesOn old.now newest all.now }
{
    if all.presentations.len() < old.presentations.len() {
        return false;
    }
    for place in 0..old.presentations.len() {
        if !goes_on_at(all, old, newest, place) {
            return false;
        }
    }
    true
}

// Whether no place behind those of the old table has a lesser number than this one.
fn is_behind(all: &Table, old: &Table, newest: u64) -> bool
    ensures { result ≡ true → IsBehind old.now newest all.now }
{
    for place in old.presentations.len()..all.presentations.len() {
        if number_at(all.numbers.as_slice(), place) < newest {
            return false;
        }
    }
    true
}

impl Table {
    /// The key of `[server]` that may not change while a server runs, and is another in this configuration,
    /// if one is.
    pub fn changed_key(&self, wanted: &Table) -> Option<&'static str>
        ensures { IfNone result (IsFixed self.now.server wanted.now.server) }
    {
        changed_key(&self.server, &wanted.server)
    }

    /// Whether it has at each place what the old table has there, but for those that were given to others since,
    /// and the numbers that stay.
    pub fn is_longer(&self, old: &Table) -> bool
        ensures { result ≡ true → Extends old.now self.now }
    {
        let newest = newest(old.numbers.as_slice());
        changed_key(&old.server, &self.server).is_none()
            && goes_on(self, old, newest)
            && is_behind(self, old, newest)
    }

    /// This table as it goes on by another configuration: with its numbers, and offering what it offers. What
    /// is offered there and stands here as it is keeps its place, unless its media are said to be others
    /// now; the rest gets places that are said to be free, where nothing is offered, and then places behind those
    /// here. `Fixed` where a number is another that stays, and `TooMany` where there are no places.
    pub fn longer(
        &self,
        alloc: Global,
        wanted: &Table,
        renewed: &[bool],
        free: &[bool],
    ) -> Result<Table, TableFault>
        ensures extends { IfOk result (Extends self.now) }
        ensures gives { IfOk result (GivesOnly self.now free.now) }
        ensures offers { IfOk result (OffersAlike wanted.now) }
        ensures server { IfOk result (λ t. t.server ≡ wanted.now.server) }
    {
        if changed_key(&self.server, &wanted.server).is_some() {
            return Err(TableFault::Fixed);
        }
        let Standing {
            presentations,
            withdrawn,
            numbers,
        } = grown(alloc, self, wanted, renewed, free)?;
        if presentations.len() > MAX_PLACES {
            return Err(TableFault::TooMany);
        }
        Ok(Table {
            server: wanted.server,
            presentations,
            withdrawn,
            numbers,
        })
    }
}
