//! Places that are given to other presentations: those of which nobody has anything any more.

use crate::replaced::{Replaced, is_over_in};
use crate::shared::Shared;
use crate::wanted_media::is_watched;
use rtsp_content::Table;
use rtsp_sockets::Content;
use std::alloc::{AllocError, Global};

// How many places there are.
fn count(table: &Table) -> u16 {
    u16::try_from(table.presentations().len()).unwrap_or(u16::MAX)
}

// Whether a place may be given to another presentation. No thread may have a content any more by which a session
// begins there; then none has begun that isn't known, and of those that are known none has streams of it.
fn is_free(shared: &Shared, content: &Content, replaced: &Replaced, place: u16) -> bool {
    is_over_in(content, place)
        && replaced.is_over_at(place)
        && shared.audience.knows_all()
        && !is_watched(shared, place)
}

/// Of each place whether it may be given to another presentation.
pub(crate) fn free_places(
    alloc: Global,
    shared: &Shared,
    content: &Content,
    replaced: &Replaced,
) -> Result<Vec<bool>, AllocError> {
    let mut free = Vec::new(alloc);
    for place in 0..count(&content.table) {
        free.push(is_free(shared, content, replaced, place))?;
    }
    Ok(free)
}

/// How many places are in use: those that can't be given to another presentation.
pub(crate) fn places_in_use(shared: &Shared, content: &Content, replaced: &Replaced) -> u64 {
    let mut places = 0u64;
    for place in 0..count(&content.table) {
        if !is_free(shared, content, replaced, place) {
            places = places.saturating_add(1);
        }
    }
    places
}

// The name of what stands at a place.
fn name_at(table: &Table, place: u16) -> Option<&str> {
    Some(table.presentation(place)?.name())
}

// Another place at which one of this name stands that stood there before.
fn heir(old: &Table, new: &Table, place: u16, name: &str) -> Option<u16> {
    (0..count(old)).find(|other| {
        *other != place
            && new.number(*other) == old.number(*other)
            && name_at(old, *other) == Some(name)
    })
}

/// What was counted at places that are given to presentations of other names is no longer theirs.
pub(crate) fn give_counts(shared: &Shared, old: &Table, new: &Table) {
    for place in 0..count(old) {
        if new.number(place) != old.number(place)
            && let Some(name) = name_at(old, place)
            && name_at(new, place) != Some(name)
        {
            shared.audience.give(place, heir(old, new, place, name));
        }
    }
}
