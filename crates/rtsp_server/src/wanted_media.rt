//! Of which places media are wanted, and at which of them they are others now.

use crate::shared::Shared;
use rtsp_content::Table;
use rtsp_metrics::Transport;
use rtsp_sockets::{ClosedMedia, Content};
use std::alloc::{AllocError, Global};
use std::fs::File;
use std::rt::Files;

// Whether a table offers a presentation of this name.
fn offers(table: &Table, name: &str) -> bool {
    table
        .presentations()
        .iter()
        .any(|presentation| presentation.name() == name)
}

/// Of each place whether its media are others than those at its paths now: those that are open there, or that
/// were closed there. Where it isn't known, they are, so that what comes back gets another place; of what is
/// wanted under no name nobody asks.
pub(crate) fn renewed<R: Files<File = File>>(
    rt: &R,
    alloc: Global,
    content: &Content,
    wanted: &Table,
    closed: &ClosedMedia,
) -> Result<Vec<bool>, AllocError> {
    let Content { table, media, .. } = content;
    let mut renewed = Vec::new(alloc);
    for (place, presentation) in table.presentations().iter().enumerate() {
        let is_renewed = if media.has(place) {
            media.is_renewed(rt, place, presentation)
        } else {
            !(offers(wanted, presentation.name()) && closed.is_back(rt, table, place, presentation))
        };
        renewed.push(is_renewed)?;
    }
    Ok(renewed)
}

/// Of each place whether what stands there is offered no more.
pub(crate) fn withdrawn(alloc: Global, table: &Table) -> Result<Vec<bool>, AllocError> {
    let mut withdrawn = Vec::new(alloc);
    for index in 0..table.presentations().len() {
        let place = u16::try_from(index).unwrap_or(u16::MAX);
        withdrawn.push(table.is_withdrawn(place))?;
    }
    Ok(withdrawn)
}

// How many sessions live that have streams of this place over a transport.
fn sessions_of(shared: &Shared, place: u16, over: Transport) -> u64 {
    match shared.audience.film(place, over) {
        Some(figures) => figures.sessions,
        None => 0,
    }
}

/// Whether a session lives that has streams of this place.
pub(crate) fn is_watched(shared: &Shared, place: u16) -> bool {
    sessions_of(shared, place, Transport::Udp) > 0 || sessions_of(shared, place, Transport::Tcp) > 0
}

/// Of each place whether its media are wanted: where it is offered or watched, or was offered up to now, since
/// a session may just be set up.
pub(crate) fn needed(
    alloc: Global,
    shared: &Shared,
    table: &Table,
    old: Option<&Content>,
) -> Result<Vec<bool>, AllocError> {
    let mut needed = Vec::new(alloc);
    for index in 0..table.presentations().len() {
        let place = u16::try_from(index).unwrap_or(u16::MAX);
        let was_offered = match old {
            Some(old) => old.media.has(index) && !old.table.is_withdrawn(place),
            None => false,
        };
        let is_needed = !table.is_withdrawn(place) || was_offered || is_watched(shared, place);
        needed.push(is_needed)?;
    }
    Ok(needed)
}

/// Whether files are open of what is withdrawn and watched by nobody.
pub(crate) fn is_any_unwatched(shared: &Shared, content: &Content) -> bool {
    let Content { table, media, .. } = content;
    for index in 0..table.presentations().len() {
        let place = u16::try_from(index).unwrap_or(u16::MAX);
        if table.is_withdrawn(place) && media.has(index) && !is_watched(shared, place) {
            return true;
        }
    }
    false
}
