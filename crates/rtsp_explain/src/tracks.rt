//! What tracks take of the uplink, and what sessions may want of the journal.

use crate::findings::Explainer;
use crate::keys::{presentation_keys, server_keys, track_keys};
use crate::lines::Place;
use crate::numbers::grouped;
use std::alloc::{AllocError, Global};
use toml::Table;

// What the RTP, UDP and IPv4 headers of a packet take, which are counted into a stream's rate.
const HEADER_OCTETS: i64 = 40;

// The bits per second of a stream's sender reports, which it has where units have several packets.
const REPORT_RATE: i64 = 576;

// The bits per second of a stream of units of so many octets in so many packets, one each `unit_ms`
// milliseconds, without its reports.
fn rate_of_packets(unit_ms: i64, octets: i64, packets: i64) -> Option<i64> {
    let bytes = octets.saturating_add(packets.saturating_mul(HEADER_OCTETS));
    let bits = bytes.saturating_mul(8000);
    bits.saturating_add(unit_ms.saturating_sub(1))
        .checked_div(unit_ms)
}

// In how many packets the units of a track are, where that is right, and the bits per second of its
// reports.
fn packets_of(explainer: &Explainer<'_>, track: &Table) -> Result<(Option<i64>, i64), AllocError> {
    match track.get("packets") {
        None => Ok((Some(1), 0)),
        Some(_) => Ok((
            explainer.right_number(track_keys(), track, "packets")?,
            REPORT_RATE,
        )),
    }
}

// The bits per second of a track, where what it goes by is right.
fn rate_of(
    explainer: &Explainer<'_>,
    presentation: &Table,
    track: &Table,
) -> Result<Option<i64>, AllocError> {
    let Some(unit_ms) = explainer.right_number(presentation_keys(), presentation, "unit_ms")? else {
        return Ok(None);
    };
    let Some(octets) = explainer.right_number(track_keys(), track, "octets")? else {
        return Ok(None);
    };
    let (packets, reports) = packets_of(explainer, track)?;
    let Some(packets) = packets else {
        return Ok(None);
    };
    let rate = rate_of_packets(unit_ms, octets, packets);
    Ok(rate.map(|rate| rate.saturating_add(reports)))
}

/// Notes a track that takes more than the uplink has.
pub(crate) fn explain_rate(
    explainer: &mut Explainer<'_>,
    server: &Table,
    presentation: &Table,
    track: &Table,
    place: Place,
) -> Result<(), AllocError> {
    let Some(rate) = rate_of(explainer, presentation, track)? else {
        return Ok(());
    };
    let Some(uplink) = explainer.right_number(server_keys(), server, "uplink")? else {
        return Ok(());
    };
    if rate <= uplink {
        return Ok(());
    }
    let rate = grouped(explainer.alloc, rate)?;
    let why = format!(in explainer.alloc;
        "takes {rate} bits per second, more than the uplink: each SETUP of it is refused 453"
    )?;
    explainer.note(place, "", why.as_str())
}

// The sessions, the entries of the journal and the workers.
#[derive(Clone, Copy)]
struct Crowd {
    sessions: i64,
    journal: i64,
    workers: i64,
}

// What is right of these.
fn crowd_of(explainer: &Explainer<'_>, server: &Table) -> Result<Option<Crowd>, AllocError> {
    let found = explainer.right_numbers(server_keys(), server, "sessions", "journal")?;
    let Some((sessions, journal)) = found else {
        return Ok(None);
    };
    let workers = explainer.right_number(server_keys(), server, "workers")?;
    Ok(workers.map(|workers| Crowd {
        sessions,
        journal,
        workers,
    }))
}

// How many entries its sessions may want, each of so many tracks.
fn wanted_by(crowd: Crowd, tracks: i64) -> i64 {
    let each = tracks.saturating_mul(9).saturating_add(11);
    let lanes = crowd.workers.saturating_add(1).saturating_mul(1000);
    crowd.sessions.saturating_mul(each).saturating_add(lanes)
}

fn short_journal(
    alloc: Global,
    crowd: Crowd,
    tracks: i64,
    least: i64,
) -> Result<String, AllocError> {
    let s = if tracks > 1 { "s" } else { "" };
    let workers = crowd.workers;
    let many = grouped(alloc, crowd.sessions)?;
    let (is, wants) = (grouped(alloc, crowd.journal)?, grouped(alloc, least)?);
    Ok(format!(in alloc;
        "is {is}; `serve` with sessions = {many}, {tracks} track{s} each and workers = {workers} \
        wants {wants}, else players may be refused 503 for what others do"
    )?)
}

/// Notes a journal that has no room for all that these sessions may do between two checkpoints.
pub(crate) fn explain_journal(
    explainer: &mut Explainer<'_>,
    server: &Table,
    tracks: usize,
) -> Result<(), AllocError> {
    let Some(crowd) = crowd_of(explainer, server)? else {
        return Ok(());
    };
    let tracks = i64::try_from(tracks).unwrap_or(0);
    let least = wanted_by(crowd, tracks);
    if least <= crowd.journal {
        return Ok(());
    }
    let why = short_journal(explainer.alloc, crowd, tracks, least)?;
    explainer.note(Place::Server, "journal", why.as_str())
}
