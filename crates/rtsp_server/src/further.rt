//! The figures of presentations, of the process and of the journal's writing, and who plays.

use crate::end_lines::{EndTeller, film_name};
use crate::operating::is_journal_written;
use crate::shared::since;
use crate::shown::Shown;
use rtsp_content::Table;
use rtsp_metrics::{
    Audience, FilmFigures, FilmLine, History, PLAYERS_SHOWN, PlayerLine, ProcessFigures, Transport,
    WritingFigures, film_section, further_text, history_section, player_section,
};
use rtsp_sockets::Content;
use rtsp_status::Further;
use rtsp_threads::{OwnUsage, ScribeBell};
use std::alloc::{AllocError, Global};
use std::rt;
use std::sync::atomic::{AtomicU64, Ordering};
use std::sync::{Arc, Wait};
use std::time::Instant;

// Nothing of a presentation was played.
const NONE: FilmFigures = FilmFigures {
    sessions: 0,
    plays: 0,
    bytes: 0,
};

fn sum(one: FilmFigures, other: FilmFigures) -> FilmFigures {
    FilmFigures {
        sessions: one.sessions.saturating_add(other.sessions),
        plays: one.plays.saturating_add(other.plays),
        bytes: one.bytes.saturating_add(other.bytes),
    }
}

// What was played over a transport of all presentations that have had this name.
fn played(audience: &Audience, table: &Table, name: &str, over: Transport) -> FilmFigures {
    let mut played = NONE;
    for (place, presentation) in table.presentations().iter().enumerate() {
        if presentation.name() == name {
            let place = u16::try_from(place).unwrap_or(u16::MAX);
            played = sum(played, audience.film(place, over).unwrap_or(NONE));
        }
    }
    played
}

// Whether no presentation at a place before this one has its name.
fn is_first(table: &Table, place: usize, name: &str) -> bool {
    !table
        .presentations()
        .iter()
        .take(place)
        .any(|other| other.name() == name)
}

// What was played of each presentation.
fn film_lines<'t>(
    alloc: Global,
    audience: &Audience,
    table: &'t Table,
) -> Result<Vec<FilmLine<'t>>, AllocError> {
    let mut films = Vec::new(alloc);
    for (place, presentation) in table.presentations().iter().enumerate() {
        let name = presentation.name();
        if is_first(table, place, name) {
            films.push(FilmLine {
                name: name.as_bytes(),
                udp: played(audience, table, name, Transport::Udp),
                tcp: played(audience, table, name, Transport::Tcp),
            })?;
        }
    }
    Ok(films)
}

fn process(started: u64, usage: Option<&OwnUsage>) -> Option<ProcessFigures> {
    let usage = usage?.read()?;
    Some(ProcessFigures {
        start_seconds: started / 1_000,
        cpu_ms: usage.cpu_ms,
        resident_bytes: usage.resident_bytes,
    })
}

fn writing<R: Wait + rt::Clock>(
    rt: &R,
    scribe: &Option<ScribeBell>,
    written_at: &AtomicU64,
    begun: Instant,
) -> Option<WritingFigures> {
    scribe.as_ref()?;
    let written_at = written_at.load(Ordering::Relaxed);
    Some(WritingFigures {
        is_written: is_journal_written(rt, scribe),
        behind_ms: since(rt, begun).saturating_sub(written_at),
    })
}

/// How many bytes of RTP packets were sent, of all presentations.
pub(crate) fn bytes_sent(audience: &Audience) -> u64 {
    let mut bytes = audience.bytes_of_others();
    for place in 0..u16::MAX {
        let udp = audience.film(place, Transport::Udp);
        let tcp = audience.film(place, Transport::Tcp);
        let (Some(udp), Some(tcp)) = (udp, tcp) else {
            break;
        };
        bytes = bytes.saturating_add(sum(udp, tcp).bytes);
    }
    bytes
}

// The players of the least numbers, as many as are shown.
fn players<R: Wait + rt::Clock>(
    rt: &R,
    alloc: Global,
    audience: &Audience,
    content: &Arc<Content>,
    now: u64,
) -> Result<Vec<u8>, AllocError> {
    let mut players = Vec::new(alloc);
    let mut from = 0u64;
    for _ in 0..PLAYERS_SHOWN {
        let Some(viewer) = audience.next(rt, from) else {
            break;
        };
        players.push(PlayerLine {
            viewer,
            film: film_name(Some(content), viewer.viewing.film),
        })?;
        from = viewer.viewing.session.saturating_add(1);
    }
    player_section(alloc, &players, now)
}

/// What is shown beside the snapshot of a server.
pub(crate) fn further<R: Wait + rt::Clock>(
    rt: &R,
    alloc: Global,
    shown: Shown<'_>,
    usage: Option<&OwnUsage>,
    history: &History,
) -> Result<Further, AllocError> {
    let EndTeller {
        audience,
        contents,
        begun,
        ..
    } = shown.teller;
    let Some(content) = contents.current(rt) else {
        return Err(AllocError);
    };
    let films = film_lines(alloc, audience, &content.table)?;
    let figures = shown.content_counts.read();
    let process = process(shown.started, usage);
    let writing = writing(rt, shown.scribe, shown.written_at, begun);
    let mut section = history_section(alloc, history)?;
    section.extend_from_slice(&film_section(alloc, &figures, &films)?)?;
    let now = since(rt, begun);
    section.extend_from_slice(&players(rt, alloc, audience, &content, now)?)?;
    Ok(Further {
        lines: further_text(alloc, process, writing, &figures, &films)?,
        section,
    })
}
