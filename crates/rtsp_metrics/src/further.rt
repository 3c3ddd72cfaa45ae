//! The figures of presentations, of the process and of the journal's writing, as text: lines that stand
//! behind those of `Snapshot`. After a refusal a part of the text may be at the end.

use crate::families::{Figure, write_family};
use crate::films::{FilmFigures, Transport};
use itoa::Buffer;
use rtsp_text::append_all;
use std::alloc::{AllocError, Global};

/// What the system says of the process.
#[derive(Clone, Copy, PartialEq, Eq)]
pub struct ProcessFigures {
    /// When the server began, in seconds since 1970.
    pub start_seconds: u64,
    /// How long its threads have run, in milliseconds.
    pub cpu_ms: u64,
    pub resident_bytes: u64,
}

/// How the journal is written to files.
#[derive(Clone, Copy, PartialEq, Eq)]
pub struct WritingFigures {
    /// Whether the last turn wrote all that there was, and no write is held up.
    pub is_written: bool,
    /// How many milliseconds ago that was seen to be so.
    pub behind_ms: u64,
}

/// What is served now.
#[derive(Clone, Copy, PartialEq, Eq)]
pub struct ContentFigures {
    /// How often the configuration was taken up since the start.
    pub number: u64,
    /// How many seconds after the start that was last.
    pub taken: u64,
    /// How many presentations are offered.
    pub presentations: u64,
    /// How many places presentations have, those that are withdrawn, too.
    pub places: u64,
    /// How often the configuration's file wasn't taken up.
    pub refusals: u64,
}

/// A presentation, and what was played of it.
#[derive(Clone, Copy)]
pub struct FilmLine<'a> {
    /// Its name, which needs no escape.
    pub name: &'a [u8],
    pub udp: FilmFigures,
    pub tcp: FilmFigures,
}

fn write_process(out: &mut Vec<u8>, of: &ProcessFigures) -> Result<(), AllocError> {
    let seconds = Some(&b"seconds"[..]);
    write_family(
        out,
        b"process_start_time_seconds",
        b"gauge",
        seconds,
        b"When the server began, since 1970.",
        &[Figure::Count(b"", of.start_seconds)],
    )?;
    write_family(
        out,
        b"process_cpu_seconds",
        b"counter",
        seconds,
        b"How long its threads have run.",
        &[Figure::Seconds(b"_total", of.cpu_ms)],
    )?;
    write_family(
        out,
        b"process_resident_memory_bytes",
        b"gauge",
        Some(b"bytes"),
        b"Memory that it has.",
        &[Figure::Count(b"", of.resident_bytes)],
    )
}

fn write_writing(out: &mut Vec<u8>, of: &WritingFigures) -> Result<(), AllocError> {
    write_family(
        out,
        b"rtspd_journal_is_written",
        b"gauge",
        None,
        b"Whether the journal's file takes what there is: 1 or 0.",
        &[Figure::Count(b"", u64::from(of.is_written))],
    )?;
    write_family(
        out,
        b"rtspd_journal_behind_seconds",
        b"gauge",
        Some(b"seconds"),
        b"How long ago it was seen to.",
        &[Figure::Seconds(b"", of.behind_ms)],
    )
}

fn write_content(out: &mut Vec<u8>, of: &ContentFigures) -> Result<(), AllocError> {
    write_family(
        out,
        b"rtspd_content_number",
        b"gauge",
        None,
        b"How often the configuration was taken up since the start.",
        &[Figure::Count(b"", of.number)],
    )?;
    write_family(
        out,
        b"rtspd_presentations",
        b"gauge",
        None,
        b"Presentations that are offered.",
        &[Figure::Count(b"", of.presentations)],
    )?;
    write_family(
        out,
        b"rtspd_places",
        b"gauge",
        None,
        b"Places of presentations that are in use.",
        &[Figure::Count(b"", of.places)],
    )?;
    write_family(
        out,
        b"rtspd_content_refusals",
        b"counter",
        None,
        b"How often a changed configuration was refused.",
        &[Figure::Count(b"_total", of.refusals)],
    )
}

// A count of a presentation over a transport.
fn write_film<'a>(
    out: &mut Vec<u8>,
    figure: &'a [u8],
    film: &'a [u8],
    over: Transport,
    count: u64,
) -> Result<(), AllocError> {
    append_all(out, &[figure, b"{presentation=\"", film])?;
    append_all(out, &[b"\",transport=\"", over.name(), b"\"} "])?;
    let mut digits = Buffer::new();
    let digits = digits.format(count);
    append_all(out, &[digits.as_bytes(), b"\n"])
}

fn write_sessions(out: &mut Vec<u8>, films: &[FilmLine<'_>]) -> Result<(), AllocError> {
    let name = b"rtspd_presentation_sessions";
    let help = b"Sessions that live, by what they watch.";
    write_family(out, name, b"gauge", None, help, &[])?;
    for film in films {
        write_film(out, name, film.name, Transport::Udp, film.udp.sessions)?;
        write_film(out, name, film.name, Transport::Tcp, film.tcp.sessions)?;
    }
    Ok(())
}

fn write_plays(out: &mut Vec<u8>, films: &[FilmLine<'_>]) -> Result<(), AllocError> {
    let figure = b"rtspd_presentation_plays_total";
    let help = b"Plays that were begun.";
    write_family(
        out,
        b"rtspd_presentation_plays",
        b"counter",
        None,
        help,
        &[],
    )?;
    for film in films {
        write_film(out, figure, film.name, Transport::Udp, film.udp.plays)?;
        write_film(out, figure, film.name, Transport::Tcp, film.tcp.plays)?;
    }
    Ok(())
}

fn write_bytes(out: &mut Vec<u8>, films: &[FilmLine<'_>]) -> Result<(), AllocError> {
    let name = b"rtspd_presentation_sent_bytes";
    let figure = b"rtspd_presentation_sent_bytes_total";
    let help = b"Bytes of RTP packets that were sent.";
    write_family(out, name, b"counter", Some(b"bytes"), help, &[])?;
    for film in films {
        write_film(out, figure, film.name, Transport::Udp, film.udp.bytes)?;
        write_film(out, figure, film.name, Transport::Tcp, film.tcp.bytes)?;
    }
    Ok(())
}

/// The lines of these figures, as OpenMetrics 1.0 has them.
pub fn further_text(
    alloc: Global,
    process: Option<ProcessFigures>,
    writing: Option<WritingFigures>,
    content: &ContentFigures,
    films: &[FilmLine<'_>],
) -> Result<Vec<u8>, AllocError> {
    let mut text = Vec::new(alloc);
    if let Some(process) = &process {
        write_process(&mut text, process)?;
    }
    if let Some(writing) = &writing {
        write_writing(&mut text, writing)?;
    }
    write_content(&mut text, content)?;
    write_sessions(&mut text, films)?;
    write_plays(&mut text, films)?;
    write_bytes(&mut text, films)?;
    Ok(text)
}
