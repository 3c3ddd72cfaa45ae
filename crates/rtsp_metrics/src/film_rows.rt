//! The section of the page on presentations. After a refusal a part of the text may be at the end.

use crate::further::{ContentFigures, FilmLine};
use crate::rows::grouped;
use rtsp_text::append_all;
use std::alloc::{AllocError, Global};

const HEADS: &[u8] =
    b"<tr><th><td class=n>watched now<td class=n>plays<td class=n>MB, UDP<td class=n>MB, TCP\n";

const MEGABYTE: u64 = 1_000_000;

fn write_cell(alloc: Global, out: &mut Vec<u8>, number: u64) -> Result<(), AllocError> {
    let number = grouped(alloc, u128::from(number))?;
    append_all(out, &[b"<td class=n>", &number])
}

fn write_film(alloc: Global, out: &mut Vec<u8>, film: &FilmLine<'_>) -> Result<(), AllocError> {
    let FilmLine { name, udp, tcp } = *film;
    append_all(out, &[b"<tr><th>", name])?;
    write_cell(alloc, out, udp.sessions.saturating_add(tcp.sessions))?;
    write_cell(alloc, out, udp.plays.saturating_add(tcp.plays))?;
    write_cell(alloc, out, udp.bytes / MEGABYTE)?;
    write_cell(alloc, out, tcp.bytes / MEGABYTE)?;
    out.extend_from_slice(b"\n")
}

// Which configuration is served, and when it was taken up, where it isn't that of the start.
fn write_content(
    alloc: Global,
    out: &mut Vec<u8>,
    content: &ContentFigures,
) -> Result<(), AllocError> {
    if content.number == 0 {
        return Ok(());
    }
    let presentations = grouped(alloc, u128::from(content.presentations))?;
    let number = grouped(alloc, u128::from(content.number))?;
    let taken = grouped(alloc, u128::from(content.taken))?;
    append_all(
        out,
        &[b"<p>", &presentations, b" are offered, by configuration "],
    )?;
    append_all(
        out,
        &[&number, b", taken up ", &taken, b" s after the start.\n"],
    )
}

/// What is watched of each presentation, as a section of the page.
pub fn film_section(
    alloc: Global,
    content: &ContentFigures,
    films: &[FilmLine<'_>],
) -> Result<Vec<u8>, AllocError> {
    let mut text = Vec::new(alloc);
    text.extend_from_slice(b"<h2>Films</h2>\n")?;
    write_content(alloc, &mut text, content)?;
    append_all(&mut text, &[b"<table>\n", HEADS])?;
    for film in films {
        write_film(alloc, &mut text, film)?;
    }
    text.extend_from_slice(b"</table>\n")?;
    Ok(text)
}
