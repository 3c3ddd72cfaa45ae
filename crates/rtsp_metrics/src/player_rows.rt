//! The section of the page on who plays. It has no player's address, since everybody sees the page.
//! After a refusal a part of the text may be at the end.

use crate::audience::Viewer;
use crate::rows::grouped;
use itoa::Buffer;
use rtsp_text::{append_all, write_hex_u32};
use std::alloc::{AllocError, Global};

/// The most players that the page shows.
pub const PLAYERS_SHOWN: usize = 50;

const HEADS: &[u8] =
    b"<tr><th>session<td>film<td><td class=n>seconds<td class=n>packets<td class=n>lost<td class=n>late\n";

/// A session, and the name of what is watched by it, which needs no escape.
#[derive(Clone, Copy)]
pub struct PlayerLine<'a> {
    pub viewer: Viewer,
    pub film: &'a [u8],
}

fn write_cell(alloc: Global, out: &mut Vec<u8>, number: u64) -> Result<(), AllocError> {
    let number = grouped(alloc, u128::from(number))?;
    append_all(out, &[b"<td class=n>", &number])
}

// Its name is the one of the log and of /sessions.
fn write_session(out: &mut Vec<u8>, viewer: &Viewer) -> Result<(), AllocError> {
    let mut digits = Buffer::new();
    let digits = digits.format(viewer.viewing.session);
    append_all(out, &[b"<tr><th>", digits.as_bytes(), b":"])?;
    write_hex_u32(out, viewer.viewing.digits())
}

fn write_player(
    alloc: Global,
    out: &mut Vec<u8>,
    player: &PlayerLine<'_>,
    now: u64,
) -> Result<(), AllocError> {
    let Viewer { viewing, sums } = player.viewer;
    write_session(out, &player.viewer)?;
    append_all(out, &[b"<td>", player.film, b"<td>"])?;
    out.extend_from_slice(viewing.transport.name())?;
    write_cell(alloc, out, now.saturating_sub(viewing.since) / 1_000)?;
    write_cell(alloc, out, sums.sent)?;
    write_cell(alloc, out, sums.lost)?;
    write_cell(alloc, out, sums.late)?;
    out.extend_from_slice(b"\n")
}

/// Who plays at a moment, in milliseconds since the server began, as a section of the page.
pub fn player_section(
    alloc: Global,
    players: &[PlayerLine<'_>],
    now: u64,
) -> Result<Vec<u8>, AllocError> {
    let mut text = Vec::new(alloc);
    append_all(&mut text, &[b"<h2>Players</h2>\n<table>\n", HEADS])?;
    for player in players {
        write_player(alloc, &mut text, player, now)?;
    }
    text.extend_from_slice(
        b"</table>\n<p>All of them, with their addresses: <a href=\"/sessions\">/sessions</a>\n",
    )?;
    Ok(text)
}
