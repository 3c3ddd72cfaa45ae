//! Rows of the page. After a refusal a part of the text may be at the end.

ghost use Rattle.std.specs.Prelude.{◌≡◌, ◌+◌, ◌++◌, IfOk, OnOk};
ghost use Rattle.std.specs.List.{flat_map};
ghost use Rattle.rtsp_metrics.specs.Page.{groups, grouped, number_row, bar_row, answers_row, section_text};
ghost use Rattle.rtsp_metrics.specs.RowTexts.{row_text};

use crate::snapshot::{ByOutcome, Held};
use itoa::Buffer;
use rtsp_text::{append_all, three_digits};
use std::alloc::{AllocError, Global};

/// What a row shows, beside its name.
#[derive(Clone, Copy)]
pub(crate) enum Row<'a> {
    Number(&'a [u8], u64),
    /// A part of a whole.
    Bar(&'a [u8], u128, u128),
    /// What is held of what is held and free.
    Held(&'a [u8], Held),
    Answers(&'a [u8], ByOutcome),
    /// The heads of the columns.
    Heads(&'a [u8]),
}

// A number with commas. So many more groups of three digits may come before the last one.
fn write_groups(out: &mut Vec<u8>, more: u8, number: u128) -> Result<(), AllocError>
    ensures { OnOk result (out.new.items ≡ out.old.items ++ groups more number) }
{
    if more == 0 || number < 1000 {
        let mut digits = Buffer::new();
        out.extend_from_slice(digits.format(number).as_bytes())?;
        return Ok(());
    }
    write_groups(out, more - 1, number / 1000)?;
    let digits = three_digits((number % 1000) as u64);
    append_all(out, &[b",", &digits])
}

/// A number with commas.
#[tactic(auto, unfolding(crate::specs::Page::grouped))]
pub(crate) fn grouped(alloc: Global, number: u128) -> Result<Vec<u8>, AllocError>
    ensures { IfOk result (λ text. text.items ≡ grouped number) }
{
    let mut text = Vec::new(alloc);
    write_groups(&mut text, 13, number)?;
    Ok(text)
}

fn write_number(
    alloc: Global,
    out: &mut Vec<u8>,
    name: &[u8],
    number: u64,
) -> Result<(), AllocError>
    ensures { OnOk result (out.new.items ≡ out.old.items ++ number_row name.now number) }
{
    let number = grouped(alloc, u128::from(number))?;
    append_all(
        out,
        &[b"<tr><th>", name, b"<td><td class=n>", &number, b"\n"],
    )
}

fn write_bar(
    alloc: Global,
    out: &mut Vec<u8>,
    name: &[u8],
    part: u128,
    whole: u128,
) -> Result<(), AllocError>
    ensures { OnOk result (out.new.items ≡ out.old.items ++ bar_row name.now part whole) }
{
    let (mut max, mut value) = (Buffer::new(), Buffer::new());
    let max = max.format(whole);
    let value = value.format(part);
    let part = grouped(alloc, part)?;
    let whole = grouped(alloc, whole)?;
    append_all(
        out,
        &[
            b"<tr><th>",
            name,
            b"<td><meter max=",
            max.as_bytes(),
            b" value=",
            value.as_bytes(),
            b"></meter><td class=n>",
            &part,
            b" of ",
            &whole,
            b"\n",
        ],
    )
}

fn write_held(alloc: Global, out: &mut Vec<u8>, name: &[u8], of: &Held) -> Result<(), AllocError>
    ensures { OnOk result (out.new.items ≡ out.old.items ++ bar_row name.now of.now.held (of.now.held + of.now.free)) }
{
    let held = u128::from(of.held);
    write_bar(alloc, out, name, held, held + u128::from(of.free))
}

fn write_answers(
    alloc: Global,
    out: &mut Vec<u8>,
    name: &[u8],
    of: &ByOutcome,
) -> Result<(), AllocError>
    ensures { OnOk result (out.new.items ≡ out.old.items ++ answers_row name.now of.now) }
{
    let success = grouped(alloc, u128::from(of.success))?;
    let redirection = grouped(alloc, u128::from(of.redirection))?;
    let client_error = grouped(alloc, u128::from(of.client_error))?;
    let server_error = grouped(alloc, u128::from(of.server_error))?;
    append_all(
        out,
        &[
            b"<tr><th>",
            name,
            b"<td class=n>",
            &success,
            b"<td class=n>",
            &redirection,
            b"<td class=n>",
            &client_error,
            b"<td class=n>",
            &server_error,
            b"\n",
        ],
    )
}

fn write_row(alloc: Global, out: &mut Vec<u8>, row: &Row) -> Result<(), AllocError>
    ensures { OnOk result (out.new.items ≡ out.old.items ++ row_text row.now) }
{
    match row {
        Row::Number(name, number) => write_number(alloc, out, name, *number),
        Row::Bar(name, part, whole) => write_bar(alloc, out, name, *part, *whole),
        Row::Held(name, of) => write_held(alloc, out, name, of),
        Row::Answers(name, of) => write_answers(alloc, out, name, of),
        Row::Heads(heads) => out.extend_from_slice(heads),
    }
}

/// Rows, one after the other.
fn write_rows(alloc: Global, out: &mut Vec<u8>, rows: &[Row]) -> Result<(), AllocError>
    ensures { OnOk result (out.new.items ≡ out.old.items ++ flat_map row_text rows.now) }
{
    for row in rows {
        write_row(alloc, out, row)?;
    }
    Ok(())
}

/// Rows under a title.
pub(crate) fn section(alloc: Global, title: &[u8], rows: &[Row]) -> Result<Vec<u8>, AllocError>
    ensures { IfOk result (λ text. text.items ≡ section_text title.now (flat_map row_text rows.now)) }
{
    let mut lines = Vec::new(alloc);
    write_rows(alloc, &mut lines, rows)?;
    let mut text = Vec::new(alloc);
    append_all(
        &mut text,
        &[b"<h2>", title, b"</h2>\n<table>\n", &lines, b"</table>\n"],
    )?;
    Ok(text)
}
