//! Writing families. After a refusal a part of the text may be at the end.

ghost use Rattle.std.specs.Prelude.{◌≡◌, ◌++◌, OnOk, Some, None, decimal};
ghost use Rattle.rtsp_text.specs.Slices.{held};
ghost use Rattle.rtsp_metrics.specs.Families.{head_text, sample_line, family_text, gauge, counter, held_and_free, sample_lines, seconds_text, eighths_text, unit_line};
ghost use Rattle.rtsp_metrics.specs.FigureLines.{figure_line};
ghost use Rattle.rtsp_metrics.specs.Figures.{method_samples, request_mark};
ghost use Rattle.std.specs.List.{flat_map};

use crate::snapshot::{ByOutcome, Held};
use itoa::Buffer;
use rtsp_text::{append_all, three_digits};
use std::alloc::AllocError;

/// A figure: what stands behind the name of its family, and its value.
#[derive(Clone, Copy)]
pub(crate) enum Figure<'a> {
    Count(&'a [u8], u64),
    /// A sum of counts.
    Sum(&'a [u8], u128),
    /// What was answered to the requests of a method.
    Answers(&'a [u8], ByOutcome),
    /// Milliseconds, told in seconds.
    Seconds(&'a [u8], u64),
    /// Bits, told in bytes.
    Eighths(&'a [u8], u64),
}

// The line of a unit, if there is one.
fn write_unit(out: &mut Vec<u8>, name: &[u8], unit: Option<&[u8]>) -> Result<(), AllocError>
    ensures { OnOk result (out.new.items ≡ out.old.items ++ unit_line name.now (held unit.entry)) }
{
    match unit {
        Some(unit) => append_all(out, &[b"# UNIT ", name, b" ", unit, b"\n"]),
        None => Ok(()),
    }
}

/// The lines before the figures of a family.
#[tactic(auto, using(crate::proofs::Appended::append_nil), unfolding(crate::specs::Families::head_text))]
fn write_head(
    out: &mut Vec<u8>,
    name: &[u8],
    kind: &[u8],
    unit: Option<&[u8]>,
    help: &[u8],
) -> Result<(), AllocError>
    ensures { OnOk result (out.new.items ≡ out.old.items ++ head_text name.now kind.now (held unit.entry) help.now) }
{
    append_all(out, &[b"# TYPE ", name, b" ", kind, b"\n"])?;
    write_unit(out, name, unit)?;
    append_all(out, &[b"# HELP ", name, b" ", help, b"\n"])
}

#[tactic(auto, unfolding(crate::specs::Families::sample_line))]
fn write_sample(out: &mut Vec<u8>, name: &[u8], mark: &[u8], value: u128) -> Result<(), AllocError>
    ensures { OnOk result (out.new.items ≡ out.old.items ++ sample_line name.now mark.now (decimal value)) }
{
    let mut digits = Buffer::new();
    let digits = digits.format(value);
    append_all(out, &[name, mark, b" ", digits.as_bytes(), b"\n"])
}

fn write_seconds(out: &mut Vec<u8>, name: &[u8], mark: &[u8], ms: u64) -> Result<(), AllocError>
    ensures { OnOk result (out.new.items ≡ out.old.items ++ sample_line name.now mark.now (seconds_text ms)) }
{
    let mut seconds = Buffer::new();
    let seconds = seconds.format(ms / 1000);
    let decimals = three_digits(ms);
    append_all(
        out,
        &[name, mark, b" ", seconds.as_bytes(), b".", &decimals, b"\n"],
    )
}

fn write_eighths(out: &mut Vec<u8>, name: &[u8], mark: &[u8], bits: u64) -> Result<(), AllocError>
    ensures { OnOk result (out.new.items ≡ out.old.items ++ sample_line name.now mark.now (eighths_text bits)) }
{
    let mut bytes = Buffer::new();
    let bytes = bytes.format(bits / 8);
    let decimals = three_digits(bits % 8 * 125);
    append_all(
        out,
        &[name, mark, b" ", bytes.as_bytes(), b".", &decimals, b"\n"],
    )
}

// A figure of the requests of a method.
fn write_request<'a>(
    out: &mut Vec<u8>,
    name: &'a [u8],
    method: &'a [u8],
    class: &'a [u8],
    count: u64,
) -> Result<(), AllocError>
    ensures { OnOk result (out.new.items ≡ out.old.items ++ sample_line name.entry.now (request_mark method.entry.now class.entry.now) (decimal count)) }
{
    let mut digits = Buffer::new();
    let digits = digits.format(count);
    append_all(
        out,
        &[
            name,
            b"_total{method=\"",
            method,
            b"\",class=\"",
            class,
            b"\"} ",
            digits.as_bytes(),
            b"\n",
        ],
    )
}

fn write_answers(
    out: &mut Vec<u8>,
    name: &[u8],
    method: &[u8],
    of: &ByOutcome,
) -> Result<(), AllocError>
    ensures { OnOk result (out.new.items ≡ out.old.items ++ sample_lines name.now (method_samples method.now of.now)) }
{
    write_request(out, name, method, b"2xx", of.success)?;
    write_request(out, name, method, b"3xx", of.redirection)?;
    write_request(out, name, method, b"4xx", of.client_error)?;
    write_request(out, name, method, b"5xx", of.server_error)
}

// The line of a figure, or those of a method.
fn write_figure(out: &mut Vec<u8>, name: &[u8], figure: &Figure) -> Result<(), AllocError>
    ensures { OnOk result (out.new.items ≡ out.old.items ++ figure_line name.now figure.now) }
{
    match figure {
        Figure::Count(mark, count) => write_sample(out, name, mark, u128::from(*count)),
        Figure::Sum(mark, sum) => write_sample(out, name, mark, *sum),
        Figure::Answers(method, of) => write_answers(out, name, method, of),
        Figure::Seconds(mark, ms) => write_seconds(out, name, mark, *ms),
        Figure::Eighths(mark, bits) => write_eighths(out, name, mark, *bits),
    }
}

// A line for each figure.
fn write_samples(out: &mut Vec<u8>, name: &[u8], figures: &[Figure]) -> Result<(), AllocError>
    ensures { OnOk result (out.new.items ≡ out.old.items ++ flat_map (figure_line name.now) figures.now) }
{
    for figure in figures {
        write_figure(out, name, figure)?;
    }
    Ok(())
}

/// A family: the lines before its figures, and a line for each.
pub(crate) fn write_family(
    out: &mut Vec<u8>,
    name: &[u8],
    kind: &[u8],
    unit: Option<&[u8]>,
    help: &[u8],
    figures: &[Figure],
) -> Result<(), AllocError>
    ensures { OnOk result (out.new.items ≡ out.old.items ++ (head_text name.now kind.now (held unit.entry) help.now
        ++ flat_map (figure_line name.now) figures.now)) }
{
    write_head(out, name, kind, unit, help)?;
    write_samples(out, name, figures)
}

/// A value that goes up and down.
pub(crate) fn write_gauge(
    out: &mut Vec<u8>,
    name: &[u8],
    unit: Option<&[u8]>,
    help: &[u8],
    value: u64,
) -> Result<(), AllocError>
    ensures { OnOk result (out.new.items ≡ out.old.items ++ family_text (gauge name.now (held unit.entry) help.now value)) }
{
    let figure = Figure::Count(b"", value);
    write_family(out, name, b"gauge", unit, help, &[figure])
}

/// A count that only grows.
pub(crate) fn write_counter(
    out: &mut Vec<u8>,
    name: &[u8],
    help: &[u8],
    value: u64,
) -> Result<(), AllocError>
    ensures { OnOk result (out.new.items ≡ out.old.items ++ family_text (counter name.now help.now value)) }
{
    let figure = Figure::Count(b"_total", value);
    write_family(out, name, b"counter", None, help, &[figure])
}

/// What is held of a whole, and what is free.
pub(crate) fn write_held(
    out: &mut Vec<u8>,
    name: &[u8],
    unit: Option<&[u8]>,
    help: &[u8],
    of: &Held,
) -> Result<(), AllocError>
    ensures { OnOk result (out.new.items ≡ out.old.items ++ family_text (held_and_free name.now (held unit.entry) help.now of.now)) }
{
    let figures = [
        Figure::Count(b"{state=\"held\"}", of.held),
        Figure::Count(b"{state=\"free\"}", of.free),
    ];
    write_family(out, name, b"gauge", unit, help, &figures)
}
