//! The section of the page that shows the last quarter of an hour: a line for each figure, drawn by SVG
//! without a script. After a refusal a part of the text may be at the end.

use crate::history::{History, SAMPLES, Sample};
use crate::rows::grouped;
use itoa::Buffer;
use rtsp_text::append_all;
use std::alloc::{AllocError, Global};

// The picture's height, and what a sample takes of its width.
const HEIGHT: u64 = 100;

const STEP: usize = 10;

/// A figure of the samples.
#[derive(Clone, Copy)]
enum Curve {
    Sessions,
    Held,
    Sent,
    Late,
    Refused,
}

impl Curve {
    fn of(self, sample: &Sample) -> u64 {
        match self {
            Curve::Sessions => sample.sessions,
            Curve::Held => sample.held,
            Curve::Sent => sample.sent,
            Curve::Late => sample.late_ms,
            Curve::Refused => sample.refused,
        }
    }

    // The greatest of the samples.
    fn most(self, history: &History) -> u64 {
        let mut most = 0;
        for sample in history.samples().iter() {
            most = most.max(self.of(sample));
        }
        most
    }

    fn last(self, history: &History) -> u64 {
        match history.samples().back() {
            Some(sample) => self.of(sample),
            None => 0,
        }
    }
}

fn write_point(out: &mut Vec<u8>, across: usize, down: u64) -> Result<(), AllocError> {
    let (mut x, mut y) = (Buffer::new(), Buffer::new());
    let (x, y) = (x.format(across as u64), y.format(down));
    append_all(out, &[x.as_bytes(), b",", y.as_bytes(), b" "])
}

// How far below the top a value stands where the greatest is `most`.
fn depth(value: u64, most: u64) -> u64 {
    let height = u128::from(value) * u128::from(HEIGHT);
    let up = height.checked_div(u128::from(most)).unwrap_or(0);
    HEIGHT - up.min(u128::from(HEIGHT)) as u64
}

// A curve that reaches the top at `most`; the newest sample is at the right.
fn write_curve(
    out: &mut Vec<u8>,
    history: &History,
    curve: Curve,
    most: u64,
) -> Result<(), AllocError> {
    out.extend_from_slice(b"<polyline points=\"")?;
    let mut across = SAMPLES.saturating_sub(history.samples().len()) * STEP;
    for sample in history.samples().iter() {
        write_point(out, across, depth(curve.of(sample), most))?;
        across = across.saturating_add(STEP);
    }
    out.extend_from_slice(b"\"/>")
}

// The figure's name, its last value, and its greatest.
fn write_caption(
    alloc: Global,
    out: &mut Vec<u8>,
    name: &[u8],
    last: u64,
    most: u64,
) -> Result<(), AllocError> {
    let last = grouped(alloc, u128::from(last))?;
    let most = grouped(alloc, u128::from(most))?;
    append_all(
        out,
        &[
            b"<figure><figcaption>",
            name,
            b": ",
            &last,
            b", at most ",
            &most,
        ],
    )?;
    append_all(
        out,
        &[b"</figcaption><svg viewBox=\"0 0 890 100\" preserveAspectRatio=none role=img>"],
    )
}

fn write_plot(
    alloc: Global,
    out: &mut Vec<u8>,
    history: &History,
    name: &[u8],
    curve: Curve,
) -> Result<(), AllocError> {
    let most = curve.most(history);
    write_caption(alloc, out, name, curve.last(history), most)?;
    write_curve(out, history, curve, most)?;
    out.extend_from_slice(b"</svg></figure>\n")
}

// What is held and what is sent, the second below the first.
fn write_uplink(alloc: Global, out: &mut Vec<u8>, history: &History) -> Result<(), AllocError> {
    let most = Curve::Held.most(history).max(Curve::Sent.most(history));
    let name = b"Uplink held, and sent below it, bit/s";
    write_caption(alloc, out, name, Curve::Held.last(history), most)?;
    write_curve(out, history, Curve::Held, most)?;
    write_curve(out, history, Curve::Sent, most)?;
    out.extend_from_slice(b"</svg></figure>\n")
}

/// The last quarter of an hour, as a section of the page.
pub fn history_section(alloc: Global, history: &History) -> Result<Vec<u8>, AllocError> {
    let mut text = Vec::new(alloc);
    text.extend_from_slice(b"<h2>The last quarter of an hour</h2>\n")?;
    write_plot(alloc, &mut text, history, b"Sessions", Curve::Sessions)?;
    write_uplink(alloc, &mut text, history)?;
    let late = b"How late 99 of 100 packets were at most, ms";
    write_plot(alloc, &mut text, history, late, Curve::Late)?;
    let refused = b"Requests refused in ten seconds";
    write_plot(alloc, &mut text, history, refused, Curve::Refused)?;
    Ok(text)
}
