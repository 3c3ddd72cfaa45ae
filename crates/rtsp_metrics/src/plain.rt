//! The text format of Prometheus (0.0.4), for readers that don't know OpenMetrics.

use rtsp_text::{append_all, split_once};
use std::alloc::{AllocError, Global};

// How lines of OpenMetrics begin.
const TYPE: &[u8] = b"# TYPE ";

const HELP: &[u8] = b"# HELP ";

// Writes a line on a family, which is named as its figures are.
fn write_on_family(
    out: &mut Vec<u8>,
    begin: &[u8],
    rest: &[u8],
    is_counter: bool,
) -> Result<(), AllocError> {
    let (name, told) = split_once(rest, b' ').unwrap_or((rest, b""));
    let end: &[u8] = if is_counter { b"_total " } else { b" " };
    append_all(out, &[begin, name, end, told])
}

/// A text of OpenMetrics, as the lines of the older format: a counter is there named with the end of its
/// figures, and neither units nor an end are told.
pub fn plain_text(alloc: Global, open: &[u8]) -> Result<Vec<u8>, AllocError> {
    let mut text = Vec::new(alloc);
    let mut is_counter = false;
    for line in open.split_inclusive(|byte| *byte == b'\n') {
        if let Some(rest) = line.strip_prefix(TYPE) {
            is_counter = rest.ends_with(b" counter\n");
            write_on_family(&mut text, TYPE, rest, is_counter)?;
        } else if let Some(rest) = line.strip_prefix(HELP) {
            write_on_family(&mut text, HELP, rest, is_counter)?;
        } else if !line.starts_with(b"#") {
            text.extend_from_slice(line)?;
        }
    }
    Ok(text)
}
