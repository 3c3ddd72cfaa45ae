//! Parts of a text.

use std::process::Abort;

/// Whether the text has this part.
pub fn contains(text: &[u8], part: &[u8]) -> bool {
    text.windows(part.len().max(1)).any(|some| some == part)
}

/// The text has these lines. Between some of them stands `..`: there others may be.
pub fn has_lines(rt: &impl Abort, text: &[u8], lines: &str) {
    for part in lines.split("..\n") {
        assert!(rt; contains(text, part.as_bytes()), "{part}");
    }
}
