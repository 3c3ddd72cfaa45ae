//! Lines that continue the line before (RFC 7826 section 20.1, LWS).

ghost use Rattle.std.specs.Prelude.{◌≡◌, ◌≤◌, List, ℕ, length, IfOk};
ghost use Rattle.rtsp_grammar.specs.Folds.{begins_blank};
ghost use Rattle.rtsp_grammar.specs.HeaderSteps.{Unfolds};
ghost use Rattle.rtsp_grammar.specs.Lines.{AreLines};

use crate::line::split_line;
use rtsp_text::{is_blank, trim_start};
use std::alloc::AllocError;

/// Whether a line continues the line before, or a text begins with such a line.
pub fn begins_blank(line: &[u8]) -> bool
    ensures { result ≡ begins_blank line.now }
{
    match line {
        [first, ..] => is_blank(*first),
        [] => false,
    }
}

/// Adds to a line what the lines at the front continue it with, and gives the other lines.
#[inline(never)]
pub fn unfold<'a>(line: &mut Vec<u8>, lines: &'a [u8]) -> Result<&'a [u8], AllocError>
    ensures unfolds { (ls : List (List ℕ)) → AreLines lines.now ls → IfOk result (λ rest. Unfolds line.old.items line.new.items ls rest.now) }
    ensures shorter { IfOk result (λ rest. length rest.now ≤ length lines.now) }
{
    let mut left = lines;
    'folds: while begins_blank(left) {
        let (fold, rest) = split_line(left);
        line.push(b' ')?;
        line.extend_from_slice(trim_start(fold))?;
        left = rest;
    }
    Ok(left)
}
