//! Lines of a head.

ghost use Rattle.std.specs.Prelude.{◌≡◌};
ghost use Rattle.rtsp_grammar.specs.Reading.{split_line};

use rtsp_text::split_once;

const CR: u8 = 13;

/// The first of lines that are known to end in CR LF, and the others.
pub fn split_line(lines: &[u8]) -> (&[u8], &[u8])
    ensures { (result.0.now, result.1.now) ≡ split_line lines.now }
{
    let Some((line, rest)) = split_once(lines, CR) else {
        return (lines, &[]);
    };
    match rest {
        [_, others @ ..] => (line, others),
        [] => (line, rest),
    }
}
