//! The parts of a text round the separators outside its quotes, one after another.

ghost use Rattle.std.specs.Prelude.{◌≡◌, ◌<◌, ◌==◌, ◌∷◌, false, length, IfSome};
ghost use Rattle.rtsp_text.specs.Slices.{held};
ghost use Rattle.rtsp_transport.specs.Split.{is_closed, split, parts_left};

use rtsp_text::split_once;

const QUOTE: u8 = b'"';

/// Whether the quotes of the text are in pairs.
pub fn is_closed(text: &[u8]) -> bool
    ensures { result ≡ is_closed false text.now }
{
    let mut inside = false;
    for b in text {
        if *b == QUOTE {
            inside = !inside;
        }
    }
    !inside
}

// The same as `first_part`, where there is a quote before a separator.
fn first_quoted_part(text: &[u8], separator: u8) -> (&[u8], Option<&[u8]>)
    ensures parts { split false separator text.now ≡ result.0.now ∷ parts_left separator (held result.1) }
    ensures shorter { IfSome result.1 (λ rest. length rest.now < length text.now) }
{
    let mut inside = false;
    for (i, b) in text.iter().enumerate() {
        if *b == QUOTE {
            inside = !inside;
        } else if *b == separator && !inside {
            return (&text[..i], Some(&text[i + 1..]));
        }
    }
    (text, None)
}

/// The text before the first separator outside quotes, and the text after it; all of it where there
/// is none. Most texts have no quote before their first separator: these are cut where it is found.
#[tactic(auto, using(crate::proofs::Cutting::uncut, crate::proofs::Cutting::cut_plainly, crate::proofs::Cutting::cut_shorter))]
pub fn first_part(text: &[u8], separator: u8) -> (&[u8], Option<&[u8]>)
    requires { (separator == 34) ≡ false }
    ensures parts { split false separator text.now ≡ result.0.now ∷ parts_left separator (held result.1) }
    ensures shorter { IfSome result.1 (λ rest. length rest.now < length text.now) }
{
    match split_once(text, separator) {
        None => (text, None),
        Some((front, rest)) => match split_once(front, QUOTE) {
            None => (front, Some(rest)),
            Some(_) => first_quoted_part(text, separator),
        },
    }
}
