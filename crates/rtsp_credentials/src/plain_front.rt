//! The parameter at the front of a list, where it is written as nearly all write it. The list is read on
//! from behind it, so that no byte is looked at for commas and quotes first.

ghost use Rattle.std.specs.Prelude.{◌≡◌, ◌∷◌, ◌++◌, true, IfSome};
ghost use Rattle.std.specs.List.{list_all};
ghost use Rattle.rtsp_text.specs.Bytes.{is_other};
ghost use Rattle.rtsp_text.specs.Slices.{held};
ghost use Rattle.rtsp_credentials.specs.Parameters.{is_plain_byte};
ghost use Rattle.rtsp_credentials.specs.Field.{name_of};
ghost use Rattle.rtsp_credentials.specs.Front.{EndsValue, IsFront};

use crate::field::Field;
use rtsp_text::{is_token, split_once, trim_start};

pub(crate) const QUOTE: u8 = b'"';

/// A parameter, and the list behind its comma, where there is one.
#[derive(Clone, Copy)]
pub(crate) struct Front<'a> {
    pub(crate) field: Field,
    pub(crate) value: &'a [u8],
    pub(crate) left: Option<&'a [u8]>,
}

/// Whether a text without a quote means itself in quotes: it has no backslash either.
pub(crate) fn is_plain(unquoted: &[u8]) -> bool
    requires { list_all (is_other 34) unquoted.now ≡ true }
    ensures { result ≡ list_all is_plain_byte unquoted.now }
{
    split_once(unquoted, b'\\').is_none()
}

// A value in quotes, behind the first of them, and what is behind the second.
fn quoted(rest: &[u8]) -> Option<(&[u8], &[u8])>
    ensures { IfSome result (λ p. (rest.now ≡ p.0.now ++ 34 ∷ p.1.now) × (list_all is_plain_byte p.0.now ≡ true)) }
{
    let (value, behind) = split_once(rest, QUOTE)?;
    if is_plain(value) {
        Some((value, behind))
    } else {
        None
    }
}

fn quoted_front(rest: &[u8]) -> Option<(&[u8], Option<&[u8]>)>
    ensures { IfSome result (λ p. EndsValue (34 ∷ rest.now) p.0.now (held p.1)) }
{
    let (value, behind) = quoted(rest)?;
    match behind.split_first() {
        None => Some((value, None)),
        Some((next, left)) => {
            if *next == b',' {
                Some((value, Some(left)))
            } else {
                None
            }
        }
    }
}

// A token.
fn token_front(text: &[u8]) -> Option<(&[u8], Option<&[u8]>)>
    ensures { IfSome result (λ p. EndsValue text.now p.0.now (held p.1)) }
{
    match split_once(text, b',') {
        None => {
            if is_token(text) {
                Some((text, None))
            } else {
                None
            }
        }
        Some((value, left)) => {
            if is_token(value) {
                Some((value, Some(left)))
            } else {
                None
            }
        }
    }
}

fn value_front(text: &[u8]) -> Option<(&[u8], Option<&[u8]>)>
    ensures { IfSome result (λ p. EndsValue text.now p.0.now (held p.1)) }
{
    let (first, rest) = text.split_first()?;
    if *first == QUOTE {
        quoted_front(rest)
    } else {
        token_front(text)
    }
}

// One of two parameters that begin with the same letter.
#[inline(always)]
fn either(one: Field, other: Field, text: &[u8]) -> Option<(Field, &[u8])>
    ensures { IfSome result (λ p. text.now ≡ name_of p.0 ++ 61 ∷ p.1.now) }
{
    match one.at_front(text) {
        Some(found) => Some(found),
        None => other.at_front(text),
    }
}

// The parameter that is named at the front, found by its first letter, and what is behind its =.
fn field_front(text: &[u8]) -> Option<(Field, &[u8])>
    ensures { IfSome result (λ p. text.now ≡ name_of p.0 ++ 61 ∷ p.1.now) }
{
    let (first, _) = text.split_first()?;
    match *first {
        b'u' => either(Field::Username, Field::Uri, text),
        b'r' => either(Field::Realm, Field::Response, text),
        b'n' => either(Field::Nonce, Field::Nc, text),
        b'a' => Field::Algorithm.at_front(text),
        b'c' => Field::Cnonce.at_front(text),
        b'q' => Field::Qop.at_front(text),
        _ => None,
    }
}

/// The parameter at the front, if it is one that matters, with its name in small letters, =, and a value
/// that ends the list or stands before a comma. None says nothing of it.
pub(crate) fn plain_front(text: &[u8]) -> Option<Front<'_>>
    ensures { IfSome result (λ f. IsFront text.now (name_of f.field) f.value.now (held f.left)) }
{
    let (field, written) = field_front(trim_start(text))?;
    let (value, left) = value_front(written)?;
    Some(Front { field, value, left })
}
