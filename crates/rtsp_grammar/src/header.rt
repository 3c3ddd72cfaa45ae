//! Headers of a message, kept in one buffer.

ghost use Rattle.std.specs.Prelude.{◌≡◌, ◌<◌, ◌≤◌, ◌+◌, [], length, OnOk, OnErr, IfOk, slice_get, option_map, Some, IsOk, IsTrue, ◌↔◌};
ghost use Rattle.rtsp_grammar.specs.HeadersBuilder.{Takes, HasRoom};
ghost use Rattle.std.specs.List.{cons_option};
ghost use Rattle.rtsp_grammar.specs.Header.{is_named, values_of};

use std::alloc::{AllocError, Global};
use std::marker::Model;

// Where a header is in the buffer: its name begins at `name`, its value at `value`, and it ends
// before `end`.
#[derive(Clone, Copy)]
struct Place {
    name: usize,
    value: usize,
    end: usize,
}

/// One header of a message (RFC 7826 section 5.2).
#[derive(Clone, Copy)]
pub struct Header<'a> {
    /// As it was written: names are compared without regard to case.
    pub name: &'a [u8],
    /// Without blanks at its ends, and with a space for each fold.
    pub value: &'a [u8],
}

impl Header<'_> {
    /// Whether this is the header's name, without regard to ASCII case.
    pub fn is_named(&self, name: &[u8]) -> bool
        ensures { result ≡ is_named self.now.name.now name.now }
    {
        self.name.eq_ignore_ascii_case(name)
    }
}

/// More than one header has a name that may stand once.
#[derive(Clone, Copy, Debug, PartialEq, Eq)]
pub struct Repeated;

/// The headers of a message, in order.
pub struct Headers {
    bytes: Vec<u8>,
    places: Vec<Place>,
}

// Written out, so that dropping headers is one call.
impl Drop for Headers {
    #[inline(always)]
    fn drop(self) {
        let Self {
            bytes: _bytes,
            places: _places,
        } = self;
    }
}

impl Model for Headers {
    ghost use Rattle.std.specs.Prelude.{List};
    ghost use Rattle.rtsp_grammar.specs.Header.{HeaderText};
    ghost use Rattle.rtsp_grammar.specs.Headers.{headers_at, AreWithin};

    ghost Value = { List HeaderText };

    ghost view = { λ h. headers_at h.bytes.items h.places.items };

    ghost invariant = { λ h. AreWithin h.bytes.items h.places.items };
}

impl Headers {
    ghost use Rattle.rtsp_grammar.specs.HeaderView.{shown};

    /// How many there are. A header line and the lines that continue it are one header.
    pub fn len(&self) -> usize
        ensures { result ≡ length self.now }
    {
        self.places.len()
    }

    /// Whether there is none.
    pub fn is_empty(&self) -> bool
        ensures { IsTrue result ↔ (self.now ≡ []) }
    {
        self.places.is_empty()
    }

    /// The header at an index, in the message's order.
    pub fn get(&self, index: usize) -> Header<'_>
        requires { index < length self.now }
        ensures { slice_get self.now index ≡ Some (shown result) }
    {
        let place = self.places[index];
        let (front, _) = self.bytes.split_at(place.end);
        let (front, value) = front.split_at(place.value);
        let (_, name) = front.split_at(place.name);
        Header { name, value }
    }

    /// How many headers have this name, without regard to ASCII case.
    #[tactic(auto, using(crate::proofs::ValueLemmas::no_values))]
    pub fn count_of(&self, name: &[u8]) -> usize
        ensures { result ≡ length (values_of name.now self.now) }
    {
        let mut count = 0;
        for index in 0..self.len() {
            if self.get(index).is_named(name) {
                count += 1;
            }
        }
        count
    }

    /// The value of the header of this name that comes after `before` others of that name.
    #[tactic(auto, using(crate::proofs::ValueLemmas::no_values))]
    pub fn nth_value(&self, name: &[u8], before: usize) -> Option<&[u8]>
        ensures { option_map (λ v. v.now) result ≡ slice_get (values_of name.now self.now) before }
    {
        let mut left = before;
        for index in 0..self.len() {
            let header = self.get(index);
            if header.is_named(name) {
                if left == 0 {
                    return Some(header.value);
                }
                left -= 1;
            }
        }
        None
    }

    /// The value of the one header of this name; None where there is none, `Repeated` where there
    /// are more. The headers are gone over once.
    #[tactic(auto, using(crate::proofs::ValueLemmas::no_values))]
    pub fn only_value(&self, name: &[u8]) -> Result<Option<&[u8]>, Repeated>
        ensures one { IfOk result (λ found. values_of name.now self.now ≡ cons_option (option_map (λ v. v.now) found) []) }
        ensures several { OnErr result (1 < length (values_of name.now self.now)) }
    {
        let mut found = None;
        for index in 0..self.len() {
            let header = self.get(index);
            if header.is_named(name) {
                if found.is_some() {
                    return Err(Repeated);
                }
                found = Some(header.value);
            }
        }
        Ok(found)
    }
}

/// Headers that are being made, and the room that is left for more: how many, and how many bytes of
/// their names and values.
#[derive(Drop)]
pub struct HeadersBuilder {
    bytes: Vec<u8>,
    places: Vec<Place>,
}

impl Model for HeadersBuilder {
    ghost use Rattle.rtsp_grammar.specs.HeadersBuilder.{BuiltHeaders};
    ghost use Rattle.rtsp_grammar.specs.Headers.{AreWithin};

    ghost Value = { BuiltHeaders };

    ghost use Rattle.rtsp_grammar.specs.BuiltHeaders.{built_headers};

    ghost view = { built_headers };

    ghost invariant = { λ d. AreWithin d.bytes.items d.places.items };
}

impl HeadersBuilder {
    /// No header yet, and no room, which takes no memory.
    pub fn new(alloc: Global) -> HeadersBuilder
        ensures { result.headers ≡ [] }
    {
        HeadersBuilder {
            bytes: Vec::new(alloc),
            places: Vec::new(alloc),
        }
    }

    /// No header yet, and room for `lines` headers with `bytes` bytes of names and values together.
    pub fn with_room(
        alloc: Global,
        lines: usize,
        bytes: usize,
    ) -> Result<HeadersBuilder, AllocError>
        ensures { IfOk result (λ d. (d.headers ≡ []) × (lines ≤ d.lines) × (bytes ≤ d.bytes)) }
    {
        Ok(HeadersBuilder {
            bytes: Vec::with_capacity(alloc, bytes)?,
            places: Vec::with_capacity(alloc, lines)?,
        })
    }

    /// Adds a header at the end, or nothing. It takes no memory where there is room.
    pub fn push(&mut self, name: &[u8], value: &[u8]) -> Result<(), AllocError>
        ensures ok { OnOk result (Takes self.old self.new (record { name = name.now; value = value.now })) }
        ensures err { OnErr result (self.new.headers ≡ self.old.headers) }
        ensures succeeds { HasRoom self.old (record { name = name.now; value = value.now }) → IsOk result }
    {
        self.places.reserve(1)?;
        self.bytes.reserve(name.len() + value.len())?;
        let name_at = self.bytes.len();
        self.bytes.extend_from_slice(name).unwrap();
        let value_at = self.bytes.len();
        self.bytes.extend_from_slice(value).unwrap();
        let end = self.bytes.len();
        self.places.push_reserved(Place {
            name: name_at,
            value: value_at,
            end,
        });
        Ok(())
    }

    /// The headers that were added, in their order.
    pub fn into_headers(self) -> Headers
        ensures { result ≡ self.headers }
    {
        let HeadersBuilder { bytes, places } = self;
        Headers { bytes, places }
    }
}
