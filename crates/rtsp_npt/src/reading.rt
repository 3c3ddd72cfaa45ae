//! Reading a Range header.

ghost use Rattle.std.specs.Prelude.{◌≡◌, ◌↔◌};
ghost use Rattle.rtsp_npt.specs.Reading.{is_npt, side_of, sides_of, times_of, fault_of, range_of};
ghost use Rattle.rtsp_npt.specs.Ranges.{SpellsRange, HasFault};
ghost use Rattle.rtsp_npt.specs.declared.range.Range.{Range};
ghost use Rattle.rtsp_npt.specs.declared.fault.RangeFault.{RangeFault};

use crate::fault::RangeFault;
use crate::range::Range;
use crate::time::{Time, read_nanos};
use rtsp_text::{is_token, split_once};

// The unit of normal play time, in any case.
fn is_npt(unit: &[u8]) -> bool
    ensures { result ≡ is_npt unit.now }
{
    unit.eq_ignore_ascii_case(b"npt")
}

// The time at a side of the dash. An empty side has none: `Some(None)`.
fn read_side(text: &[u8]) -> Option<Option<Time>>
    ensures { result ≡ side_of text.now }
{
    if text.is_empty() {
        return Some(None);
    }
    let nanos = read_nanos(text)?;
    Some(Some(Time { nanos }))
}

// The times at the sides of the dash, of which one may be missing.
fn read_sides(first: &[u8], last: &[u8]) -> Option<Range>
    ensures { result ≡ sides_of first.now last.now }
{
    let start = read_side(first)?;
    let stop = read_side(last)?;
    match (start, stop) {
        (None, None) => None,
        _ => Some(Range { start, stop }),
    }
}

// The times after `npt=`.
#[tactic(auto, unfolding(crate::specs::Reading::times_of))]
fn read_times(times: &[u8]) -> Result<Range, RangeFault>
    ensures { result ≡ times_of times.now }
{
    if times.starts_with(b"now-") || times.ends_with(b"-now") {
        return Err(RangeFault::Now);
    }
    let Some((first, last)) = split_once(times, b'-') else {
        return Err(RangeFault::BadNpt);
    };
    read_sides(first, last).ok_or(RangeFault::BadNpt)
}

// Why a unit is refused.
fn unit_fault(unit: &[u8]) -> RangeFault
    ensures { result ≡ fault_of unit.now }
{
    if is_token(unit) {
        RangeFault::NotNpt
    } else {
        RangeFault::BadNpt
    }
}

// The range of the text, or its fault.
#[tactic(auto, unfolding(crate::specs::Reading::range_of))]
fn range_of(text: &[u8]) -> Result<Range, RangeFault>
    ensures { result ≡ range_of text.now }
{
    let Some((unit, times)) = split_once(text, b'=') else {
        if is_npt(text) {
            return Ok(Range {
                start: None,
                stop: None,
            });
        }
        return Err(unit_fault(text));
    };
    if is_npt(unit) {
        return read_times(times);
    }
    Err(unit_fault(unit))
}

/// Reads the value of a Range header (RFC 7826, sections 18.40 and 20.2.3): `npt` alone, or with a
/// start, a stop or both. A time has at most 19 digits of seconds or hours, and at most 9 after the
/// point. It takes no memory.
pub fn read_range(text: &[u8]) -> Result<Range, RangeFault>
    ensures value { result ≡ range_of text.now }
    // A range is given exactly where the text spells it, and a fault exactly where the text has it.
    ensures range { (range : Range) → (result ≡ Ok range) ↔ SpellsRange text.now range }
    ensures fault { (fault : RangeFault) → (result ≡ Err fault) ↔ HasFault text.now fault }
{
    range_of(text)
}
