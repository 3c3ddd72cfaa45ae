//! Times of normal play time.

ghost use Rattle.std.specs.Prelude.{◌≡◌, ◌+◌, ◌*◌, ◌/◌, ◌^◌, ◌<◌, ◌≤◌, IfSome};
ghost use Rattle.std.specs.Int.{div_ceil};
ghost use Rattle.rtsp_npt.specs.Reading.{sixtieth_of, seconds_of, fraction_of, time_of};
ghost use Rattle.rtsp_npt.specs.Units.{unit_nanos};

use rtsp_text::{digits_number, number_of, split_once};

const NANOS_PER_SECOND: u128 = 1_000_000_000;

const NANOS_PER_MILLI: u128 = 1_000_000;

// The most digits of seconds or hours.
const SECONDS_DIGITS: usize = 19;

// The most digits after the point.
const FRACTION_DIGITS: usize = 9;

/// A time of normal play time, exactly as it was written.
#[derive(Clone, Copy, PartialEq, Eq, PartialOrd, Ord)]
pub struct Time {
    /// Nanoseconds from the beginning of the media.
    pub nanos: u128,
}

impl Time {
    // The number of the unit that this time falls into.
    pub(crate) fn unit(self, unit_ms: u32) -> u128
        requires { 0 < unit_ms }
        ensures { result ≡ self.nanos / unit_nanos unit_ms }
    {
        self.nanos / (u128::from(unit_ms) * NANOS_PER_MILLI)
    }

    // How many units reach this time.
    pub(crate) fn units(self, unit_ms: u32) -> u128
        requires { 0 < unit_ms }
        ensures { result ≡ div_ceil self.nanos (unit_nanos unit_ms) }
    {
        self.nanos.div_ceil(u128::from(unit_ms) * NANOS_PER_MILLI)
    }
}

// The minutes of an hour, or the seconds of a minute.
#[tactic(auto, unfolding(crate::specs::Reading::sixtieth_of))]
fn sixtieth(text: &[u8]) -> Option<u64>
    ensures value { result ≡ sixtieth_of text.now }
    ensures small { IfSome result (λ n. n ≤ 59) }
{
    let number = number_of(text, 2)?;
    if number <= 59 { Some(number) } else { None }
}

// The seconds of a time without its fraction, as `75` or `0:01:15`.
#[tactic(auto, unfolding(crate::specs::Reading::seconds_of))]
fn seconds(text: &[u8]) -> Option<u128>
    ensures value { result ≡ seconds_of text.now }
    ensures small { IfSome result (λ n. n < 2 ^ 80) }
{
    let Some((hours, rest)) = split_once(text, b':') else {
        let seconds = number_of(text, SECONDS_DIGITS)?;
        return Some(u128::from(seconds));
    };
    let (minutes, seconds) = split_once(rest, b':')?;
    let hours = number_of(hours, SECONDS_DIGITS)?;
    let minutes = sixtieth(minutes)?;
    let seconds = sixtieth(seconds)?;
    Some(u128::from(hours) * 3600 + u128::from(minutes) * 60 + u128::from(seconds))
}

// The nanoseconds of the digits after the point.
#[tactic(auto, unfolding(crate::specs::Reading::fraction_of))]
fn fraction(text: &[u8]) -> Option<u64>
    ensures value { result ≡ fraction_of text.now }
    ensures small { IfSome result (λ n. n < 10 ^ 9) }
{
    if text.len() > FRACTION_DIGITS {
        return None;
    }
    let digits = digits_number(text)?;
    Some(digits * 10_u64.pow((FRACTION_DIGITS - text.len()) as u32))
}

// The nanoseconds of a time, as `2.5` or `0:00:02.5`.
#[tactic(auto, unfolding(crate::specs::Reading::time_of))]
pub(crate) fn read_nanos(text: &[u8]) -> Option<u128>
    ensures { result ≡ time_of text.now }
{
    let Some((whole, behind)) = split_once(text, b'.') else {
        let seconds = seconds(text)?;
        return Some(seconds * NANOS_PER_SECOND);
    };
    let seconds = seconds(whole)?;
    let behind = fraction(behind)?;
    Some(seconds * NANOS_PER_SECOND + u128::from(behind))
}
