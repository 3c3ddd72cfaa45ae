//! The units of the media that a range takes.

ghost use Rattle.std.specs.Prelude.{◌≡◌, ◌<◌, ◌≤◌, ◌↔◌, IfOk, IsErr};
ghost use Rattle.rtsp_npt.specs.Units.{start_unit, stop_unit, is_backwards, units_of};
ghost use Rattle.rtsp_npt.specs.Units.{TakesUnits, IsOutOfMedia};

use crate::fault::OutOfMedia;
use crate::range::Range;
use crate::unit_length::UnitLength;

/// The units from `from` on and before `stop`, counted from 0.
#[derive(Clone, Copy)]
pub struct Span {
    pub from: u32,
    pub stop: u32,
}

impl Range {
    // The unit at which the range starts, which may be after the media.
    fn start_unit(self, resume: u32, unit_ms: u32) -> u128
        requires { 0 < unit_ms }
        ensures { result ≡ start_unit self.start resume unit_ms }
    {
        match self.start {
            None => u128::from(resume),
            Some(start) => start.unit(unit_ms),
        }
    }

    // The unit before which the range stops.
    fn stop_unit(self, unit_ms: u32, units: u32) -> u32
        requires { 0 < unit_ms }
        ensures { result ≡ stop_unit self.stop unit_ms units }
    {
        match self.stop {
            None => units,
            Some(stop) => stop.units(unit_ms).min(u128::from(units)) as u32,
        }
    }

    // Whether a written stop is not above the start. The range stops before the unit `end`.
    fn is_backwards(self, resume: u32, end: u32) -> bool
        ensures { result ≡ is_backwards self.start self.stop resume end }
    {
        match (self.start, self.stop) {
            (_, None) => false,
            (None, Some(_)) => end <= resume,
            (Some(start), Some(stop)) => stop <= start,
        }
    }
}

// The units of the range, as `resolve` gives them.
#[tactic(auto, unfolding(crate::specs::Units::units_of))]
fn units_of(range: Range, resume: u32, unit_ms: u32, units: u32) -> Result<Span, OutOfMedia>
    requires { 0 < unit_ms }
    ensures { result ≡ units_of range resume unit_ms units }
{
    let start = range.start_unit(resume, unit_ms);
    let stop = range.stop_unit(unit_ms, units);
    let backwards = range.is_backwards(resume, stop);
    if start >= u128::from(units) || backwards {
        return Err(OutOfMedia);
    }
    Ok(Span {
        from: start as u32,
        stop,
    })
}

/// The units of a range, of which there is one at least. The media has `units` units of this
/// length; a range without a start begins at the unit `resume`. The start is rounded down to a unit
/// and the stop up, at most to the end.
///
/// A range that starts at the end or later, or that stops no later than it starts, is refused.
pub fn resolve(
    range: Range,
    resume: u32,
    unit_ms: UnitLength,
    units: u32,
) -> Result<Span, OutOfMedia>
    ensures value { result ≡ units_of range resume unit_ms units }
    ensures units { IfOk result (λ taken. TakesUnits range resume unit_ms units taken.from taken.stop) }
    ensures within { IfOk result (λ taken. (taken.from < taken.stop) × (taken.stop ≤ units)) }
    ensures outside { IsErr result ↔ IsOutOfMedia range resume unit_ms units }
{
    units_of(range, resume, unit_ms.ms(), units)
}
