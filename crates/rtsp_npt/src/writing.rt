//! Writing times and ranges.

ghost use Rattle.std.specs.Prelude.{◌≡◌, ◌≤◌, ◌++◌, vec_capacity, IsOk, OnOk, OnErr};
ghost use Rattle.rtsp_text.specs.Appending.{Appends, HasRoom};
ghost use Rattle.rtsp_npt.specs.Printed.{millis_text, time_text, range_text, stop_text};

use crate::unit_length::UnitLength;
use rtsp_text::{all_or_nothing, three_digits, write_decimal};
use std::alloc::AllocError;

// Seconds with three decimals. The pieces before a refused one stay.
#[tactic(auto, unfolding(crate::specs::Printed::millis_text))]
fn put_millis(out: &mut Vec<u8>, ms: u64) -> Result<(), AllocError>
    ensures text { Appends result out.old.items out.new.items (millis_text ms) }
    ensures capacity { vec_capacity out.old ≤ vec_capacity out.new }
    ensures succeeds { HasRoom out.old (millis_text ms) → IsOk result }
{
    write_decimal(out, ms / 1000)?;
    out.push(b'.')?;
    out.extend_from_slice(&three_digits(ms))
}

fn put_time(out: &mut Vec<u8>, unit: u32, unit_ms: UnitLength) -> Result<(), AllocError>
    ensures text { Appends result out.old.items out.new.items (time_text unit unit_ms) }
    ensures capacity { vec_capacity out.old ≤ vec_capacity out.new }
    ensures succeeds { HasRoom out.old (time_text unit unit_ms) → IsOk result }
{
    put_millis(out, u64::from(unit) * u64::from(unit_ms.ms()))
}

fn put_range(out: &mut Vec<u8>, from: u32, stop: u32, unit_ms: UnitLength) -> Result<(), AllocError>
    ensures text { Appends result out.old.items out.new.items (range_text from stop unit_ms) }
    ensures capacity { vec_capacity out.old ≤ vec_capacity out.new }
    ensures succeeds { HasRoom out.old (range_text from stop unit_ms) → IsOk result }
{
    out.extend_from_slice(b"npt=")?;
    put_time(out, from, unit_ms)?;
    out.push(b'-')?;
    put_time(out, stop, unit_ms)
}

fn put_stop(out: &mut Vec<u8>, stop: u32, unit_ms: UnitLength) -> Result<(), AllocError>
    ensures text { Appends result out.old.items out.new.items (stop_text stop unit_ms) }
    ensures capacity { vec_capacity out.old ≤ vec_capacity out.new }
    ensures succeeds { HasRoom out.old (stop_text stop unit_ms) → IsOk result }
{
    out.extend_from_slice(b"npt=-")?;
    put_time(out, stop, unit_ms)
}

/// Writes at the end of `out` the time at which a unit begins, as `2.500`. A refused write leaves
/// `out` as it was.
pub fn write_time(out: &mut Vec<u8>, unit: u32, unit_ms: UnitLength) -> Result<(), AllocError>
    ensures ok { OnOk result (out.new.items ≡ out.old.items ++ time_text unit unit_ms) }
    ensures err { OnErr result (out.new.items ≡ out.old.items) }
    ensures capacity { vec_capacity out.old ≤ vec_capacity out.new }
    // It takes no memory where there is room.
    ensures succeeds { HasRoom out.old (time_text unit unit_ms) → IsOk result }
{
    let len = out.len();
    let written = put_time(out, unit, unit_ms);
    all_or_nothing(out, len, written)
}

/// Writes the range of the units from `from` on and before `stop`, as `npt=2.500-10.000`. A
/// refused write leaves `out` as it was.
pub fn write_range(
    out: &mut Vec<u8>,
    from: u32,
    stop: u32,
    unit_ms: UnitLength,
) -> Result<(), AllocError>
    ensures ok { OnOk result (out.new.items ≡ out.old.items ++ range_text from stop unit_ms) }
    ensures err { OnErr result (out.new.items ≡ out.old.items) }
    ensures capacity { vec_capacity out.old ≤ vec_capacity out.new }
    // It takes no memory where there is room.
    ensures succeeds { HasRoom out.old (range_text from stop unit_ms) → IsOk result }
{
    let len = out.len();
    let written = put_range(out, from, stop, unit_ms);
    all_or_nothing(out, len, written)
}

/// Writes the range up to unit `stop` that has no start, as `npt=-10.000`. A refused write leaves
/// `out` as it was.
pub fn write_stop(out: &mut Vec<u8>, stop: u32, unit_ms: UnitLength) -> Result<(), AllocError>
    ensures ok { OnOk result (out.new.items ≡ out.old.items ++ stop_text stop unit_ms) }
    ensures err { OnErr result (out.new.items ≡ out.old.items) }
    ensures capacity { vec_capacity out.old ≤ vec_capacity out.new }
    // It takes no memory where there is room.
    ensures succeeds { HasRoom out.old (stop_text stop unit_ms) → IsOk result }
{
    let len = out.len();
    let written = put_stop(out, stop, unit_ms);
    all_or_nothing(out, len, written)
}
