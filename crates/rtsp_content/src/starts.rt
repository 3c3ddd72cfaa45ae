//! Where a play of a presentation may begin.

ghost use Rattle.std.specs.Prelude.{◌≡◌, ◌≤◌, ◌<◌, [], Some, option_map, slice_get, length, IfOk, All};
ghost use Rattle.toml.specs.View.{view, table_view, array_view};
ghost use Rattle.rtsp_text.specs.Results.{Gives, GivesBy};
ghost use Rattle.rtsp_content.specs.declared.fault.TableFault.TheVariants.{OutOfMemory};
ghost use Rattle.rtsp_content.specs.declared.limits.TheConstants.{MAX_UNITS};
ghost use Rattle.rtsp_content.specs.Keys.{item_count};
ghost use Rattle.rtsp_content.specs.Tables.{each_from};
ghost use Rattle.rtsp_content.specs.Starts as starts;
ghost use Rattle.rtsp_content.specs.Starts.{start_above, start_behind};
ghost use Rattle.rtsp_content.specs.StartsValue.{AreStarts, start_at, greatest_to, gap_from, longest_gap};

use crate::fault::TableFault;
use crate::keys::{list, number, value_at};
use crate::limits::MAX_STARTS;
use std::alloc::{AllocError, Global};
use std::marker::Model;
use toml::value::Array;
use toml::{Table, Value};

/// The units at which a play may begin, each of which stands alone, such as a key frame's: all of
/// them where a presentation says none.
#[derive(Drop)]
pub struct Starts {
    pub(crate) units: Option<Vec<u32>>,
}

impl Model for Starts {
    ghost use Rattle.std.specs.Prelude.{ℕ, List, Option, option_map};

    ghost Value = { Option (List ℕ) };

    ghost view = { λ s. option_map (λ v. v.items) s.units };
}

// A copy.
fn copy_of(units: &Vec<u32>) -> Result<Vec<u32>, AllocError>
    ensures { IfOk result (λ v. v.items ≡ units.now.items) }
{
    units.clone()
}

impl Starts {
    // A copy.
    pub(crate) fn copied(&self) -> Result<Starts, AllocError>
        ensures { IfOk result (λ s. s ≡ self.now) }
    {
        match &self.units {
            Some(units) => {
                let units = copy_of(units)?;
                Ok(Starts { units: Some(units) })
            }
            None => Ok(Starts { units: None }),
        }
    }

    // The last of them up to the unit that is asked for. There are few, and they are looked through
    // once a PLAY.
    pub(crate) fn at(&self, asked: u32) -> u32
        ensures { result ≡ start_at self.now asked }
    {
        match &self.units {
            Some(units) => greatest_to(units.as_slice(), asked),
            None => asked,
        }
    }

    // The most units from one to the next, or from the last to the end of so many.
    pub(crate) fn longest_gap(&self, units: u32) -> u32
        ensures { result ≡ longest_gap self.now units }
    {
        match &self.units {
            Some(starts) => gap_in(starts.as_slice(), units),
            None => 1,
        }
    }
}

// The greatest of these that is at most what is asked for, or 0.
fn greatest_to(starts: &[u32], asked: u32) -> u32
    ensures { result ≡ greatest_to starts.now asked }
{
    let mut greatest = 0;
    for start in starts {
        if *start <= asked {
            greatest = greatest.max(*start);
        }
    }
    greatest
}

fn gap_in(starts: &[u32], units: u32) -> u32
    ensures { result ≡ gap_from 0 starts.now units }
{
    let mut longest = 0;
    let mut before = 0;
    for start in starts {
        longest = longest.max(start.saturating_sub(before));
        before = *start;
    }
    longest.max(units.saturating_sub(before))
}

// One more start behind those before.
fn start_behind(units: u32, before: &[u32], value: &Value) -> Result<u32, TableFault>
    requires some { 1 ≤ units }
    requires most { units ≤ MAX_UNITS }
    ensures value { result ≡ start_behind units before.now (view value.now) }
    ensures within { IfOk result (λ s. s < units) }
    ensures first { length before.now ≡ 0 → IfOk result (λ s. s ≡ 0) }
{
    let start = match before.last() {
        None => number(value, 0, 0)?,
        Some(last) => number(value, u64::from(*last) + 1, u64::from(units) - 1)?,
    };
    Ok(start as u32)
}

fn read_starts(alloc: Global, items: &Array, units: u32) -> Result<Vec<u32>, TableFault>
    requires some { 1 ≤ units }
    requires most { units ≤ MAX_UNITS }
    ensures value { GivesBy OutOfMemory (λ v. v.items) result
        (each_from (start_behind units) [] (array_view items.now)) }
    ensures within { IfOk result (λ v. All (λ s. s < units) v.items) }
    ensures first { IfOk result (λ v. 0 < length v.items → slice_get v.items 0 ≡ Some 0) }
    ensures count { IfOk result (λ v. length v.items ≡ item_count (array_view items.now)) }
{
    let mut starts = Vec::new(alloc);
    for value in items {
        let start = start_behind(units, starts.as_slice(), value)?;
        starts.push(start)?;
    }
    Ok(starts)
}

/// What a table of a presentation of so many units says of where a play may begin.
pub(crate) fn starts_at(alloc: Global, table: &Table, units: u32) -> Result<Starts, TableFault>
    requires some { 1 ≤ units }
    requires most { units ≤ MAX_UNITS }
    ensures value { Gives OutOfMemory result (starts.starts_of units (table_view table.now)) }
    ensures within { IfOk result (AreStarts units) }
{
    match value_at(table, "starts") {
        Some(value) => {
            let items = list(value, MAX_STARTS)?;
            Ok(Starts {
                units: Some(read_starts(alloc, items, units)?),
            })
        }
        None => Ok(Starts { units: None }),
    }
}
