//! The packets that stand in a unit of several.

ghost use Rattle.std.specs.Prelude.{◌≡◌, ◌≤◌, ◌+◌, length, IfOk, IfSome};
ghost use Rattle.rtsp_content.specs.declared.limits.TheConstants.{MAX_OCTETS};
ghost use Rattle.rtsp_content.specs.PackingLimits.{packet_count};
ghost use Rattle.rtsp_rtp.specs.Parts.{part_at, slot_at, equal_at};

use rtsp_content::{MAX_OCTETS, Packing, SLOT_HEAD};
use thiserror::Error;

/// What is wrong with a unit of several packets.
#[derive(Clone, Copy, Debug, PartialEq, Eq, Error)]
pub enum SlotFault {
    /// A packet is longer than a packet may be.
    #[error("a packet of a unit is too long")]
    TooLong,

    /// A packet goes on behind the end of the unit.
    #[error("a packet of a unit is cut off")]
    Cut,

    /// The flags of a packet are neither 0 nor 1.
    #[error("a packet of a unit has wrong flags")]
    BadFlags,
}

// A packet of a unit: where its payload is, and what its header has of it.
#[derive(Clone, Copy, PartialEq, Eq)]
pub(crate) struct Part {
    pub(crate) start: usize,
    pub(crate) end: usize,
    pub(crate) marker: bool,
    // Clock ticks from the unit's timestamp to the packet's, modulo 2^32.
    pub(crate) offset: u32,
}

// The packet whose head stands at a place of a slot. None where the length is 0, or where there is no
// room for a head.
fn slot_at(unit: &[u8], at: usize) -> Result<Option<Part>, SlotFault>
    requires { at ≤ length unit.now }
    ensures value { result ≡ slot_at unit.now at }
    ensures there { IfOk result (λ o. IfSome o (λ p. (p.start ≤ p.end) × (p.end ≤ length unit.now) × (p.end ≤ p.start + MAX_OCTETS))) }
{
    let head = SLOT_HEAD as usize;
    if unit.len() - at < head {
        return Ok(None);
    }
    let len = usize::from(u16::from_be_bytes([unit[at], unit[at + 1]]));
    if len == 0 {
        return Ok(None);
    }
    if MAX_OCTETS < len as u64 {
        return Err(SlotFault::TooLong);
    }
    let start = at + head;
    if unit.len() - start < len {
        return Err(SlotFault::Cut);
    }
    let flags = u16::from_be_bytes([unit[at + 2], unit[at + 3]]);
    if 1 < flags {
        return Err(SlotFault::BadFlags);
    }
    Ok(Some(Part {
        start,
        end: start + len,
        marker: flags == 1,
        offset: u32::from_be_bytes([unit[at + 4], unit[at + 5], unit[at + 6], unit[at + 7]]),
    }))
}

// The packet of a unit of so many of one length at a place, behind `index` others.
fn equal_at(
    packets: u16,
    ticks: u32,
    unit: &[u8],
    index: u16,
    at: usize,
) -> Result<Option<Part>, SlotFault>
    requires some { 1 ≤ packets }
    requires within { at ≤ length unit.now }
    ensures value { result ≡ equal_at packets ticks unit.now index at }
    ensures there { IfOk result (λ o. IfSome o (λ p. (p.start ≤ p.end) × (p.end ≤ length unit.now) × (p.end ≤ p.start + MAX_OCTETS))) }
{
    let len = unit.len() / usize::from(packets);
    if MAX_OCTETS < len as u64 {
        return Err(SlotFault::TooLong);
    }
    if unit.len() - at < len {
        return Ok(None);
    }
    let later = u64::from(index) * u64::from(ticks) / u64::from(packets);
    Ok(Some(Part {
        start: at,
        end: at + len,
        marker: false,
        offset: (later % (1 << 32)) as u32,
    }))
}

// The packet of a unit at a place, behind `index` others.
pub(crate) fn part_at(
    packing: Packing,
    ticks: u32,
    unit: &[u8],
    index: u16,
    at: usize,
) -> Result<Option<Part>, SlotFault>
    requires some { 1 ≤ packet_count packing }
    requires within { at ≤ length unit.now }
    ensures value { result ≡ part_at packing ticks unit.now index at }
    ensures there { IfOk result (λ o. IfSome o (λ p. (p.start ≤ p.end) × (p.end ≤ length unit.now) × (p.end ≤ p.start + MAX_OCTETS))) }
{
    match packing {
        Packing::Single => Ok(None),
        Packing::Slots(_) => slot_at(unit, at),
        Packing::Equal(packets) => equal_at(packets, ticks, unit, index, at),
    }
}
