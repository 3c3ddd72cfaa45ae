//! How the packets of a unit stand in the file of a track.

ghost use Rattle.std.specs.Prelude.{◌≡◌, ◌≤◌, codes, IfOk};
ghost use Rattle.toml.specs.Data.{get_member};
ghost use Rattle.toml.specs.View.{view, table_view};
ghost use Rattle.rtsp_content.specs.declared.limits.TheConstants.{MAX_PACKETS, MAX_UNIT_OCTETS, REPORT_RATE};
ghost use Rattle.rtsp_content.specs.Packing as packing;
ghost use Rattle.rtsp_content.specs.Packing.{as_packing, packing_in};
ghost use Rattle.rtsp_content.specs.PackingLimits.{packet_count, most_octets, is_shared, unit_len, report_rate};

use crate::fault::TableFault;
use crate::keys::{optional_number_at, value_at};
use crate::limits::{MAX_OCTETS, MAX_PACKETS, MAX_UNIT_OCTETS, REPORT_RATE, SLOT_HEAD};
use toml::{Table, Value};

/// How the packets of a unit stand in the file of a track.
#[derive(Clone, Copy, PartialEq, Eq)]
pub enum Packing {
    /// A unit is the payload of one packet.
    Single,

    /// A unit is a slot of up to so many packets. Each stands behind a head of eight bytes: its
    /// length and its flags, of which 1 is the marker bit, in two bytes each, and in four the clock
    /// ticks from the unit's timestamp to its own, modulo 2^32. A length of 0 ends the slot, and what
    /// is behind it counts for nothing.
    Slots(u16),

    /// A unit is the payloads of so many packets of one length, one behind another.
    Equal(u16),
}

impl Packing {
    /// How many packets a unit has, or has at most.
    pub fn packet_count(self) -> u16
        ensures { result ≡ packet_count self }
    {
        match self {
            Packing::Single => 1,
            Packing::Slots(packets) | Packing::Equal(packets) => packets,
        }
    }

    // How many bytes of media a unit may have.
    pub(crate) fn most_octets(self) -> u64
        ensures value { result ≡ most_octets self }
        ensures most { result ≤ MAX_UNIT_OCTETS }
    {
        match self {
            Packing::Single => MAX_OCTETS,
            Packing::Slots(_) => MAX_UNIT_OCTETS,
            Packing::Equal(packets) => (u64::from(packets) * MAX_OCTETS).min(MAX_UNIT_OCTETS),
        }
    }

    // Whether packets of one length share so many octets.
    pub(crate) fn is_shared(self, octets: u64) -> bool
        requires { 1 ≤ packet_count self }
        ensures { result ≡ is_shared self octets }
    {
        match self {
            Packing::Single | Packing::Slots(_) => true,
            Packing::Equal(packets) => octets % u64::from(packets) == 0,
        }
    }

    /// How many bytes a unit of so many octets takes in its file.
    pub fn unit_len(self, octets: u32) -> u32
        requires { octets ≤ MAX_UNIT_OCTETS }
        ensures { result ≡ unit_len self octets }
    {
        match self {
            Packing::Slots(packets) => SLOT_HEAD * u32::from(packets) + octets,
            Packing::Single | Packing::Equal(_) => octets,
        }
    }

    // The bits per second of a stream's sender reports.
    pub(crate) fn report_rate(self) -> u64
        ensures value { result ≡ report_rate self }
        ensures most { result ≤ REPORT_RATE }
    {
        match self {
            Packing::Single => 0,
            Packing::Slots(_) | Packing::Equal(_) => REPORT_RATE,
        }
    }
}

fn packing_named(packets: u16, value: &Value) -> Result<Packing, TableFault>
    ensures value { result ≡ as_packing packets (view value.now) }
    ensures count { IfOk result (λ p. packet_count p ≡ packets) }
{
    let Some(word) = value.as_str() else {
        return Err(TableFault::BadValue);
    };
    if word == "slots" {
        Ok(Packing::Slots(packets))
    } else if word == "equal" {
        Ok(Packing::Equal(packets))
    } else {
        Err(TableFault::BadValue)
    }
}

fn packing_in(table: &Table, packets: u16) -> Result<Packing, TableFault>
    ensures value { result ≡ packing_in packets (get_member (codes "packing") (table_view table.now)) }
    ensures count { IfOk result (λ p. packet_count p ≡ packets) }
{
    match value_at(table, "packing") {
        Some(value) => packing_named(packets, value),
        None => Ok(Packing::Slots(packets)),
    }
}

/// What a table of a track says of its packets: one a unit where it says nothing.
pub(crate) fn packing_at(table: &Table) -> Result<Packing, TableFault>
    ensures value { result ≡ packing.packing_of (table_view table.now) }
    ensures range { IfOk result (λ p. (1 ≤ packet_count p) × (packet_count p ≤ MAX_PACKETS)) }
{
    match optional_number_at(table, "packets", 1, MAX_PACKETS)? {
        Some(packets) => packing_in(table, packets as u16),
        None => Ok(Packing::Single),
    }
}
