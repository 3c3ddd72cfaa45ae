//! What keys ask of each other.

use crate::findings::Explainer;
use crate::keys::{Key, Presence, presentation_keys, server_keys, track_keys};
use crate::lines::{Place, line_of};
use crate::numbers::grouped;
use std::alloc::{AllocError, Global};
use toml::{Table, Value};

// The bytes of media that a packet has at most, and a unit of several.
const MOST_PACKET: i64 = 1_400;

const MOST_UNIT: i64 = 120_000;

// The place of the first of these tables that has a name, counted from 1.
fn place_of(items: &[Value], name: &str) -> Option<usize> {
    let index = items.iter().position(|item| {
        item.get("name").and_then(|value| value.as_str()) == Some(name)
    })?;
    Some(index.saturating_add(1))
}

// The last number of a list.
fn last_of(value: &Value) -> Option<i64> {
    value.as_array()?.as_slice().last()?.as_integer()
}

fn too_many_pairs(alloc: Global, pairs: i64, first: i64, most: i64) -> Result<String, AllocError> {
    let (pairs, most) = (grouped(alloc, pairs)?, grouped(alloc, most)?);
    Ok(format!(in alloc; "is {pairs}; from port {first} there are {most}")?)
}

fn too_great_step(alloc: Global, step: i64, timeout: i64, most: i64) -> Result<String, AllocError> {
    let (step, most) = (grouped(alloc, step)?, grouped(alloc, most)?);
    let timeout = grouped(alloc, timeout)?;
    Ok(format!(in alloc; "is {step}; with timeout {timeout} it has to be at most {most}")?)
}

fn too_great_share(alloc: Global, share: i64, sessions: i64) -> Result<String, AllocError> {
    let (share, sessions) = (grouped(alloc, share)?, grouped(alloc, sessions)?);
    Ok(format!(in alloc; "is {share}; of sessions {sessions} it has to be at most all")?)
}

impl Explainer<'_> {
    /// The number at a key, or its default, where it is right.
    pub(crate) fn right_number(
        &self,
        keys: &[Key],
        table: &Table,
        name: &str,
    ) -> Result<Option<i64>, AllocError> {
        let Some(key) = keys.iter().find(|key| key.name == name) else {
            return Ok(None);
        };
        let Some(value) = table.get(name) else {
            return Ok(match key.presence {
                Presence::Default(number) => Some(number),
                _ => None,
            });
        };
        match key.rule.fault(self.alloc, value, key.what)? {
            None => Ok(value.as_integer()),
            Some(_) => Ok(None),
        }
    }

    /// The numbers at two keys, or their defaults, where both are right.
    pub(crate) fn right_numbers(
        &self,
        keys: &[Key],
        table: &Table,
        one: &str,
        other: &str,
    ) -> Result<Option<(i64, i64)>, AllocError> {
        let Some(one) = self.right_number(keys, table, one)? else {
            return Ok(None);
        };
        let other = self.right_number(keys, table, other)?;
        Ok(other.map(|other| (one, other)))
    }

    /// What a key that is right asks of others, and of the tables of its list that stand before it.
    pub(crate) fn together(
        &mut self,
        table: &Table,
        key: &str,
        place: Place,
        before: &[Value],
    ) -> Result<(), AllocError> {
        match key {
            "pairs" => self.pairs(table),
            "renewal_step" => self.renewal_step(table),
            "sessions_per_address" => self.share(table),
            "name" => self.distinct(table, before, place),
            "starts" => self.starts(table, place),
            "octets" => self.octets(table, place),
            _ => Ok(()),
        }
    }

    /// Users are named only where there is a file of them.
    pub(crate) fn allowed(
        &mut self,
        server: Option<&Table>,
        presentation: &Table,
        place: Place,
    ) -> Result<(), AllocError> {
        let (Some(server), Some(value)) = (server, presentation.get("allow")) else {
            return Ok(());
        };
        if server.get("users").is_some() {
            return Ok(());
        }
        for key in presentation_keys().iter().filter(|key| key.name == "allow") {
            if key.rule.fault(self.alloc, value, key.what)?.is_none() {
                let why = "is there without users in [server], so nobody could prove who it is for";
                self.fault(place, "allow", why)?;
            }
        }
        Ok(())
    }

    // All pairs have port numbers.
    fn pairs(&mut self, server: &Table) -> Result<(), AllocError> {
        let found = self.right_numbers(server_keys(), server, "pairs", "first_port")?;
        let Some((pairs, first)) = found else {
            return Ok(());
        };
        let most = 65_536_i64.saturating_sub(first) / 2;
        if pairs <= most {
            return Ok(());
        }
        let why = too_many_pairs(self.alloc, pairs, first, most)?;
        self.fault(Place::Server, "pairs", why.as_str())
    }

    // The step of renewals is below the timeout.
    fn renewal_step(&mut self, server: &Table) -> Result<(), AllocError> {
        let found = self.right_numbers(server_keys(), server, "renewal_step", "timeout")?;
        let Some((step, timeout)) = found else {
            return Ok(());
        };
        let most = timeout.saturating_mul(1000).saturating_sub(1);
        if step <= most {
            return Ok(());
        }
        let why = too_great_step(self.alloc, step, timeout, most)?;
        self.fault(Place::Server, "renewal_step", why.as_str())
    }

    // A share of the sessions is at most all.
    fn share(&mut self, server: &Table) -> Result<(), AllocError> {
        let found = self.right_numbers(server_keys(), server, "sessions_per_address", "sessions")?;
        let Some((share, sessions)) = found else {
            return Ok(());
        };
        if share <= sessions {
            return Ok(());
        }
        let why = too_great_share(self.alloc, share, sessions)?;
        self.fault(Place::Server, "sessions_per_address", why.as_str())
    }

    // No two tables side by side have one name.
    fn distinct(
        &mut self,
        table: &Table,
        before: &[Value],
        place: Place,
    ) -> Result<(), AllocError> {
        let Some(name) = table.get("name").and_then(|value| value.as_str()) else {
            return Ok(());
        };
        let Some(first) = place_of(before, name) else {
            return Ok(());
        };
        let other = match place {
            Place::Track(presentation, _) => Place::Track(presentation, first),
            _ => Place::Presentation(first),
        };
        let why = match line_of(self.text, other, "name") {
            Some(line) => format!(in self.alloc;
                "is {name:?}, as another one in line {line}; names have to differ"
            )?,
            None => format!(in self.alloc; "is {name:?}, as another one; names have to differ")?,
        };
        self.fault(place, "name", why.as_str())
    }

    // The last start is one of the units.
    fn starts(&mut self, presentation: &Table, place: Place) -> Result<(), AllocError> {
        let Some(last) = presentation.get("starts").and_then(last_of) else {
            return Ok(());
        };
        let Some(units) = self.right_number(presentation_keys(), presentation, "units")? else {
            return Ok(());
        };
        if last < units {
            return Ok(());
        }
        let (last, units) = (grouped(self.alloc, last)?, grouped(self.alloc, units)?);
        let why = format!(in self.alloc; "has {last}; there are {units} units")?;
        self.fault(place, "starts", why.as_str())
    }

    // A unit's octets go into its packets.
    fn octets(&mut self, track: &Table, place: Place) -> Result<(), AllocError> {
        let Some(octets) = self.right_number(track_keys(), track, "octets")? else {
            return Ok(());
        };
        if track.get("packets").is_none() {
            return self.one_packet(octets, place);
        }
        let is_equal = track.get("packing").and_then(|value| value.as_str()) == Some("equal");
        match self.right_number(track_keys(), track, "packets")? {
            Some(packets) if is_equal => self.equal_packets(octets, packets, place),
            _ => Ok(()),
        }
    }

    fn one_packet(&mut self, octets: i64, place: Place) -> Result<(), AllocError> {
        if octets <= MOST_PACKET {
            return Ok(());
        }
        let (octets, most) = (
            grouped(self.alloc, octets)?,
            grouped(self.alloc, MOST_PACKET)?,
        );
        let unit = grouped(self.alloc, MOST_UNIT)?;
        let why = format!(in self.alloc;
            "is {octets}; one packet has at most {most}, and with packets a unit {unit}"
        )?;
        self.fault(place, "octets", why.as_str())
    }

    fn equal_packets(&mut self, octets: i64, packets: i64, place: Place) -> Result<(), AllocError> {
        let most = MOST_PACKET.saturating_mul(packets);
        let is_shared = octets.checked_rem(packets) == Some(0);
        if octets <= most && is_shared {
            return Ok(());
        }
        let (octets, is_above) = (grouped(self.alloc, octets)?, octets > most);
        let most = grouped(self.alloc, most)?;
        let why = match is_above {
            true => format!(in self.alloc;
                "is {octets}; {packets} equal packets have at most {most}"
            )?,
            false => format!(in self.alloc;
                "is {octets}; it has to be a multiple of packets, which is {packets}"
            )?,
        };
        self.fault(place, "octets", why.as_str())
    }
}
