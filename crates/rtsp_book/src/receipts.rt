//! What an accepted step recorded.

ghost use Rattle.std.specs.Prelude.{◌≡◌, ◌<◌, ◌≤◌, [], ◌∷◌, ◌++◌, length, filter_map};
ghost use Rattle.rtsp_book.specs.Receipts.{freed_pairs, freed_ports, freed_as};

use rtsp_record::{Id, Life, Record, Thing};
use rtsp_sessions::UdpPorts;
use std::marker::Model;

// No step records more than the end of a session with 16 admissions: a Move, a Drop and two Frees
// for each admission, an Unbind and a Close.
const MOST: usize = 51;

/// The records of an accepted step, in order, at most 51. It is of fixed size and takes no memory.
#[derive(Drop)]
pub struct Receipt {
    records: [Record; MOST],
    len: usize,
}

impl Model for Receipt {
    ghost use Rattle.std.specs.Prelude.{List, take, ◌≤◌};
    ghost use Rattle.rtsp_record.specs.declared.changes.Record.{Record};

    ghost Value = { List Record };

    ghost view = { λ r. take r.len r.records };

    ghost invariant = { λ r. r.len ≤ 51 };
}

impl Receipt {
    /// A receipt without records, to be filled by a step. It may be filled again and again.
    pub fn new() -> Self
        ensures { result ≡ [] }
    {
        // Each of its bytes is 0: the places are cleared at once, and none is written by itself.
        let blank = Record::Open(Life {
            session: 0,
            id: Id::new(0),
            conn: 0,
            expires: 0,
        });
        Receipt {
            records: [blank; MOST],
            len: 0,
        }
    }

    // Forgets the records.
    pub(crate) fn clear(&mut self)
        ensures { self.new ≡ [] }
    {
        self.len = 0;
    }

    pub(crate) fn push(&mut self, change: Record)
        requires { length self.old < 51 }
        ensures { self.new ≡ self.old ++ change ∷ [] }
    {
        self.records[self.len] = change;
        self.len += 1;
    }

    /// The records, in the order in which they were made.
    pub fn records(&self) -> &[Record]
        ensures value { result.now ≡ self.now }
        ensures short { length self.now ≤ 64 }
    {
        &self.records[..self.len]
    }

    /// The pairs of ports that were freed.
    pub fn freed_pairs(&self) -> FreedPorts
        ensures { result ≡ freed_pairs self.now }
    {
        freed_in(self.records(), UdpPorts::Pair)
    }

    /// The ports that were freed, each held by itself.
    pub fn freed_ports(&self) -> FreedPorts
        ensures { result ≡ freed_ports self.now }
    {
        freed_in(self.records(), UdpPorts::Port)
    }
}

/// Pairs of ports, or ports, that were given back, in order, at most 64: each by its first port,
/// with the admission that held it. It is of fixed size and takes no memory.
#[derive(Drop)]
pub struct FreedPorts {
    ports: [(u64, u16); 64],
    len: usize,
}

impl Model for FreedPorts {
    ghost use Rattle.std.specs.Prelude.{ℕ, List, take, ◌≤◌};

    ghost Value = { List (ℕ × ℕ) };

    ghost view = { λ f. take f.len f.ports };

    ghost invariant = { λ f. f.len ≤ 64 };
}

impl FreedPorts {
    fn new() -> Self
        ensures { result ≡ [] }
    {
        FreedPorts {
            ports: [(0, 0); 64],
            len: 0,
        }
    }

    fn push(&mut self, admission: u64, first_port: u16)
        requires { length self.old < 64 }
        ensures { self.new ≡ self.old ++ (admission, first_port) ∷ [] }
    {
        self.ports[self.len] = (admission, first_port);
        self.len += 1;
    }

    /// All of them, in the order in which they were freed.
    pub fn as_slice(&self) -> &[(u64, u16)]
        ensures value { result.now ≡ self.now }
        ensures short { length self.now ≤ 64 }
    {
        &self.ports[..self.len]
    }
}

// What a record frees of such ports, by its first port, with its admission.
fn freed_as(ports: UdpPorts, change: &Record) -> Option<(u64, u16)>
    ensures { result ≡ freed_as ports change.now }
{
    let Record::Free(holding) = change else {
        return None;
    };
    match (ports, holding.thing) {
        (UdpPorts::Pair, Thing::Pair(port)) | (UdpPorts::Port, Thing::Port(port)) => {
            Some((holding.admission, port))
        }
        _ => None,
    }
}

fn freed_in(changes: &[Record], ports: UdpPorts) -> FreedPorts
    requires { length changes.now ≤ 64 }
    ensures { result ≡ filter_map (freed_as ports) changes.now }
{
    let mut freed = FreedPorts::new();
    for change in changes {
        if let Some((admission, first_port)) = freed_as(ports, change) {
            freed.push(admission, first_port);
        }
    }
    freed
}
