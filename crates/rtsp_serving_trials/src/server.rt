//! A server in these tests, and what it answers to the requests of a connection.

ghost use Rattle.rtsp_lock.specs.Calls.{IsSeatOf, SameSeat};

use crate::devices::{Drawing, Noting, Ticking};
use rtsp_book::Receipt;
use rtsp_content::Table;
use rtsp_engine::{Asker, Connection, fault_response};
use rtsp_grammar::{MessageFault, Method};
use rtsp_lock::{BookLock, BookSeat, open};
use rtsp_record::{Entry, Record, Whole};
use rtsp_state::Room;
use rtsp_traits::{NoShares, PortSet};
use rtsp_watch::{Told, Witness, push_lent};
use std::alloc::{AllocError, Global};
use std::cell::Cell;
use std::sync::Wait;

/// Further lines of the configuration, how long the journal may be, how many pairs of ports can be
/// bound, the address that packets come from where the player connected to another one, and which
/// other devices work.
#[derive(Clone, Copy)]
pub(crate) struct Server {
    pub(crate) lines: &'static str,
    pub(crate) journal: u32,
    pub(crate) pairs: u16,
    pub(crate) source: Option<u32>,
    pub(crate) words: bool,
    pub(crate) plays: bool,
}

/// A server on which all works.
pub(crate) const SERVER: Server = Server {
    lines: "",
    journal: 1_000,
    pairs: 2,
    source: None,
    words: true,
    plays: true,
};

// What follows the further lines.
const CONFIGURATION: &str = "\
first_port = 5000
pairs = 2
uplink = 160000
sessions = 4
[[presentation]]
name = \"tone\"
units = 500
unit_ms = 20
[[presentation.track]]
name = \"a\"
media = \"audio\"
pt = 0
encoding = \"PCMU\"
clock = 8000
octets = 160
ticks = 160
file = \"tone-a.raw\"
[[presentation.track]]
name = \"b\"
media = \"audio\"
pt = 8
encoding = \"PCMA\"
clock = 8000
octets = 160
ticks = 160
file = \"tone-b.raw\"
";

/// How many requests were told of, and of the last one its status, the first digits of its session,
/// how long method and URI are, and the channel of the last frame before it.
pub(crate) type Seen = (u32, u16, Option<u32>, usize, Option<u8>);

// Who watches the answers.
#[derive(Drop)]
struct Watcher {
    // How many requests were to be answered.
    asked: Cell<u32>,
    // The channel of the last frame.
    channel: Cell<Option<u8>>,
    seen: Cell<Seen>,
}

impl Witness for Watcher {
    fn asked(&self, method: &Method) {
        if !method.as_bytes().is_empty() {
            self.asked.set(self.asked.get().wrapping_add(1));
        }
    }

    fn heard(&self, channel: u8) {
        self.channel.set(Some(channel));
    }

    fn answered(&self, told: &Told<'_>) {
        let asked = told.method.as_bytes().len().saturating_add(told.uri.len());
        self.seen.set((
            self.asked.get(),
            told.status,
            told.session(),
            asked,
            self.channel.get(),
        ));
    }
}

// Who asks, and what is lent to a connection.
#[derive(Drop)]
struct Devices {
    asker: Asker,
    ports: PortSet,
    words: Drawing,
    clock: Ticking,
    plays: Noting,
    watcher: Watcher,
}

impl Devices {
    fn of(alloc: Global, server: Server) -> Result<Devices, AllocError> {
        Ok(Devices {
            asker: Asker {
                conn: 1,
                peer: 0x7f00_0001,
                source: server.source,
            },
            ports: PortSet::open(alloc, 5000, server.pairs)?,
            words: Drawing {
                works: server.words,
                failures: 0,
                streams: 1,
            },
            clock: Ticking { moment: 0 },
            plays: Noting {
                works: server.plays,
                noted: None,
                settled: None,
            },
            watcher: Watcher {
                asked: Cell::new(0),
                channel: Cell::new(None),
                seen: Cell::new((0, 0, None, 0, None)),
            },
        })
    }
}

// Has a piece of a connection's input answered.
fn push<R: AllocGlobal + Wait>(
    rt: &R,
    seat: &mut BookSeat,
    lock: &BookLock,
    table: &Table,
    devices: &mut Devices,
    input: &mut Connection,
    piece: &[u8],
    room: &mut Room,
) -> Result<(), MessageFault>
    requires { IsSeatOf seat.old lock.now }
    ensures { SameSeat seat.old seat.new }
{
    let alloc = rt.alloc();
    let asker = devices.asker;
    let made = &mut Receipt::new();
    let ports = &mut devices.ports;
    let words = &mut devices.words;
    let clock = &mut devices.clock;
    let plays = &mut devices.plays;
    let shares = &mut NoShares;
    let watcher = &devices.watcher;
    push_lent(
        rt, alloc, seat, lock, made, ports, words, clock, plays, shares, table, asker, watcher,
        input, piece, room,
    )
}

// Has the input of a connection answered, which comes in two pieces.
fn answer<R: AllocGlobal + Wait>(
    rt: &R,
    seat: &mut BookSeat,
    lock: &BookLock,
    table: &Table,
    devices: &mut Devices,
    text: &[u8],
    room: &mut Room,
) -> Result<(), MessageFault>
    requires { IsSeatOf seat.old lock.now }
    ensures { SameSeat seat.old seat.new }
{
    let mut input = Connection::new(rt.alloc());
    let (first, second) = text.split_at(text.len() / 2);
    push(rt, seat, lock, table, devices, &mut input, first, room)?;
    push(rt, seat, lock, table, devices, &mut input, second, room)
}

/// What a connection was answered, what was learned of its plays and seen of its requests, and the
/// moments to which the end of its session was moved.
#[derive(Drop)]
pub(crate) struct Talk {
    pub(crate) said: Vec<u8>,
    pub(crate) plays: Noting,
    pub(crate) seen: Seen,
    pub(crate) ends: Vec<u64>,
}

/// A text as it is sent: each line ends with CR LF.
pub(crate) fn as_sent(alloc: Global, text: &str) -> Result<String, AllocError> {
    text.replace(alloc, "\n", "\r\n")
}

/// The configuration of a server with further lines.
pub(crate) fn table_of(alloc: Global, lines: &str) -> Option<Table> {
    let text = format!(in alloc; "[server]\n{lines}\n{CONFIGURATION}");
    Table::read(alloc, text.ok()?.as_bytes()).ok()
}

// The moments to which a journal moves the ends of sessions.
fn ends_in(alloc: Global, journal: &[Entry]) -> Result<Vec<u64>, AllocError> {
    let mut moments = Vec::new(alloc);
    for entry in journal {
        if let Record::Touch(renewal) = entry.change {
            moments.push(renewal.to)?;
        }
    }
    Ok(moments)
}

// The answers, and behind them that to the fault of the input, if it has one.
fn said_in(
    alloc: Global,
    room: &Room,
    pushed: Result<(), MessageFault>,
) -> Result<Vec<u8>, AllocError> {
    let mut said = Vec::from_slice(alloc, room.as_bytes())?;
    if let Err(fault) = pushed {
        said.extend_from_slice(fault_response(fault))?;
    }
    Ok(said)
}

// What the input of a connection is answered, and the devices that were lent to it.
fn answered<R: AllocGlobal + Wait>(
    rt: &R,
    seat: &mut BookSeat,
    lock: &BookLock,
    server: Server,
    table: &Table,
    input: &[u8],
) -> Option<(Vec<u8>, Devices)>
    requires { IsSeatOf seat.old lock.now }
    ensures { SameSeat seat.old seat.new }
{
    let mut devices = Devices::of(rt.alloc(), server).ok()?;
    let mut room = Room::new(rt.alloc());
    let pushed = answer(rt, seat, lock, table, &mut devices, input, &mut room);
    let said = said_in(rt.alloc(), &room, pushed).ok()?;
    Some((said, devices))
}

// Has the input of a connection answered by a server of its own.
fn serve<R: AllocGlobal + Wait>(
    rt: &R,
    server: Server,
    table: &Table,
    input: &[u8],
) -> Option<Talk> {
    let whole = Whole {
        first_port: 5000,
        pairs: 2,
        uplink: 160_000,
        sessions: 4,
        journal: server.journal,
    };
    let (lock, mut seat) = open(rt.alloc(), &whole).ok()?;
    let (said, devices) = answered(rt, &mut seat, &lock, server, table, input)?;
    let kept = seat.finish(rt, lock);
    let ends = ends_in(rt.alloc(), kept.journal()).ok()?;
    let seen = devices.watcher.seen.get();
    Some(Talk {
        said,
        plays: devices.plays,
        seen,
        ends,
    })
}

/// Has the requests of a connection answered by a server of their own.
pub(crate) fn converse<R: AllocGlobal + Wait>(
    rt: &R,
    server: Server,
    requests: &str,
) -> Option<Talk> {
    let table = table_of(rt.alloc(), server.lines)?;
    let input = as_sent(rt.alloc(), requests).ok()?;
    serve(rt, server, &table, input.as_bytes())
}
