//! Plays over a port of this host, to their end or until their session leaves them. The PAUSE names a
//! moment that is still to come, so that not all units that it counts have gone.

ghost use Rattle.std.specs.Prelude.{◌≡◌, ◌<◌};
ghost use Rattle.rtsp_book.specs.Replies.{IsAskable};
ghost use Rattle.rtsp_lock.specs.Calls.{IsSeatOf, SameSeat};

use crate::devices::Ticking;
use crate::ports::free_port;
use crate::session::{PAUSE, act, begin, resume, seek};
use crate::sockets::Connected;
use crate::tone::{media_of, tone};
use rtsp_book::Step;
use rtsp_engine::{Binder, Plays};
use rtsp_lock::{BookLock, BookSeat, open};
use rtsp_log::Log;
use rtsp_metrics::{Audience, Counters};
use rtsp_pacing::{Bells, NotedPlays, Paced, PacerParts, PacerPlays, PacerRoom, pace};
use rtsp_record::{Phase, Whole};
use rtsp_sockets::{Content, Contents, Decisions, Outlet, Outlets, PortBinder, PortTable};
use std::alloc::{AllocError, Global};
use std::fs::File;
use std::io::{self, Read};
use std::net::{Ipv4Addr, Net, TcpListener, TcpStream, UdpSocket};
use std::process::Abort;
use std::rt::{Clock, Files};
use std::sync::{Arc, Wait};
use std::thread;
use std::thread::Threads;
use std::time::{Duration, Instant};

// When the session leaves its play.
#[derive(Clone, Copy, PartialEq, Eq)]
enum Leaving {
    // It doesn't.
    Never,
    // It pauses while the play is sent.
    Late,
    // It has paused before the pacer hears of the play.
    Early,
    // It has sought, and then paused, before the pacer hears of either play.
    Sought,
    // It seeks and pauses while the play is sent, and the pacer hears of the other play later.
    Unheard,
    // The same, and the pacer hears of the other play when it would have given up a play that a pause
    // left.
    UnheardForLong,
    // It plays on where it is, and pauses, and the pacer hears of that play later.
    Resumed,
    // It pauses while the play is sent, by a moment long before it has the book.
    Decided,
}

// The bytes of the units that came, by the packets' numbers from 250 on, and how many packets.
#[derive(Clone, Copy)]
struct Came {
    units: [u8; 8],
    count: usize,
    is_in_order: bool,
    // Whether the player is told that the play has ended.
    is_told: bool,
}

impl Came {
    // Takes a packet of a unit, if one comes. Whether one came.
    fn take(&mut self, media: &UdpSocket) -> bool {
        let mut packet = [0; 100];
        let Ok(14) = media.recv(&mut packet) else {
            return false;
        };
        let place = usize::from(packet[3].wrapping_sub(250));
        if place < 8 && self.units[place] == 0 && packet[12] == packet[13] {
            self.units[place] = packet[12];
            self.is_in_order &= place == self.count;
        }
        self.count = self.count.saturating_add(1);
        true
    }

    // Whether these units came, each once, and nothing else.
    fn is_all(&self, units: &str) -> bool {
        self.count == units.len() && self.units.starts_with(units.as_bytes())
    }
}

// Whoever plays: its connection, where its packets come, and the outlet to it.
#[derive(Drop)]
struct Player {
    stream: TcpStream,
    media: UdpSocket,
    outlets: Outlets,
}

fn outlets_to<R: Wait>(rt: &R, alloc: Global, outlet: Outlet) -> Option<Outlets> {
    let outlets = Outlets::new(alloc);
    outlets.insert(rt, 1, Arc::new(alloc, outlet).ok()?).ok()?;
    Some(outlets)
}

fn socket_of<R: Net>(rt: &R) -> io::Result<UdpSocket> {
    let media = UdpSocket::bind(rt, "127.0.0.1:0")?;
    media.set_read_timeout(Some(Duration::from_secs(2)))?;
    Ok(media)
}

impl Player {
    fn open<R: Net<Listener = TcpListener, Stream = TcpStream> + Wait + AllocGlobal>(
        rt: &R,
    ) -> Option<Player> {
        let (stream, outlet) = Connected::open(rt, rt.alloc()).ok()?.into_parts();
        let outlets = outlets_to(rt, rt.alloc(), outlet)?;
        stream.set_read_timeout(Some(Duration::from_secs(5))).ok()?;
        Some(Player {
            stream,
            media: socket_of(rt).ok()?,
            outlets,
        })
    }

    // Whether the player is told something, which has to be that its play has ended.
    fn is_told(&self) -> bool {
        let mut from = &self.stream;
        let mut told = [0; 100];
        from.read(&mut told).is_ok() && told.starts_with(b"PLAY_NOTIFY rtsp://h/tone RTSP/2.0\r\n")
    }
}

// Ports of which a pair is bound.
fn bound<R: Net + Wait + AllocGlobal>(rt: &R, pair: u16) -> Option<PortTable> {
    let ports = PortTable::open(rt.alloc(), pair, 1).ok()?;
    let is_bound = PortBinder::new(rt, &ports, Ipv4Addr::LOCALHOST)
        .bind(3, pair)
        .is_ok();
    is_bound.then_some(ports)
}

// The server's ports and pacers, and whoever plays.
#[derive(Drop)]
struct Stage {
    ports: PortTable,
    bells: Bells,
    decisions: Decisions,
    player: Player,
}

impl Stage {
    // One whose pair is bound.
    fn open<R: Net<Listener = TcpListener, Stream = TcpStream> + Wait + AllocGlobal>(
        rt: &R,
        pair: u16,
    ) -> Option<Stage> {
        Some(Stage {
            ports: bound(rt, pair)?,
            bells: Bells::new(rt.alloc(), 1, 4).ok()?,
            decisions: Decisions::open(rt.alloc(), 1).ok()?,
            player: Player::open(rt)?,
        })
    }
}

// Hands a play of the session over to the pacers, that of the phase that its PLAY made.
fn hand_over<R: Wait + AllocGlobal>(
    rt: &R,
    bells: &Bells,
    phase: Option<Phase>,
) -> Result<(), AllocError> {
    let mut plays = NotedPlays::new(rt.alloc());
    plays.note(rt.alloc(), 2, 5, b"rtsp://h/tone")?;
    plays.settle(phase);
    plays.hand_over(rt, bells, 1);
    Ok(())
}

// Hands the play over, and does what is done before the pacer hears of it.
fn prepare<R: Wait + AllocGlobal>(
    rt: &R,
    lock: &BookLock,
    seat: &mut BookSeat,
    bells: &Bells,
    leaving: Leaving,
) -> Result<(), AllocError>
    requires { IsSeatOf seat.old lock.now }
    ensures { SameSeat seat.old seat.new }
{
    hand_over(rt, bells, seat.phase(rt, lock, 2))?;
    if leaving == Leaving::Sought {
        act(rt, lock, seat, &seek());
        hand_over(rt, bells, seat.phase(rt, lock, 2))?;
    }
    if leaving == Leaving::Early || leaving == Leaving::Sought {
        act(rt, lock, seat, &PAUSE);
    }
    Ok(())
}

// Begins another play and pauses. The pacer hears of that play once a unit was due, so many milliseconds
// later.
fn leave_unheard<R: Wait + Clock + AllocGlobal>(
    rt: &R,
    lock: &BookLock,
    seat: &mut BookSeat,
    bells: &Bells,
    play: &Step,
    later: u64,
) -> bool
    requires own { IsSeatOf seat.old lock.now }
    requires step { IsAskable play.now }
{
    act(rt, lock, seat, play);
    let begun = seat.phase(rt, lock, 2);
    act(rt, lock, seat, &PAUSE);
    thread::sleep(rt, Duration::from_millis(later));
    hand_over(rt, bells, begun).is_ok()
}

// Pauses by a moment after which more units are due before the session is paused.
fn pause_late<R: Wait + Clock>(
    rt: &R,
    lock: &BookLock,
    seat: &mut BookSeat,
    decisions: &Decisions,
) -> bool
    requires { IsSeatOf seat.old lock.now }
{
    let lane = decisions.of(0);
    lane.begin(&mut Ticking { moment: 0 });
    thread::sleep(rt, Duration::from_millis(300));
    let is_done = act(rt, lock, seat, &PAUSE);
    lane.end();
    is_done
}

// Does what is done once the first packet has come.
fn leave<R: Wait + Clock + AllocGlobal>(
    rt: &R,
    lock: &BookLock,
    seat: &mut BookSeat,
    stage: &Stage,
    leaving: Leaving,
) -> bool
    requires { IsSeatOf seat.old lock.now }
{
    let bells = &stage.bells;
    match leaving {
        Leaving::Never | Leaving::Early | Leaving::Sought => true,
        Leaving::Late => act(rt, lock, seat, &PAUSE),
        Leaving::Unheard => leave_unheard(rt, lock, seat, bells, &seek(), 300),
        Leaving::UnheardForLong => leave_unheard(rt, lock, seat, bells, &seek(), 900),
        Leaving::Resumed => leave_unheard(rt, lock, seat, bells, &resume(), 300),
        Leaving::Decided => pause_late(rt, lock, seat, &stage.decisions),
    }
}

// Receives packets until none comes for a while, and what is told at the end of a play. Meanwhile the
// session leaves the play.
fn receive<R: Wait + Clock + AllocGlobal>(
    rt: &R,
    lock: &BookLock,
    seat: &mut BookSeat,
    stage: &Stage,
    leaving: Leaving,
) -> Came
    requires { IsSeatOf seat.old lock.now }
{
    let mut came = Came {
        units: [0; 8],
        count: 0,
        is_in_order: true,
        is_told: false,
    };
    if came.take(&stage.player.media) && leave(rt, lock, seat, stage, leaving) {
        for _ in 0..7 {
            if !came.take(&stage.player.media) {
                break;
            }
        }
    }
    if leaving == Leaving::Never {
        came.is_told = stage.player.is_told();
    }
    stage.bells.stop(rt);
    came
}

// Runs a pacer beside a player.
fn run<'a, R: Threads + Wait + Clock + AllocGlobal + Sync>(
    rt: &'a R,
    parts: PacerParts<'a>,
    memory: (PacerPlays, PacerRoom),
    seats: (BookSeat, BookSeat),
    stage: &Stage,
    leaving: Leaving,
) -> (Paced, Came)
    requires pacer { IsSeatOf seats.0 parts.lock.now }
    requires player { IsSeatOf seats.1 parts.lock.now }
{
    let (seat, mut own) = seats;
    let (plays, room) = memory;
    let lock = parts.lock;
    thread::join(
        rt,
        move || -> Paced
            requires { IsSeatOf seat parts.lock.now }
        { pace(rt, rt.alloc(), parts, seat, plays, room) },
        || -> Came
            requires { IsSeatOf own lock.now }
        { receive(rt, lock, &mut own, stage, leaving) },
    )
}

fn whole(pair: u16) -> Whole
    ensures first { result.first_port ≡ pair }
    ensures pairs { result.pairs ≡ 1 }
{
    Whole {
        first_port: pair,
        pairs: 1,
        uplink: 160_000,
        sessions: 4,
        journal: 1_000,
    }
}

// What is served.
#[derive(Clone, Copy)]
struct Served<'a> {
    contents: &'a Contents,
    stage: &'a Stage,
}

// What a pacer sends of the plays that were handed over, and what comes of them.
fn paced<R: Threads + Wait + Clock + AllocGlobal + Sync>(
    rt: &R,
    served: Served<'_>,
    lock: &BookLock,
    seats: (BookSeat, BookSeat),
    begun: Instant,
    leaving: Leaving,
) -> Option<(Paced, Came)>
    requires pacer { IsSeatOf seats.0 lock.now }
    requires player { IsSeatOf seats.1 lock.now }
{
    let Served { contents, stage } = served;
    let counters = Counters::new();
    let audience = Audience::open(rt.alloc(), 1).ok()?;
    let log = Log::new(rt.alloc(), 1, false).ok()?;
    let parts = PacerParts {
        lock,
        uplink: 160_000,
        ports: &stage.ports,
        outlets: &stage.player.outlets,
        contents,
        bell: stage.bells.of(2)?,
        decisions: &stage.decisions,
        counters: &counters,
        audience: &audience,
        log: &log,
        begun,
    };
    let plays = PacerPlays::open(rt.alloc(), 4).ok()?;
    let room = PacerRoom::open(rt.alloc()).ok()?;
    let (paced, came) = run(rt, parts, (plays, room), seats, stage, leaving);
    let packets = counters.read().packets;
    (packets.sent == paced.packets && packets.lost == 0).then_some((paced, came))
}

// The same of a play over a pair that is bound.
fn sent<R: Threads + Wait + Clock + AllocGlobal + Sync>(
    rt: &R,
    served: Served<'_>,
    pair: u16,
    leaving: Leaving,
) -> Option<(Paced, Came)>
    requires { pair < 65000 }
{
    let (lock, mut seat) = open(rt.alloc(), &whole(pair)).ok()?;
    let mut own = seat.split(rt, &lock).ok()?;
    let begun = Instant::now(rt).ok()?;
    let port = served.stage.player.media.local_addr().ok()?.port();
    if !begin(rt, &lock, &mut seat, pair, port) {
        return None;
    }
    prepare(rt, &lock, &mut own, &served.stage.bells, leaving).ok()?;
    paced(rt, served, &lock, (seat, own), begun, leaving)
}

// When a play is left, and the units that come of it.
const PLAYS: &str = "\
never: abcdefgh
late: abc
early: abc
sought: abfg
unheard: abfg
unheard for long: abfg
resumed: abcd
decided: abc
";

fn leaving_of(word: &str) -> Leaving {
    match word {
        "late" => Leaving::Late,
        "early" => Leaving::Early,
        "sought" => Leaving::Sought,
        "unheard" => Leaving::Unheard,
        "unheard for long" => Leaving::UnheardForLong,
        "resumed" => Leaving::Resumed,
        "decided" => Leaving::Decided,
        _ => Leaving::Never,
    }
}

// Whether a pacer sent just these units. Whoever plays to the end hears all of one play in order, and is
// told.
fn is_just(paced: &Paced, came: &Came, leaving: Leaving, units: &str) -> bool {
    let is_whole = leaving == Leaving::Never;
    let done = [paced.packets, paced.lost, paced.failures, paced.reported];
    came.is_all(units)
        && came.is_told == is_whole
        && (!is_whole || came.is_in_order && paced.plays == 1)
        && done == [units.len() as u64, 0, 0, u64::from(is_whole)]
}

// Whether what a row says comes of a play.
fn comes_so<
    R: Threads
        + Wait
        + Clock
        + Net<Listener = TcpListener, Stream = TcpStream>
        + AllocGlobal
        + Sync,
>(rt: &R, contents: &Contents, row: &str) -> Option<bool> {
    let (word, units) = row.split_once(": ")?;
    let leaving = leaving_of(word);
    let pair = free_port(rt).ok()?;
    let stage = &Stage::open(rt, pair)?;
    let served = Served { contents, stage };
    let (paced, came) = sent(rt, served, pair, leaving)?;
    Some(is_just(&paced, &came, leaving, units))
}

fn all_come<
    R: Abort
        + Threads
        + Wait
        + Clock
        + Files<File = File>
        + Net<Listener = TcpListener, Stream = TcpStream>
        + AllocGlobal
        + Sync,
>(rt: &R, path: &str) -> Option<()> {
    let table = tone(rt.alloc(), path)?;
    let media = media_of(rt, &table, path)?;
    let content = Content {
        table,
        media,
        allowed: None,
    };
    let contents = Contents::open(rt.alloc(), content).ok()?;
    for row in PLAYS.lines() {
        assert!(rt; comes_so(rt, &contents, row) == Some(true), "{row}");
    }
    Some(())
}

#[test]
fn what_was_counted_is_sent(rt: HostRuntime) {
    assert!(rt; all_come(&rt, "rtsp_serving_plays.raw").is_some());
}
