//! A small book of several seats, and whoever writes its history into memory.

ghost use Rattle.rtsp_book.specs.Replies.{IsAskable};
ghost use Rattle.rtsp_lock.specs.Calls.{IsSeatOf, SameSeat};

use crate::steps::{self, Scene, Step};
use rtsp_book::{Life, PlainBook, Receipt};
use rtsp_chronicle::{
    Chronicler, JournalSink, MemorySink, Pause, Plan, Turned, last_turn, run_scribe,
};
use rtsp_journal_text::read_journal;
use rtsp_lock::{BookLock, BookSeat, Then, open};
use rtsp_record::{Entry, Id, Whole};
use rtsp_undo::replay;
use std::alloc::Global;
use std::fs::File;
use std::net::{Net, TcpListener, TcpStream};
use std::process::Abort;
use std::rt::{Clock, Files};
use std::sync::Wait;

/// A small server.
pub const SMALL: Whole = Whole {
    first_port: 5000,
    pairs: 2,
    uplink: 160_000,
    sessions: 4,
    journal: 1_000,
};

/// The entries of a file, if it is a legal journal.
pub fn entries(alloc: Global, bytes: &[u8]) -> Option<Vec<Entry>> {
    let read = read_journal(alloc, bytes).ok()?;
    let kept = replay::<PlainBook>(alloc, &SMALL, read).ok()?;
    let mut all = Vec::new(alloc);
    all.extend_from_slice(kept.journal()).ok()?;
    Some(all)
}

fn opening(session: u64) -> rtsp_book::Step
    ensures { IsAskable result }
{
    rtsp_book::Step::Open(Life {
        session,
        id: Id::new(u128::from(session)),
        conn: 1,
        expires: 60_000,
    })
}

// Does what a seat is told: it opens a session, ends one, or forgets. Whether that is granted.
fn acts<R: Wait>(rt: &R, lock: &BookLock, seat: &mut BookSeat, order: &str) -> Option<bool>
    requires { IsSeatOf seat.old lock.now }
    ensures { SameSeat seat.old seat.new }
{
    let (word, number) = order.split_once(' ').unwrap_or((order, ""));
    let session = number.parse().unwrap_or(0);
    let step = match word {
        "opens" => opening(session),
        "ends" => rtsp_book::Step::End { session },
        "forgets" => {
            seat.forget(rt, lock);
            return Some(true);
        }
        _ => return None,
    };
    Some(seat.act_into(rt, lock, &step, &mut Receipt::new()).is_ok())
}

fn turned(word: &str) -> Option<Turned> {
    match word {
        "written" => Some(Turned::Written),
        "one round lost" => Some(Turned::Lost(1)),
        _ => None,
    }
}

/// Two seats that act, the one of whoever writes, and what is written.
#[derive(Drop)]
pub struct History {
    alloc: Global,
    lock: BookLock,
    one: BookSeat,
    two: BookSeat,
    own: BookSeat,
    chronicler: Chronicler,
    sink: MemorySink,
    ghost one_ours: { IsSeatOf one lock },
    ghost two_ours: { IsSeatOf two lock },
    ghost own_ours: { IsSeatOf own lock },
}

impl History {
    /// An empty book, whose journal has so many entries at most.
    pub fn open<R: Wait>(rt: &R, alloc: Global, journal: u32) -> Option<History> {
        let whole = Whole { journal, ..SMALL };
        let (lock, mut one) = open(alloc, &whole).ok()?;
        let two = one.split(rt, &lock).ok()?;
        let own = one.split(rt, &lock).ok()?;
        Some(History {
            alloc,
            lock,
            one,
            two,
            own,
            chronicler: Chronicler::new(alloc),
            sink: MemorySink::new(alloc, 10_000, 100),
        })
    }

    fn turn<R: Wait>(&mut self, rt: &R) -> Turned {
        let sink = &mut self.sink;
        self.chronicler
            .turn(rt, &mut self.own, &self.lock, Then::Forget, sink)
    }

    /// Writes what is new to other files, as at an end.
    pub fn write_to<R: Wait, S: JournalSink>(&mut self, rt: &R, sink: &mut S) -> Turned {
        last_turn(
            rt,
            &mut self.own,
            &self.lock,
            &mut self.chronicler,
            sink,
            Then::Forget,
            true,
        )
    }

    /// Writes by a scribe, until that is told to stop.
    pub fn run_scribe<R: Wait, S: JournalSink, P: Pause>(
        &mut self,
        rt: &R,
        sink: &mut S,
        pause: &mut P,
        plan: Plan,
    ) -> Turned {
        run_scribe(
            rt,
            &mut self.own,
            &self.lock,
            &mut self.chronicler,
            sink,
            pause,
            plan,
        )
    }

    // No seat but the writer's shortens the journal from here on.
    fn keep_entries<R: Wait>(&mut self, rt: &R) -> bool {
        self.one.keep_entries();
        match self.one.split(rt, &self.lock) {
            Ok(two) => {
                self.two = two;
                true
            }
            Err(_) => false,
        }
    }

    // How many entries the file has.
    fn in_file(&self) -> Option<u64> {
        Some(entries(self.alloc, &self.sink.bytes)?.len() as u64)
    }

    fn in_journal<R: Wait>(&mut self, rt: &R) -> u64 {
        self.own.tally(rt, &self.lock).entries as u64
    }
}

impl Scene for History {
    fn does<
        R: Wait
            + Clock
            + Files<File = File>
            + Net<Listener = TcpListener, Stream = TcpStream>
            + AllocGlobal,
    >(&mut self, rt: &R, step: Step<'_>) -> bool {
        let is_granted = Some(step.wanted != "refused");
        match step.word {
            "one" => acts(rt, &self.lock, &mut self.one, step.rest) == is_granted,
            "two" => acts(rt, &self.lock, &mut self.two, step.rest) == is_granted,
            "keep-entries" => self.keep_entries(rt),
            "turn" => Some(self.turn(rt)) == turned(step.wanted),
            "begin-at" => self
                .chronicler
                .begin_at(&mut self.sink, step.number)
                .is_ok(),
            "file" => self.in_file().is_some_and(|count| step.wants(count)),
            "journal" => step.wants(self.in_journal(rt)),
            _ => false,
        }
    }
}

/// Does steps with an empty book, whose journal has so many entries at most.
pub fn play<
    R: Wait
        + Clock
        + Files<File = File>
        + Net<Listener = TcpListener, Stream = TcpStream>
        + AllocGlobal
        + Abort,
>(rt: &R, journal: u32, line: &str) {
    let Some(mut history) = History::open(rt, rt.alloc(), journal) else {
        panic!(rt; "out of memory")
    };
    steps::play(rt, &mut history, line);
}
