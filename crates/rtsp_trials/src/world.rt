//! What the tests share: the example configuration, and a connection that is served over it.

ghost use Rattle.rtsp_lock.specs.Calls.{IsSeatOf, SameSeat};

use crate::devices::{Answers, Counted, Failing, Ports, Requests};
use rtsp_book::{Kept, Receipt};
use rtsp_content::{EXAMPLE, Table};
use rtsp_engine::{Asker, Binder, ByteIn, ByteOut, Desk, ServeEnd, Words};
use rtsp_lock::{BookLock, BookSeat, LockBook, Numbers, open};
use rtsp_server::whole_of;
use rtspd::{NoPlays, NoShares, StandingClock};
use std::alloc::Global;
use std::sync::Wait;

/// The example's presentation.
pub fn tone(alloc: Global) -> Option<Table> {
    Table::read(alloc, EXAMPLE.as_bytes()).ok()
}

/// Serves a connection at the moment 0, over these devices and with at most so many reads.
pub fn serve<'a, R: Wait, N: Numbers, B: Binder, W: Words, I: ByteIn, O: ByteOut>(
    rt: &'a R,
    alloc: Global,
    seat: &'a mut BookSeat,
    lock: &'a BookLock<N>,
    binder: &'a mut B,
    words: &'a mut W,
    table: &'a Table,
    asker: Asker,
    reader: &mut I,
    writer: &mut O,
    turns: u64,
) -> ServeEnd
    requires { IsSeatOf seat.old lock.now }
    ensures { SameSeat seat.old seat.new }
{
    let mut desk = Desk {
        rt,
        seat,
        lock,
        made: &mut Receipt::new(),
        binder,
        words,
        clock: &mut StandingClock,
        plays: &mut NoPlays,
        shares: &mut NoShares,
        table,
        asker,
    };
    desk.serve(alloc, reader, writer, turns)
}

/// What a conversation says, the book that it leaves, and how it ends.
#[derive(Drop)]
pub struct Conversation {
    pub said: Vec<u8>,
    pub kept: Kept<LockBook>,
    pub end: ServeEnd,
}

/// Serves the first connection of the example's server, with at most so many reads. There is none
/// where there is no memory.
pub fn converse<R: Wait>(
    rt: &R,
    alloc: Global,
    requests: &str,
    failing: Failing,
    turns: u64,
) -> Option<Conversation> {
    let table = tone(alloc)?;
    let (lock, mut seat) = open(alloc, &whole_of(&table)).ok()?;
    let conn = seat.draw(rt, &lock).ok()?;
    let peer = 0x7f00_0001;
    let mut answers = Answers::new(alloc, failing);
    let end = serve(
        rt,
        alloc,
        &mut seat,
        &lock,
        &mut Ports::new(failing),
        &mut Counted::new(failing),
        &table,
        Asker {
            conn,
            peer,
            source: None,
        },
        &mut Requests::new(requests, failing),
        &mut answers,
        turns,
    );
    let kept = seat.finish(rt, lock);
    let Answers { said, .. } = answers;
    Some(Conversation { said, kept, end })
}

/// Whether the text has this part.
pub fn contains(text: &[u8], part: &str) -> bool {
    let part = part.as_bytes();
    text.windows(part.len().max(1)).any(|some| some == part)
}

/// How often the text has this part.
pub fn count_of(text: &[u8], part: &[u8]) -> usize {
    let parts = text.windows(part.len().max(1));
    parts.filter(|some| *some == part).count()
}
