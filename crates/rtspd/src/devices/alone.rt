//! A connection that is served alone, from a book of its own.

ghost use Rattle.std.specs.Prelude.{◌≡◌, IfOk, OnErr};
ghost use Rattle.rtsp_engine.specs.Causes.{ReadFails, WriteFails, ClosesAtEnd, SpendsTurns};
ghost use Rattle.rtspd.specs.Alone.{ServedAlone};

use crate::devices::counted_words::CountedWords;
use crate::devices::no_plays::NoPlays;
use crate::devices::standing_clock::StandingClock;
use rtsp_book::{Kept, Receipt};
use rtsp_content::Table;
use rtsp_engine::{Asker, ByteIn, ByteOut, Desk, ServeEnd, law_owns_all, law_served_grows};
use rtsp_lock::{AnyNumbers, LockBook, open};
use rtsp_server::whole_of;
use rtsp_traits::{NoShares, PortSet};
use std::alloc::{AllocError, Global};
use std::sync::Wait;

/// The address of the player at standard input: 127.0.0.1.
pub const PEER: u32 = 0x7f00_0001;

/// How a connection has ended, and the book with its journal.
#[derive(Drop)]
pub struct Conversation {
    pub end: ServeEnd,
    pub kept: Kept<LockBook>,
}

/// Serves one connection to its end, with at most this many reads, from a new book that has one
/// seat; no time passes. Nobody else acts on the book, so of a SETUP that is refused nothing is
/// left. `AllocError` says that memory ran out before the first read. The connection has the book's
/// first number, which no contract says.
pub fn serve_alone<R: Wait, I: ByteIn, O: ByteOut>(
    rt: &R,
    alloc: Global,
    table: &Table,
    reader: &mut I,
    writer: &mut O,
    turns: u64,
) -> Result<Conversation, AllocError>
    ensures served { IfOk result (λ c. ServedAlone R I.remaining O.contents table.now c.end c.kept reader.old reader.new writer.old writer.new) }
    ensures read_fault { IfOk result (λ c. ReadFails c.end (I.failures reader.old) (I.failures reader.new)) }
    ensures write_fault { IfOk result (λ c. WriteFails c.end (O.failures writer.old) (O.failures writer.new)) }
    ensures closed { IfOk result (λ c. ClosesAtEnd c.end (I.remaining reader.new)) }
    ensures unread { OnErr result (reader.new ≡ reader.old) }
    ensures unwritten { OnErr result (writer.new ≡ writer.old) }
    ensures spent { IfOk result (λ c. SpendsTurns c.end turns (I.remaining reader.old) (I.remaining reader.new)) }
{
    law_owns_all();
    law_served_grows::<R, PortSet, CountedWords, StandingClock, NoPlays, NoShares, AnyNumbers>();
    let whole = whole_of(table);
    let (lock, mut seat) = open(alloc, &whole)?;
    let mut binder = PortSet::open(alloc, whole.first_port, whole.pairs)?;
    let Ok(conn) = seat.draw(rt, &lock) else {
        return Err(AllocError);
    };
    let mut made = Receipt::new();
    let mut words = CountedWords::new();
    let mut clock = StandingClock;
    let mut plays = NoPlays;
    let mut shares = NoShares;
    let mut desk = Desk {
        rt,
        seat: &mut seat,
        lock: &lock,
        made: &mut made,
        binder: &mut binder,
        words: &mut words,
        clock: &mut clock,
        plays: &mut plays,
        shares: &mut shares,
        table,
        asker: Asker {
            conn,
            peer: PEER,
            source: None,
        },
    };
    let end = desk.serve(alloc, reader, writer, turns);
    let kept = seat.finish(rt, lock);
    Ok(Conversation { end, kept })
}
