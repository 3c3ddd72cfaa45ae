//! Visits to a connection that doesn't block: what is there is read and answered.

ghost use Rattle.std.specs.Prelude.{◌≡◌, ◌++◌, ℕ, List, [], length, Option, Some, Err, IfOk, IfErr, OnOk, OnErr, MatchResult};
ghost use Rattle.std.specs.Io.KnownBytes.{Appends, Keeps};
ghost use Rattle.rtsp_grammar.specs.Answer.{IsUndecided};
ghost use Rattle.rtsp_grammar.specs.declared.message.Item.{Item};
ghost use Rattle.rtsp_engine.specs.Served.{Answered, FaultedAfter, Written, at, parts};
ghost use Rattle.rtsp_record.specs.Counters.{HasCause};
ghost use Rattle.rtsp_engine.specs.Streams.{WritesPart};
ghost use Rattle.rtsp_engine.specs.Visiting.{Reads, ReadsCounted, Came, FindsNone, sides, ended, serve_end, Delivers, CountsWrite, CountsRead, CountsDelivery, ClosesAtEnd, ReadsPieces, Visits, VisitsChain};

use crate::connection::Connection;
use crate::fault_responses::fault_response;
use crate::streams::{ByteOut, StreamFault};
use rtsp_grammar::MessageFault;
use rtsp_state::Room;
use std::alloc::Global;

/// What comes of reading where nothing is waited for.
#[derive(Clone, Copy, PartialEq, Eq)]
pub enum Reading {
    /// So many bytes.
    Bytes(usize),
    /// None are there yet.
    Nothing,
    /// The player sends no more.
    End,
    /// The connection is broken.
    Broken,
}

/// A reader that doesn't wait. It counts how often it was broken.
pub trait PieceIn {
    /// The bytes that it will give from here on, where they are known.
    ghost remaining: { Self → Option (List ℕ) };

    /// How often it was broken.
    ghost failures: { Self → ℕ };

    /// Reads what is there into the front of the buffer, as far as it fits.
    fn read_piece(&mut self, buffer: &mut [u8]) -> Reading
        ensures bytes { Reads (remaining self.old) (remaining self.new) result buffer.new }
        ensures cause { ReadsCounted (failures self.old) (failures self.new) result };
}

/// Who answers the items of a connection, as far as its input has come.
pub trait PieceAnswerer {
    /// What stays of it from one piece of the input to the next.
    ghost State: { Type 0 };

    /// As it is now: what is served, to whom, and what the connection's seat of the lock knows.
    ghost serving: { Self → State };

    /// How an item is answered: with which bytes, and what is so afterwards.
    ghost answers: { State → Item → List ℕ → State → Type 0 };

    /// What may have been done where memory ran out, and the item has no answer.
    ghost gives_up: { State → Item → State → Type 0 };

    /// Takes a piece of the connection's input, as `Connection::push` does.
    fn push(
        &mut self,
        alloc: Global,
        input: &mut Connection,
        piece: &[u8],
        room: &mut Room,
    ) -> Result<(), MessageFault>
        ensures goes_on { OnOk result (Answered answers gives_up (input.old ++ piece.now) input.new
            (at room.old (serving self.old)) (at room.new (serving self.new))) }
        ensures undecided { OnOk result (IsUndecided input.new) }
        ensures ends { IfErr result (λ f. FaultedAfter answers gives_up (input.old ++ piece.now) f
            (at room.old (serving self.old)) (at room.new (serving self.new))) };

    /// Whether the answers so far, of so many bytes, are to be written at once.
    fn is_due(&self, gathered: usize) -> bool;

    /// The answers so far were written, if they could be. Whether more is to be read now.
    fn has_written(&mut self) -> bool
        ensures { serving self.new ≡ serving self.old };
}

/// How a visit has ended.
#[derive(Clone, Copy, PartialEq, Eq)]
pub enum VisitEnd {
    /// There may be more to read.
    More,
    /// There is nothing more to read for now.
    Waits,
    /// The input is at its end, perhaps inside an item.
    Closed,
    ReadFault,
    WriteFault,
    /// A message cannot be read, or memory ran out. The client was told.
    Fault(MessageFault),
}

// Reads a piece. How the visit ends, where none comes.
fn read_or_end<I: PieceIn>(reader: &mut I, buffer: &mut [u8]) -> Result<usize, VisitEnd>
    ensures piece { IfOk result (λ n. Came (I.remaining reader.old) (I.remaining reader.new) n buffer.new) }
    ensures kept { OnErr result (Keeps (I.remaining reader.old) (I.remaining reader.new)) }
    ensures none { IfErr result FindsNone }
    ensures closed { IfErr result (λ end. ClosesAtEnd end (length buffer.new) (I.remaining reader.new)) }
    ensures cause { MatchResult result (λ _. I.failures reader.new ≡ I.failures reader.old)
        (λ end. CountsRead end (I.failures reader.old) (I.failures reader.new)) }
{
    match reader.read_piece(buffer) {
        Reading::Bytes(read) => Ok(read),
        Reading::Nothing => Err(VisitEnd::Waits),
        Reading::End => Err(VisitEnd::Closed),
        Reading::Broken => Err(VisitEnd::ReadFault),
    }
}

// Writes the answers that were gathered, and leaves the room empty.
fn write_answers<O: ByteOut>(room: &mut Room, writer: &mut O) -> Result<(), StreamFault>
    ensures all { OnOk result (Appends (O.contents writer.old) (O.contents writer.new) room.old.text) }
    ensures part { OnErr result (WritesPart (O.contents writer.old) (O.contents writer.new) room.old.text) }
    ensures cause { HasCause (O.failures writer.old) (O.failures writer.new) result }
    ensures empty { room.new.text ≡ [] }
{
    if room.as_bytes().is_empty() {
        return Ok(());
    }
    let wrote = writer.write(room.as_bytes());
    room.clear();
    wrote
}

// How a visit ends, where the last answers were to be written before this end.
fn ended(wrote: Result<(), StreamFault>, end: VisitEnd) -> VisitEnd
    ensures { result ≡ ended wrote end }
{
    match wrote {
        Ok(()) => end,
        Err(StreamFault) => VisitEnd::WriteFault,
    }
}

// Writes the answers where they are due. How the visit ends then, if it does.
fn deliver<A: PieceAnswerer, O: ByteOut>(
    answerer: &mut A,
    room: &mut Room,
    writer: &mut O,
) -> Option<VisitEnd>
    ensures delivers { Delivers result (O.contents writer.old) room.old.text (O.contents writer.new) room.new.text }
    ensures cause { CountsDelivery result (O.failures writer.old) (O.failures writer.new) }
    ensures same { A.serving answerer.new ≡ A.serving answerer.old }
{
    if !answerer.is_due(room.as_bytes().len()) {
        return None;
    }
    let wrote = write_answers(room, writer);
    let goes_on = answerer.has_written();
    match wrote {
        Err(StreamFault) => Some(VisitEnd::WriteFault),
        Ok(()) if goes_on => None,
        Ok(()) => Some(VisitEnd::More),
    }
}

// Writes the answers, and what is said of a fault.
fn tell<A: PieceAnswerer, O: ByteOut>(
    answerer: &mut A,
    room: &mut Room,
    writer: &mut O,
    fault: MessageFault,
) -> VisitEnd
    ensures told { Written (Some (serve_end result)) (Err fault) room.old.text (O.contents writer.old) (O.contents writer.new) }
    ensures cause { CountsWrite result (O.failures writer.old) (O.failures writer.new) }
    ensures same { A.serving answerer.new ≡ A.serving answerer.old }
{
    let wrote = write_answers(room, writer);
    answerer.has_written();
    match wrote {
        Err(StreamFault) => VisitEnd::WriteFault,
        Ok(()) => match writer.write(fault_response(fault)) {
            Ok(()) => VisitEnd::Fault(fault),
            Err(StreamFault) => VisitEnd::WriteFault,
        },
    }
}

/// Visits a connection once: reads at most so many pieces of what is there, has each answered, and
/// writes the answers, in order. It ends early where nothing more is there, where no more is to be
/// read now, and where the connection has ended. A piece that doesn't fill the buffer is the last
/// one, unless all is to be read.
pub fn visit<A: PieceAnswerer, I: PieceIn, O: ByteOut>(
    alloc: Global,
    answerer: &mut A,
    input: &mut Connection,
    reader: &mut I,
    writer: &mut O,
    room: &mut Room,
    buffer: &mut [u8],
    pieces: usize,
    reads_all: bool,
) -> VisitEnd
    ensures visited { Visits A.answers A.gives_up input.old input.new result
        (sides I.remaining O.contents A.serving (parts reader.old writer.old answerer.old))
        (sides I.remaining O.contents A.serving (parts reader.new writer.new answerer.new)) }
    // Faults of the reader and of the writer are told where they were counted.
    ensures read_fault { CountsRead result (I.failures reader.old) (I.failures reader.new) }
    ensures write_fault { CountsWrite result (O.failures writer.old) (O.failures writer.new) }
    // The end of the input is told where the reader is at its end.
    ensures closed { ClosesAtEnd result (length buffer.new) (I.remaining reader.new) }
    // At most so many pieces are read; and some of what is there, where there may be more.
    ensures reads { ReadsPieces result pieces (length buffer.old) (I.remaining reader.old) (I.remaining reader.new) }
{
    room.clear();
    for _count in 0..pieces {
        let read = match read_or_end(reader, buffer) {
            Ok(read) => read,
            Err(end) => return ended(write_answers(room, writer), end),
        };
        match answerer.push(alloc, input, &buffer[..read], room) {
            Ok(()) => {}
            Err(fault) => return tell(answerer, room, writer, fault),
        }
        match deliver(answerer, room, writer) {
            None => {}
            Some(end) => return end,
        }
        if read < buffer.len() && !reads_all {
            return ended(write_answers(room, writer), VisitEnd::Waits);
        }
    }
    ended(write_answers(room, writer), VisitEnd::More)
}

/// Visits chain: one after which the connection went on, and whatever the next one did, are
/// together one visit. So over a whole connection, from its beginning to its end, what was written
/// is what one visit would have written.
pub fn law_visits<A: PieceAnswerer>()
    ensures { VisitsChain A.answers A.gives_up }
{}
