//! Serves a connection that is read and written by blocking calls.

ghost use Rattle.rtsp_engine.specs.Served.{Ends, Written, parts};
ghost use Rattle.rtsp_engine.specs.Causes.{ReadFails, WriteFails, TurnWriteFails, ClosesAtEnd, SpendsTurns};

use crate::connection::{Answerer, Connection};
use crate::fault_responses::fault_response;
use crate::streams::{ByteIn, ByteOut, StreamFault};
use rtsp_grammar::MessageFault;
use rtsp_state::Room;
use std::alloc::Global;

/// How the serving of a connection has ended.
#[derive(Clone, Copy, PartialEq, Eq)]
pub enum ServeEnd {
    /// The input is at its end, perhaps inside an item.
    Closed,
    ReadFault,
    WriteFault,
    /// A message cannot be read, or memory ran out. The client was told.
    Fault(MessageFault),
    /// The limit of reads is reached.
    TurnsSpent,
}

/// The greatest number of reads of one connection.
pub const TURNS: u64 = 1 << 32;

// Writes the answers to a piece, and then what is said of a fault.
fn write_all<W: ByteOut>(
    room: &Room,
    pushed: Result<(), MessageFault>,
    writer: &mut W,
) -> Option<ServeEnd>
    ensures told { Written result pushed room.now.text (W.contents writer.old) (W.contents writer.new) }
    ensures cause { TurnWriteFails result (W.failures writer.old) (W.failures writer.new) }
{
    match writer.write(room.as_bytes()) {
        Ok(()) => match pushed {
            Ok(()) => None,
            Err(fault) => match writer.write(fault_response(fault)) {
                Ok(()) => Some(ServeEnd::Fault(fault)),
                Err(StreamFault) => Some(ServeEnd::WriteFault),
            },
        },
        Err(StreamFault) => Some(ServeEnd::WriteFault),
    }
}

/// Serves a connection to its end, with at most this many reads. What has been written is, in
/// order, the answers to the items that the bytes read spell.
pub fn serve_turns<A: Answerer, R: ByteIn, W: ByteOut>(
    alloc: Global,
    answerer: &mut A,
    reader: &mut R,
    writer: &mut W,
    turns: u64,
) -> ServeEnd
    ensures served { Ends A.answers A.gives_up R.remaining W.contents result (parts reader.old writer.old answerer.old) (parts reader.new writer.new answerer.new) }
    // A fault of the reader or of the writer is told where it was counted, and nowhere else.
    ensures read_fault { ReadFails result (R.failures reader.old) (R.failures reader.new) }
    ensures write_fault { WriteFails result (W.failures writer.old) (W.failures writer.new) }
    // The end of the input is told where the reader is at its end.
    ensures closed { ClosesAtEnd result (R.remaining reader.new) }
    // So are spent turns, where each has read something.
    ensures spent { SpendsTurns result turns (R.remaining reader.old) (R.remaining reader.new) }
{
    let mut connection = Connection::new(alloc);
    let mut room = Room::new(alloc);
    for _count in 0..turns {
        let mut piece = [0u8; 4096];
        let read = match reader.read(&mut piece) {
            Err(StreamFault) => return ServeEnd::ReadFault,
            Ok(0) => return ServeEnd::Closed,
            Ok(read) => read,
        };
        room.clear();
        let pushed = connection.push(alloc, answerer, &piece[..read], &mut room);
        match write_all(&room, pushed, writer) {
            Some(end) => return end,
            None => {}
        }
    }
    ServeEnd::TurnsSpent
}

/// Serves a connection to its end.
pub fn serve<A: Answerer, R: ByteIn, W: ByteOut>(
    alloc: Global,
    answerer: &mut A,
    reader: &mut R,
    writer: &mut W,
) -> ServeEnd
    ensures served { Ends A.answers A.gives_up R.remaining W.contents result (parts reader.old writer.old answerer.old) (parts reader.new writer.new answerer.new) }
    ensures read_fault { ReadFails result (R.failures reader.old) (R.failures reader.new) }
    ensures write_fault { WriteFails result (W.failures writer.old) (W.failures writer.new) }
    ensures closed { ClosesAtEnd result (R.remaining reader.new) }
    ensures spent { SpendsTurns result TURNS (R.remaining reader.old) (R.remaining reader.new) }
{
    serve_turns(alloc, answerer, reader, writer, TURNS)
}
