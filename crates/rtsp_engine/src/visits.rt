//! A whole connection served from one desk.

ghost use Rattle.std.specs.Prelude.{◌≡◌};
ghost use Rattle.rtsp_engine.specs.Additions.{Grows};
ghost use Rattle.rtsp_engine.specs.Causes.{ReadFails, WriteFails, ClosesAtEnd, SpendsTurns};
ghost use Rattle.rtsp_engine.specs.Desk.{SameParts};
ghost use Rattle.rtsp_engine.specs.DeskAnswers.{EndsAt};
ghost use Rattle.rtsp_traits.specs.Devices.{devices};
ghost use Rattle.rtsp_admit.specs.Refused.{LeftNothing, LeftNothingEver};
ghost use Rattle.rtsp_engine.specs.Numbers.{SeatOwnsAll, SeatDrawsAlone, DeskKeepsNumbers, EndsCleanly};
ghost use Rattle.rtsp_engine.specs.Served.{parts};

use crate::desk::Desk;
use crate::laws::{
    law_served_cleanly, law_served_drawn, law_served_grows, law_served_keeps_numbers,
};
use crate::serving::{ServeEnd, serve_turns};
use crate::streams::{ByteIn, ByteOut};
use rtsp_admit::Binder;
use rtsp_lock::Numbers;
use rtsp_traits::{Clock, Plays, Shares, Words};
use std::alloc::Global;
use std::sync::Wait;

impl<R: Wait, B: Binder, W: Words, C: Clock, P: Plays, S: Shares, N: Numbers> Desk<
    '_,
    R,
    B,
    W,
    C,
    P,
    S,
    N,
> {
    /// Serves a connection to its end, with at most this many reads, as `serve_turns` does. The
    /// entries of the seat grow by what is recorded for its requests, as `law_served_grows` has it.
    pub fn serve<I: ByteIn, O: ByteOut>(
        &mut self,
        alloc: Global,
        reader: &mut I,
        writer: &mut O,
        turns: u64,
    ) -> ServeEnd
        ensures same { SameParts self.old self.new }
        ensures seat { self.new.seat.ghost_name ≡ self.old.seat.ghost_name }
        ensures grows { Grows (devices B.calls W.calls C.tells P.calls S.calls) R N self.old self.new }
        ensures served { EndsAt (devices B.calls W.calls C.tells P.calls S.calls) I.remaining O.contents result
            (parts reader.old writer.old self.old) (parts reader.new writer.new self.new) }
        ensures read_fault { ReadFails result (I.failures reader.old) (I.failures reader.new) }
        ensures write_fault { WriteFails result (O.failures writer.old) (O.failures writer.new) }
        ensures closed { ClosesAtEnd result (I.remaining reader.new) }
        ensures spent { SpendsTurns result turns (I.remaining reader.old) (I.remaining reader.new) }
        ensures numbers { DeskKeepsNumbers self.old self.new }
        ensures owns { SeatOwnsAll self.old → SeatOwnsAll self.new }
        ensures cleanly { SeatOwnsAll self.old
            → EndsCleanly (devices B.calls W.calls C.tells P.calls S.calls) LeftNothing I.remaining O.contents result
            (parts reader.old writer.old self.old) (parts reader.new writer.new self.new) }
        ensures alone { SeatDrawsAlone self.old → SeatDrawsAlone self.new }
        ensures drawn { SeatDrawsAlone self.old
            → EndsCleanly (devices B.calls W.calls C.tells P.calls S.calls) LeftNothingEver I.remaining O.contents result
            (parts reader.old writer.old self.old) (parts reader.new writer.new self.new) }
    {
        law_served_grows::<R, B, W, C, P, S, N>();
        law_served_keeps_numbers::<R, B, W, C, P, S, N>();
        law_served_cleanly::<R, B, W, C, P, S, N>();
        law_served_drawn::<R, B, W, C, P, S, N>();
        serve_turns(alloc, self, reader, writer, turns)
    }
}
