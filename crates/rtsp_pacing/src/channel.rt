//! A channel of a connection that frames go to.

ghost use Rattle.std.specs.Prelude.{◌≡◌, ◌≢◌, ◌++◌, ℕ, List};
ghost use Rattle.rtsp_sockets.specs.declared.put.Put.{Put};
ghost use Rattle.rtsp_pacing.specs.Channels.{Puts, Keeps, room_when_late, taken_of};

use crate::went::Went;
use rtsp_log::DropCause;
use rtsp_sockets::{FrameRoom, Outlet, Put};
use std::cell::Cell;
use std::sync::{Arc, Wait};

// How often, in milliseconds, what waits for a connection is offered to the system while frames of a
// channel come to wait behind it.
const OFFERED_EVERY: u64 = 100;

// How much may wait of the streams of a play that send so many bits a second, where it is late by so many
// milliseconds: what of them is due within two seconds. A play that is late sends that within two seconds.
pub(crate) fn room_when_late(rate: u64, late: u64) -> FrameRoom
    ensures { result ≡ room_when_late rate late }
{
    let bits = rate.saturating_mul(late.saturating_add(2_000)) / 2_000;
    FrameRoom::of_rate(bits)
}

// Where frames are put.
trait FrameOutlet {
    // The outlet before and after a frame was put, and what came of that.
    ghost puts: { Self → List ℕ → Put → Self → Type 0 };

    // The outlet before and after what waits there was offered to the system.
    ghost offers: { Self → Self → Type 0 };

    // Puts a frame, which is written, waits behind others, or is dropped.
    fn put(&mut self, frame: &[u8]) -> Put
        ensures { puts self.old frame.now result self.new };

    // Offers what waits to the system.
    fn offer(&mut self)
        ensures { offers self.old self.new };
}

// Puts a frame. Where it has no room, what waits is offered to the system, as its lane may be held up,
// and the frame is put once more.
#[tactic(auto, using(crate::proofs::Channeling::in_order))]
fn put_or_offer<O: FrameOutlet>(outlet: &mut O, frame: &[u8]) -> Put
    ensures puts { Puts O.puts O.offers outlet.old frame.now result outlet.new }
    ensures order { (bytes : O → List ℕ) → Keeps O.puts O.offers bytes → result ≢ Put.Closed → bytes outlet.new ≡ bytes outlet.old ++ taken_of frame.now result }
{
    let put = outlet.put(frame);
    if put != Put::Dropped {
        return put;
    }
    outlet.offer();
    outlet.put(frame)
}

// The outlet of a connection, at a moment, for frames that may wait within a room. Others write there
// too, so of its bytes no clause tells.
#[derive(Drop)]
struct ConnectionOutlet<'a, R> {
    rt: &'a R,
    outlet: &'a Outlet,
    now: u64,
    room: FrameRoom,
}

impl<R: Wait> FrameOutlet for ConnectionOutlet<'_, R> {
    ghost use Rattle.std.specs.Prelude.{⊤};

    ghost puts = { λ before frame put after. ⊤ };

    ghost offers = { λ before after. ⊤ };

    fn put(&mut self, frame: &[u8]) -> Put {
        self.outlet.put_frame(self.rt, self.now, self.room, frame)
    }

    fn offer(&mut self) {
        let _ = self.outlet.flush(self.rt, self.now);
    }
}

// A channel of a connection that frames go to.
#[derive(Drop)]
pub(crate) struct Channel {
    outlet: Arc<Outlet>,
    number: u8,
    // When what waits there is offered again. The pacer's alone: a cell, since what sends a turn's packets
    // has a shared reference.
    offered_at: Cell<u64>,
}

impl Channel {
    pub(crate) fn new(outlet: Arc<Outlet>, number: u8) -> Channel
        ensures { result.number ≡ number }
    {
        Channel {
            outlet,
            number,
            offered_at: Cell::new(0),
        }
    }

    // Its number, which is even where it is the first of a pair.
    pub(crate) fn number(&self) -> u8
        ensures { result ≡ self.now.number }
    {
        self.number
    }

    // Why there was no room for a frame of so many bytes. `None` where the connection takes no frames any
    // more.
    fn cause<R: Wait>(&self, rt: &R, room: FrameRoom, bytes: usize) -> Option<DropCause> {
        if !self.outlet.takes_frames(rt) {
            return None;
        }
        if self.outlet.held(rt).saturating_add(bytes) > room.bytes() {
            Some(DropCause::SlowPlayer)
        } else {
            Some(DropCause::NoMemory)
        }
    }

    // Puts a frame, which may wait within this room. Where frames wait for long, since the connection's
    // lane is held up or its player is slow, they are offered from time to time.
    pub(crate) fn put<R: Wait>(&self, rt: &R, now: u64, room: FrameRoom, frame: &[u8]) -> Went {
        let mut outlet = ConnectionOutlet {
            rt,
            outlet: &self.outlet,
            now,
            room,
        };
        match put_or_offer(&mut outlet, frame) {
            Put::Sent => Went::Sent,
            Put::Kept => {
                if self.offered_at.get() <= now {
                    self.offered_at.set(now.saturating_add(OFFERED_EVERY));
                    outlet.offer();
                }
                Went::Sent
            }
            Put::Closed => Went::Lost,
            Put::Dropped => match self.cause(rt, room, frame.len()) {
                Some(cause) => Went::Dropped(cause),
                None => Went::Lost,
            },
        }
    }
}
