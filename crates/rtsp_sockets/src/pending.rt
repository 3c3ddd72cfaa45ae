//! The bytes of a connection that wait to be written.

ghost use Rattle.std.specs.Prelude.{◌≡◌, ◌≢◌, ◌≤◌, ◌<◌, ◌+◌, ◌-◌, ◌++◌, ◌↔◌, true, [], drop, length, min, IsTrue, IfSome, IfNone};
ghost use Rattle.std.specs.Bool.{OnTrue, OnFalse};
ghost use Rattle.rtsp_sockets.specs.Rooms.{all_room, frame_room, most_room};
ghost use Rattle.rtsp_sockets.specs.Passing.{Puts, Lends, Borrows, Flushed, Ends, IsClosed, IsShut, IsStalled, IsAlike, Holds, LacksRoom, takes, wider};

use crate::frame_room::FrameRoom;
use crate::loan::Loan;
use crate::message::{ALL_ROOM, FRAME_ROOM, Message};
use crate::outlet::{SLOW_LIMIT, STALL_LIMIT};
use crate::put::Put;
use crate::try_write::TryWrite;
use bytes::{Buf, BytesMut};
use std::alloc::Global;
use std::marker::Model;

// What a connection takes.
#[derive(Clone, Copy, PartialEq, Eq)]
pub(crate) enum Condition {
    Open,
    // No more frames.
    Draining,
    // Nothing more.
    Closed,
}

impl Condition {
    // Whether it takes such a message.
    fn takes(self, kind: Message) -> bool
        ensures { result ≡ takes self kind }
    {
        match self {
            Condition::Open => true,
            Condition::Draining => match kind {
                Message::Response => true,
                Message::Frame => false,
            },
            Condition::Closed => false,
        }
    }
}

// The bytes of a connection that wait to be written, the oldest first.
#[derive(Drop)]
pub(crate) struct Pending {
    alloc: Global,
    bytes: BytesMut,
    condition: Condition,
    // The moment at which a byte was written, or at which the first came to wait.
    since: u64,
    // The moment up to which what was written since then pays, at a byte a millisecond.
    paid: u64,
    // The greatest room with which a frame came that waits.
    room: FrameRoom,
    // What frames take beyond the room that each connection has by itself.
    loan: Loan,
    // The most bytes that have waited at once in this memory.
    peak: usize,
}

impl Model for Pending {
    ghost use Rattle.std.specs.Prelude.{◌≡◌, ◌≤◌, ◌+◌, ◌-◌, [], length};
    ghost use Rattle.rtsp_sockets.specs.Rooms.{all_room, frame_room, most_lent};
    ghost use Rattle.rtsp_sockets.specs.Passing.{Waiting};
    ghost use Rattle.rtsp_sockets.specs.declared.pending.Condition.TheVariants.{Closed};

    ghost Value = { Waiting };

    ghost view = { λ p. record { bytes = p.bytes.items; spare = p.bytes.spare; condition = p.condition; since = p.since; paid = p.paid; room = p.room; lent = p.loan } };

    ghost invariant = { λ p. (length p.bytes.items ≤ all_room + p.loan) × (p.loan ≤ length p.bytes.items - frame_room) × (p.loan ≤ most_lent) × (p.condition ≡ Closed → p.bytes.items ≡ []) };
}

impl Pending {
    // Nothing waits, and nothing is lent yet.
    pub(crate) fn new(alloc: Global, mut loan: Loan) -> Pending
        ensures bytes { result.bytes ≡ [] }
        ensures condition { result.condition ≡ Condition.Open }
        ensures since { result.since ≡ 0 }
        ensures paid { result.paid ≡ 0 }
        ensures room { result.room ≡ frame_room }
        ensures lent { result.lent ≡ 0 }
    {
        loan.settle(0);
        Pending {
            alloc,
            bytes: BytesMut::new(alloc),
            condition: Condition::Open,
            since: 0,
            paid: 0,
            room: FrameRoom::least(),
            loan,
            peak: 0,
        }
    }

    // How many bytes wait.
    pub(crate) fn len(&self) -> usize
        ensures count { result ≡ length self.now.bytes }
        ensures most { result ≤ most_room }
    {
        self.bytes.len()
    }

    // How many bytes wait beside those that are lent: 0 only where no byte waits.
    pub(crate) fn unlent(&self) -> usize
        ensures count { result ≡ length self.now.bytes - self.now.lent }
        ensures most { result ≤ all_room }
        ensures none { (result ≡ 0) ↔ (self.now.bytes ≡ []) }
    {
        self.bytes.len() - self.loan.bytes()
    }

    // The moment at which a byte was written, or at which the first came to wait.
    pub(crate) fn since(&self) -> u64
        ensures { result ≡ self.now.since }
    {
        self.since
    }

    pub(crate) fn is_closed(&self) -> bool
        ensures { IsTrue result ↔ IsClosed self.now }
    {
        self.condition == Condition::Closed
    }

    // Whether it takes frames.
    pub(crate) fn takes_frames(&self) -> bool
        ensures { result ≡ takes self.now.condition Message.Frame }
    {
        self.condition.takes(Message::Frame)
    }

    // Takes nothing more, and forgets what waits.
    pub(crate) fn close(&mut self)
        ensures shut { IsShut self.new }
        ensures since { self.new.since ≡ self.old.since }
        ensures paid { self.new.paid ≡ self.old.paid }
        ensures room { self.new.room ≡ self.old.room }
        ensures lent { self.new.lent ≡ 0 }
    {
        self.condition = Condition::Closed;
        self.bytes = BytesMut::new(self.alloc);
        self.peak = 0;
        self.loan.settle(0);
    }

    // Frames come that may wait within this room. While some wait already, the greater room counts.
    pub(crate) fn widen(&mut self, room: FrameRoom)
        ensures { self.new ≡ record self.old { room = wider self.old.bytes self.old.room room } }
    {
        if self.bytes.is_empty() || room.bytes() > self.room.bytes() {
            self.room = room;
        }
    }

    // Puts some bytes behind those that wait, where there is room for so many in all beside those
    // that are lent. Whether there was.
    fn extend(&mut self, most: usize, bytes: &[u8]) -> bool
        requires open_still { ¬ IsClosed self.old }
        requires most { most ≤ all_room }
        ensures held { OnTrue result (self.new.bytes ≡ self.old.bytes ++ bytes.now) }
        ensures most { OnTrue result (length self.new.bytes ≤ most + self.new.lent) }
        ensures same { OnFalse result (self.new.bytes ≡ self.old.bytes) }
        ensures lacks { OnFalse result (LacksRoom most self.old (length (self.old.bytes ++ bytes.now))) }
        ensures alike { IsAlike self.old self.new }
        ensures since { self.new.since ≡ self.old.since }
        ensures paid { self.new.paid ≡ self.old.paid }
        ensures room { self.new.room ≡ self.old.room }
        ensures lent { self.new.lent ≡ self.old.lent }
    {
        let whole = self.bytes.len().saturating_add(bytes.len());
        if whole > most + self.loan.bytes() || self.bytes.extend_from_slice(bytes).is_err() {
            return false;
        }
        self.peak = self.peak.max(whole);
        true
    }

    // Puts a frame behind the bytes that wait, where it is within the room for frames, and what is
    // beyond that of each connection can be lent. Whether it was.
    fn extend_lent(&mut self, frame: &[u8]) -> bool
        requires open_still { ¬ IsClosed self.old }
        ensures held { OnTrue result (self.new.bytes ≡ self.old.bytes ++ frame.now) }
        ensures most { OnTrue result (length self.new.bytes ≤ frame_room + self.new.lent) }
        ensures borrows { OnTrue result (Borrows self.old Message.Frame self.new) }
        ensures same { OnFalse result (self.new.bytes ≡ self.old.bytes) }
        ensures lacks { OnFalse result (LacksRoom frame_room self.old (length (self.old.bytes ++ frame.now))) }
        ensures returned { OnFalse result (self.new.lent ≡ self.old.lent) }
        ensures alike { IsAlike self.old self.new }
        ensures since { self.new.since ≡ self.old.since }
        ensures paid { self.new.paid ≡ self.old.paid }
        ensures room { self.new.room ≡ self.old.room }
    {
        let lent = self.loan.bytes();
        let whole = self.bytes.len().saturating_add(frame.len());
        let is_beyond = whole > FRAME_ROOM + lent;
        if is_beyond && (whole > self.room.bytes() || !self.loan.cover(whole - FRAME_ROOM)) {
            return false;
        }
        if self.bytes.extend_from_slice(frame).is_err() {
            self.loan.settle(lent);
            return false;
        }
        self.peak = self.peak.max(whole);
        true
    }

    // Keeps a message, or what of it isn't written yet. A frame that has no room is dropped; at
    // a response that has none the connection is closed.
    fn keep(&mut self, kind: Message, bytes: &[u8]) -> Put
        requires { ¬ IsClosed self.old }
        ensures held { Holds self.old kind bytes.now self.new result }
        ensures lends { Lends self.old kind self.new result }
        ensures since { self.new.since ≡ self.old.since }
        ensures paid { self.new.paid ≡ self.old.paid }
        ensures room { self.new.room ≡ self.old.room }
    {
        let is_kept = match kind {
            Message::Frame => self.extend_lent(bytes),
            Message::Response => self.extend(ALL_ROOM, bytes),
        };
        if is_kept {
            return Put::Kept;
        }
        match kind {
            Message::Frame => Put::Dropped,
            Message::Response => {
                self.close();
                Put::Closed
            }
        }
    }

    // Writes a message where nothing waits, as far as it goes at once, and keeps the rest. A frame
    // of which a part is written has as much room as a response, since the rest has to follow.
    #[tactic(auto, using(crate::proofs::Passing::broken_puts, crate::proofs::Passing::sent_puts, crate::proofs::Passing::none_puts, crate::proofs::Passing::rest_puts))]
    fn write<W: TryWrite>(&mut self, to: &mut W, now: u64, kind: Message, bytes: &[u8]) -> Put
        requires none { self.old.bytes ≡ [] }
        requires takes { takes self.old.condition kind ≡ true }
        ensures puts { Puts W.tries to.old to.new self.old kind bytes.now self.new result }
        ensures lends { Lends self.old kind self.new result }
        ensures since { result ≡ Put.Kept → self.new.since ≡ now }
        ensures paid { result ≡ Put.Kept → self.new.paid ≡ now }
        ensures room { self.new.room ≡ self.old.room }
    {
        let Some(n) = to.try_write(bytes) else {
            self.close();
            return Put::Closed;
        };
        if n >= bytes.len() {
            return Put::Sent;
        }
        self.since = now;
        self.paid = now;
        if n == 0 {
            return self.keep(kind, bytes);
        }
        self.keep(Message::Response, bytes.split_at(n).1)
    }

    // Puts a message: it is written as far as it goes at once, unless something waits already.
    #[tactic(auto, using(crate::proofs::Passing::closed_puts, crate::proofs::Passing::dropped_puts, crate::proofs::Passing::behind_puts))]
    pub(crate) fn put<W: TryWrite>(
        &mut self,
        to: &mut W,
        now: u64,
        kind: Message,
        bytes: &[u8],
    ) -> Put
        ensures puts { Puts W.tries to.old to.new self.old kind bytes.now self.new result }
        ensures lends { Lends self.old kind self.new result }
        ensures room { self.new.room ≡ self.old.room }
        ensures draining { self.old.condition ≡ Condition.Draining → kind ≡ Message.Frame → result ≡ Put.Dropped }
        ensures closed { IsClosed self.old → result ≡ Put.Closed }
        ensures begins { result ≡ Put.Kept → self.old.bytes ≡ [] → self.new.since ≡ now }
        ensures since { self.old.bytes ≢ [] → self.new.since ≡ self.old.since }
        ensures pays { result ≡ Put.Kept → self.old.bytes ≡ [] → self.new.paid ≡ now }
        ensures paid { self.old.bytes ≢ [] → self.new.paid ≡ self.old.paid }
    {
        if self.condition == Condition::Closed {
            return Put::Closed;
        }
        if !self.condition.takes(kind) {
            return Put::Dropped;
        }
        if self.bytes.is_empty() {
            return self.write(to, now, kind, bytes);
        }
        self.keep(kind, bytes)
    }

    // Gives memory back that isn't needed any more: all of it where nothing waits. Where more has waited
    // than a connection may have by itself, what is left moves to less memory once it is less than half
    // of that.
    fn shrink(&mut self)
        ensures bytes { self.new.bytes ≡ self.old.bytes }
        ensures alike { IsAlike self.old self.new }
        ensures since { self.new.since ≡ self.old.since }
        ensures paid { self.new.paid ≡ self.old.paid }
        ensures room { self.new.room ≡ self.old.room }
        ensures lent { self.new.lent ≡ self.old.lent }
    {
        let waiting = self.bytes.len();
        if waiting == 0 {
            self.bytes = BytesMut::new(self.alloc);
            self.peak = 0;
        } else if self.peak > ALL_ROOM
            && waiting < self.peak / 2
            && let Ok(bytes) = BytesMut::copy_from_slice(self.alloc, self.bytes.as_slice())
        {
            self.bytes = bytes;
            self.peak = waiting;
        }
    }

    // So many of the bytes that waited were written. What was lent to them is given back.
    fn advance(&mut self, now: u64, n: usize)
        requires { n ≤ length self.old.bytes }
        ensures bytes { self.new.bytes ≡ drop n self.old.bytes }
        ensures alike { IsAlike self.old self.new }
        ensures progress { 0 < n → self.new.since ≡ now }
        ensures none { n ≡ 0 → self.new.since ≡ self.old.since }
        ensures paid { self.new.paid ≡ min now (self.old.paid + n) }
        ensures room { self.new.room ≡ self.old.room }
        ensures lent { self.new.lent ≡ min self.old.lent (length self.new.bytes - frame_room) }
    {
        self.bytes.advance(n);
        if n > 0 {
            self.since = now;
        }
        self.paid = self.paid.saturating_add(n as u64).min(now);
        self.loan
            .settle(self.bytes.len().saturating_sub(FRAME_ROOM));
        self.shrink();
    }

    // Writes what waits, as far as it goes at once: how much is left, or `None` where the
    // connection is closed.
    #[tactic(auto, using(crate::proofs::Passing::nothing_flushed, crate::proofs::Passing::is_flushed, crate::proofs::Passing::broken_flush))]
    pub(crate) fn flush<W: TryWrite>(&mut self, to: &mut W, now: u64) -> Option<usize>
        ensures some { IfSome result (λ n. Flushed W.tries to.old to.new self.old self.new now n) }
        ensures none { IfNone result (IsShut self.new × Ends W.tries to.old to.new self.old) }
        ensures most { IfSome result (λ n. n ≤ most_room) }
        ensures paid { IfSome result (λ n. self.old.bytes ≢ [] → self.new.paid ≡ min now (self.old.paid + (length self.old.bytes - n))) }
        ensures lent { self.new.lent ≡ min self.old.lent (length self.new.bytes - frame_room) }
        ensures room { self.new.room ≡ self.old.room }
    {
        if self.condition == Condition::Closed {
            return None;
        }
        if self.bytes.is_empty() {
            return Some(0);
        }
        let Some(n) = to.try_write(self.bytes.as_slice()) else {
            self.close();
            return None;
        };
        self.advance(now, n);
        Some(self.bytes.len())
    }

    // Whether bytes wait of which none was written for so long, in milliseconds, or too few, that the
    // player counts as gone.
    pub(crate) fn is_stalled(&self, now: u64) -> bool
        ensures { IsTrue result ↔ IsStalled self.now now }
    {
        self.condition != Condition::Closed
            && !self.bytes.is_empty()
            && (now.saturating_sub(self.since) > STALL_LIMIT
                || now.saturating_sub(self.paid) > SLOW_LIMIT)
    }

    // Takes no more frames.
    pub(crate) fn drain(&mut self)
        ensures bytes { self.new.bytes ≡ self.old.bytes }
        ensures lent { self.new.lent ≡ self.old.lent }
        ensures drains { (IsClosed self.old → IsClosed self.new) × (¬ IsClosed self.old → self.new.condition ≡ Condition.Draining) }
    {
        if self.condition == Condition::Open {
            self.condition = Condition::Draining;
        }
    }
}
