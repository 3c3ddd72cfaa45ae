//! The writing side of a connection.

ghost use Rattle.std.specs.Prelude.{◌≡◌, ◌≤◌, IfSome};
ghost use Rattle.rtsp_sockets.specs.Rooms.{all_room, most_room};

use crate::frame_room::FrameRoom;
use crate::loan::Loan;
use crate::message::Message;
use crate::options::{SEND_BUFFER, limit_the_end, widen};
use crate::pending::Pending;
use crate::put::Put;
use mio::net::TcpStream;
use std::alloc::Global;
use std::net::Shutdown;
use std::os::fd::{AsRawFd, RawFd};
use std::sync::atomic::{AtomicBool, Ordering};
use std::sync::{Mutex, Wait};

/// For how long, in milliseconds, a player may take none of the bytes that wait for it.
pub const STALL_LIMIT: u64 = 10_000;

/// For how long, in milliseconds, a player may be behind who takes less than 1,000 bytes a second of
/// those that wait for it.
pub const SLOW_LIMIT: u64 = 30_000;

// A player who takes some of what waits within so many milliseconds counts as one who takes bytes soon.
const SOON: u64 = 500;

// For how many milliseconds a player may take what the system keeps of a connection that is closed: one
// that is given up, and one on which all was written, at a byte a millisecond.
const GIVEN_UP: u32 = STALL_LIMIT as u32;

const WRITTEN: u32 = SEND_BUFFER;

/// The writing side of a connection, shared by the lane that reads it and the pacers that send
/// frames. It never blocks: what can't be written at once waits, up to a limit, and is written by
/// `flush`. A message reaches the stream whole, or nothing of it does while the connection is open.
/// Each call makes one system call at most while it holds the lock, unless a signal interrupts it,
/// and two more where it closes the connection, or one more where it first finds that the player
/// takes bytes soon. Moments are milliseconds of one clock.
pub struct Outlet {
    stream: TcpStream,
    pending: Mutex<Pending>,
    // How many requests the server made on the connection.
    requests: Mutex<u32>,
    // Whether the system was told to keep `SEND_BUFFER` bytes of it.
    is_wide: AtomicBool,
}

// Written out, so that whoever lets go of it makes one call, and not one for each of its parts.
impl Drop for Outlet {
    fn drop(self) {
        let Self {
            stream: _stream,
            pending: _pending,
            requests: _requests,
            is_wide: _is_wide,
        } = self;
    }
}

impl Outlet {
    /// The outlet of a connection, which doesn't block. It takes no memory. What frames take beyond
    /// `FRAME_ROOM` is lent by this.
    pub fn new(alloc: Global, stream: TcpStream, loan: Loan) -> Outlet
        ensures { result.stream ≡ stream }
    {
        Outlet {
            stream,
            pending: Mutex::new(Pending::new(alloc, loan)),
            requests: Mutex::new(0),
            is_wide: AtomicBool::new(false),
        }
    }

    /// The connection's descriptor, by which a poll names it.
    pub fn fd(&self) -> RawFd {
        self.stream.as_raw_fd()
    }

    /// The connection, to be read from.
    pub fn stream(&self) -> &TcpStream
        ensures { result.now ≡ self.now.stream }
    {
        &self.stream
    }

    /// The number of the next request of the server on this connection, from 1. After 999,999,999,
    /// the greatest (RFC 7826 section 20.2.3), it begins anew.
    pub fn next_cseq<R: Wait>(&self, rt: &R) -> u32
        ensures least { 1 ≤ result }
        ensures most { result ≤ 999_999_999 }
    {
        let mut requests = self.requests.lock(rt);
        *requests = *requests % 999_999_999 + 1;
        *requests
    }

    // The player sees the end of the connection, and so does the lane. It may take what the system keeps
    // for so many milliseconds.
    fn shut(&self, limit: u32) {
        limit_the_end(self.fd(), limit);
        let _ = self.stream.shutdown(Shutdown::Both);
    }

    // Has the system keep `SEND_BUFFER` bytes, at the first call alone.
    fn widen(&self) {
        if !self.is_wide.swap(true, Ordering::SeqCst) {
            widen(self.fd());
        }
    }

    /// Writes a message whole, or keeps what is left of it, or drops it whole. At a response that
    /// has no room, or no memory, the connection is closed.
    pub fn put<R: Wait>(&self, rt: &R, now: u64, kind: Message, bytes: &[u8]) -> Put
        ensures { result ≡ Put.Dropped → kind ≡ Message.Frame }
    {
        self.put_within(rt, now, FrameRoom::least(), kind, bytes)
    }

    /// Writes a frame whole, or keeps what is left of it, or drops it whole. It may wait within this
    /// room, or the greatest with which another frame came that waits.
    pub fn put_frame<R: Wait>(&self, rt: &R, now: u64, room: FrameRoom, frame: &[u8]) -> Put {
        self.put_within(rt, now, room, Message::Frame, frame)
    }

    fn put_within<R: Wait>(
        &self,
        rt: &R,
        now: u64,
        room: FrameRoom,
        kind: Message,
        bytes: &[u8],
    ) -> Put
        ensures { result ≡ Put.Dropped → kind ≡ Message.Frame }
    {
        let mut pending = self.pending.lock(rt);
        let was_closed = pending.is_closed();
        pending.widen(room);
        let put = pending.put(&mut &self.stream, now, kind, bytes);
        if put == Put::Closed && !was_closed {
            self.shut(GIVEN_UP);
        }
        put
    }

    /// Writes what waits, as far as it goes at once: how many bytes are left, beside those that are
    /// lent, or `None` where the connection is closed. It is 0 only where no byte waits. It is called
    /// whenever the system tells that the connection can be written, and from time to time, since the
    /// system tells late: what it takes meanwhile is what the player has taken. A pacer calls it where its
    /// frames wait, since the lane may be held up.
    pub fn flush<R: Wait>(&self, rt: &R, now: u64) -> Option<usize>
        ensures { IfSome result (λ left. left ≤ all_room) }
    {
        let mut pending = self.pending.lock(rt);
        let was_closed = pending.is_closed();
        let (waited, since) = (pending.len(), pending.since());
        match pending.flush(&mut &self.stream, now) {
            Some(left) if left < waited && now.saturating_sub(since) < SOON => self.widen(),
            Some(_) => {}
            None => {
                if !was_closed {
                    self.shut(GIVEN_UP);
                }
                return None;
            }
        }
        Some(pending.unlent())
    }

    /// Whether it takes frames: the connection is open, and isn't at its end.
    pub fn takes_frames<R: Wait>(&self, rt: &R) -> bool {
        self.pending.lock(rt).takes_frames()
    }

    /// Takes no more frames: how many bytes still wait, beside those that are lent.
    pub fn drain<R: Wait>(&self, rt: &R) -> usize
        ensures { result ≤ all_room }
    {
        let mut pending = self.pending.lock(rt);
        pending.drain();
        pending.unlent()
    }

    /// How many bytes wait, beside those that are lent: 0 only where no byte waits.
    pub fn waiting<R: Wait>(&self, rt: &R) -> usize
        ensures { result ≤ all_room }
    {
        self.pending.lock(rt).unlent()
    }

    /// How many bytes wait, with those that are lent.
    pub fn held<R: Wait>(&self, rt: &R) -> usize
        ensures { result ≤ most_room }
    {
        self.pending.lock(rt).len()
    }

    /// Closes the connection where bytes wait and none was taken for `STALL_LIMIT` milliseconds, or fewer
    /// than a byte a millisecond for so long that `SLOW_LIMIT` milliseconds aren't paid. Whether it did.
    pub fn close_stalled<R: Wait>(&self, rt: &R, now: u64) -> bool {
        let mut pending = self.pending.lock(rt);
        let is_stalled = pending.is_stalled(now);
        if is_stalled {
            pending.close();
            self.shut(GIVEN_UP);
        }
        is_stalled
    }

    /// Closes the connection. What waits is given up. Where nothing does, the player has a millisecond for
    /// each byte that the system may keep of what was written.
    pub fn close<R: Wait>(&self, rt: &R) {
        let mut pending = self.pending.lock(rt);
        if !pending.is_closed() {
            let limit = if pending.len() == 0 {
                WRITTEN
            } else {
                GIVEN_UP
            };
            pending.close();
            self.shut(limit);
        }
    }
}
