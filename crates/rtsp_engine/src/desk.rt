//! What the requests of a connection are answered from.

ghost use Rattle.rtsp_lock.specs.Calls.{IsSeatOf};

use rtsp_book::Receipt;
use rtsp_content::Table;
use rtsp_lock::{AnyNumbers, BookLock, BookSeat, Numbers};

/// Who asks: the connection's number, and the player's IPv4 address.
#[derive(Clone, Copy)]
pub struct Asker {
    pub conn: u64,
    pub peer: u32,
    /// The IPv4 address that packets over UDP come from, where the player connected to another one,
    /// as behind a balancer.
    pub source: Option<u32>,
}

/// The parts that are lent to a connection: its seat of the lock, the receipt that its steps fill,
/// the binder of its ports, the source of its words, the clock, who learns of its plays, who counts
/// the sessions of each address, the content, and who asks. A receipt is 3.7 kB, so it goes from one
/// request to the next, and is made for none.
#[derive(Drop)]
pub struct Desk<'a, R, B, W, C, P, S, N: Numbers = AnyNumbers> {
    pub rt: &'a R,
    pub seat: &'a mut BookSeat,
    pub lock: &'a BookLock<N>,
    pub made: &'a mut Receipt,
    pub binder: &'a mut B,
    pub words: &'a mut W,
    pub clock: &'a mut C,
    pub plays: &'a mut P,
    pub shares: &'a mut S,
    pub table: &'a Table,
    pub asker: Asker,
    ghost ours: { IsSeatOf seat.now lock.now },
}
