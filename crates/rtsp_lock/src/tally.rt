//! The figures of the book.

ghost use Rattle.rtsp_lock.specs.Tallies.{IsTallyOf};

use crate::rule::LockBook;
use rtsp_book::{BookRep, Kept};

/// The figures of the book at one moment.
#[derive(Clone, Copy, PartialEq, Eq)]
pub struct Tally {
    /// Living sessions.
    pub sessions: usize,
    /// Bits per second that are held.
    pub rate: u64,
    /// Pairs of ports of which both are free.
    pub free_pairs: usize,
    /// Ports that are free.
    pub free_ports: usize,
    /// Entries of the journal.
    pub entries: usize,
    /// Records that would end all sessions.
    pub owed: usize,
    /// Entries for which there is room yet, beside those that are owed.
    pub room: usize,
}

// The figures, none of which takes longer for a larger book.
pub(crate) fn tally_of(kept: &Kept<LockBook>) -> Tally
    ensures { IsTallyOf kept.now.whole kept.now.journal result }
{
    let limit = kept.whole().journal as usize;
    let entries = kept.journal().len();
    let owed = kept.book().owed();
    Tally {
        sessions: kept.book().living(),
        rate: kept.book().held_rate(),
        free_pairs: kept.book().free_pairs(),
        free_ports: kept.book().free_ports(),
        entries,
        owed,
        room: limit - (entries + owed),
    }
}
