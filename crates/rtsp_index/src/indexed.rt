//! A book with indexes.

ghost use Rattle.std.specs.Prelude.{◌≡◌};
ghost use Rattle.rtsp_index.specs.Agreeing.{book_in, AllAgree};
ghost use Rattle.rtsp_index.specs.Free.{free_pairs, free_ports};

use crate::parts::Parts;
use crate::search::Search;
use rtsp_record::{Record, Whole};
use rtsp_sessions::{BookRep, SessionNumbers, SessionView};
use std::alloc::{AllocError, Global};
use std::marker::Model;

/// A book with indexes. A record, and a look-up by number, id or startup number, cost the same
/// however many sessions live, and so do the choices and sums; of a record that opens or closes a
/// session or moves its expiry, a part grows with the logarithm of their number. `due` and
/// `on_conn` cost the same where they answer `None`. Where they find a session, and always in
/// `next_session`, `next_sessions` and `unsettled`, all sessions are gone through. `on_conn` and
/// `unsettled` read each row then, the others numbers and expiries alone.
///
/// The parts stand on the heap, so a book is moved as one address.
pub struct IndexedBook {
    parts: Box<Parts>,
}

// Written out, so that dropping a book is one call, and not one for each of its parts.
impl Drop for IndexedBook {
    fn drop(self) {
        let Self { parts: _parts } = self;
    }
}

impl Model for IndexedBook {
    ghost use Rattle.rtsp_record.specs.contracts.holdings.Admission as admission;
    ghost use Rattle.rtsp_record.specs.contracts.holdings.Whole as limits;
    ghost use Rattle.rtsp_record.specs.contracts.phases.Phase as play;
    ghost use Rattle.rtsp_sessions.specs.Plain.{PlainState, plain_code};
    ghost use Rattle.rtsp_index.specs.Agreeing.{book_in, AllAgree};

    ghost Value = { PlainState };

    ghost coded = { plain_code limits.the_row.coded admission.the_row.coded play.the_row.coded };

    ghost view = { λ b. record { whole = b.parts.value.whole; book = book_in b.parts.value } };

    ghost invariant = { λ b. AllAgree b.parts.value };
}

impl IndexedBook {
    // The parts, which agree.
    fn parts(&self) -> &Parts
        ensures agree { AllAgree result.now }
        ensures whole { result.now.whole ≡ self.now.whole }
        ensures book { book_in result.now ≡ self.now.book }
    {
        &self.parts
    }

    /// How many pairs of ports have both of them free.
    pub fn free_pairs(&self) -> usize
        ensures { result ≡ free_pairs self.now.whole self.now.book }
    {
        self.parts().pools.free_pairs()
    }

    /// How many ports are free.
    pub fn free_ports(&self) -> usize
        ensures { result ≡ free_ports self.now.whole self.now.book }
    {
        self.parts().pools.free_ports()
    }
}

impl BookRep for IndexedBook {
    ghost contents = { λ b. b.book };

    ghost whole_of = { λ b. b.whole };

    fn open(alloc: Global, whole: &Whole) -> Result<Self, AllocError> {
        let parts = Box::new(alloc, Parts::open(alloc, whole)?)?;
        Ok(IndexedBook { parts })
    }

    fn allowed(&self, change: &Record) -> bool {
        self.parts().allowed(change)
    }

    fn apply(&mut self, changes: &[Record]) -> Result<(), AllocError> {
        let parts = &mut *self.parts;
        parts.reserve(changes)?;
        parts.make_all(changes);
        Ok(())
    }

    fn get(&self, session: u64) -> Option<&SessionView> {
        self.parts().sessions.get(session)
    }

    fn lives(&self, session: u64) -> bool {
        self.parts().sessions.lives(session)
    }

    fn next_session(&self, from: u64) -> Option<u64> {
        self.parts().sessions.least(&Search::From(from))
    }

    fn next_sessions(&self, above: Option<u64>, found: &mut SessionNumbers) {
        self.parts().sessions.least_above(above, found)
    }

    fn unsettled(&self) -> Option<u64> {
        self.parts().sessions.least(&Search::Unsettled)
    }

    fn by_id(&self, id: u128) -> Option<u64> {
        self.parts().names.by_id(id)
    }

    fn by_startup(&self, conn: u64, number: u32) -> Option<u64> {
        self.parts().names.by_startup(conn, number)
    }

    fn least_pair(&self, from: u32) -> Option<u16> {
        self.parts().pools.least_pair(from)
    }

    fn least_port(&self, from: u32) -> Option<u16> {
        self.parts().pools.least_port(from)
    }

    fn least_chan(&self, conn: u64, wish: Option<u8>) -> Option<u8> {
        self.parts().pools.least_chan(conn, wish)
    }

    fn held_rate(&self) -> u64 {
        self.parts().pools.held_rate()
    }

    fn living(&self) -> usize {
        self.parts().counts.living()
    }

    fn due(&self, now: u64) -> Option<u64> {
        self.parts().sessions.due(now)
    }

    fn on_conn(&self, conn: u64) -> Option<u64> {
        self.parts().on_conn(conn)
    }

    fn owed(&self) -> usize {
        self.parts().counts.owed()
    }
}
