//! A plain, slow book: its sessions in a vector, in ascending order of their numbers.

ghost use Rattle.std.specs.Prelude.{◌≡◌, ◌<◌, ◌^◌};
ghost use Rattle.rtsp_record.specs.Sums.{living, held_rate, owed};
ghost use Rattle.rtsp_record.specs.Choices.{HasPorts};

mod amounts;
mod choices;
mod lookups;
mod own;
mod rows;
mod rules;

use crate::measures::Measure;
use crate::numbers::SessionNumbers;
use crate::representation::BookRep;
use crate::udp_ports::UdpPorts;
use crate::views::SessionView;
pub use own::allowed_for_session;
use rows::Rows;
pub use rows::openings;
use rtsp_record::{Record, Whole};
use std::alloc::{AllocError, Global};
use std::marker::Model;

/// A book as a vector of its sessions. A session is found by its number by binary search; other
/// questions look at all.
#[derive(Drop)]
pub struct PlainBook {
    whole: Whole,
    rows: Rows,
}

impl Model for PlainBook {
    ghost use Rattle.rtsp_record.specs.contracts.holdings.Admission as admission;
    ghost use Rattle.rtsp_record.specs.contracts.holdings.Whole as limits;
    ghost use Rattle.rtsp_record.specs.contracts.phases.Phase as play;
    ghost use Rattle.rtsp_sessions.specs.Plain.{PlainState, plain_code, IsPlain};

    ghost Value = { PlainState };

    ghost coded = { plain_code limits.the_row.coded admission.the_row.coded play.the_row.coded };

    ghost view = { λ b. record { whole = b.whole; book = b.rows } };

    ghost invariant = { λ b. IsPlain b.whole b.rows };
}

impl PlainBook {
    // The rows, of which no sum is too large.
    fn rows(&self) -> &Rows
        ensures book { result.now ≡ self.now.book }
        ensures living { living result.now < 2 ^ 16 }
        ensures rate { held_rate result.now < 2 ^ 64 }
        ensures owed { owed result.now < 2 ^ 32 }
    {
        let _sessions = self.whole.sessions;
        let _uplink = self.whole.uplink;
        &self.rows
    }

    fn whole(&self) -> &Whole
        ensures value { result.now ≡ self.now.whole }
        ensures ports { HasPorts result.now }
    {
        &self.whole
    }
}

impl BookRep for PlainBook {
    ghost contents = { λ b. b.book };

    ghost whole_of = { λ b. b.whole };

    fn open(alloc: Global, whole: &Whole) -> Result<Self, AllocError> {
        Ok(PlainBook {
            whole: *whole,
            rows: Rows::new(alloc),
        })
    }

    fn allowed(&self, change: &Record) -> bool {
        self.rows().allows(self.whole(), change)
    }

    fn apply(&mut self, changes: &[Record]) -> Result<(), AllocError> {
        let _sessions = self.whole.sessions;
        self.rows.make_all(changes)?;
        Ok(())
    }

    fn get(&self, session: u64) -> Option<&SessionView> {
        self.rows().get(session)
    }

    fn lives(&self, session: u64) -> bool {
        self.rows().lives(session)
    }

    fn next_session(&self, from: u64) -> Option<u64> {
        self.rows().first_from(from)
    }

    fn next_sessions(&self, above: Option<u64>, found: &mut SessionNumbers) {
        self.rows().first_above(above, found)
    }

    fn unsettled(&self) -> Option<u64> {
        self.rows().unsettled()
    }

    fn by_id(&self, id: u128) -> Option<u64> {
        self.rows().with_id(id)
    }

    fn by_startup(&self, conn: u64, number: u32) -> Option<u64> {
        self.rows().with_startup(conn, number)
    }

    #[tactic(auto, unfolding(rtsp_record::specs::Choices::least_pair_by))]
    fn least_pair(&self, from: u32) -> Option<u16> {
        self.rows().least_free(UdpPorts::Pair, self.whole(), from)
    }

    #[tactic(auto, unfolding(rtsp_record::specs::Choices::least_port_by))]
    fn least_port(&self, from: u32) -> Option<u16> {
        self.rows().least_free(UdpPorts::Port, self.whole(), from)
    }

    fn least_chan(&self, conn: u64, wish: Option<u8>) -> Option<u8> {
        self.rows().chosen_chan(conn, wish)
    }

    fn held_rate(&self) -> u64 {
        self.rows().amount(&Measure::Rates) as u64
    }

    fn living(&self) -> usize {
        self.rows().amount(&Measure::Sessions) as usize
    }

    fn due(&self, now: u64) -> Option<u64> {
        self.rows().expired(now)
    }

    fn on_conn(&self, conn: u64) -> Option<u64> {
        self.rows().on_conn(conn)
    }

    fn owed(&self) -> usize {
        self.rows().amount(&Measure::Returns) as usize
    }
}
