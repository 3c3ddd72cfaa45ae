//! Journals replayed, undone and with entries left out, and the laws over whole journals.
//!
//! The definitions of `specs/` read in this order: Laws (what holds of every legal journal), Replays
//! (why a journal is refused, and what is left of one that is undone), Strands (journals compared
//! session by session). What a journal is, when it is legal, what is left without some entries, and
//! what is held and free of the ports is defined in rtsp_record.

#![tactic(auto)]

mod laws;
mod omissions;
mod replays;
mod rewinds;
mod strands;

pub use laws::{
    law_admission_fits, law_back, law_checkpoint, law_ended, law_ending_step, law_exchange,
    law_less_admission, law_less_ended, law_less_gone, law_less_session, law_nothing_restated,
    law_one_back, law_one_session, law_ports, law_returning, law_session_fits, law_snapshot,
    law_strands, law_whole,
};
pub use omissions::{without_admission, without_ended, without_session};
pub use replays::{AuditFault, replay, replay_without_admission, replay_without_session};
pub use rewinds::{Cut, rewind};
pub use strands::same_strands;
