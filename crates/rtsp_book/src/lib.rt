//! The book of sessions, and the steps by which it changes.
//!
//! A `Kept` is a book with the journal of its changes. A step is answered by `reply` from the book
//! and the number of entries alone; what is accepted is recorded, and what is recorded can be
//! undone, the last first. A checkpoint makes the journal as short as what lives. The book itself
//! is whatever represents the table of living sessions, of which rtsp_sessions has the trait and
//! the plain one.
//!
//! The definitions of `specs/` read in this order: Sessions, Returns and Made (what a step
//! records), Replies (when it is refused), Laws, Receipts, Cases (what a reply is made from), Owed,
//! Kept, Answers (how a call answers), Checkpoints.

#![tactic(auto)]

mod asks;
mod checkpoints;
mod forgetting;
mod kept;
mod laws;
mod owed;
mod receipts;
mod refusals;
mod reply;
mod steps;

pub use asks::{Admitted, Ask, Opening, Wanted};
pub use checkpoints::CHECKPOINT_SLACK;
pub use kept::{Kept, NumbersSpent};
pub use laws::{law_giving_back, law_granted};
pub use receipts::{FreedPorts, Receipt};
pub use refusals::Refusal;
pub use rtsp_record::Life;
pub use rtsp_sessions::{Admissions, BookRep, Measure, PlainBook, SessionView, Startup};
pub use steps::{Chain, ChannelHold, Commit, Play, Step};
