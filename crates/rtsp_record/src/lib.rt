//! Records of the book of sessions: what each changes, when it is allowed, and the record that
//! takes it back. How they are written and read is in rtsp_journal_text.
//!
//! The definitions of `specs/` read in this order: Records (inverses), Tables and Books (the book,
//! and what a record makes of it), Sums (what is counted over a book), Choices (the least of what
//! is free), Rules (when a record is allowed), Sound (what is true of the book of every legal
//! journal), Ports (what is held and what is free of the UDP ports, counted), Journals (a journal
//! undone, or with entries left out), LastWord (the book in a journal's own words), Moments (how
//! far a play is), Counters (counts of failures).

#![tactic(auto)]

mod changes;
mod holdings;
mod ids;
mod laws;
mod payloads;
mod phases;
mod streams;

pub use changes::{Entry, Record};
pub use holdings::{Admission, Thing, Whole};
pub use ids::Id;
pub use laws::{law_inverse, law_last_words, law_same_words};
pub use payloads::{Binding, Holding, Life, Renewal, Setup, Transition};
pub use phases::Phase;
pub use streams::Stream;
