//! The table of living sessions: how it is seen, whoever represents it, and a plain one.
//!
//! `BookRep` is the book of sessions, however it is kept, with its look-ups, its choices of what is
//! free, and the changes by records. `SessionView` is one session of it, of fixed size. `PlainBook`
//! is a book that is a vector of its sessions.
//!
//! The definitions of `specs/` read in this order: Searches (the first row that passes), Lookups,
//! Measures (what the code counts), Codes and Plain (how a plain book is kept), Ports (what it
//! tries one after another).

#![tactic(auto)]

mod admissions;
mod measures;
mod numbers;
mod plain;
mod representation;
mod startups;
mod udp_ports;
mod views;

pub use admissions::{Admissions, MOST_HOLDING};
pub use measures::Measure;
pub use numbers::{SessionNumbers, is_above};
pub use plain::{PlainBook, allowed_for_session, openings};
pub use representation::BookRep;
pub use startups::Startup;
pub use udp_ports::UdpPorts;
pub use views::SessionView;
