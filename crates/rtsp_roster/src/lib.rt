//! What a lane has under its care, and which of it is to be visited.
//!
//! `line` is a line of keys, each in it once at most, and `roster` has what lives under keys, and two
//! such lines of the keys that are to be visited.
//!
//! The definitions of `specs/` read in this order: Lines (a line, and how it changes), Rosters (who
//! lives, and who is to be visited), Lends (what a roster ends as, once what it lent is over).

#![tactic(auto)]

mod line;
mod roster;

pub use line::Line;
pub use roster::{IN_A_ROW, Roster};
