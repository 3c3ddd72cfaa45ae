//! What is wrong with a configuration, for whoever wrote it: each key that is missing, out of its limits
//! or of the wrong type, with its line, its limits and what to do; and as notes what is unknown and not
//! read, or may not be meant.
//!
//! The program goes by what rtsp_content reads, and stops at the first fault. This crate only tells of
//! faults.

#![tactic(auto)]

mod explaining;
mod findings;
mod keys;
mod lines;
mod lists;
mod numbers;
mod rules;
mod together;
mod tracks;
mod unknown;

pub use explaining::explain;
pub use findings::Findings;
pub use lines::{Place, line_of};
pub use numbers::grouped;
