//! Requests that are answered, and told of. What is told changes no byte of an answer: whoever is
//! watched answers as without it, and `push_watched` and `push_repaired_watched` say so in the
//! words of the engine and of the players' dialect. `push_understood` and `push_lent` take the input of
//! a connection, and have each item answered at a desk as the players of the configuration mean it.
//! `ending` tells which session a request has ended.
//!
//! The definitions of `specs/`: Watching (how items are answered by one who is watched), Understanding
//! (items at a desk, by the players), Ending (which session a step has ended), Growth (what a connection
//! is answered over content that goes on between its visits; the laws say it of all visits together).

#![tactic(auto)]

mod ending;
mod laws;
mod lending;
mod reading;
mod understanding;
mod watching;
mod witness;

pub use ending::Recorder;
pub use laws::{law_then_chains, law_visits_then};
pub use lending::push_lent;
pub use understanding::push_understood;
pub use watching::{push_repaired_watched, push_watched};
pub use witness::{Told, Witness};
