//! Requests as players write them, in the terms of RFC 7826.
//!
//! GStreamer draws the number of Pipelined-Requests below 2^31, where the grammar has eight digits,
//! and names its ports over UDP as RTSP 1.0 does, by `client_port`. `repair` makes of such a request
//! the one that says the same by the grammar, and `push_repaired` has that answered.
//!
//! The definitions of `specs/` read in this order: Startup (a number that is too long), ClientPort
//! (ports in the terms of 1.0 and of 2.0), PartText and ClientPortText (the same in the text of a
//! Transport header), Repair (a request), Within (what is within RFC 7826), Laws, Repairing (how
//! repaired items are answered).

#![tactic(auto)]

mod client_port;
mod laws;
mod repairing;
mod request;
mod startup;
mod transport;

pub use laws::{law_repaired_is_within, law_repairs_to_itself, law_rest_stays, law_says_the_same};
pub use repairing::push_repaired;
pub use request::repair;
