//! What a server is lent from outside, as traits: a clock, a source of words, who learns of plays, and
//! who counts the sessions of each player. Two need nothing from outside: `no_shares`, by which
//! nobody is refused a session, and `port_set`, a binder that opens no socket.
//!
//! The traits stand below the engine that uses them, so that whoever implements them needn't stand
//! on the engine.
//! The definitions of `specs/`: Devices (what each call does), NoShares, PortSet (which ports are
//! bound), Has (what of that an admission changes).

#![tactic(auto)]

mod clock;
mod laws;
mod no_shares;
mod plays;
mod port_set;
mod shares;
mod words;

pub use clock::Clock;
pub use laws::{law_admitted_gains_ports, law_ports_show, law_refused_keeps_ports};
pub use no_shares::NoShares;
pub use plays::Plays;
pub use port_set::PortSet;
pub use shares::{ShareSpent, Shares};
pub use words::{Words, WordsFault};
