//! The header by which a balancer says whose connection it passes on: the PROXY protocol, versions
//! 1 and 2, for TCP over IPv4.
//!
//! `reading` reads it at the front of what has come of a connection: `line` a header of version 1,
//! which is a line, `binary` one of version 2, `front` the fixed text by which each begins. `seen` says
//! what is known then, and `laws` what holds of every header.
//!
//! The definitions of `specs/` read in this order: Front, Line, Binary, Proxy (a whole header), Laws.

#![tactic(auto)]

mod binary;
mod front;
mod laws;
mod line;
mod reading;
mod seen;

pub use laws::{
    law_answer_stays, law_header_is_short, law_line_is_read, law_own_is_read, law_player_is_read,
};
pub use line::read_address;
pub use reading::{LONGEST, read_proxy};
pub use seen::{Origin, ProxyFault, Seen};
