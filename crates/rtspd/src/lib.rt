//! The server's programs: a conversation over a reader and a writer, the audit of a journal, and
//! the server of a socket.
//!
//! `running` runs a command line of rtsp_command_line: the server behind standard input and output
//! is that of `devices`; `serving` is that of a socket, `reasons` tells why there is none, of its file of
//! users by `users`, and `checking` whether there would be one by a configuration.
//!
//! The definitions of `specs/` are those of `devices`, and read in this order: CountedWords (words
//! that are counted), Alone (how one connection is served from a book of its own).

#![tactic(auto)]

mod checking;
mod devices;
mod reasons;
mod running;
mod serving;
mod users;

pub use devices::{
    Conversation, CountedWords, NoPlays, PEER, StandingClock, law_alone_has_places, serve_alone,
};
pub use reasons::tell_reasons;
pub use rtsp_command_line::{CommandLine, Exit, Help, read_help, read_words};
pub use rtsp_log::takes_last_lines;
pub use rtsp_traits::{
    NoShares, PortSet, law_admitted_gains_ports, law_ports_show, law_refused_keeps_ports,
};
pub use running::{run_program, run_words};
