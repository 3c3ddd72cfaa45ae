//! A second listener for whoever looks after the server: `/metrics` for machines, `/` for people,
//! `/healthz`, `/ready` and `/agent` for balancers, `/sessions` for who watches what; and by POST the
//! end of a session and the draining of the server are asked for. It
//! runs in a thread of its own, and is bounded: so many connections at once, each for so long and with
//! one request, whose head has so many bytes and which has no body. One connection more closes the
//! oldest, so whoever is slow, or holds connections open, keeps nobody else out.
//!
//! The definitions of `specs/`: Asking (what a request asks for, and what is answered).

#![tactic(auto)]

mod asked;
mod halt;
mod limits;
mod peer;
mod server;
mod service;
mod shown;
mod standing;
mod watch;

pub use asked::{Nearness, SessionMeant};
pub use halt::Halt;
pub use limits::{HEAD, LIFE, PEERS};
pub use server::{Source, StatusServer};
pub use service::StatusService;
pub use shown::{Further, Shown};
pub use standing::{Agent, Standing};
