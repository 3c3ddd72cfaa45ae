//! What records carry: what a session begins with, holds, sets up and is bound to, and how it
//! changes.

use crate::holdings::Thing;
use crate::ids::Id;
use crate::phases::Phase;
use crate::streams::Stream;

/// What a session begins with.
#[derive(Clone, Copy, PartialEq, Eq)]
pub struct Life {
    /// The session's number.
    pub session: u64,
    pub id: Id,
    /// The connection on which the session began.
    pub conn: u64,
    /// The moment from which on the session may be ended.
    pub expires: u64,
}

/// A thing that a session holds under an admission.
#[derive(Clone, Copy, PartialEq, Eq)]
pub struct Holding {
    pub session: u64,
    pub admission: u64,
    pub thing: Thing,
}

/// A track that is set up over what an admission holds.
#[derive(Clone, Copy, PartialEq, Eq)]
pub struct Setup {
    pub session: u64,
    pub admission: u64,
    pub stream: Stream,
}

/// A session's way from one phase to another.
#[derive(Clone, Copy, PartialEq, Eq)]
pub struct Transition {
    pub session: u64,
    pub from: Phase,
    pub to: Phase,
}

/// A change of the moment from which on a session may be ended.
#[derive(Clone, Copy, PartialEq, Eq)]
pub struct Renewal {
    pub session: u64,
    pub from: u64,
    pub to: u64,
}

/// A startup number that a session has on a connection (RFC 7826 section 18.33).
#[derive(Clone, Copy, PartialEq, Eq)]
pub struct Binding {
    pub session: u64,
    pub conn: u64,
    pub number: u32,
}
