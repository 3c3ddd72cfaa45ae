//! Why a step is refused.

use thiserror::Error;

/// Why a step is refused, by ascending number from 1. Of several refusals that fit, the one with
/// the least number is answered. A refused step changes nothing.
#[derive(Clone, Copy, Debug, PartialEq, Eq, Error)]
pub enum Refusal {
    /// No living session has the number, or the id.
    #[error("no such session")]
    NoSession,
    /// The limit of living sessions is reached.
    #[error("too many sessions")]
    TooManySessions,
    /// The uplink has fewer bits per second left than the step asks for.
    #[error("not enough bandwidth")]
    NoBandwidth,
    /// No pair of ports, or no port, is free from the step's `from` on.
    #[error("no free ports")]
    NoPair,
    /// No pair of channels of the connection is free.
    #[error("no free channels")]
    NoChannel,
    /// The session is not in a state for the step.
    #[error("not in this state")]
    WrongState,
    /// A living session has the id or the number.
    #[error("the session's id or number is taken")]
    IdTaken,
    /// The session has a startup number, or the number is taken.
    #[error("the startup number is taken")]
    StartupTaken,
    /// What would be given back or used is not held.
    #[error("not held")]
    NotHeld,
    /// The journal's limit has no room for the entries and for the returns that they owe.
    #[error("the journal is full")]
    JournalFull,
    /// No session is due, or the play is not at its end.
    #[error("nothing is due")]
    NothingDue,
    /// No number is left to draw.
    #[error("the numbers are spent")]
    NumbersSpent,
    /// There is no memory for a step that grows.
    #[error("out of memory")]
    OutOfMemory,
}
