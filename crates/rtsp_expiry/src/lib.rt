//! The end of sessions by time and by the end of a connection.
//!
//! A sweep acts one step, Expire or Hangup, again and again, until nothing is due or its limit is
//! reached. The lock is free between the steps, so that others get it there. After each step the
//! ports that it freed are unbound. A sweep takes no memory, and never breaks off for want of it.
//!
//! At the end of a server whoever has the book alone ends all sessions.
//!
//! The definitions of `specs/` read in this order: Sweeps (the calls of a sweep, one after
//! another), Endings (what it ends, and what is there after it), Emptying (the end of all).

#![tactic(auto)]

mod emptying;
mod sweeping;
mod swept;

pub use emptying::end_all;
pub use sweeping::{hang_up, sweep};
pub use swept::Swept;
