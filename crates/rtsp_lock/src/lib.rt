//! One book for any number of threads, with one history.
//!
//! A `BookLock` has the book, and each thread has a `BookSeat` of it; a `BookHandle` is the two in one.
//! A call of a seat finds a journal, is answered as a kept book with that journal would answer it,
//! and appends its entries to the journal, under the seat's actor. Whenever the lock is free, the
//! book is the replay of its journal.
//!
//! The history has every entry that a seat ever made, in order. It exists in contracts only. The
//! journal has the same book as the history, and is shorter once `forget` has left out the sessions
//! that had ended, or `checkpoint` has restated those that live, under a number that is no seat's.
//! Neither touches the history. So what a seat sees of it begins, for ever, with all that the seat
//! had seen. `hand_out` gives what the history gained, for whoever writes it down.
//!
//! A lock that is opened for `DrawnNumbers` has seats that hold and add only under numbers which they
//! drew themselves: an act requires it. So none uses another's, which each call tells its seat.
//!
//! The definitions of `specs/` read in this order: Entries (whose they are, and what a history is),
//! Numbers (under which the seats hold and add), Rule (what the lock keeps over all seats), Steps (what
//! a step of the lock tells its seat), Named,
//! Calls (what the calls promise), Handing (what is handed out of the history), Tallies, Room, Laws (what
//! holds over many calls).

#![tactic(auto)]

mod handle;
mod laws;
mod lock;
mod marks;
mod names;
mod numbering;
mod opening;
mod rule;
mod seat;
mod tally;
mod view;

pub use handle::BookHandle;
pub use laws::{
    law_abreast, law_acted, law_actors_differ, law_checked, law_draws_differ, law_first_stood,
    law_forgot, law_handed_out, law_history, law_history_answers, law_history_lasts, law_later,
    law_looked, law_one_history, law_relief_decides, law_relieved, law_run, law_run_goes_on,
    law_run_lasts, law_seen_stood, law_split_stood, law_stood_lasts, law_stood_to_the_end,
};
pub use lock::BookLock;
pub use marks::{HandOutFault, Mark, Then};
pub use names::Name;
pub use numbering::{AnyNumbers, DrawnNumbers, Numbers};
pub use opening::{open, open_book, open_for};
pub use rule::LockBook;
pub use seat::BookSeat;
pub use tally::Tally;
