//! A book of sessions with indexes, in which a record, a choice, or a look-up by number, id or startup
//! number costs nearly the same however many sessions live. `IndexedBook` says what each call costs.
//!
//! The definitions of `specs/` read in this order: Placing, Lessers, Dating and Contents (the table
//! of sessions with their expiries), Searching (what sessions are searched by), Following (a record
//! after a book), Pooling (what is free), Bound and Counted (what is counted), Naming and
//! Named (what sessions are found by), Agreeing (parts that speak of one book).

#![tactic(auto)]

mod bindings;
mod counts;
mod indexed;
mod moments;
mod names;
mod parts;
mod pools;
mod search;
mod table;

pub use indexed::IndexedBook;
