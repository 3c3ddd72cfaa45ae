//! The text of a journal, written and read, and the text of a book. Nothing that says what a record
//! is, or when it is allowed, stands on it.
//!
//! The definitions of `specs/` read in this order: JournalText (the line of an entry), JournalFields
//! (the fields that a line is written from), JournalAnswers (what a text is: a journal, or its first
//! fault), JournalReading (the same, read from the front), BookText (the book as it is printed, in
//! lines as a journal has).

#![tactic(auto)]

mod book;
mod fields;
mod journal;
mod journal_fault;
mod laws;
mod numbers;
mod reading;
mod writing;

pub use book::book_text;
pub use fields::{Field, write_line};
pub use journal::read_journal;
pub use journal_fault::JournalFault;
pub use laws::{law_one_answer, law_one_journal, law_one_line, law_reads_back};
pub use writing::{write_entry, write_journal, write_record, write_setup};
