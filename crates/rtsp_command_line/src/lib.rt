//! The command line: what the words after the program's name ask for, and the status and the line
//! that a program ends with.
//!
//! The definitions of `specs/` read in this order: CommandLine (the words, as a command of `clap`,
//! and what they ask for), Help (the words that ask about the program itself), Exits (the status of each
//! end).

#![tactic(auto)]

mod command_line;
mod exit;
mod help;

pub use command_line::{CommandLine, read_words};
pub use exit::Exit;
pub use help::{EXPLANATION, Help, USAGE, VERSION, read_help};
