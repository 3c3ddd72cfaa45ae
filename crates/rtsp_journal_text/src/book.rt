//! The text of a book.

ghost use Rattle.std.specs.Prelude.{◌≡◌, ◌+◌, ◌*◌, ◌++◌, ◌≤◌, OnOk, OnErr};
ghost use Rattle.std.specs.List.{AllByRecursion};
ghost use Rattle.rtsp_text.specs.Appending.{Appends};
ghost use Rattle.rtsp_record.specs.Records.{session_of};
ghost use Rattle.rtsp_record.specs.Books.{book_of};
ghost use Rattle.rtsp_record.specs.Choices.{HasPorts};
ghost use Rattle.rtsp_record.specs.Ports.{free_pairs};
ghost use Rattle.rtsp_journal_text.specs.BookText.{book_text, held_line, singles_line};

mod lines;
mod sessions;

use crate::fields::{Field, write_line};
use rtsp_book::{BookRep, Kept};
use rtsp_record::{Entry, Whole};
use rtsp_text::all_or_nothing;
use sessions::{Held, write_sessions};
use std::alloc::AllocError;

/// Writes the text of the book at the end: for each living session its lines, by ascending number,
/// and then the bits per second and the pairs of ports that are held and that are free; where a
/// port is held by itself, also how many are, and how many nothing covers. A refused one leaves the
/// bytes as they were.
pub fn book_text<B: BookRep>(out: &mut Vec<u8>, kept: &Kept<B>) -> Result<(), AllocError>
    ensures ok { OnOk result (out.new.items ≡ out.old.items ++ book_text kept.now.whole (book_of kept.now.journal)) }
    ensures err { OnErr result (out.new.items ≡ out.old.items) }
{
    let len = out.len();
    let written = write_book(out, kept);
    all_or_nothing(out, len, written)
}

// How many pairs of ports are free, counted from the least on.
fn free_pairs<B: BookRep>(book: &B) -> u16
    requires { HasPorts (B.whole_of book.now) }
    ensures { result ≡ free_pairs (B.whole_of book.now) (B.contents book.now) }
{
    let mut free = 0;
    let mut from = 0;
    while let Some(port) = book.least_pair(from) {
        free += 1;
        from = u32::from(port) + 1;
    }
    free
}

fn write_book<B: BookRep>(out: &mut Vec<u8>, kept: &Kept<B>) -> Result<(), AllocError>
    ensures { Appends result out.old.items out.new.items (book_text kept.now.whole (book_of kept.now.journal)) }
{
    let book = kept.book();
    let whole = kept.whole();
    let held = write_sessions(out, book, last_session(kept.journal()))?;
    let rate = book.held_rate();
    write_held(out, b"rate", rate, whole.uplink - rate)?;
    write_held(out, b"pairs", held.pairs, u64::from(free_pairs(book)))?;
    write_singles(out, held.singles, free_ports(whole, held))
}

// How many ports nothing covers.
fn free_ports(whole: &Whole, held: Held) -> u64
    requires { 2 * held.pairs + held.singles ≤ 2 * whole.now.pairs }
    ensures { result + 2 * held.pairs + held.singles ≡ 2 * whole.now.pairs }
{
    2 * u64::from(whole.pairs) - 2 * held.pairs - held.singles
}

// The line of how much is held and how much is free.
#[tactic(auto, using(rtsp_text::proofs::AppendLemmas::appends_whole))]
fn write_held(out: &mut Vec<u8>, word: &[u8], held: u64, free: u64) -> Result<(), AllocError>
    ensures { Appends result out.old.items out.new.items (held_line word.now held free) }
{
    write_line(
        out,
        &[Field::Word(word), Field::Number(held), Field::Number(free)],
    )
}

// The line of the ports that are held by themselves, where there is one.
fn write_singles(out: &mut Vec<u8>, held: u64, free: u64) -> Result<(), AllocError>
    ensures { Appends result out.old.items out.new.items (singles_line held free) }
{
    if held == 0 {
        return Ok(());
    }
    write_held(out, b"ports", held, free)
}

// The greatest number of a session in the journal, or 0. No living session is above it.
fn last_session(journal: &[Entry]) -> u64
    ensures { AllByRecursion (λ e. session_of e.change ≤ result) journal.now }
{
    let mut last = 0;
    for entry in journal {
        last = last.max(entry.change.session());
    }
    last
}
