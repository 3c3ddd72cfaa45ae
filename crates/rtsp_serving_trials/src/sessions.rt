//! Sessions in each state, of the example.

use rtsp_book::{BookRep, PlainBook};
use rtsp_content::{EXAMPLE, Table};
use rtsp_journal_text::read_journal;
use rtsp_record::{Entry, Whole};
use std::alloc::{AllocError, Global};

// A server with bandwidth for more than the sessions that it takes.
const WIDE: Whole = Whole {
    first_port: 5000,
    pairs: 2,
    uplink: 10_000_000,
    sessions: 16,
    journal: 1_000,
};

// Sessions by their numbers: 1 has no stream; 2 is Ready, 3 is Playing and 4 Ended, each with a
// stream of the first track; 5 is Playing with streams of both tracks; 6 is Ready and 7 Playing,
// each with a stream of another presentation.
const JOURNAL: &str = "\
0 open 1 00000000000000000000000000000001 1 60000
0 open 2 00000000000000000000000000000002 1 60000
0 hold 2 12 rate 80000
0 hold 2 12 chan 1 0
0 add 2 12 0 0 00000001 0 0 7f000001 0 0
0 open 3 00000000000000000000000000000003 1 60000
0 hold 3 13 rate 80000
0 hold 3 13 chan 1 2
0 add 3 13 0 0 00000001 0 0 7f000001 0 0
0 move 3 ready:0:0 playing:0:0:500:0
0 open 4 00000000000000000000000000000004 1 60000
0 hold 4 14 rate 80000
0 hold 4 14 chan 1 4
0 add 4 14 0 0 00000001 0 0 7f000001 0 0
0 move 4 ready:0:0 playing:0:0:500:0
0 move 4 playing:0:0:500:0 ended:500:500
0 open 5 00000000000000000000000000000005 1 60000
0 hold 5 15 rate 80000
0 hold 5 15 chan 1 6
0 add 5 15 0 0 00000001 0 0 7f000001 0 0
0 hold 5 20 rate 80000
0 hold 5 20 chan 1 8
0 add 5 20 0 1 00000002 0 0 7f000001 0 0
0 move 5 ready:0:0 playing:0:0:500:0
0 open 6 00000000000000000000000000000006 1 60000
0 hold 6 21 rate 80000
0 hold 6 21 chan 1 10
0 add 6 21 1 0 00000003 0 0 7f000001 0 0
0 open 7 00000000000000000000000000000007 1 60000
0 hold 7 22 rate 80000
0 hold 7 22 chan 1 12
0 add 7 22 1 0 00000004 0 0 7f000001 0 0
0 move 7 ready:0:0 playing:0:0:500:0
";

// Applies what is allowed of a journal's entries.
fn apply_all(book: &mut PlainBook, entries: &[Entry]) -> Result<(), AllocError> {
    for entry in entries {
        let change = [entry.change];
        if book.allowed(&change[0]) {
            book.apply(&change)?;
        }
    }
    Ok(())
}

/// The book of that journal.
pub(crate) fn sessions(alloc: Global) -> Option<PlainBook> {
    let mut book = PlainBook::open(alloc, &WIDE).ok()?;
    let entries = read_journal(alloc, JOURNAL.as_bytes()).ok()?;
    apply_all(&mut book, &entries).ok()?;
    Some(book)
}

/// What is served.
pub(crate) fn example(alloc: Global) -> Option<Table> {
    Table::read(alloc, EXAMPLE.as_bytes()).ok()
}
