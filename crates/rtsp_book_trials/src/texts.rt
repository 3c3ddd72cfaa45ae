//! The text of a journal: lines that stand for their entries, and lines that are refused.

use rtsp_journal_text::{JournalFault, read_journal, write_entry, write_journal};
use rtsp_record::Entry;
use std::alloc::{AllocError, Global};

// A record of each kind, with the least and the greatest numbers.
const TEXT: &[u8] = b"0 open 2 0123456789abcdef0011223344556677 1 60000
0 hold 2 3 rate 80000
0 hold 2 3 chan 1 0
0 hold 2 3 pair 5000
0 hold 2 3 port 65535
18446744073709551615 add 2 3 0 0 ffffffff 65535 4294967295 7f000001 0 0
0 move 2 playing:0:0:500:0 ready:1:1
0 move 2 ready:1:1 ended:500:4294967295
0 touch 2 60000 18446744073709551615
0 bind 2 1 7
0 unbind 2 1 4294967295
0 drop 2 3 0 0 00000001 0 0 7f000001 0 0
0 free 2 3 chan 1 254
0 close 2 00000000000000000000000000000001 1 60000
";

fn is_written_back(alloc: Global, entries: &[Entry]) -> bool {
    let mut written = Vec::new(alloc);
    write_journal(&mut written, entries).is_ok() && written.as_slice() == TEXT
}

fn write_each(out: &mut Vec<u8>, entries: &[Entry]) -> Result<(), AllocError> {
    for entry in entries {
        write_entry(out, entry)?;
    }
    Ok(())
}

// The same, an entry at a time.
fn is_written_by_entries(alloc: Global, entries: &[Entry]) -> bool {
    let mut written = Vec::new(alloc);
    write_each(&mut written, entries).is_ok() && written.as_slice() == TEXT
}

#[test]
fn a_journal_is_read_and_written_back(rt: HostRuntime) {
    let is_written = match read_journal(rt.alloc(), TEXT) {
        Ok(entries) => {
            is_written_back(rt.alloc(), &entries) && is_written_by_entries(rt.alloc(), &entries)
        }
        Err(_) => false,
    };
    assert!(rt; is_written);
}

// Numbers that are too great, a letter and a zero that no writer writes, spaces, another end of the
// line, a phase that there isn't, and nothing.
const BAD_LINES: [&[u8]; 14] = [
    b"18446744073709551616 touch 2 1 1\n",
    b"0 bind 2 1 4294967296\n",
    b"0 hold 2 3 pair 65536\n",
    b"0 hold 2 3 port 65536\n",
    b"0 hold 2 3 chan 1 256\n",
    b"0 open 2 100000000000000000000000000000001 1 60000\n",
    b"0 add 2 3 0 0 100000001 0 0 7f000001 0 0\n",
    b"0 add 2 3 0 0 00000001 0 0 7F000001 0 0\n",
    b"0 touch 02 1 1\n",
    b"0  touch 2 1 1\n",
    b"0 touch 2 1 1 \n",
    b"0 touch 2 1 1\r\n",
    b"0 move 2 ready:0:0 paused:0:0\n",
    b"\n",
];

fn is_refused(alloc: Global, text: &[u8], line: usize) -> bool {
    read_journal(alloc, text).err() == Some(JournalFault::NotARecord(line))
}

// The first of the lines that is taken for a record.
fn first_read(alloc: Global, lines: &[&[u8]]) -> Option<usize> {
    for place in 0..lines.len() {
        if !is_refused(alloc, lines[place], 1) {
            return Some(place);
        }
    }
    None
}

#[test]
fn the_first_bad_line_is_named(rt: HostRuntime) {
    let cut = &TEXT[..TEXT.len() - 1];
    let read = first_read(rt.alloc(), BAD_LINES.as_slice());
    assert!(rt;
        is_refused(rt.alloc(), cut, 14) && read.is_none(),
        "{read:?} is read"
    );
}

// As many lines as a journal may have at most, and one more byte.
fn most_lines(alloc: Global) -> Result<Vec<u8>, AllocError> {
    let mut text = Vec::new(alloc);
    for _ in 0..1_000_000 {
        text.extend_from_slice(b"0 touch 0 0 0\n")?;
    }
    text.push(b'x')?;
    Ok(text)
}

// How many entries a journal has, or what is wrong with it.
fn count_of(alloc: Global, text: &[u8]) -> Result<usize, JournalFault> {
    Ok(read_journal(alloc, text)?.len())
}

fn are_bounded(alloc: Global, text: &[u8]) -> bool {
    let most = &text[..text.len().saturating_sub(1)];
    count_of(alloc, most) == Ok(1_000_000) && count_of(alloc, text) == Err(JournalFault::TooLong)
}

#[test]
fn more_than_a_million_lines_are_refused(rt: HostRuntime) -> Result<(), AllocError> {
    let text = most_lines(rt.alloc())?;
    assert!(rt; are_bounded(rt.alloc(), &text));
    Ok(())
}
