//! Files of a history in memory. That a file has all of its chapter, whatever its sink refuses, and the
//! journal what lives, is said by the contract of each turn.

use crate::history::play;
use rtsp_chronicle::whole_lines;

#[test]
fn what_others_forgot_is_told(rt: HostRuntime) {
    play(
        &rt,
        1_000,
        "one opens 10, one ends 10, one forgets, one opens 11, turn = one round lost, \
        begin-at 1, turn = written, file = 1",
    );
}

#[test]
fn a_full_journal_is_kept_where_that_is_wanted(rt: HostRuntime) {
    play(
        &rt,
        3,
        "keep-entries, one opens 10, two ends 10, one opens 11 = refused, \
        two opens 11 = refused, journal = 2",
    );
}

#[test]
fn a_file_that_was_cut_off_has_its_whole_lines(rt: HostRuntime) {
    let left = [whole_lines(b"one\ntwo\nthr"), whole_lines(b"one")];
    assert!(rt; left == [b"one\ntwo\n".as_slice(), b"".as_slice()]);
}
