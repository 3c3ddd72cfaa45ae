//! A kept book that forgets its ended sessions. No test reaches the greatest number of rounds: that is
//! 2^64 - 1, and each round needs a session that has ended.

use crate::kept_books::{converse, converse_after};
use crate::world::{SMALL, WITH_STREAM};
use rtsp_record::Whole;

#[test]
fn ended_sessions_are_forgotten(rt: HostRuntime) {
    converse_after(&rt, &EXACTLY, WITH_STREAM, FORGOTTEN);
    converse(&rt, &SMALL, LIVING);
}

// Room for a session with a stream and what it is owed.
const EXACTLY: Whole = Whole {
    journal: 8,
    ..SMALL
};

// A full journal of a session that has ended is forgotten.
// The second round finds no ended session, and isn't counted.
const FORGOTTEN: &str = "> end 2
drop 2 3 0 0 00000003 0 0 7f000001 8000 8001
free 2 3 pair 5000
free 2 3 rate 80000
close 2 00000000000000000000000000000001 1 60000
freed 3 pair 5000
> open 4 2 1 60000
JournalFull
> numbers
entries 8 owed 0 rounds 0 next 4
> forget
> numbers
entries 0 owed 0 rounds 1 next 4
> open 4 2 1 60000
open 4 00000000000000000000000000000002 1 60000
> forget
> numbers
entries 1 owed 1 rounds 1 next 4
> undo
open 4 00000000000000000000000000000002 1 60000
> undo
nothing
";

// What lives is not forgotten.
// The session 11 ends between two renewals of the session 10.
const LIVING: &str = "> forget
> numbers
entries 0 owed 0 rounds 0 next 1
> open 10 10 1 60000
open 10 0000000000000000000000000000000a 1 60000
> open 11 11 1 60000
open 11 0000000000000000000000000000000b 1 60000
> rate 10 12
hold 10 12 rate 80000
> touch 10 70000
touch 10 60000 70000
> pair 11 13
hold 11 13 pair 5000
> end 11
free 11 13 pair 5000
close 11 0000000000000000000000000000000b 1 60000
freed 13 pair 5000
> touch 10 80000
touch 10 70000 80000
> forget
> journal
0 open 10 0000000000000000000000000000000a 1 60000
0 hold 10 12 rate 80000
0 touch 10 60000 70000
0 touch 10 70000 80000
> numbers
entries 4 owed 2 rounds 1 next 1
> book
session 10 0000000000000000000000000000000a 1 80000 ready:0:0
hold 10 12 rate 80000
rate 80000 80000
pairs 0 2
";
