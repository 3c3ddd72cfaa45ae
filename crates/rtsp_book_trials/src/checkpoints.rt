//! Checkpoints of a kept book: which sessions are restated, in which order and under which actor, and
//! what no clause of one call says, as a play, an undo or another checkpoint after it.

use crate::kept_books::{converse, converse_after};
use crate::world::{SMALL, WITH_STREAM};
use rtsp_record::Whole;

#[test]
fn checkpoints_restate_what_lives(rt: HostRuntime) {
    converse_after(&rt, &SMALL, WITH_STREAM, RESTATED);
    converse_after(&rt, &SMALL, MIXED, UNDER_WAY);
    converse(&rt, &SMALL, ALL_UNDER_WAY);
    converse_after(&rt, &SHORT, WITH_STREAM, ROOM_AGAIN);
    converse(&rt, &SMALL, PHASES);
    converse_after(&rt, &SMALL, LAST_ACTOR, NUMBERS_SPENT);
    converse_after(&rt, &WIDE, WITH_STREAM, RELIEF);
}

// A settled session is restated.
const RESTATED: &str = "> touch 2 70000
touch 2 60000 70000
> touch 2 80000
touch 2 70000 80000
> checkpoint
> journal
4 open 2 00000000000000000000000000000001 1 80000
4 hold 2 3 rate 80000
4 hold 2 3 pair 5000
4 add 2 3 0 0 00000003 0 0 7f000001 8000 8001
> numbers
entries 4 owed 4 rounds 1 next 5
> draw
drawn 5
> checkpoint
> journal
6 open 2 00000000000000000000000000000001 1 80000
6 hold 2 3 rate 80000
6 hold 2 3 pair 5000
6 add 2 3 0 0 00000003 0 0 7f000001 8000 8001
> numbers
entries 4 owed 4 rounds 2 next 7
> book
session 2 00000000000000000000000000000001 1 80000 ready:0:0
hold 2 3 rate 80000
hold 2 3 pair 5000
stream 2 3 0 0 00000003 0 0 7f000001 8000 8001
rate 80000 80000
pairs 1 1
> end 2
drop 2 3 0 0 00000003 0 0 7f000001 8000 8001
free 2 3 pair 5000
free 2 3 rate 80000
close 2 00000000000000000000000000000001 1 80000
freed 3 pair 5000
> checkpoint
> journal
> checkpoint
> numbers
entries 0 owed 0 rounds 4 next 9
";

// The session 2 has a stream, and the SETUP of session 4 is under way. Session 6 has ended, and the
// number 8 was given to a second session.
const MIXED: &str = "0 open 2 00000000000000000000000000000001 1 60000
0 open 4 00000000000000000000000000000002 1 60000
0 open 6 00000000000000000000000000000003 1 60000
0 open 8 00000000000000000000000000000004 1 60000
0 hold 4 5 rate 80000
0 hold 2 3 rate 80000
0 hold 2 3 chan 1 0
0 close 6 00000000000000000000000000000003 1 60000
0 add 2 3 0 0 00000003 0 0 7f000001 0 0
0 touch 4 60000 70000
0 hold 4 5 pair 5000
0 close 8 00000000000000000000000000000004 1 60000
0 open 8 00000000000000000000000000000007 1 60000
";

// A session with a SETUP under way keeps its entries.
// Once that session is settled it is restated, too. The journal left can be replayed, and leads back to
// the empty book.
const UNDER_WAY: &str = "> checkpoint
> journal
0 open 4 00000000000000000000000000000002 1 60000
0 hold 4 5 rate 80000
0 touch 4 60000 70000
0 hold 4 5 pair 5000
9 open 2 00000000000000000000000000000001 1 60000
9 hold 2 3 rate 80000
9 hold 2 3 chan 1 0
9 add 2 3 0 0 00000003 0 0 7f000001 0 0
9 open 8 00000000000000000000000000000007 1 60000
> as 9
> commit 4 5 0 8000 8001
add 4 5 0 0 00000005 0 0 7f000001 8000 8001
> checkpoint
> numbers
entries 9 owed 9 rounds 2 next 11
> replay
> numbers
entries 9 owed 9 rounds 0 next 11
> book
session 2 00000000000000000000000000000001 1 60000 ready:0:0
hold 2 3 rate 80000
hold 2 3 chan 1 0
stream 2 3 0 0 00000003 0 0 7f000001 0 0
session 4 00000000000000000000000000000002 1 70000 ready:0:0
hold 4 5 rate 80000
hold 4 5 pair 5000
stream 4 5 0 0 00000005 0 0 7f000001 8000 8001
session 8 00000000000000000000000000000007 1 60000 ready:0:0
rate 160000 0
pairs 1 1
> rewind 9
> numbers
entries 0 owed 0 rounds 0 next 11
> book
rate 0 160000
pairs 0 2
";

// A SETUP is under way in each session, so a checkpoint leaves all entries.
const ALL_UNDER_WAY: &str = "> open 2 1 1 60000
open 2 00000000000000000000000000000001 1 60000
> rate 2 3
hold 2 3 rate 80000
> touch 2 70000
touch 2 60000 70000
> checkpoint
> journal
0 open 2 00000000000000000000000000000001 1 60000
0 hold 2 3 rate 80000
0 touch 2 60000 70000
> numbers
entries 3 owed 2 rounds 1 next 2
";

// Room for a session with a stream, what it is owed, and one entry more.
const SHORT: Whole = Whole {
    journal: 9,
    ..SMALL
};

// A full journal has room again.
const ROOM_AGAIN: &str = "> touch 2 70000
touch 2 60000 70000
> touch 2 80000
JournalFull
> numbers
entries 5 owed 4 rounds 0 next 4
> checkpoint
> numbers
entries 4 owed 4 rounds 1 next 5
> touch 2 80000
touch 2 70000 80000
";

// The phase and the binding are restated.
const PHASES: &str = "> open 2 1 1 60000
open 2 00000000000000000000000000000001 1 60000
> rate 2 3
hold 2 3 rate 80000
> port 2 3
hold 2 3 port 5000
> startup 2 3 0 1 7
add 2 3 0 0 00000003 0 0 7f000001 0 0
bind 2 1 7
> play 2 1000
move 2 ready:0:0 playing:1000:0:500:0
> checkpoint
> journal
1 open 2 00000000000000000000000000000001 1 60000
1 bind 2 1 7
1 hold 2 3 rate 80000
1 hold 2 3 port 5000
1 add 2 3 0 0 00000003 0 0 7f000001 0 0
1 move 2 ready:0:0 playing:1000:0:500:0
> pause 2 2000
move 2 playing:1000:0:500:0 ready:51:51
> checkpoint
> numbers
entries 6 owed 6 rounds 2 next 3
> play 2 3000
move 2 ready:51:51 playing:3000:51:500:51
> finish 2 60000
move 2 playing:3000:51:500:51 ended:500:500
> checkpoint
> numbers
entries 6 owed 6 rounds 3 next 4
> end 2
move 2 ended:500:500 ready:0:0
drop 2 3 0 0 00000003 0 0 7f000001 0 0
free 2 3 port 5000
free 2 3 rate 80000
unbind 2 1 7
close 2 00000000000000000000000000000001 1 60000
freed 3 port 5000
> numbers
entries 12 owed 0 rounds 3 next 4
";

// The greatest number is reached by the actor of an entry, as in a journal that was read.
const LAST_ACTOR: &str = "18446744073709551615 open 2 00000000000000000000000000000001 1 60000
0 touch 2 60000 70000
";

// At the greatest number nothing is done.
const NUMBERS_SPENT: &str = "> checkpoint
> draw
NumbersSpent
> numbers
entries 2 owed 1 rounds 0 next 18446744073709551615
";

// Room for many renewals.
const WIDE: Whole = Whole {
    journal: 1_000_000,
    ..SMALL
};

// A checkpoint is made where it pays.
// It pays above twice the four returns that are owed, and a thousand entries.
const RELIEF: &str = "> renew 2 60001 1004
renewed 1004
> numbers
entries 1008 owed 4 rounds 0 next 4
> relieve 0
not due
> touch 2 70000
touch 2 61004 70000
> relieve 1009
not due
> relieve 1008
relieved
> numbers
entries 4 owed 4 rounds 1 next 5
";
