//! Checkpoints that one seat makes between the steps of an admission of another.

use crate::seats::converse_at_lock;
use crate::world::SMALL;
use rtsp_record::Whole;

#[test]
fn checkpoints_fall_between_steps(rt: HostRuntime) {
    converse_at_lock(&rt, &SMALL, GRANTED);
    converse_at_lock(&rt, &ONE_PAIR, REFUSED);
    converse_at_lock(&rt, &SMALL, FALLEN_INTO);
    converse_at_lock(&rt, &LONG, RELIEF);
}

// A checkpoint stands between each two steps that are granted.
// The session is restated while it holds nothing, under the actor 2; once an admission is under way it
// isn't, until that has its stream.
const GRANTED: &str = "> open 2 1 1 60000
open 2 00000000000000000000000000000001 1 60000
> checkpoint
> rate 2 3
hold 2 3 rate 80000
> checkpoint
> pair 2 3
hold 2 3 pair 5000
> checkpoint
> commit 2 3 0 8000 8001
add 2 3 0 0 00000003 0 0 7f000001 8000 8001
> finish
> journal
2 open 2 00000000000000000000000000000001 1 60000
0 hold 2 3 rate 80000
0 hold 2 3 pair 5000
0 add 2 3 0 0 00000003 0 0 7f000001 8000 8001
> numbers
entries 4 owed 4 rounds 3 next 5
> replay
> checkpoint
> journal
4 open 2 00000000000000000000000000000001 1 60000
4 hold 2 3 rate 80000
4 hold 2 3 pair 5000
4 add 2 3 0 0 00000003 0 0 7f000001 8000 8001
";

// A server with one pair of ports.
const ONE_PAIR: Whole = Whole { pairs: 1, ..SMALL };

// A checkpoint stands between each two steps that are refused.
// Under the admission 5 only one seat holds. Of that nothing is left, and a checkpoint drops its entries.
const REFUSED: &str = "> open 2 1 1 60000
open 2 00000000000000000000000000000001 1 60000
> rate 2 3
hold 2 3 rate 80000
> pair 2 3
hold 2 3 pair 5000
> commit 2 3 0 8000 8001
add 2 3 0 0 00000003 0 0 7f000001 8000 8001
> checkpoint
> open 4 2 1 60000
open 4 00000000000000000000000000000002 1 60000
> checkpoint
> rate 4 5
hold 4 5 rate 80000
> checkpoint
> pair 4 5
NoPair
> checkpoint
> unwind-session 4 5
free 4 5 rate 80000
close 4 00000000000000000000000000000002 1 60000
> finish
> journal
3 open 4 00000000000000000000000000000002 1 60000
0 hold 4 5 rate 80000
5 open 2 00000000000000000000000000000001 1 60000
5 hold 2 3 rate 80000
5 hold 2 3 pair 5000
5 add 2 3 0 0 00000003 0 0 7f000001 8000 8001
0 free 4 5 rate 80000
0 close 4 00000000000000000000000000000002 1 60000
> book
session 2 00000000000000000000000000000001 1 60000 ready:0:0
hold 2 3 rate 80000
hold 2 3 pair 5000
stream 2 3 0 0 00000003 0 0 7f000001 8000 8001
rate 80000 80000
pairs 1 0
> without-admission 5
> book
session 2 00000000000000000000000000000001 1 60000 ready:0:0
hold 2 3 rate 80000
hold 2 3 pair 5000
stream 2 3 0 0 00000003 0 0 7f000001 8000 8001
rate 80000 80000
pairs 1 0
> checkpoint
> journal
6 open 2 00000000000000000000000000000001 1 60000
6 hold 2 3 rate 80000
6 hold 2 3 pair 5000
6 add 2 3 0 0 00000003 0 0 7f000001 8000 8001
";

// Checkpoints fall into admissions.
// The session 10 is restated, under the actor 4, while a pair is bound for session 12.
const FALLEN_INTO: &str = "> meanwhile-checkpoint
> admit-pair 10 11 5002
bind pair 11 5000
bind pair 11 5002
admitted pair 5002
> admit-pair 12 13 65535
bind pair 13 5000
NoPair
> finish
> journal
0 open 12 0000000000000000000000000000000c 1 60000
0 hold 12 13 rate 80000
0 hold 12 13 pair 5000
4 open 10 0000000000000000000000000000000a 1 60000
4 hold 10 11 rate 80000
4 hold 10 11 pair 5002
4 add 10 11 0 0 0000000b 0 0 7f000001 8000 8001
0 free 12 13 pair 5000
0 free 12 13 rate 80000
0 close 12 0000000000000000000000000000000c 1 60000
> book
session 10 0000000000000000000000000000000a 1 60000 ready:0:0
hold 10 11 rate 80000
hold 10 11 pair 5002
stream 10 11 0 0 0000000b 0 0 7f000001 8000 8001
rate 80000 80000
pairs 1 1
> without-admission 13
> book
session 10 0000000000000000000000000000000a 1 60000 ready:0:0
hold 10 11 rate 80000
hold 10 11 pair 5002
stream 10 11 0 0 0000000b 0 0 7f000001 8000 8001
rate 80000 80000
pairs 1 1
";

// Room for many renewals.
const LONG: Whole = Whole {
    journal: 5_000,
    ..SMALL
};

// A relief waits until it pays.
// One living session owes one entry, so two and a thousand may stand.
const RELIEF: &str = "> open 2 1 1 60000
open 2 00000000000000000000000000000001 1 60000
> renew 2 60001 1001
renewed 1001
> relieve 0
not due
> renew 2 61002 1000
renewed 1000
> relieve 2002
not due
> relieve 2001
relieved
> relieve 0
not due
> finish
> journal
2 open 2 00000000000000000000000000000001 1 62001
> numbers
entries 1 owed 1 rounds 1 next 3
";
