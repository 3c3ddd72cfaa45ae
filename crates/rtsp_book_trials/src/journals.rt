//! Journals replayed, undone, and with entries left out, and the book printed.

use crate::kept_books::{converse, converse_after};
use crate::world::SMALL;
use rtsp_record::Whole;

#[test]
fn journals_are_replayed_and_taken_back(rt: HostRuntime) {
    converse_after(&rt, &JUST, TWO_SESSIONS, REPLAYED);
    converse_after(&rt, &NARROW, TWO_SESSIONS, "TooLong\n");
    converse_after(&rt, &SMALL, TWO_SESSIONS, LEFT_OUT);
    converse_after(&rt, &SMALL, TWO_SESSIONS, TAKEN_BACK);
    converse(&rt, &SMALL, DRAWN);
}

// Two sessions side by side, of which the second gives all back and ends.
const TWO_SESSIONS: &str = "1 open 10 0000000000000000000000000000000a 3 60000
2 open 11 0000000000000000000000000000000b 4 60000
1 hold 10 12 rate 80000
2 hold 11 13 rate 80000
1 hold 10 12 pair 5000
2 hold 11 13 pair 5002
1 add 10 12 0 0 0000000a 0 0 7f000001 8000 8001
2 free 11 13 pair 5002
2 free 11 13 rate 80000
2 close 11 0000000000000000000000000000000b 4 60000
";

// Just enough for the ten entries and the four returns that they owe.
const JUST: Whole = Whole {
    journal: 14,
    ..SMALL
};

// The limit is for entries and returns.
const NARROW: Whole = Whole {
    journal: 13,
    ..SMALL
};

// A journal is replayed.
const REPLAYED: &str = "> numbers
entries 10 owed 4 rounds 0 next 14
> book
session 10 0000000000000000000000000000000a 3 60000 ready:0:0
hold 10 12 rate 80000
hold 10 12 pair 5000
stream 10 12 0 0 0000000a 0 0 7f000001 8000 8001
rate 80000 80000
pairs 1 1
";

// Without a session or an admission the others stay.
// A stream needs its admission. Who lives isn't left out with those that have ended.
const LEFT_OUT: &str = "> without-admission 12
NotAllowed(5)
> same-strands 11
others
> same-strands 12
the same
> without-ended
1 open 10 0000000000000000000000000000000a 3 60000
1 hold 10 12 rate 80000
1 hold 10 12 pair 5000
1 add 10 12 0 0 0000000a 0 0 7f000001 8000 8001
> without-admission 13
> journal
1 open 10 0000000000000000000000000000000a 3 60000
2 open 11 0000000000000000000000000000000b 4 60000
1 hold 10 12 rate 80000
1 hold 10 12 pair 5000
1 add 10 12 0 0 0000000a 0 0 7f000001 8000 8001
2 close 11 0000000000000000000000000000000b 4 60000
> undo
close 11 0000000000000000000000000000000b 4 60000
> without-ended
1 open 10 0000000000000000000000000000000a 3 60000
2 open 11 0000000000000000000000000000000b 4 60000
1 hold 10 12 rate 80000
1 hold 10 12 pair 5000
1 add 10 12 0 0 0000000a 0 0 7f000001 8000 8001
> without-session 11
> numbers
entries 4 owed 4 rounds 0 next 13
> book
session 10 0000000000000000000000000000000a 3 60000 ready:0:0
hold 10 12 rate 80000
hold 10 12 pair 5000
stream 10 12 0 0 0000000a 0 0 7f000001 8000 8001
rate 80000 80000
pairs 1 1
> without-session 10
> without-ended
> book
rate 0 160000
pairs 0 2
";

// A journal is taken back from its end.
const TAKEN_BACK: &str = "> rewind 3
> numbers
entries 7 owed 7 rounds 0 next 14
> book
session 10 0000000000000000000000000000000a 3 60000 ready:0:0
hold 10 12 rate 80000
hold 10 12 pair 5000
stream 10 12 0 0 0000000a 0 0 7f000001 8000 8001
session 11 0000000000000000000000000000000b 4 60000 ready:0:0
hold 11 13 rate 80000
hold 11 13 pair 5002
rate 160000 0
pairs 2 0
> rewind 9
> numbers
entries 0 owed 0 rounds 0 next 14
> book
rate 0 160000
pairs 0 2
";

// Numbers are drawn from 1.
const DRAWN: &str = "> draw
drawn 1
> draw
drawn 2
";
