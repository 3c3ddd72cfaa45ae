//! Steps of a kept book: what each records or is refused for, and the book that is left.

use crate::kept_books::{converse, converse_after};
use crate::world::{SMALL, WITH_STREAM};
use rtsp_record::Whole;

#[test]
fn steps_record_what_they_change(rt: HostRuntime) {
    converse(&rt, &SMALL, RENEWALS);
    converse_after(&rt, &SMALL, WITH_STREAM, ENDED);
    converse_after(&rt, &SMALL, WITH_STREAM, REPLACED);
    converse_after(&rt, &NARROW, WITH_STREAM, NO_ROOM);
    converse(&rt, &SMALL, TWO_ACTORS);
    converse_after(&rt, &EXACTLY, WITH_STREAM, FULL);
    converse_after(&rt, &SMALL, WITH_STREAM, PLAYS);
    converse(&rt, &SMALL, HANGUP);
}

// Sessions are renewed and expire.
const RENEWALS: &str = "> open 2 1 1 60000
open 2 00000000000000000000000000000001 1 60000
> expire 59999
NothingDue
> touch 2 50000
> expire 60000
close 2 00000000000000000000000000000001 1 60000
> open 4 2 1 60000
open 4 00000000000000000000000000000002 1 60000
> touch 4 70000
touch 4 60000 70000
> expire 60000
NothingDue
> expire 70000
close 4 00000000000000000000000000000002 1 70000
> open 6 3 1 60000
open 6 00000000000000000000000000000003 1 60000
> open 6 3 1 60000
IdTaken
> end 6
close 6 00000000000000000000000000000003 1 60000
> book
rate 0 160000
pairs 0 2
";

// A session expires while another of its admissions is under way.
const ENDED: &str = "> rate 2 9
hold 2 9 rate 80000
> expire 60000
drop 2 3 0 0 00000003 0 0 7f000001 8000 8001
free 2 3 pair 5000
free 2 3 rate 80000
free 2 9 rate 80000
close 2 00000000000000000000000000000001 1 60000
freed 3 pair 5000
> pair 2 9
NoSession
> unwind-rate 2 9
NoSession
> book
rate 0 160000
pairs 0 2
";

// A stream takes the place of one of its track.
const REPLACED: &str = "> rate 2 4
hold 2 4 rate 80000
> first-channels 2 4 1
hold 2 4 chan 1 0
> commit 2 4 0
drop 2 3 0 0 00000003 0 0 7f000001 8000 8001
add 2 4 0 0 00000004 0 0 7f000001 0 0
free 2 3 pair 5000
free 2 3 rate 80000
freed 3 pair 5000
> book
session 2 00000000000000000000000000000001 1 60000 ready:0:0
hold 2 4 rate 80000
hold 2 4 chan 1 0
stream 2 4 0 0 00000004 0 0 7f000001 0 0
rate 80000 80000
pairs 0 2
";

// Bandwidth for one stream.
const NARROW: Whole = Whole {
    uplink: 80_000,
    ..SMALL
};

// An old stream stays where the uplink has no room.
const NO_ROOM: &str = "> rate 2 4
NoBandwidth
> book
session 2 00000000000000000000000000000001 1 60000 ready:0:0
hold 2 3 rate 80000
hold 2 3 pair 5000
stream 2 3 0 0 00000003 0 0 7f000001 8000 8001
rate 80000 0
pairs 1 1
";

// Two sessions share one journal.
const TWO_ACTORS: &str = "> as 1
> open 10 10 1 60000
open 10 0000000000000000000000000000000a 1 60000
> as 2
> open 11 11 1 60000
open 11 0000000000000000000000000000000b 1 60000
> as 1
> rate 10 12
hold 10 12 rate 80000
> as 2
> rate 11 13
hold 11 13 rate 80000
> as 1
> pair 10 12
hold 10 12 pair 5000
> as 2
> pair 11 13
hold 11 13 pair 5002
> as 1
> commit 10 12 0 8000 8001
add 10 12 0 0 0000000c 0 0 7f000001 8000 8001
> as 2
> end 11
free 11 13 pair 5002
free 11 13 rate 80000
close 11 0000000000000000000000000000000b 1 60000
freed 13 pair 5002
> journal
1 open 10 0000000000000000000000000000000a 1 60000
2 open 11 0000000000000000000000000000000b 1 60000
1 hold 10 12 rate 80000
2 hold 11 13 rate 80000
1 hold 10 12 pair 5000
2 hold 11 13 pair 5002
1 add 10 12 0 0 0000000c 0 0 7f000001 8000 8001
2 free 11 13 pair 5002
2 free 11 13 rate 80000
2 close 11 0000000000000000000000000000000b 1 60000
> book
session 10 0000000000000000000000000000000a 1 60000 ready:0:0
hold 10 12 rate 80000
hold 10 12 pair 5000
stream 10 12 0 0 0000000c 0 0 7f000001 8000 8001
rate 80000 80000
pairs 1 1
";

// Room for a session with a stream and what it is owed.
const EXACTLY: Whole = Whole {
    journal: 8,
    ..SMALL
};

// A full journal refuses growing steps alone.
const FULL: &str = "> rate 2 4
JournalFull
> end 2
drop 2 3 0 0 00000003 0 0 7f000001 8000 8001
free 2 3 pair 5000
free 2 3 rate 80000
close 2 00000000000000000000000000000001 1 60000
freed 3 pair 5000
> numbers
entries 8 owed 0 rounds 0 next 4
> undo
close 2 00000000000000000000000000000001 1 60000
> undo
free 2 3 rate 80000
> undo
free 2 3 pair 5000
> undo
drop 2 3 0 0 00000003 0 0 7f000001 8000 8001
> undo
add 2 3 0 0 00000003 0 0 7f000001 8000 8001
> undo
hold 2 3 pair 5000
> undo
hold 2 3 rate 80000
> undo
open 2 00000000000000000000000000000001 1 60000
> undo
nothing
> numbers
entries 0 owed 0 rounds 0 next 4
";

// A play goes on where it was paused.
// One unit is due at once, and one more each 20 ms; the last of the 500 after 9,980 ms.
const PLAYS: &str = "> play 2 0
move 2 ready:0:0 playing:0:0:500:0
> pause 2 19
move 2 playing:0:0:500:0 ready:1:1
> pause 2 19
> play 2 1000
move 2 ready:1:1 playing:1000:1:500:1
> play 2 1020
move 2 playing:1000:1:500:1 playing:1020:3:500:3
> finish 2 10939
NothingDue
> finish 2 10940
move 2 playing:1020:3:500:3 ended:500:500
> play 2 20000
WrongState
> undo
move 2 playing:1020:3:500:3 ended:500:500
> finish 2 10940
move 2 playing:1020:3:500:3 ended:500:500
> finish 2 10940
WrongState
> book
session 2 00000000000000000000000000000001 1 60000 ended:500:500
hold 2 3 rate 80000
hold 2 3 pair 5000
stream 2 3 0 0 00000003 0 0 7f000001 8000 8001
rate 80000 80000
pairs 1 1
> end 2
move 2 ended:500:500 ready:0:0
drop 2 3 0 0 00000003 0 0 7f000001 8000 8001
free 2 3 pair 5000
free 2 3 rate 80000
close 2 00000000000000000000000000000001 1 60000
freed 3 pair 5000
";

// A connection that ends takes its startup numbers with it, and the sessions that hold its channels.
const HANGUP: &str = "> open 2 1 1 60000
open 2 00000000000000000000000000000001 1 60000
> rate 2 3
hold 2 3 rate 80000
> pair 2 3
hold 2 3 pair 5000
> startup 2 3 0 1 7
add 2 3 0 0 00000003 0 0 7f000001 0 0
bind 2 1 7
> open 4 2 1 60000
open 4 00000000000000000000000000000002 1 60000
> rate 4 5
hold 4 5 rate 80000
> channels 4 5 1
hold 4 5 chan 1 0
> startup 4 5 0 1 7
StartupTaken
> book
session 2 00000000000000000000000000000001 1 60000 ready:0:0
hold 2 3 rate 80000
hold 2 3 pair 5000
stream 2 3 0 0 00000003 0 0 7f000001 0 0
bind 2 1 7
session 4 00000000000000000000000000000002 1 60000 ready:0:0
hold 4 5 rate 80000
hold 4 5 chan 1 0
rate 160000 0
pairs 1 1
> hangup 1
unbind 2 1 7
> hangup 1
free 4 5 chan 1 0
free 4 5 rate 80000
close 4 00000000000000000000000000000002 1 60000
> hangup 1
NothingDue
";
