//! What a seat does about a journal that has no room for its step: nothing where it is the lock's only
//! one, and else a checkpoint where one may make room.

use crate::lines::read_line;
use crate::seats::{converse_at_lock, renewed};
use crate::steps::step_of;
use crate::world::SMALL;
use rtsp_lock::open;
use rtsp_record::Whole;
use std::test::Fail;

#[test]
fn a_shared_seat_makes_room(rt: HostRuntime) {
    converse_at_lock(&rt, &SHORT, ROOM_MADE);
    converse_at_lock(&rt, &SHORT, UNDER_WAY);
    converse_at_lock(&rt, &EXACTLY, NONE_TO_MAKE);
}

// Room for a session with a stream, what it is owed, and one entry more.
const SHORT: Whole = Whole {
    journal: 9,
    ..SMALL
};

// A shared seat makes room for its step.
// Each renewal but the first finds the journal full, and each checkpoint spends a number.
const ROOM_MADE: &str = "> open 2 1 1 60000
open 2 00000000000000000000000000000001 1 60000
> rate 2 3
hold 2 3 rate 80000
> pair 2 3
hold 2 3 pair 5000
> commit 2 3 0 8000 8001
add 2 3 0 0 00000003 0 0 7f000001 8000 8001
> checkpoint
> renew 2 60001 3
renewed 3
> finish
> journal
4 open 2 00000000000000000000000000000001 1 60002
4 hold 2 3 rate 80000
4 hold 2 3 pair 5000
4 add 2 3 0 0 00000003 0 0 7f000001 8000 8001
0 touch 2 60002 60003
> numbers
entries 5 owed 4 rounds 3 next 5
";

// A session with a SETUP under way keeps its entries in a full journal.
const UNDER_WAY: &str = "> open 2 1 1 60000
open 2 00000000000000000000000000000001 1 60000
> rate 2 3
hold 2 3 rate 80000
> renew 2 60001 6
renewed 5
> finish
> journal
0 open 2 00000000000000000000000000000001 1 60000
0 hold 2 3 rate 80000
0 touch 2 60000 60001
0 touch 2 60001 60002
0 touch 2 60002 60003
0 touch 2 60003 60004
0 touch 2 60004 60005
> numbers
entries 7 owed 2 rounds 1 next 3
";

// Room for a session with a stream, and what it is owed.
const EXACTLY: Whole = Whole {
    journal: 8,
    ..SMALL
};

// No room is made where there is none to make.
const NONE_TO_MAKE: &str = "> open 2 1 1 60000
open 2 00000000000000000000000000000001 1 60000
> rate 2 3
hold 2 3 rate 80000
> pair 2 3
hold 2 3 pair 5000
> commit 2 3 0 8000 8001
add 2 3 0 0 00000003 0 0 7f000001 8000 8001
> checkpoint
> touch 2 60001
JournalFull
> finish
> journal
2 open 2 00000000000000000000000000000001 1 60000
2 hold 2 3 rate 80000
2 hold 2 3 pair 5000
2 add 2 3 0 0 00000003 0 0 7f000001 8000 8001
> numbers
entries 4 owed 4 rounds 1 next 3
";

#[test]
fn the_only_seat_makes_no_checkpoint_unasked(rt: HostRuntime) -> Result<(), Fail> {
    let (lock, mut seat) = open(rt.alloc(), &SHORT)?;
    if let Some(opening) = step_of(&read_line("open 2 1 1 60000")) {
        seat.act(&rt, &lock, &opening)?;
    }
    let times = renewed(&rt, &lock, &mut seat, [2, 60_001, 8, 0, 0]);
    let kept = seat.finish(&rt, lock);
    assert!(rt; times == 7 && kept.journal().len() == 8 && kept.rounds() == 0);
    Ok(())
}
