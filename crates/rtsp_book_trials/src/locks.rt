//! What one seat of a lock does, and another sees of it.

use crate::seats::converse_at_lock;
use crate::world::SMALL;

#[test]
fn another_seat_sees_what_one_did(rt: HostRuntime) {
    converse_at_lock(&rt, &SMALL, SEEN);
    converse_at_lock(&rt, &SMALL, FORGOTTEN);
}

// A seat acts and another sees.
const SEEN: &str = "> draw
drawn 2
> open 3 103 1 60000
open 3 00000000000000000000000000000067 1 60000
> look 103
session 3
> look 3
nobody
> phase 3
phase ready:0:0
> phase 4
nobody
> finish
> journal
0 open 3 00000000000000000000000000000067 1 60000
> numbers
entries 1 owed 1 rounds 0 next 3
";

// A seat forgets what another ended.
const FORGOTTEN: &str = "> open 3 103 1 60000
open 3 00000000000000000000000000000067 1 60000
> end 3
close 3 00000000000000000000000000000067 1 60000
> forget
> open 4 104 1 60000
open 4 00000000000000000000000000000068 1 60000
> finish
> journal
0 open 4 00000000000000000000000000000068 1 60000
> numbers
entries 1 owed 1 rounds 1 next 2
";
