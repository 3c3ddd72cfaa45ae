//! Sweeps over sessions that hold ports and channels.

use crate::seats::converse_at_lock;
use crate::world::SMALL;
use rtsp_record::Whole;

#[test]
fn sweeps_end_what_is_due(rt: HostRuntime) {
    converse_at_lock(&rt, &WIDE, SWEPT);
    converse_at_lock(&rt, &WIDE, HUNG_UP);
}

// Three pairs of ports, and bandwidth for five streams.
const WIDE: Whole = Whole {
    pairs: 3,
    uplink: 400_000,
    ..SMALL
};

// Sessions end when they are due.
const SWEPT: &str = "> admit-port 2 3 5001
bind port 3 5000
bind port 3 5001
admitted port 5001
> admit-pair 4 5
bind pair 5 5002
admitted pair 5002
> touch 4 60001
touch 4 60000 60001
> admit-pair 6 7
bind pair 7 5004
admitted pair 5004
> sweep 59999 8
swept 0 last 0 done
> sweep 60000 1
unbind port 3 5001
swept 1 last 2 more
> sweep 60000 8
unbind pair 7 5004
swept 1 last 6 done
> sweep 18446744073709551615 0
swept 0 last 0 more
> finish
> book
session 4 00000000000000000000000000000004 1 60001 ready:0:0
hold 4 5 rate 80000
hold 4 5 pair 5002
stream 4 5 0 0 00000005 0 0 7f000001 8000 8001
rate 80000 320000
pairs 1 2
";

// A connection that ends takes its channels and startup numbers with it.
// The startup number is unbound before the session over channels is closed, which is last.
const HUNG_UP: &str = "> admit-pair 2 3 0 0 7
bind pair 3 5000
admitted pair 5000
> admit-channels 4 5
admitted channels 0
> hang-up 1 8
swept 2 last 4 done
> finish
> journal
0 open 2 00000000000000000000000000000002 1 60000
0 hold 2 3 rate 80000
0 hold 2 3 pair 5000
0 add 2 3 0 0 00000003 0 0 7f000001 8000 8001
0 bind 2 1 7
0 open 4 00000000000000000000000000000004 1 60000
0 hold 4 5 rate 80000
0 hold 4 5 chan 1 0
0 add 4 5 0 0 00000005 0 0 7f000001 8000 8001
0 unbind 2 1 7
0 drop 4 5 0 0 00000005 0 0 7f000001 8000 8001
0 free 4 5 chan 1 0
0 free 4 5 rate 80000
0 close 4 00000000000000000000000000000004 1 60000
";
