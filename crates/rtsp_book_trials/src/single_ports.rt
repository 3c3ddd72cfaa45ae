//! Steps over one port for RTP and RTCP (RFC 5761), and the line of such ports in a book's text.

use crate::kept_books::{converse, converse_after};
use crate::world::SMALL;

#[test]
fn single_ports_are_held(rt: HostRuntime) {
    converse(&rt, &SMALL, PORT_BEFORE_PAIR);
    converse(&rt, &SMALL, REFUSED_AND_GIVEN);
    converse(&rt, &SMALL, TRACKS);
    converse_after(&rt, &SMALL, TWO_PORTS, PORTS_AGAIN);
}

// A pair with a held port is not free.
const PORT_BEFORE_PAIR: &str = "> open 2 1 1 60000
open 2 00000000000000000000000000000001 1 60000
> rate 2 3
hold 2 3 rate 80000
> port 2 3
hold 2 3 port 5000
> commit 2 3 0 8000 8000
add 2 3 0 0 00000003 0 0 7f000001 8000 8000
> open 4 2 1 60000
open 4 00000000000000000000000000000002 1 60000
> rate 4 5
hold 4 5 rate 80000
> pair 4 5
hold 4 5 pair 5002
> commit 4 5 0 8000 8001
add 4 5 0 0 00000005 0 0 7f000001 8000 8001
> book
session 2 00000000000000000000000000000001 1 60000 ready:0:0
hold 2 3 rate 80000
hold 2 3 port 5000
stream 2 3 0 0 00000003 0 0 7f000001 8000 8000
session 4 00000000000000000000000000000002 1 60000 ready:0:0
hold 4 5 rate 80000
hold 4 5 pair 5002
stream 4 5 0 0 00000005 0 0 7f000001 8000 8001
rate 160000 0
pairs 1 0
ports 1 1
> end 2
drop 2 3 0 0 00000003 0 0 7f000001 8000 8000
free 2 3 port 5000
free 2 3 rate 80000
close 2 00000000000000000000000000000001 1 60000
freed 3 port 5000
> book
session 4 00000000000000000000000000000002 1 60000 ready:0:0
hold 4 5 rate 80000
hold 4 5 pair 5002
stream 4 5 0 0 00000005 0 0 7f000001 8000 8001
rate 80000 80000
pairs 1 1
";

// Ports are refused and given back.
const REFUSED_AND_GIVEN: &str = "> port 2 3
NoSession
> open 2 1 1 60000
open 2 00000000000000000000000000000001 1 60000
> port 2 3 5001
hold 2 3 port 5001
> port 2 3
WrongState
> pair 2 4
hold 2 4 pair 5002
> port 2 5 5001
NoPair
> port 2 5
hold 2 5 port 5000
> pair 2 6
NoPair
> return-port 2 3 5000
NotHeld
> return-pair 2 3 5001
NotHeld
> return-port 2 3 5001
free 2 3 port 5001
freed 3 port 5001
> unwind-port 2 5 5000
free 2 5 port 5000
freed 5 port 5000
> book
session 2 00000000000000000000000000000001 1 60000 ready:0:0
hold 2 4 pair 5002
rate 0 160000
pairs 1 1
";

// Tracks give their ports back.
const TRACKS: &str = "> open 2 1 1 60000
open 2 00000000000000000000000000000001 1 60000
> rate 2 3
hold 2 3 rate 80000
> port 2 3
hold 2 3 port 5000
> commit 2 3 0 8000 8000
add 2 3 0 0 00000003 0 0 7f000001 8000 8000
> rate 2 4
hold 2 4 rate 80000
> port 2 4
hold 2 4 port 5001
> commit 2 4 1 8000 8000
add 2 4 0 1 00000004 0 0 7f000001 8000 8000
> drop-track 2 0
drop 2 3 0 0 00000003 0 0 7f000001 8000 8000
free 2 3 port 5000
free 2 3 rate 80000
freed 3 port 5000
> rate 2 5
hold 2 5 rate 80000
> first-channels 2 5 1
hold 2 5 chan 1 0
> commit 2 5 1 8000 8000
drop 2 4 0 1 00000004 0 0 7f000001 8000 8000
add 2 5 0 1 00000005 0 0 7f000001 8000 8000
free 2 4 port 5001
free 2 4 rate 80000
freed 4 port 5001
> book
session 2 00000000000000000000000000000001 1 60000 ready:0:0
hold 2 5 rate 80000
hold 2 5 chan 1 0
stream 2 5 0 1 00000005 0 0 7f000001 8000 8000
rate 80000 80000
pairs 0 2
";

// The pair of the session's other port isn't free either; it is again once both ports are.
const TWO_PORTS: &str = "0 open 2 00000000000000000000000000000001 1 60000
0 hold 2 3 port 5000
0 hold 2 4 port 5001
0 free 2 3 port 5000
";

// A journal of ports is read.
const PORTS_AGAIN: &str = "> journal
0 open 2 00000000000000000000000000000001 1 60000
0 hold 2 3 port 5000
0 hold 2 4 port 5001
0 free 2 3 port 5000
> pair 2 5
hold 2 5 pair 5002
> return-port 2 4 5001
free 2 4 port 5001
freed 4 port 5001
> pair 2 6
hold 2 6 pair 5000
";
