//! Admissions over ports, those over one port for RTP and RTCP (RFC 5761) among them: what is bound, and
//! what is unbound of what they had.

use crate::seats::converse_at_lock;
use crate::world::SMALL;
use rtsp_record::Whole;

#[test]
fn admissions_bind_their_ports(rt: HostRuntime) {
    converse_at_lock(&rt, &WIDE, PAIR_PASSED_OVER);
    converse_at_lock(&rt, &WIDE, PORT_PASSED_OVER);
    converse_at_lock(&rt, &WIDE, NO_PAIR);
    converse_at_lock(&rt, &WIDE, NO_PORT);
    converse_at_lock(&rt, &WIDE, PORTS_AND_PAIR);
    converse_at_lock(&rt, &WIDE, REPLACED);
    converse_at_lock(&rt, &WIDE, FREED);
    converse_at_lock(&rt, &WIDE, ENDS_MEANWHILE);
}

// Two pairs of ports, and bandwidth for five streams.
const WIDE: Whole = Whole {
    uplink: 400_000,
    ..SMALL
};

// A pair that cannot be bound is passed over.
const PAIR_PASSED_OVER: &str = "> admit-pair 2 3 5002
bind pair 3 5000
bind pair 3 5002
admitted pair 5002
> finish
> journal
0 open 2 00000000000000000000000000000002 1 60000
0 hold 2 3 rate 80000
0 hold 2 3 pair 5000
0 free 2 3 pair 5000
0 hold 2 3 pair 5002
0 add 2 3 0 0 00000003 0 0 7f000001 8000 8001
";

// A port that cannot be bound is passed over.
const PORT_PASSED_OVER: &str = "> admit-port 2 3 5001
bind port 3 5000
bind port 3 5001
admitted port 5001
> finish
> journal
0 open 2 00000000000000000000000000000002 1 60000
0 hold 2 3 rate 80000
0 hold 2 3 port 5000
0 free 2 3 port 5000
0 hold 2 3 port 5001
0 add 2 3 0 0 00000003 0 0 7f000001 8000 8001
";

// No pair can be bound.
const NO_PAIR: &str = "> admit-pair 2 3 65535
bind pair 3 5000
bind pair 3 5002
NoPair
> finish
> journal
0 open 2 00000000000000000000000000000002 1 60000
0 hold 2 3 rate 80000
0 hold 2 3 pair 5000
0 free 2 3 pair 5000
0 hold 2 3 pair 5002
0 free 2 3 pair 5002
0 free 2 3 rate 80000
0 close 2 00000000000000000000000000000002 1 60000
> book
rate 0 400000
pairs 0 2
";

// No port can be bound.
const NO_PORT: &str = "> admit-port 2 3 65535
bind port 3 5000
bind port 3 5001
bind port 3 5002
bind port 3 5003
NoPair
> finish
> numbers
entries 12 owed 0 rounds 0 next 2
> book
rate 0 400000
pairs 0 2
";

// A held port keeps others from its pair, but not from the pair's other port.
const PORTS_AND_PAIR: &str = "> admit-port 2 3
bind port 3 5000
admitted port 5000
> admit-pair 4 5
bind pair 5 5002
admitted pair 5002
> admit-port 6 7
bind port 7 5001
admitted port 5001
> admit-port 8 9
NoPair
> finish
> book
session 2 00000000000000000000000000000002 1 60000 ready:0:0
hold 2 3 rate 80000
hold 2 3 port 5000
stream 2 3 0 0 00000003 0 0 7f000001 8000 8001
session 4 00000000000000000000000000000004 1 60000 ready:0:0
hold 4 5 rate 80000
hold 4 5 pair 5002
stream 4 5 0 0 00000005 0 0 7f000001 8000 8001
session 6 00000000000000000000000000000006 1 60000 ready:0:0
hold 6 7 rate 80000
hold 6 7 port 5001
stream 6 7 0 0 00000007 0 0 7f000001 8000 8001
rate 240000 160000
pairs 1 0
ports 2 0
";

// The ports of a replaced stream are unbound.
// First a port, and then a pair.
const REPLACED: &str = "> admit-port 2 3
bind port 3 5000
admitted port 5000
> add-channels 2 4
unbind port 3 5000
admitted channels 0
> add-pair 2 5
bind pair 5 5000
admitted pair 5000
> add-channels 2 6
unbind pair 5 5000
admitted channels 0
> finish
> book
session 2 00000000000000000000000000000002 1 60000 ready:0:0
hold 2 6 rate 80000
hold 2 6 chan 1 0
stream 2 6 0 0 00000006 0 0 7f000001 8000 8001
rate 80000 320000
pairs 0 2
";

// What a step frees is unbound.
const FREED: &str = "> admit-port 2 3
bind port 3 5000
admitted port 5000
> add-pair 2 4 0 1
bind pair 4 5002
admitted pair 5002
> end 2
drop 2 3 0 0 00000003 0 0 7f000001 8000 8001
free 2 3 port 5000
free 2 3 rate 80000
drop 2 4 0 1 00000004 0 0 7f000001 8000 8001
free 2 4 pair 5002
free 2 4 rate 80000
close 2 00000000000000000000000000000002 1 60000
freed 4 pair 5002
freed 3 port 5000
unbind pair 4 5002
unbind port 3 5000
> finish
";

// A session ends while its admission binds.
const ENDS_MEANWHILE: &str = "> admit-pair 2 3
bind pair 3 5000
admitted pair 5000
> meanwhile-expire 60000
> add-pair 2 4 0 1
bind pair 4 5002
unbind pair 4 5002
NoSession
> finish
> book
rate 0 400000
pairs 0 2
";
