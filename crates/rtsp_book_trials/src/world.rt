//! What the tests share: small servers, and the journal of a session with a stream.

use rtsp_record::Whole;

/// A server with two pairs of ports, and bandwidth for two streams.
pub const SMALL: Whole = Whole {
    first_port: 5000,
    pairs: 2,
    uplink: 160_000,
    sessions: 4,
    journal: 1_000,
};

/// A session with a stream over a pair.
pub const WITH_STREAM: &str = "0 open 2 00000000000000000000000000000001 1 60000
0 hold 2 3 rate 80000
0 hold 2 3 pair 5000
0 add 2 3 0 0 00000003 0 0 7f000001 8000 8001
";
