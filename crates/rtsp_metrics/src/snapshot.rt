//! The figures of a server at one moment.

/// What is held of a whole, and what is free of it.
#[derive(Clone, Copy, PartialEq, Eq)]
pub struct Held {
    pub held: u64,
    pub free: u64,
}

/// What the book has, by one look under its lock.
#[derive(Clone, Copy, PartialEq, Eq)]
pub struct BookFigures {
    /// Sessions that live.
    pub sessions: u64,
    /// The uplink, in bits per second.
    pub rate: Held,
    /// Pairs of UDP ports: free ones, of which both ports are, and the others.
    pub pairs: Held,
    /// UDP ports.
    pub ports: Held,
    /// Entries of the journal.
    pub entries: u64,
    /// Entries of the journal that are kept for what has to be given back.
    pub owed: u64,
    /// Entries that the journal takes besides.
    pub room: u64,
}

/// What became of connections.
#[derive(Clone, Copy, PartialEq, Eq)]
pub struct Connections {
    pub accepted: u64,
    /// Closed at once, because the server or the address of the player had no more.
    pub refused: u64,
    /// Closed since the header by which a balancer names their player was refused.
    pub headers_refused: u64,
}

/// Answers by the first digit of their status.
#[derive(Clone, Copy, PartialEq, Eq)]
pub struct ByOutcome {
    pub success: u64,
    pub redirection: u64,
    pub client_error: u64,
    pub server_error: u64,
}

impl ByOutcome {
    const NONE: ByOutcome = ByOutcome {
        success: 0,
        redirection: 0,
        client_error: 0,
        server_error: 0,
    };
}

/// Requests that were answered, by their method.
#[derive(Clone, Copy, PartialEq, Eq)]
pub struct ByMethod {
    pub options: ByOutcome,
    pub describe: ByOutcome,
    pub setup: ByOutcome,
    pub play: ByOutcome,
    pub pause: ByOutcome,
    pub teardown: ByOutcome,
    pub get_parameter: ByOutcome,
    pub set_parameter: ByOutcome,
    /// Of a method that no server of RTSP knows.
    pub other: ByOutcome,
}

impl ByMethod {
    pub(crate) const NONE: ByMethod = ByMethod {
        options: ByOutcome::NONE,
        describe: ByOutcome::NONE,
        setup: ByOutcome::NONE,
        play: ByOutcome::NONE,
        pause: ByOutcome::NONE,
        teardown: ByOutcome::NONE,
        get_parameter: ByOutcome::NONE,
        set_parameter: ByOutcome::NONE,
        other: ByOutcome::NONE,
    };
}

/// Requests that were refused, by why.
#[derive(Clone, Copy, PartialEq, Eq)]
pub struct Refusals {
    /// The uplink has no more (453).
    pub bandwidth: u64,
    /// Sessions, ports, channels or the journal have no more, or the share of an address (503).
    pub unavailable: u64,
    /// No such session (454).
    pub session: u64,
    /// Nothing at this path (404).
    pub path: u64,
    /// Not allowed in the state of the session (455).
    pub state: u64,
    /// No transport that the server has (461).
    pub transport: u64,
    /// No user's credentials (401).
    pub credentials: u64,
    /// Any other status from 400 on.
    pub other: u64,
}

impl Refusals {
    pub(crate) const NONE: Refusals = Refusals {
        bandwidth: 0,
        unavailable: 0,
        session: 0,
        path: 0,
        state: 0,
        transport: 0,
        credentials: 0,
        other: 0,
    };
}

/// RTP packets.
#[derive(Clone, Copy, PartialEq, Eq)]
pub struct Packets {
    pub sent: u64,
    pub lost: u64,
}

/// How many packets were sent so late, each counted once, and how late all were together.
#[derive(Clone, Copy, PartialEq, Eq)]
pub struct Lateness {
    pub within_1_ms: u64,
    pub within_2_ms: u64,
    pub within_5_ms: u64,
    pub within_10_ms: u64,
    pub within_20_ms: u64,
    pub within_40_ms: u64,
    pub within_100_ms: u64,
    pub within_400_ms: u64,
    pub within_1_s: u64,
    pub within_4_s: u64,
    pub within_10_s: u64,
    pub later: u64,
    /// In milliseconds.
    pub sum_ms: u64,
}

impl Lateness {
    /// Each count with the bound in milliseconds within which its packets were sent; for the last one,
    /// which has none, that of the one before it.
    pub fn by_bound(&self) -> [(u64, u64); 12] {
        [
            (1, self.within_1_ms),
            (2, self.within_2_ms),
            (5, self.within_5_ms),
            (10, self.within_10_ms),
            (20, self.within_20_ms),
            (40, self.within_40_ms),
            (100, self.within_100_ms),
            (400, self.within_400_ms),
            (1_000, self.within_1_s),
            (4_000, self.within_4_s),
            (10_000, self.within_10_s),
            (10_000, self.later),
        ]
    }
}

/// What the counters of a server have counted.
#[derive(Clone, Copy, PartialEq, Eq)]
pub struct Counts {
    pub connections: Connections,
    pub requests: ByMethod,
    pub refusals: Refusals,
    pub packets: Packets,
    pub lateness: Lateness,
    pub log_lines_dropped: u64,
    /// Sessions that ended since nothing renewed them.
    pub expired: u64,
    /// How often entries left the journal: those of sessions that had ended, or by a checkpoint.
    pub shortenings: u64,
    /// How often the file of a track couldn't be read.
    pub media_failures: u64,
}

/// All figures of a server.
#[derive(Clone, Copy, PartialEq, Eq)]
pub struct Snapshot {
    /// Since the server began.
    pub uptime_seconds: u64,
    pub connections: Held,
    pub book: BookFigures,
    pub counts: Counts,
}
