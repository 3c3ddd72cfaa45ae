//! The keys of each table, in the order in which they are read.

use crate::rules::{Class, Rule};

/// Whether a key may be left out.
#[derive(Clone, Copy, PartialEq, Eq)]
pub(crate) enum Presence {
    Required,
    Optional,
    /// It is this number then.
    Default(i64),
}

/// A key of a table.
#[derive(Clone, Copy)]
pub(crate) struct Key {
    pub(crate) name: &'static str,
    pub(crate) rule: Rule,
    pub(crate) presence: Presence,
    // What the value is, for whoever wrote another one.
    pub(crate) what: &'static str,
}

// `[server]`.
static SERVER: [Key; 23] = [
    Key {
        name: "first_port",
        rule: Rule::Even(1_024, 65_535),
        presence: Presence::Required,
        what: "the first UDP port given out, an even one",
    },
    Key {
        name: "pairs",
        rule: Rule::Number(0, 4_096),
        presence: Presence::Required,
        what: "pairs of UDP ports",
    },
    Key {
        name: "uplink",
        rule: Rule::Number(0, 1_000_000_000_000),
        presence: Presence::Required,
        what: "bits per second for all streams together",
    },
    Key {
        name: "sessions",
        rule: Rule::Number(1, 4_096),
        presence: Presence::Required,
        what: "sessions alive at once",
    },
    Key {
        name: "timeout",
        rule: Rule::Number(1, 86_400),
        presence: Presence::Default(60),
        what: "seconds that a session lives without a request",
    },
    Key {
        name: "renewal_step",
        rule: Rule::Number(1, 86_399_999),
        presence: Presence::Default(1),
        what: "milliseconds by which a renewal moves the end of a session at least",
    },
    Key {
        name: "journal",
        rule: Rule::Number(1, 1_000_000),
        presence: Presence::Default(1_000_000),
        what: "entries of the journal with those owed",
    },
    Key {
        name: "workers",
        rule: Rule::Number(1, 64),
        presence: Presence::Default(4),
        what: "threads that serve connections",
    },
    Key {
        name: "sessions_per_address",
        rule: Rule::Number(1, 4_096),
        presence: Presence::Optional,
        what: "sessions of one address alive at once",
    },
    Key {
        name: "connections_per_address",
        rule: Rule::Number(1, 16_384),
        presence: Presence::Optional,
        what: "connections of one address open at once",
    },
    Key {
        name: "players",
        rule: Rule::OneOf("strict", "gstreamer"),
        presence: Presence::Optional,
        what: "\"strict\" or \"gstreamer\"",
    },
    Key {
        name: "media",
        rule: Rule::Text(Class::Path, 1_024),
        presence: Presence::Optional,
        what: "1 to 1,024 bytes without controls, the path of a folder",
    },
    Key {
        name: "journal_files",
        rule: Rule::Text(Class::Path, 1_024),
        presence: Presence::Optional,
        what: "1 to 1,024 bytes without controls, the path of a folder",
    },
    Key {
        name: "journal_period",
        rule: Rule::Number(10, 60_000),
        presence: Presence::Optional,
        what: "milliseconds from one writing of the journal to the next",
    },
    Key {
        name: "journal_sync",
        rule: Rule::Flag,
        presence: Presence::Optional,
        what: "what was written is on the disk before the next writing",
    },
    Key {
        name: "journal_when_full",
        rule: Rule::OneOf("keep", "lose"),
        presence: Presence::Optional,
        what: "\"keep\" or \"lose\"",
    },
    Key {
        name: "access_log",
        rule: Rule::Flag,
        presence: Presence::Optional,
        what: "each answer has a line on standard error",
    },
    Key {
        name: "status",
        rule: Rule::Text(Class::Address, 21),
        presence: Presence::Optional,
        what: "an IPv4 address and a port, as 127.0.0.1:9554",
    },
    Key {
        name: "status_open",
        rule: Rule::Flag,
        presence: Presence::Optional,
        what: "players' addresses are shown there to all",
    },
    Key {
        name: "proxy",
        rule: Rule::Addresses(16),
        presence: Presence::Optional,
        what: "of balancers, whose connections begin with a header",
    },
    Key {
        name: "drain",
        rule: Rule::Number(1, 86_400),
        presence: Presence::Optional,
        what: "seconds for which plays go on at most where the server is drained",
    },
    Key {
        name: "users",
        rule: Rule::Text(Class::Path, 1_024),
        presence: Presence::Optional,
        what: "1 to 1,024 bytes without controls, the path of the file of users",
    },
    Key {
        name: "watch",
        rule: Rule::Flag,
        presence: Presence::Optional,
        what: "the configuration is taken up anew where its file changes",
    },
];

// `[[presentation]]`.
static PRESENTATION: [Key; 5] = [
    Key {
        name: "name",
        rule: Rule::Text(Class::Name, 64),
        presence: Presence::Required,
        what: "1 to 64 of a to z, digits, - and _",
    },
    Key {
        name: "units",
        rule: Rule::Number(1, 10_000_000),
        presence: Presence::Required,
        what: "units that it has",
    },
    Key {
        name: "unit_ms",
        rule: Rule::Number(1, 1_000),
        presence: Presence::Required,
        what: "milliseconds that a unit lasts",
    },
    Key {
        name: "starts",
        rule: Rule::Starts(20_000),
        presence: Presence::Optional,
        what: "units at which a play may begin",
    },
    Key {
        name: "allow",
        rule: Rule::Names(1_000),
        presence: Presence::Optional,
        what: "of the users for whom alone it is there",
    },
];

// `[[presentation.track]]`.
static TRACK: [Key; 12] = [
    Key {
        name: "name",
        rule: Rule::Text(Class::Name, 64),
        presence: Presence::Required,
        what: "1 to 64 of a to z, digits, - and _",
    },
    Key {
        name: "media",
        rule: Rule::OneOf("audio", "video"),
        presence: Presence::Required,
        what: "\"audio\" or \"video\"",
    },
    Key {
        name: "pt",
        rule: Rule::Number(0, 127),
        presence: Presence::Required,
        what: "payload type of its RTP packets",
    },
    Key {
        name: "encoding",
        rule: Rule::Text(Class::Encoding, 32),
        presence: Presence::Required,
        what: "1 to 32 letters, digits and -",
    },
    Key {
        name: "clock",
        rule: Rule::Number(1, 1_000_000),
        presence: Presence::Required,
        what: "clock ticks per second",
    },
    Key {
        name: "packets",
        rule: Rule::Number(1, 256),
        presence: Presence::Optional,
        what: "packets in a unit at most",
    },
    Key {
        name: "packing",
        rule: Rule::OneOf("slots", "equal"),
        presence: Presence::Optional,
        what: "\"slots\" or \"equal\"",
    },
    Key {
        name: "octets",
        rule: Rule::Number(1, 120_000),
        presence: Presence::Required,
        what: "bytes of media in a unit",
    },
    Key {
        name: "ticks",
        rule: Rule::Number(1, 1_000_000),
        presence: Presence::Required,
        what: "clock ticks that a unit lasts",
    },
    Key {
        name: "file",
        rule: Rule::Any,
        presence: Presence::Required,
        what: "the path of the file that has its units",
    },
    Key {
        name: "fmtp",
        rule: Rule::Text(Class::Printable, 1_024),
        presence: Presence::Optional,
        what: "1 to 1,024 printable characters of ASCII",
    },
    Key {
        name: "channels",
        rule: Rule::Number(1, 8),
        presence: Presence::Optional,
        what: "channels, for SDP",
    },
];

/// The keys of `[server]`.
pub(crate) fn server_keys() -> &'static [Key] {
    &SERVER
}

/// The keys of `[[presentation]]`.
pub(crate) fn presentation_keys() -> &'static [Key] {
    &PRESENTATION
}

/// The keys of `[[presentation.track]]`.
pub(crate) fn track_keys() -> &'static [Key] {
    &TRACK
}
