//! The steps by which a book changes.

use rtsp_record::{Life, Stream, Thing};
use rtsp_sessions::Startup;

/// What an admission has done so far: perhaps it opened the session, and then it held at most two
/// different things, in this order.
#[derive(Clone, Copy)]
pub struct Chain {
    pub session: u64,
    pub admission: u64,
    pub opened: bool,
    pub first: Option<Thing>,
    pub second: Option<Thing>,
}

/// Channels to be held under an admission.
#[derive(Clone, Copy)]
pub struct ChannelHold {
    pub session: u64,
    pub admission: u64,
    pub conn: u64,
    /// The first channel that is wished: even, at most 254.
    pub wish: Option<u8>,
}

/// A stream to be set up over what is held under an admission.
#[derive(Clone, Copy)]
pub struct Commit {
    pub session: u64,
    pub admission: u64,
    pub stream: Stream,
    /// The startup number that the session gets, for a request that has one.
    pub startup: Option<Startup>,
}

/// A play to be begun.
#[derive(Clone, Copy, PartialEq, Eq)]
pub struct Play {
    pub session: u64,
    /// The first unit; `None` for the session's present point.
    pub from: Option<u32>,
    /// The unit after the last, at most 10,000,000.
    pub stop: u32,
    /// Milliseconds of a unit, from 1 to 1,000.
    pub unit_ms: u32,
    /// The moment, in milliseconds.
    pub now: u64,
}

/// A step of a book.
///
/// Sessions, admissions and connections are named by their numbers; moments are milliseconds,
/// places in the media are units. A growing step may also be refused as `JournalFull` or
/// `OutOfMemory`, the others never are. Of several refusals that fit, the first in the order of
/// `Refusal` is answered.
#[derive(Clone, Copy)]
pub enum Step {
    /// Opens a session: the first step of a SETUP without a session. It grows. `TooManySessions`;
    /// `IdTaken` where a living session has the number or the id.
    Open(Life),
    /// Holds bits per second of the uplink under an admission, for a SETUP. It grows. `NoSession`;
    /// `NoBandwidth`; `WrongState` where the admission has a stream or a rate, or 16 others of the
    /// session hold something.
    HoldRate {
        session: u64,
        admission: u64,
        bits: u64,
    },
    /// Holds the least free pair of ports not below `from`, for a SETUP over UDP. It grows.
    /// `NoSession`; `NoPair`; `WrongState` where the admission has a stream or an address, or 16
    /// others of the session hold something.
    HoldPair {
        session: u64,
        admission: u64,
        from: u32,
    },
    /// Holds the least free port not below `from`, for a SETUP over UDP with RTP and RTCP on one
    /// port. It grows. `NoSession`; `NoPair`; `WrongState` as for a pair.
    HoldPort {
        session: u64,
        admission: u64,
        from: u32,
    },
    /// Holds the wished pair of channels of a connection where it is free, else the least free one,
    /// for an interleaved SETUP. It grows. `NoSession`; `NoChannel`; `WrongState` as for a pair.
    HoldChan(ChannelHold),
    /// Gives a thing back that is held, as a pair or a port that the system would not bind.
    /// `NoSession`; `WrongState` where the admission has a stream; `NotHeld`.
    Return {
        session: u64,
        admission: u64,
        thing: Thing,
    },
    /// Sets a stream up over the rate and the address of an admission, in place of the session's
    /// stream of the same track: the last step of a SETUP. It grows. `NoSession`; `WrongState`
    /// where the session isn't Ready, the admission has a stream, or another stream is of another
    /// presentation; `StartupTaken` where a startup number is given and it is bound, or the session
    /// has one; `NotHeld` without a rate or an address.
    Commit(Commit),
    /// Takes an admission back that was refused midway: the session where the chain opened it, else
    /// what it held and no stream uses. `NoSession`, unless the chain did nothing.
    Unwind {
        chain: Chain,
    },
    /// Begins a play, also in place of another: PLAY. It grows. `NoSession`; `WrongState` without a
    /// stream, or where the first unit isn't below the stop.
    Play(Play),
    /// Stops a play at its present point: PAUSE. In Ready it records nothing. `unit_ms` is from 1
    /// to 1,000. It grows. `NoSession`; `WrongState` without a stream.
    Pause {
        session: u64,
        unit_ms: u32,
        now: u64,
    },
    /// Ends a play whose last unit is due: a pacer, behind the last packet of a play. `unit_ms` is
    /// from 1 to 1,000. It grows. `NoSession`; `WrongState` where the session isn't playing;
    /// `NothingDue` before that moment.
    Finish {
        session: u64,
        unit_ms: u32,
        now: u64,
    },
    /// Puts the session's expiry off: a request in it, except TEARDOWN, where that moves the expiry
    /// by at least the `renewal_step` of the configuration, in milliseconds. To a moment that isn't
    /// later it records nothing. It grows. `NoSession`.
    Touch {
        session: u64,
        until: u64,
    },
    /// Takes the stream of a track away, with what is held under it, and the session with its last
    /// stream: TEARDOWN of a track. `NoSession`; `WrongState` where other streams are there and the
    /// session isn't Ready; `NotHeld` without such a stream.
    DropTrack {
        session: u64,
        track: u16,
    },
    /// Ends a session and gives back all that it holds: TEARDOWN. `NoSession`.
    End {
        session: u64,
    },
    /// Ends the least session whose expiry is at most `now`: the sweeper, each second. `NothingDue`
    /// where there is none.
    Expire {
        now: u64,
    },
    /// Ends the least session that holds channels of a closed connection, or takes the startup
    /// number of it away from the least one that has it. `NothingDue` where there is none.
    Hangup {
        conn: u64,
    },
}
