//! The limits of a server. Moments and times are in milliseconds.

use rtsp_content::MAX_CONNECTIONS;

/// The most connections that are open at once. One more is accepted and closed at once.
pub const CONNECTIONS: u64 = MAX_CONNECTIONS;

/// The most connections that a lane accepts in one turn.
pub const ACCEPTS: usize = 64;

/// How long a lane waits before it accepts again where it had no descriptor, and no spare one.
pub const ACCEPT_RETRY: u64 = 100;

/// The bytes of a connection that are read at once.
pub const PIECE: usize = 4_096;

/// The most pieces of a connection that are read in one visit, before the next connection's turn.
pub const PIECES: usize = 16;

/// A visit reads no further piece once it has taken so long, and the next connection has its turn.
pub const VISIT_TIME: u64 = 2;

/// A lane visits no further connection in a turn that has taken so long: it looks first what else has
/// come.
pub const TURN_TIME: u64 = 10;

/// The answers of a visit are written when it ends, and whenever they have grown to so many bytes.
pub const ANSWERS: usize = 32 * 1_024;

/// A connection isn't read while more bytes than this wait to be written to it.
pub const PAUSE: usize = 128 * 1_024;

/// A connection that has said nothing for so long is closed. One on which a track was to be set up
/// may be silent for as long as a session lives, if that is longer.
pub const SILENCE_LIMIT: u64 = 60_000;

/// A connection that has begun a message and not finished it for so long is closed.
pub const MESSAGE_LIMIT: u64 = 30_000;

/// A lane that finds no room in the journal puts connections aside that ask for what makes entries. Each
/// time it has found none for so long it lets a piece of one of them through all the same.
pub const ROOM_LIMIT: u64 = 127;

/// The longest that a lane which found no room in the journal waits until it looks again: a millisecond
/// first, then twice as long each time.
pub const LOOK_PAUSE: u64 = 8;

/// A request that opens a session and sets a track up makes five entries at most and is owed five. Where
/// the journal has less room, one that was refused may have been refused for that.
pub const LAST_ROOM: usize = 10;

/// The longest that a lane waits for something to do. Then it tells up to when it has read all that
/// had come, and a sweep goes no further.
pub const TURN_EVERY: u64 = 200;

/// How long a lane rests where all connections that are left to be visited wait for a pacer to hear of a
/// crowd of plays.
pub const HELD_REST: u64 = 1;

/// The time between two sweeps.
pub const SWEEP_EVERY: u64 = 1_000;

/// The most sessions that a sweep ends before others get the lock.
pub const SWEEP_SESSIONS: u32 = 64;

/// The longest that a server waits for all its lanes to begin, before it tells that it listens.
pub const STANDING_LIMIT: u64 = 1_000;

/// The time between two looks at the signals that ask for an end.
pub const SIGNALS_EVERY: u64 = 100;

/// How long connections have, once the server stops, to take what waits for them. The lanes then
/// hang up, so that all is over within 3 s.
pub const STOP_LIMIT: u64 = 2_500;

/// A write to the journal's file is left behind so long after the lanes were to have hung up, so that all
/// is over within 3 s.
pub const JOURNAL_LEFT_AFTER: u64 = 250;

/// The same after a second signal, so that all is over within 0.3 s.
pub const JOURNAL_LEFT_AT_ONCE: u64 = 90;

/// The queue of the log has room for about so many lines, in batches, where each answer has one; further
/// ones are dropped and counted.
pub const LOG_LINES: usize = 4_096;

/// The same where only events have lines, and sessions that end, up to twenty in a batch: all sessions
/// may end at once.
pub const FEW_LINES: usize = 256;

/// The thread that writes the journal isn't waited for once it has been at one turn for so long: a disk
/// may hold it up.
pub const HELD_AFTER: u64 = 100;

/// The log tells that the journal's writing is held up once one turn of that thread has taken so long.
pub const HELD_TOLD_AFTER: u64 = 2_000;

/// A file of the journal that has so many entries is followed by a new one. An audit reads a million,
/// and what is handed out at once is seldom more than half of what the journal has room for.
pub const LONG_FILE: usize = 400_000;

/// The time between two looks at the configuration's file.
pub const CONFIGURATION_EVERY: u64 = 250;

/// A changed configuration is taken up once its file has stood for so long as it is.
pub const CONFIGURATION_STANDS: u64 = 1_000;
