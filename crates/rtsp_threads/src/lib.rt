//! What the threads of a server go by, beside the sockets of their players.
//!
//! `limits` has the numbers, `descriptors` what the system allows. `acceptor` is where connections come
//! from, `gate` says which are let in, `activity` when one was heard of, and `timed_reader` ends a visit
//! to it. `pool` runs a thread for each lane, whatever a lane does, and `holdings` is what their book is
//! opened over. `lane_shares` is what an address may have of the sessions, `share_numbers` how many a key
//! means, `leaving` and `ending` end sessions. `relieving` keeps the journal from filling: `room_looks` says
//! when a lane looks for room in it, `room_wait` for how long it is waited for.
//! `scribe` writes the journal to files, `scribe_bell` wakes it, and `file_requests` are new files for it.
//! `signals` and `stop_bell` are how threads are asked to end, `process` what the system says of them.

#![tactic(auto)]

mod acceptor;
mod activity;
mod descriptors;
mod ending;
mod file_requests;
mod gate;
mod holdings;
mod lane_shares;
mod leaving;
mod limits;
mod pool;
mod process;
mod relieving;
mod room_looks;
mod room_wait;
mod scribe;
mod scribe_bell;
mod share_numbers;
mod signals;
mod stop_bell;
mod timed_reader;

pub use acceptor::{Accepted, Acceptor};
pub use activity::Activity;
pub use descriptors::{connections_for, descriptor_limit};
pub use ending::end_session;
pub use file_requests::FileRequests;
pub use gate::Gate;
pub use holdings::whole_of;
pub use lane_shares::{LaneShares, end_place, give_back_ended, open_shares, set_share};
pub use leaving::{close_book, end_expired, end_next_expired, take_leave};
pub use limits::{
    ACCEPT_RETRY, ACCEPTS, ANSWERS, CONFIGURATION_EVERY, CONFIGURATION_STANDS, CONNECTIONS,
    FEW_LINES, HELD_REST, HELD_TOLD_AFTER, JOURNAL_LEFT_AFTER, JOURNAL_LEFT_AT_ONCE, LAST_ROOM,
    LOG_LINES, LOOK_PAUSE, MESSAGE_LIMIT, PAUSE, PIECE, PIECES, ROOM_LIMIT, SIGNALS_EVERY,
    SILENCE_LIMIT, STANDING_LIMIT, STOP_LIMIT, SWEEP_EVERY, SWEEP_SESSIONS, TURN_EVERY, TURN_TIME,
    VISIT_TIME,
};
pub use pool::{Lane, LaneTurn, PoolEnd, run_pool};
pub use process::{OwnUsage, Usage};
pub use relieving::{ask_for_room, make_room};
pub use room_looks::RoomLooks;
pub use room_wait::RoomWait;
pub use rtsp_shares::Refused;
pub use scribe::Scribe;
pub use scribe_bell::ScribeBell;
pub use signals::{OwnStatus, StopAsked};
pub use stop_bell::StopBell;
pub use timed_reader::TimedReader;
