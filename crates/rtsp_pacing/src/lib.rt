//! What sends the packets of the plays when they are due.
//!
//! A lane notes each play that is begun, in `noted`, and hands it over to the pacer that has the
//! session, by its `bell`. A pacer is a thread that runs `pace`: it sleeps until the next moment of
//! its `wheel` at which one of its `plays` has something due, and takes the turn of each play there
//! (`play`). The packets, the reports of their streams, and the RTCP that ends a play of GStreamer, go the
//! `ways` of these, of which one may be a `channel` of a connection: the frames of a unit are put there in
//! one call (`frame_run`), and of those that are `dropped` it is told.
//! The other way round, `reports` is what a lane does with RTCP that a player sends.

#![tactic(auto)]

mod bell;
mod channel;
mod credit;
mod desk;
mod dropped;
mod frame_run;
mod inbox;
mod left_early;
mod noted;
mod noting;
mod pacer_room;
mod pacing;
mod packet_count;
mod play;
mod plays;
mod refusals;
mod renewal;
mod reports;
mod sink;
mod told;
mod untold;
mod ways;
mod went;
mod wheel;
mod when;

pub use bell::{Bell, Bells};
pub use desk::{Paced, PacerParts};
pub use noted::NotedPlays;
pub use pacer_room::PacerRoom;
pub use pacing::{PLAYS_AT_ONCE, SLOTS_AT_ONCE, pace};
pub use plays::PacerPlays;
pub use refusals::{REFUSED_FOR, SPARED_FOR};
pub use reports::{Report, hear, report_step};
pub use wheel::SLOTS;
