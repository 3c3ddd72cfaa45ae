//! RTP packets, the pace at which those of a play are sent, and its RTCP. It takes no memory but
//! once, for a pacer's room, and never waits.
//!
//! A packet stands in a buffer of fixed size with room before it for the head of an interleaved
//! frame, so that datagram and frame are slices of one buffer. A `Pacer` is one play of one
//! session: each turn sends what is due and unsent, and goes on after a failure where it stopped.
//! Once the session has left the play a last turn sends what was counted as sent and wasn't.
//!
//! The definitions of `specs/` read in this order: Packets (the bytes of a packet), Parts (what stands
//! in a unit of several), UnitPackets (the packets of a unit), SenderStates and Reports (what a stream
//! has sent, and tells of it), Buffers, Sinks (where packets go), Pacing (what is sent of a play, in
//! which order), Turns (what a turn does), Leaving (what a last turn does), Wire (that what is sent is
//! within what is held), Progress and PacerView (the same by a pacer's fields), Moments (when the next
//! packet is due), Goodbyes (RTCP that ends the streams of a play).

#![tactic(auto)]

mod buffer;
mod departure;
mod goodbye;
mod laws;
mod pacer;
mod part;
mod parts_sent;
mod play;
mod report;
mod send_room;
mod sender_state;
mod sink;
mod source;
mod sources;
mod turn;
mod unit;
mod unit_sending;

pub use buffer::Packet;
pub use goodbye::ControlSink;
pub use laws::{law_one_packet, law_play_within, law_turn_within, law_unit_within};
pub use pacer::Pacer;
pub use part::SlotFault;
pub use play::sent_before;
pub use send_room::SendRoom;
pub use sink::{Sink, SinkFault};
pub use source::Source;
pub use turn::{LastTurn, Turn};
pub use unit::packet;
