//! Answers the items of a connection over a seat of a book that others use at the same time.
//!
//! `connection` takes the input of a connection in pieces, has each whole item answered, and
//! gathers what is to be written. Around it `serving` is the loop that reads and writes by calls
//! that wait, and `visiting` one visit to a connection by calls that don't. `conversing` answers one
//! request from a `Desk`, the parts that are lent to a connection.
//!
//! What clocks, words, plays and shares do stands in `rtsp_traits`. The definitions of `specs/` read
//! in this order: Desk (what is before and after a request), Renewing, Drawing, Conducting, Conversing
//! (how one item is answered), Writing (the same, in a room), Streams and FaultResponses (what is read
//! and written), Served (what a connection has written), DeskAnswers (the same from a desk), Additions
//! (what it has recorded), Numbers (under which numbers, and what a refused SETUP leaves), Causes
//! (faults are told where they were counted), Serving and Visiting (the same, visit by visit).

#![tactic(auto)]

mod conducting;
mod connection;
mod conversing;
mod desk;
mod drawing;
mod fault_responses;
mod laws;
mod piece_reader;
mod renewing;
mod serving;
mod streams;
mod visiting;
mod visits;

pub use connection::{Answerer, Connection};
pub use conversing::respond;
pub use desk::{Asker, Desk};
pub use fault_responses::fault_response;
pub use laws::{
    law_never_wants_place, law_served_cleanly, law_served_drawn, law_served_grows,
    law_served_keeps_numbers, law_visited_drawn,
};
pub use piece_reader::PieceReader;
pub use rtsp_admit::{BindFault, Binder, law_owns_all};
pub use rtsp_traits::{Clock, Plays, ShareSpent, Shares, Words, WordsFault};
pub use serving::{ServeEnd, TURNS, serve, serve_turns};
pub use streams::{ByteIn, ByteOut, CountedReader, CountedWriter, StreamFault};
pub use visiting::{PieceAnswerer, PieceIn, Reading, VisitEnd, law_visits, visit};
