//! What a program has in place of random words, a clock and whoever sends plays, where its answers
//! are to be the same in each run; and the server of one connection over them, in `alone`. The ports
//! are rtsp_traits' `PortSet`.

mod alone;
mod counted_words;
mod laws;
mod no_plays;
mod standing_clock;

pub use alone::{Conversation, PEER, serve_alone};
pub use counted_words::CountedWords;
pub use laws::law_alone_has_places;
pub use no_plays::NoPlays;
pub use standing_clock::StandingClock;
