//! A law over the devices, the contract of a function that does nothing.

ghost use Rattle.rtspd.specs.Alone.{AlwaysHasPlace};

use crate::devices::counted_words::CountedWords;
use crate::devices::no_plays::NoPlays;
use crate::devices::standing_clock::StandingClock;
use rtsp_engine::law_never_wants_place;
use rtsp_traits::{NoShares, PortSet};

/// A connection that is served alone is refused nothing for want of a place: its answers are those
/// of a server without shares.
pub fn law_alone_has_places()
    ensures { AlwaysHasPlace }
{
    law_never_wants_place::<PortSet, CountedWords, StandingClock, NoPlays, NoShares>();
}
