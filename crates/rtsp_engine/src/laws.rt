//! Laws over what is answered, each the contract of a function that does nothing.

ghost use Rattle.rtsp_engine.specs.Additions.{ServedGrows};
ghost use Rattle.rtsp_engine.specs.Conducting.{NeverWantsPlace};
ghost use Rattle.rtsp_traits.specs.Devices.{devices};
ghost use Rattle.rtsp_engine.specs.Numbers.{ServedKeepsNumbers, ServedCleanly, ServedDrawn, VisitedDrawn};

use rtsp_admit::Binder;
use rtsp_lock::Numbers;
use rtsp_traits::{Clock, Plays, Shares, Words};

/// Over a connection what its seat has seen of the history goes on by the records of the replies to
/// its requests, in the order of the requests, among the entries of others; and its own entries grow
/// by these records and by nothing else.
pub fn law_served_grows<R, B: Binder, W: Words, C: Clock, P: Plays, S: Shares, N: Numbers>()
    ensures { ServedGrows (devices B.calls W.calls C.tells P.calls S.calls) R N }
{}

/// A connection's seat whose Holds and Adds are all under numbers that it drew stays so over each
/// request, and over a whole connection.
pub fn law_served_keeps_numbers<R, B: Binder, W: Words, C: Clock, P: Plays, S: Shares, N: Numbers>()
    ensures { ServedKeepsNumbers (devices B.calls W.calls C.tells P.calls S.calls) R N }
{}

/// Over a connection whose seat is the only one of its lock nothing is left of a SETUP that is
/// refused: nothing is held and no stream is under its number, and a session that it opened isn't
/// alive. The book is that of the journal without it.
pub fn law_served_cleanly<R, B: Binder, W: Words, C: Clock, P: Plays, S: Shares, N: Numbers>()
    ensures { ServedCleanly (devices B.calls W.calls C.tells P.calls S.calls) R N }
{}

/// So it is over a connection whose lock was opened for `DrawnNumbers`, of a seat that has used none
/// but its own, as one that has made nothing: whatever others do meanwhile, nothing is left of a SETUP
/// that is refused, in the journal and in the history.
pub fn law_served_drawn<R, B: Binder, W: Words, C: Clock, P: Plays, S: Shares, N: Numbers>()
    ensures { ServedDrawn (devices B.calls W.calls C.tells P.calls S.calls) R N }
{}

/// And so it is of the items of a connection whose devices are lent for one piece at a time, each
/// answered by what it is taken to mean, and over its visits.
pub fn law_visited_drawn<B: Binder, W: Words, C: Clock, P: Plays, S: Shares>()
    ensures { VisitedDrawn (devices B.calls W.calls C.tells P.calls S.calls) }
{}

/// Over shares that refuse no place, no SETUP is answered for want of one: all is as it would be
/// without shares.
pub fn law_never_wants_place<B: Binder, W: Words, C: Clock, P: Plays, S: Shares>()
    ensures { NeverWantsPlace (devices B.calls W.calls C.tells P.calls S.calls) }
{}
