//! Laws over what a connection is answered, each the contract of a function that does nothing.

ghost use Rattle.rtsp_traits.specs.Devices.{devices};
ghost use Rattle.rtsp_watch.specs.Growth.{VisitsThen, ThenChains};

use rtsp_engine::{Binder, Clock, Plays, Shares, Words};

/// Of a visit over content that extends an opening one each item is answered from the content of its
/// moment.
pub fn law_visits_then<B: Binder, W: Words, C: Clock, P: Plays, S: Shares>()
    ensures { VisitsThen (devices B.calls W.calls C.tells P.calls S.calls) }
{}

/// Such visits chain, whatever content each has: over all visits of a connection together each item is
/// answered from the content of its moment, which extends the opening one.
pub fn law_then_chains<B: Binder, W: Words, C: Clock, P: Plays, S: Shares>()
    ensures { ThenChains (devices B.calls W.calls C.tells P.calls S.calls) }
{}
