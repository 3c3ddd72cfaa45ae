//! Laws over admissions, each the contract of a function that does nothing.

ghost use Rattle.rtsp_admit.specs.Additions.{AdmissionsGrow};
ghost use Rattle.rtsp_admit.specs.Refused.{RefusalsLeaveNothing};
ghost use Rattle.rtsp_admit.specs.Addresses.{RefusalsKeepAddresses, AdmissionsGainAddress};
ghost use Rattle.rtsp_admit.specs.Faults.{AdmissionsCountFaults};
ghost use Rattle.rtsp_admit.specs.Numbers.{ActsUseDrawn, LooksUseDrawn, DrawsGiveUnused, DrawnUsedAlone, HistoryUsedAlone, AdmissionsKeepDrawn, RefusalsLeaveNothingUnused, RefusalsLeaveNothingDrawn};
ghost use Rattle.rtsp_admit.specs.Numbers.{OwnsAllLasts, AdmissionsKeepAll, RefusalsLeaveNothingAlone};

use crate::binder::Binder;
use rtsp_book::Ask;

/// An admission that is refused leaves nothing, where each Hold and Add under its number in the
/// journal then seen is one that it made. Nothing is held and no stream is under it, and the book is
/// that of the journal without the admission. Where it had opened its session, the session is not
/// alive, and the book is that of the journal without the session.
pub fn law_refused<B: Binder>(ask: &Ask)
    ensures { RefusalsLeaveNothing B.calls ask.now }
{}

/// A refused admission under a number that its seat drew and had not used leaves nothing, where
/// nobody else has a Hold or Add under that number in the journal then seen.
/// `law_drawn_used_alone` shows that nobody else has.
pub fn law_refused_unused<B: Binder>(ask: &Ask)
    ensures { RefusalsLeaveNothingUnused B.calls ask.now }
{}

/// Of a lock that was opened for `DrawnNumbers` a refused admission under a number that its seat drew
/// and had not used leaves nothing, in the journal and in the history, whatever others do between its
/// steps.
pub fn law_refused_drawn<B: Binder>(ask: &Ask)
    ensures { RefusalsLeaveNothingDrawn B.calls ask.now }
{}

/// After an admission that is refused a binder has the ports that it had before.
pub fn law_refused_addresses<B: Binder>(ask: &Ask)
    ensures { RefusalsKeepAddresses B.calls ask.now }
{}

/// After an admission a binder has the ports that it had and the granted ones, less those that the
/// Commit freed.
pub fn law_admitted_address<B: Binder>(ask: &Ask)
    ensures { AdmissionsGainAddress B.calls ask.now }
{}

/// Where no failure of the binder was counted, the ports granted are the first that were held, and
/// a refusal is that of a step as it was first asked, which for ports is from 0 on.
pub fn law_faults_counted<B: Binder>(ask: &Ask)
    ensures { AdmissionsCountFaults B.calls ask.now }
{}

/// A seat whose Holds and Adds are all under numbers that it drew stays so over a step that names
/// such a number, or none.
pub fn law_acts_use_drawn()
    ensures { ActsUseDrawn }
{}

/// A seat whose Holds and Adds are all under numbers that it drew stays so over a look.
pub fn law_looks_use_drawn()
    ensures { LooksUseDrawn }
{}

/// A seat whose Holds and Adds are all under numbers that it drew stays so over a draw, and has no
/// Hold or Add under the number drawn.
pub fn law_drawn_is_unused()
    ensures { DrawsGiveUnused }
{}

/// Where all other seats hold and add under numbers that they drew, none of them does so under a
/// number that this one drew.
pub fn law_drawn_used_alone()
    ensures { DrawnUsedAlone }
{}

/// Of a lock that was opened for `DrawnNumbers` each Hold and Add in the history is of the seat that
/// drew its number, for ever. A checkpoint's entries aren't in it.
pub fn law_history_used_alone()
    ensures { HistoryUsedAlone }
{}

/// A seat whose Holds and Adds are all under numbers that it drew stays so over an admission under
/// such a number.
pub fn law_admitted_keeps_drawn<B: Binder>(ask: &Ask)
    ensures { AdmissionsKeepDrawn B.calls ask.now }
{}

/// The seat that opens a lock finds a journal of its own entries alone, and uses numbers that it
/// drew, as long as it is the only one and names such numbers. A checkpoint would end that, since
/// its entries are no seat's.
pub fn law_owns_all()
    ensures { OwnsAllLasts }
{}

/// So it is, as `law_owns_all` says, over an admission under a number that the seat drew.
pub fn law_admitted_keeps_all<B: Binder>(ask: &Ask)
    ensures { AdmissionsKeepAll B.calls ask.now }
{}

/// A refused admission of the only seat of a lock, as `law_owns_all` has it, leaves nothing, under a
/// number that the seat drew and had not used.
pub fn law_refused_alone<B: Binder>(ask: &Ask)
    ensures { RefusalsLeaveNothingAlone B.calls ask.now }
{}

/// Over an admission what its seat has seen of the history goes on by the records of the replies to
/// its steps, among the entries of others, and its own entries grow by these and by nothing else.
pub fn law_admitted_grows<B: Binder>(ask: &Ask)
    ensures { AdmissionsGrow B.calls ask.now }
{}
