//! What holds of every answer. These functions do nothing: their contracts are the laws.

ghost use Rattle.rtsp_state.specs.About.{NamesNothing};
ghost use Rattle.rtsp_state.specs.Laws.{ReadsOnce, AnswersRefusal, ShowsAllowed, AllowedIsValid, AnswersInOrder, ShowsSession};
ghost use Rattle.rtsp_state.specs.Renewal.{RenewsInSteps};
ghost use Rattle.rtsp_state.specs.Growth.{PlaysOn, IsGone, DecidesByPlace, OffersRest, RenewsAlike, AnswersAlike};
ghost use Rattle.rtsp_state.specs.Alike.{ReadsAlike, AsksAlike};

/// What is handed on of a request is what it says, so that nothing of it is read again.
pub fn law_reads_once()
    ensures { ReadsOnce }
{}

/// A URI without a path names nothing, whatever is served.
pub fn law_names_nothing()
    ensures { NamesNothing }
{}

/// A renewal moves the end of its session by the configuration's `renewal_step` at least. After each
/// request but TEARDOWN whose renewal isn't refused, the session ends later than the timeout from
/// then, less that step. With the step 1 the session's end is then the later of the one that it had
/// and the timeout from then.
pub fn law_renews_in_steps()
    ensures { RenewsInSteps }
{}

/// A refused step or admission is answered by the status of its refusal.
pub fn law_answers_refusal()
    ensures { AnswersRefusal }
{}

/// Each 455 has an Allow header with the methods that no state refuses.
pub fn law_shows_allowed()
    ensures { ShowsAllowed }
{}

/// OPTIONS, DESCRIBE, GET_PARAMETER and SET_PARAMETER are answered in each state, and never by 455.
pub fn law_allowed_is_valid()
    ensures { AllowedIsValid }
{}

/// The headers of every response are in their one order.
pub fn law_answers_in_order()
    ensures { AnswersInOrder }
{}

/// Before a session is looked up no response has a Session header. From then on one has it exactly
/// if the session is alive after the request, or was opened by it.
pub fn law_shows_session()
    ensures { ShowsSession }
{}

/// A request of a session for what it has is decided as before, whatever of that was withdrawn or replaced
/// meanwhile.
pub fn law_plays_on()
    ensures { PlaysOn }
{}

/// A description of what is withdrawn, and a first track of it, isn't found, unless its name is offered again.
pub fn law_is_gone()
    ensures { IsGone }
{}

/// A request for what a table has is read alike by one that goes on from it.
pub fn law_reads_alike()
    ensures { ReadsAlike }
{}

/// What is handed on of a request names what stands in the table, and a table that goes on has the same
/// there.
pub fn law_asks_alike()
    ensures { AsksAlike }
{}

/// A request is decided by the presentation that it means and by the timeout of sessions, and by nothing
/// else of a table.
pub fn law_decides_by_place()
    ensures { DecidesByPlace }
{}

/// A request for what is offered still, or is the session's own, is decided as before, whatever else is
/// added, withdrawn or replaced.
pub fn law_offers_rest()
    ensures { OffersRest }
{}

/// A session is renewed by the timeout and the step of renewals, and by nothing else of a table.
pub fn law_renews_alike()
    ensures { RenewsAlike }
{}

/// What a request for what was there is answered stays, where that is offered still or is the session's
/// own.
pub fn law_answers_alike()
    ensures { AnswersAlike }
{}
