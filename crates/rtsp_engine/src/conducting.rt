//! How a plan is conducted: its response gets room first; then the step is acted, or the admission
//! is made; and what came of it is written, which takes no memory.

ghost use Rattle.std.specs.Prelude.{◌≡◌, ◌≤◌, ◌++◌, OnOk, OnErr, None};
ghost use Rattle.rtsp_grammar.specs.Writing.{response_text};
ghost use Rattle.rtsp_book.specs.Receipts.{filled};
ghost use Rattle.rtsp_book.specs.Replies.{IsAskable};
ghost use Rattle.rtsp_lock.specs.Calls.{seat_view, IsSeatOf, SameSeat, Acted};
ghost use Rattle.rtsp_lock.specs.Numbers.{admission_of, MayName};
ghost use Rattle.rtsp_admit.specs.Binder.{UnboundAll};
ghost use Rattle.rtsp_state.specs.Answer.{setup_answer};
ghost use Rattle.rtsp_state.specs.Bounds.{setup_room};
ghost use Rattle.rtsp_state.specs.Conduct.{IsConducted};
ghost use Rattle.rtsp_engine.specs.Conducting.{NamesNoNumber, played, freed_by, drawn_with, opened, setup_response, HasPlace, SetsUp, AsksShare};
ghost use Rattle.rtsp_engine.specs.Desk.{state, SameParts};
ghost use Rattle.rtsp_traits.specs.Devices.{devices, Noted, NotNoted, Settled};
ghost use Rattle.rtsp_engine.specs.Writing.{WritesStep, WritesSetup, WritesOutcome, WantsOutcome};

use crate::desk::Desk;
use crate::drawing::{
    AdmissionNumbers, GivenWords, Lacking, Spent, draw_numbers, draw_words, opens,
};
use rtsp_admit::{Binder, admit_into, unbind_freed};
use rtsp_book::{Admitted, Receipt, Refusal, Step};
use rtsp_lock::{BookLock, BookSeat, Numbers};
use rtsp_record::Phase;
use rtsp_state::{Drawn, Plan, Reply, Room, SessionKey, SetupPlan, Status, StepPlan, moved};
use rtsp_traits::{Clock, Plays, ShareSpent, Shares, Words};
use std::alloc::{AllocError, Global};
use std::sync::Wait;

// How far a track that is to be set up comes.
#[derive(Clone, Copy)]
pub(crate) enum SetUp {
    // The asker's share of the sessions is used up.
    NoShare,
    NoWord(Lacking),
    NoNumber(Spent),
    // What came of its admission.
    Tried(AdmissionNumbers, Result<Admitted, Refusal>),
}

// The session of a play that a step begins.
fn played(step: &Step) -> Option<u64>
    ensures { result ≡ played step.now }
{
    match step {
        Step::Play(play) => Some(play.session),
        _ => None,
    }
}

// Notes the play that a step begins.
fn note<P: Plays>(
    alloc: Global,
    plays: &mut P,
    step: &Step,
    cseq: u32,
    uri: &[u8],
) -> Result<(), AllocError>
    ensures ok { OnOk result (Noted P.calls (played step.now) cseq uri.now plays.old plays.new) }
    ensures err { OnErr result (NotNoted P.calls (played step.now) plays.old plays.new) }
{
    match played(step) {
        Some(session) => plays.note(alloc, session, cseq, uri),
        None => Ok(()),
    }
}

// Settles the play that was noted, if one was, by the phase that it began.
fn settle<P: Plays>(plays: &mut P, step: &Step, begun: Option<Phase>)
    ensures { Settled P.calls (played step.now) begun plays.old plays.new }
{
    if played(step).is_some() {
        plays.settle(begun);
    }
}

// Acts a step, and unbinds the ports that it freed.
fn act_step<R: Wait, N: Numbers, B: Binder>(
    rt: &R,
    seat: &mut BookSeat,
    lock: &BookLock<N>,
    binder: &mut B,
    step: &Step,
    made: &mut Receipt,
) -> Result<(), Refusal>
    requires own { IsSeatOf seat.old lock.now }
    requires askable { IsAskable step.now }
    requires names { MayName N.drawn (seat_view seat.old) step.now }
    ensures same { SameSeat seat.old seat.new }
    ensures acted { Acted (seat_view seat.old) (seat_view seat.new) step.now (filled result made.new) }
    ensures unbound { UnboundAll B.calls (freed_by (filled result made.new)) binder.old binder.new }
{
    match seat.act_into(rt, lock, step, made) {
        Ok(()) => {
            unbind_freed(binder, made);
            Ok(())
        }
        Err(refusal) => Err(refusal),
    }
}

// Notes a play, acts the step, writes what came of it, and settles the play.
#[inline(never)]
fn conduct_step<R: Wait, B: Binder, W: Words, C: Clock, P: Plays, S: Shares, N: Numbers>(
    alloc: Global,
    desk: &mut Desk<'_, R, B, W, C, P, S, N>,
    uri: &[u8],
    plan: &StepPlan,
    room: &mut Room,
) -> Result<(), AllocError>
    requires askable { IsAskable plan.now.step }
    requires names { admission_of plan.now.step ≡ None }
    ensures same { SameParts desk.old desk.new }
    ensures ok { OnOk result (WritesStep (devices B.calls W.calls C.tells P.calls S.calls) uri.now plan.now desk.old room.old desk.new room.new) }
    ensures err { OnErr result (WantsOutcome (devices B.calls W.calls C.tells P.calls S.calls) desk.old desk.new) }
    ensures mute { OnErr result (room.new.text ≡ room.old.text) }
{
    plan.make_room(room)?;
    note(alloc, desk.plays, &plan.step, plan.start.cseq, uri)?;
    match act_step(
        desk.rt,
        desk.seat,
        desk.lock,
        desk.binder,
        &plan.step,
        desk.made,
    ) {
        Ok(()) => {
            plan.answer(room, Ok(desk.made));
            settle(desk.plays, &plan.step, moved(desk.made));
        }
        Err(refusal) => {
            plan.answer(room, Err(refusal));
            settle(desk.plays, &plan.step, None);
        }
    }
    Ok(())
}

fn drawn_with(conn: u64, given: GivenWords, numbers: AdmissionNumbers) -> Drawn
    ensures { result ≡ drawn_with conn given numbers }
{
    Drawn {
        conn,
        key: numbers.key,
        admission: numbers.admission,
        ssrc: given.ssrc,
        seq: given.seq,
        rtptime: given.rtptime,
    }
}

// Draws words, then numbers, and makes the admission with them.
fn admit_drawn<R: Wait, B: Binder, W: Words, C: Clock, P: Plays, S: Shares, N: Numbers>(
    desk: &mut Desk<'_, R, B, W, C, P, S, N>,
    plan: &SetupPlan,
) -> SetUp
    ensures same { SameParts desk.old desk.new }
    ensures comes { SetsUp (devices B.calls W.calls C.tells P.calls S.calls) desk.old.asker.conn plan.now result (state desk.old) (state desk.new) }
    ensures place { HasPlace result }
    ensures clock { desk.new.clock.now ≡ desk.old.clock.now }
    ensures plays { desk.new.plays.now ≡ desk.old.plays.now }
    ensures shares { desk.new.shares.now ≡ desk.old.shares.now }
{
    let given = match draw_words(desk.words, opens(plan.session)) {
        Ok(given) => given,
        Err(at) => return SetUp::NoWord(at),
    };
    match draw_numbers(desk.rt, desk.seat, desk.lock, plan.session, given.id) {
        Ok(numbers) => {
            let ask = plan.ask(drawn_with(desk.asker.conn, given, numbers));
            SetUp::Tried(
                numbers,
                admit_into(desk.rt, desk.seat, desk.lock, desk.binder, &ask, desk.made),
            )
        }
        Err(at) => SetUp::NoNumber(at),
    }
}

// The session of an admission that was granted.
fn opened(outcome: SetUp) -> Option<u64>
    ensures { result ≡ opened outcome }
{
    match outcome {
        SetUp::Tried(numbers, Ok(_)) => Some(numbers.key.session),
        _ => None,
    }
}

// Sets a track up. Where that is to open a session, a place for it is taken before any word or
// number is drawn, and settled once it is known what came of it.
fn set_up<R: Wait, B: Binder, W: Words, C: Clock, P: Plays, S: Shares, N: Numbers>(
    desk: &mut Desk<'_, R, B, W, C, P, S, N>,
    plan: &SetupPlan,
) -> SetUp
    ensures same { SameParts desk.old desk.new }
    ensures comes { SetsUp (devices B.calls W.calls C.tells P.calls S.calls) desk.old.asker.conn plan.now result (state desk.old) (state desk.new) }
    ensures shares { AsksShare (devices B.calls W.calls C.tells P.calls S.calls) desk.old.asker.peer plan.now result (state desk.old) (state desk.new) }
    ensures clock { desk.new.clock.now ≡ desk.old.clock.now }
    ensures plays { desk.new.plays.now ≡ desk.old.plays.now }
{
    if !opens(plan.session) {
        return admit_drawn(desk, plan);
    }
    match desk.shares.take(desk.asker.peer) {
        Ok(()) => {
            let outcome = admit_drawn(desk, plan);
            desk.shares.settle(opened(outcome));
            outcome
        }
        Err(ShareSpent) => SetUp::NoShare,
    }
}

// Writes what came of an admission.
fn answer_admission(
    plan: &SetupPlan,
    source: Option<u32>,
    key: SessionKey,
    made: Result<Admitted, Refusal>,
    room: &mut Room,
)
    requires { setup_room ≤ room.old.spare }
    ensures { room.new.text ≡ room.old.text ++ response_text (setup_answer plan.now source key made) }
{
    match made {
        Ok(made) => plan.answer(room, source, key, Ok(&made)),
        Err(refusal) => plan.answer(room, source, key, Err(refusal)),
    }
}

// Writes what came of setting a track up.
fn answer_setup(plan: &SetupPlan, source: Option<u32>, outcome: SetUp, room: &mut Room)
    requires { setup_room ≤ room.old.spare }
    ensures { room.new.text ≡ room.old.text ++ response_text (setup_response plan.now source outcome) }
{
    match outcome {
        SetUp::NoShare => plan.refuse(room, Status::Unavailable),
        SetUp::NoWord(_) => plan.refuse(room, Status::ServerError),
        SetUp::NoNumber(_) => plan.refuse(room, Status::Unavailable),
        SetUp::Tried(numbers, made) => answer_admission(plan, source, numbers.key, made, room),
    }
}

#[inline(never)]
fn conduct_setup<R: Wait, B: Binder, W: Words, C: Clock, P: Plays, S: Shares, N: Numbers>(
    desk: &mut Desk<'_, R, B, W, C, P, S, N>,
    plan: &SetupPlan,
    room: &mut Room,
) -> Result<(), AllocError>
    ensures same { SameParts desk.old desk.new }
    ensures ok { OnOk result (WritesSetup (devices B.calls W.calls C.tells P.calls S.calls) plan.now desk.old room.old desk.new room.new) }
    ensures err { OnErr result (state desk.new ≡ state desk.old) }
    ensures mute { OnErr result (room.new.text ≡ room.old.text) }
{
    plan.make_room(room)?;
    let outcome = set_up(desk, plan);
    answer_setup(plan, desk.asker.source, outcome, room);
    Ok(())
}

// Writes a response before which nothing has to be done.
pub(crate) fn reply_with(reply: &Reply, room: &mut Room) -> Result<(), AllocError>
    ensures ok { OnOk result (room.new.text ≡ room.old.text ++ response_text reply.now) }
    ensures err { OnErr result (room.new.text ≡ room.old.text) }
{
    reply.make_room(room)?;
    reply.answer(room);
    Ok(())
}

/// Conducts the plan of a request. Memory is taken for its response, and to note a play, before
/// anything else is done.
pub(crate) fn conduct<R: Wait, B: Binder, W: Words, C: Clock, P: Plays, S: Shares, N: Numbers>(
    alloc: Global,
    desk: &mut Desk<'_, R, B, W, C, P, S, N>,
    uri: &[u8],
    plan: &Plan,
    room: &mut Room,
) -> Result<(), AllocError>
    requires conducted { IsConducted plan.now }
    requires names { NamesNoNumber plan.now }
    ensures same { SameParts desk.old desk.new }
    ensures ok { OnOk result (WritesOutcome (devices B.calls W.calls C.tells P.calls S.calls) uri.now plan.now desk.old room.old desk.new room.new) }
    ensures err { OnErr result (WantsOutcome (devices B.calls W.calls C.tells P.calls S.calls) desk.old desk.new) }
    ensures mute { OnErr result (room.new.text ≡ room.old.text) }
{
    match plan {
        Plan::Answer(reply) => reply_with(reply, room),
        Plan::Step(plan) => conduct_step(alloc, desk, uri, plan, room),
        Plan::Admit(plan) => conduct_setup(desk, plan, room),
    }
}
