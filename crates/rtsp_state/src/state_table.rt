//! The state table: what a method comes to in each state of the session that its request names.

ghost use Rattle.std.specs.Prelude.{◌≡◌, option_map, IfOk};
ghost use Rattle.rtsp_state.specs.Fault.{Gives};
ghost use Rattle.rtsp_state.specs.Conduct.{IsConducted};
ghost use Rattle.rtsp_state.specs.Context.{context_value};
ghost use Rattle.rtsp_state.specs.StateTable.{session_found, row, cell, shown_id, decide};

use crate::aim::{aim, own_of};
use crate::context::Context;
use crate::describe::describe;
use crate::fault::{Fault, must};
use crate::get_parameter::get_parameter;
use crate::method::{Method, needs_session};
use crate::options::options;
use crate::pause::pause;
use crate::plan::Plan;
use crate::play::play;
use crate::reply::Reply;
use crate::request::{Name, ParsedRequest, Target};
use crate::response_start::ResponseStart;
use crate::set_parameter::set_parameter;
use crate::setup::setup;
use crate::status::Status;
use crate::teardown::teardown;
use rtsp_book::SessionView;
use rtsp_content::Table;
use std::alloc::{AllocError, Global};

// The last of the places that are the same for all methods: the session is there.
fn session_found(
    method: Method,
    name: Option<Name>,
    view: Option<&SessionView>,
) -> Result<(), Fault>
    ensures { result ≡ session_found method name (option_map (λ v. v.now) view.entry) }
{
    match (name, view) {
        (_, Some(_)) => Ok(()),
        (Some(Name::Id(_)), None) => Err(Fault::Refused(Status::SessionNotFound)),
        (Some(Name::Startup(_)), None) => must(!needs_session(method), Status::SessionNotFound),
        (None, None) => must(!needs_session(method), Status::SessionNotFound),
    }
}

// The row of a method. The rows that plan a step or an admission stand apart, so that a request that
// is answered at once doesn't pay for their room on the stack. The row itself, the cell and `decide`
// are inlined, so that a plan is made where it is wanted and not copied from one to the next.
#[inline(always)]
fn row(
    alloc: Global,
    context: &Context<'_>,
    method: Method,
    view: Option<&SessionView>,
    name: Option<Name>,
    target: &Target<'_>,
) -> Result<Plan, Fault>
    ensures value { Gives result (row (context_value context.now) method (option_map (λ v. v.now) view.entry) name target.now) }
    ensures conducted { IfOk result IsConducted }
{
    match method {
        Method::Options => options(context),
        Method::Describe => describe(alloc, context, target),
        Method::Setup => setup(alloc, context, view, name, target),
        Method::Teardown => teardown(alloc, context, view, target),
        Method::Play => play(alloc, context, view, target),
        Method::Pause => pause(context, view, target),
        Method::GetParameter => get_parameter(alloc, context, view, target),
        Method::SetParameter => set_parameter(context),
    }
}

// The cell of the table.
#[inline(always)]
fn cell(
    alloc: Global,
    context: &Context<'_>,
    method: Method,
    view: Option<&SessionView>,
    name: Option<Name>,
    target: &mut Target<'_>,
) -> Result<Plan, Fault>
    ensures value { Gives result (cell (context_value context.now) method (option_map (λ v. v.now) view.entry) name target.old) }
    ensures conducted { IfOk result IsConducted }
{
    session_found(method, name, view)?;
    aim(context.table, own_of(method, view), target)?;
    row(alloc, context, method, view, name, target)
}

/// The id of a living session.
pub fn shown_id(view: Option<&SessionView>) -> Option<u128>
    ensures { result ≡ shown_id (option_map (λ v. v.now) view.entry) }
{
    match view {
        Some(view) => Some(view.id()),
        None => None,
    }
}

/// The plan of a request, from the living session that it names, if it names one: a response, a
/// step, or an admission, each with what its response shows. The peer is the player's IPv4 address,
/// and the moment is in milliseconds. The session is as it is after its renewal.
#[inline(always)]
#[tactic(auto, unfolding(crate::specs::StateTable::decide))]
pub fn decide(
    alloc: Global,
    request: ParsedRequest<'_>,
    view: Option<&SessionView>,
    table: &Table,
    peer: u32,
    moment: u64,
) -> Result<Plan, AllocError>
    ensures value { IfOk result (λ p. p ≡ decide table.now request.entry (option_map (λ v. v.now) view.entry) peer moment) }
    // What `Kept::act` and `admit` require of their callers.
    ensures conducted { IfOk result IsConducted }
{
    let start = ResponseStart {
        cseq: request.cseq,
        session: shown_id(view),
    };
    let context = Context {
        start,
        peer,
        moment,
        table,
        headers: request.headers,
        body: request.body,
    };
    let ParsedRequest {
        method,
        mut target,
        name,
        ..
    } = request;
    match cell(alloc, &context, method, view, name, &mut target) {
        Ok(plan) => Ok(plan),
        Err(Fault::OutOfMemory) => Err(AllocError),
        Err(fault) => Ok(Plan::Answer(Reply::refused(start, fault))),
    }
}
