//! SETUP (RFC 7826 section 13.3).

ghost use Rattle.std.specs.Prelude.{◌≡◌, codes, option_map, Ok, Some, IfOk};
ghost use Rattle.rtsp_transport.specs.Picking.{pick_of};
ghost use Rattle.rtsp_state.specs.Fault.{Gives};
ghost use Rattle.rtsp_state.specs.Values.{joined_in};
ghost use Rattle.rtsp_state.specs.Context.{context_value};
ghost use Rattle.rtsp_state.specs.Conduct.{IsConducted};
ghost use Rattle.rtsp_state.specs.Setup.{may_set_up, delivery_of, delivery_in, session_of, setup_plan, setup_track, setup};

use crate::context::{Context, expiry, is_other, timing_of};
use crate::fault::{Fault, must};
use crate::plan::Plan;
use crate::request::{Name, Target};
use crate::setup_plan::{Delivery, SessionKey, SetupPlan, SetupSession};
use crate::status::Status;
use crate::values::{joined_in, specs_in};
use rtsp_book::SessionView;
use rtsp_grammar::Headers;
use rtsp_transport::{Pick, Spec, pick};
use std::alloc::Global;

fn may_set_up(presentation: u16, view: Option<&SessionView>) -> Result<(), Fault>
    ensures { result ≡ may_set_up presentation (option_map (λ v. v.now) view.entry) }
{
    let Some(view) = view else {
        return Ok(());
    };
    let ready = view.phase().is_ready();
    must(ready, Status::MethodNotValid)?;
    must(!is_other(presentation, view), Status::AggregateNotAllowed)
}

// The transport that a client gets.
fn pick_of(specs: &[Spec], peer: u32) -> Pick
    ensures { result ≡ pick_of peer specs.now }
{
    pick(specs, peer)
}

// How the packets are sent, where they can be.
fn delivery_of(pick: Pick) -> Result<Delivery, Fault>
    ensures { result ≡ delivery_of pick }
{
    match pick {
        Pick::Udp {
            rtp_port,
            rtcp_port,
        } => Ok(Delivery::Udp {
            rtp_port,
            rtcp_port,
        }),
        Pick::Mux { port } => Ok(Delivery::Mux { port }),
        Pick::Inter { wish } => Ok(Delivery::Interleaved { wish }),
        Pick::Unsupported => Err(Fault::Refused(Status::UnsupportedTransport)),
        Pick::Prohibited => Err(Fault::Refused(Status::DestinationProhibited)),
    }
}

// How the packets are sent, by the value of a Transport header.
fn delivery_in(alloc: Global, peer: u32, value: &[u8]) -> Result<Delivery, Fault>
    ensures { Gives result (delivery_in peer (Some value.now)) }
{
    let specs = specs_in(alloc, value)?;
    delivery_of(pick_of(&specs, peer))
}

// How the packets are sent, by the Transport headers of a request.
fn delivery_asked(alloc: Global, peer: u32, headers: &Headers) -> Result<Delivery, Fault>
    ensures { Gives result (delivery_in peer (joined_in (codes "Transport") headers.now)) }
{
    match joined_in(alloc, headers, b"Transport")? {
        None => Err(Fault::Refused(Status::BadRequest)),
        Some(value) => delivery_in(alloc, peer, value.as_slice()),
    }
}

// The session that the track is set up in: the one that lives, else a new one.
fn session_of(context: &Context<'_>, view: Option<&SessionView>, name: Option<Name>) -> SetupSession
    ensures { result ≡ session_of (context_value context.now) (option_map (λ v. v.now) view.entry) name }
{
    if let Some(view) = view {
        return SetupSession::Living(SessionKey {
            session: view.session(),
            id: view.id(),
        });
    }
    let startup = match name {
        Some(Name::Startup(number)) => Some(number),
        _ => None,
    };
    SetupSession::New {
        expires: expiry(context.moment, context.table.server().timeout),
        startup,
    }
}

fn setup_track(
    alloc: Global,
    context: &Context<'_>,
    view: Option<&SessionView>,
    name: Option<Name>,
    presentation: u16,
    track: u16,
) -> Result<Plan, Fault>
    ensures value { Gives result (setup_track (context_value context.now) (option_map (λ v. v.now) view.entry) name presentation track) }
    ensures conducted { IfOk result IsConducted }
{
    may_set_up(presentation, view)?;
    let delivery = delivery_asked(alloc, context.peer, context.headers)?;
    let Some(shown) = context.table.presentation(presentation) else {
        return Err(Fault::Refused(Status::NotFound));
    };
    let Some(media) = shown.track(track) else {
        return Err(Fault::Refused(Status::NotFound));
    };
    Ok(Plan::Admit(SetupPlan {
        cseq: context.start.cseq,
        session: session_of(context, view, name),
        rate: shown.rate(media),
        delivery,
        presentation,
        track,
        peer: context.peer,
        timeout: context.table.server().timeout,
        timing: timing_of(shown),
    }))
}

/// SETUP of a track asks for an admission: into the session that is named, or into a new one.
#[inline(never)]
pub fn setup(
    alloc: Global,
    context: &Context<'_>,
    view: Option<&SessionView>,
    name: Option<Name>,
    target: &Target<'_>,
) -> Result<Plan, Fault>
    ensures value { Gives result (setup (context_value context.now) (option_map (λ v. v.now) view.entry) name target.now) }
    ensures conducted { IfOk result IsConducted }
{
    match target {
        Target::Track(_, presentation, track) => {
            setup_track(alloc, context, view, name, *presentation, *track)
        }
        Target::Presentation(..) => Err(Fault::Refused(Status::AggregateNotAllowed)),
        Target::Server | Target::Star => Err(Fault::Refused(Status::BadRequest)),
    }
}
