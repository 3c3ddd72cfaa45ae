//! GET_PARAMETER (RFC 7826 section 13.8).

ghost use Rattle.std.specs.Prelude.{◌≡◌, option_map, IfOk};
ghost use Rattle.rtsp_state.specs.Fault.{Gives};
ghost use Rattle.rtsp_state.specs.Conduct.{IsConducted};
ghost use Rattle.rtsp_state.specs.Context.{context_value};
ghost use Rattle.rtsp_state.specs.GetParameter.{point_of, get_parameter, get_parameters, get_parameter_body};

use crate::context::{Context, timing_of};
use crate::fault::{Fault, must};
use crate::parameters::{has_position, parameters_body, parameters_in};
use crate::plan::Plan;
use crate::reply::Reply;
use crate::request::Target;
use crate::status::Status;
use rtsp_book::SessionView;
use rtsp_grammar::Text;
use rtsp_npt::UnitLength;
use std::alloc::Global;

// The point of the session; 0 where none lives.
fn point_of(context: &Context<'_>, view: Option<&SessionView>, unit_ms: UnitLength) -> u32
    ensures { result ≡ point_of (context_value context.now) (option_map (λ v. v.now) view.entry) unit_ms }
{
    match view {
        Some(view) => view.phase().point(unit_ms.ms(), context.moment),
        None => 0,
    }
}

fn get_parameters(
    alloc: Global,
    context: &Context<'_>,
    view: Option<&SessionView>,
    presentation: u16,
) -> Result<Plan, Fault>
    ensures value { Gives result (get_parameters (context_value context.now) (option_map (λ v. v.now) view.entry) presentation) }
    ensures conducted { IfOk result IsConducted }
{
    let names = parameters_in(alloc, context.body)?;
    let lives = view.is_some();
    let positioned = has_position(&names);
    must(lives || !positioned, Status::SessionNotFound)?;
    let Some(presentation) = context.table.presentation(presentation) else {
        return Err(Fault::Refused(Status::NotFound));
    };
    let at = point_of(context, view, presentation.unit_ms());
    let body = parameters_body(alloc, timing_of(presentation), at, &names)?;
    Ok(Plan::Answer(Reply::parameters(context.start, Text::from_vec(body))))
}

fn get_parameter_body(
    alloc: Global,
    context: &Context<'_>,
    view: Option<&SessionView>,
    target: &Target<'_>,
) -> Result<Plan, Fault>
    ensures value { Gives result (get_parameter_body (context_value context.now) (option_map (λ v. v.now) view.entry) target.now) }
    ensures conducted { IfOk result IsConducted }
{
    match target {
        Target::Presentation(_, presentation) => get_parameters(
            alloc,
            context,
            view,
            *presentation,
        ),
        Target::Track(_, presentation, _) => get_parameters(alloc, context, view, *presentation),
        Target::Server | Target::Star => Err(Fault::Refused(Status::BadRequest)),
    }
}

/// GET_PARAMETER without a body asks for nothing, so all that it does is to renew its session. With
/// one it asks for the position of a session and the duration of a presentation.
pub fn get_parameter(
    alloc: Global,
    context: &Context<'_>,
    view: Option<&SessionView>,
    target: &Target<'_>,
) -> Result<Plan, Fault>
    ensures value { Gives result (get_parameter (context_value context.now) (option_map (λ v. v.now) view.entry) target.now) }
    ensures conducted { IfOk result IsConducted }
{
    if context.body.is_empty() {
        return Ok(Plan::Answer(Reply::plain(context.start)));
    }
    get_parameter_body(alloc, context, view, target)
}
