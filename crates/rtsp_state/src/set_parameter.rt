//! SET_PARAMETER (RFC 7826 section 13.9).

ghost use Rattle.std.specs.Prelude.{◌≡◌, IfOk};
ghost use Rattle.rtsp_state.specs.Conduct.{IsConducted};
ghost use Rattle.rtsp_state.specs.Context.{context_value};
ghost use Rattle.rtsp_state.specs.SetParameter.{set_parameter};

use crate::context::Context;
use crate::fault::{Fault, must};
use crate::plan::Plan;
use crate::reply::Reply;
use crate::status::Status;

/// SET_PARAMETER without a body sets nothing, so all that it does is to renew its session. No
/// parameter can be set.
pub fn set_parameter(context: &Context<'_>) -> Result<Plan, Fault>
    ensures value { result ≡ set_parameter (context_value context.now) }
    ensures conducted { IfOk result IsConducted }
{
    must(context.body.is_empty(), Status::ParameterNotUnderstood)?;
    Ok(Plan::Answer(Reply::plain(context.start)))
}
