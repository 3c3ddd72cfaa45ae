//! OPTIONS (RFC 7826 section 13.1).

ghost use Rattle.std.specs.Prelude.{◌≡◌, IfOk};
ghost use Rattle.rtsp_state.specs.Conduct.{IsConducted};
ghost use Rattle.rtsp_state.specs.Context.{context_value};
ghost use Rattle.rtsp_state.specs.Options.{options};

use crate::context::Context;
use crate::fault::Fault;
use crate::plan::Plan;
use crate::reply::Reply;

/// OPTIONS is answered in each state.
pub fn options(context: &Context<'_>) -> Result<Plan, Fault>
    ensures value { result ≡ options (context_value context.now) }
    ensures conducted { IfOk result IsConducted }
{
    Ok(Plan::Answer(Reply::options(context.start)))
}
