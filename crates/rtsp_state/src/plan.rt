//! What is done about a request.

use crate::reply::Reply;
use crate::setup_plan::SetupPlan;
use crate::step_plan::StepPlan;

/// What is done about a request.
#[derive(Drop)]
pub enum Plan {
    /// It is answered at once.
    Answer(Reply),
    /// A step is to be made.
    Step(StepPlan),
    /// A track is to be set up.
    Admit(SetupPlan),
}
