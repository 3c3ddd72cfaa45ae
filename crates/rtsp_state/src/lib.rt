//! The conversation of RTSP 2.0's play profile (RFC 7826) as pure functions: what a request is
//! refused for, what it asks of the book of sessions, and how it is answered.

#![tactic(auto)]

mod about;
mod aim;
mod context;
mod describe;
mod end_of_stream;
mod fault;
mod get_parameter;
mod headers;
mod laws;
mod media_base;
mod media_uri;
mod method;
mod options;
mod order_of_refusals;
mod parameters;
mod pause;
mod plain_uri;
mod plan;
mod play;
mod refusals;
mod renewals;
mod reply;
mod request;
mod response_start;
mod room;
mod rtp_info;
mod screening;
mod set_parameter;
mod setup;
mod setup_plan;
mod state_table;
mod status;
mod status_line;
mod step_plan;
mod teardown;
mod timing;
mod uri;
mod values;
mod words;

pub use about::{nowhere, presentation_asked};
pub use end_of_stream::notify;
pub use fault::Fault;
pub use laws::{
    law_allowed_is_valid, law_answers_alike, law_answers_in_order, law_answers_refusal,
    law_asks_alike, law_decides_by_place, law_is_gone, law_names_nothing, law_offers_rest,
    law_plays_on, law_reads_alike, law_reads_once, law_renews_alike, law_renews_in_steps,
    law_shows_allowed, law_shows_session,
};
pub use media_base::MediaBase;
pub use media_uri::MediaUri;
pub use order_of_refusals::cseq_of;
pub use plan::Plan;
pub use renewals::{renewal, renewal_refused};
pub use reply::Reply;
pub use request::{Name, ParsedRequest, Screen, Target};
pub use response_start::ResponseStart;
pub use room::Room;
pub use rtp_info::{RtpInfo, StreamInfo};
pub use screening::screen;
pub use setup_plan::{Delivery, Drawn, SessionKey, SetupPlan, SetupSession};
pub use state_table::decide;
pub use status::Status;
pub use step_plan::{Details, StepPlan, moved};
pub use timing::Timing;
