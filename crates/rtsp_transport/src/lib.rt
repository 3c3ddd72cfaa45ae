//! The header values of RTSP 2.0 for transports, sessions, numbers of requests and option tags.

#![tactic(auto)]

mod address;
mod channels;
mod fault;
mod laws;
mod names;
mod numbers;
mod picks;
mod session;
mod spec;
mod split;
mod tags;
mod transports;
mod write;

pub use address::port_of;
pub use channels::ChannelPair;
pub use fault::TextFault;
pub use laws::law_header_grammar;
pub use names::{is_named, is_udp};
pub use numbers::{read_cseq, read_startup};
pub use picks::Pick;
pub use rtsp_text::Text;
pub use session::{read_session, session_id, write_session_id};
pub use spec::{Parameter, Spec};
pub use split::first_part;
pub use tags::{is_known, read_tags};
pub use transports::{pick, read_transports};
pub use write::{Granted, write_ssrc, write_transport};
