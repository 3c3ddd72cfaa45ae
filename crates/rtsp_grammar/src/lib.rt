//! Messages and interleaved frames of RTSP 2.0, read and written exactly by their grammar.

#![tactic(auto)]

mod content_length;
mod fault;
mod feed;
mod folds;
mod frame;
mod head;
mod head_at;
mod header;
mod header_line;
mod laws;
mod line;
mod message;
mod method;
mod number;
mod read;
mod scan;
mod start_line;
mod version;
mod words;
mod write;
mod written_len;

pub use fault::MessageFault;
pub use feed::Feed;
pub use header::{Header, Headers, HeadersBuilder, Repeated};
pub use laws::{
    law_however_cut, law_keeps_items, law_no_answer, law_one_answer, law_opens_out, law_reads_back,
    law_reads_rules, law_stays,
};
pub use message::{Frame, Item, Request, Response};
pub use method::Method;
pub use read::read_item;
pub use rtsp_text::Text;
pub use version::Version;
pub use write::{write_frame, write_request, write_response};
