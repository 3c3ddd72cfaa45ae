//! The head of a message.

ghost use Rattle.std.specs.Prelude.{◌≡◌, ◌≤◌, List, ℕ, IfOk};
ghost use Rattle.rtsp_grammar.specs.declared.fault.MessageFault.TheVariants.{OutOfMemory};
ghost use Rattle.rtsp_text.specs.Results.{Gives};
ghost use Rattle.rtsp_grammar.specs.HeadAt.{HoldsHead};
ghost use Rattle.rtsp_grammar.specs.Reading.{head_of};

use crate::content_length::body_length;
use crate::fault::MessageFault;
use crate::head_at::HeadText;
use crate::header::Headers;
use crate::header_line::headers_of;
use crate::message::{Item, Request, Response};
use crate::start_line::{StartLine, start_of};
use rtsp_text::Text;
use std::alloc::Global;

/// A message without its body.
#[derive(Drop)]
pub struct Head {
    pub start: StartLine,
    pub headers: Headers,
}

impl Head {
    ghost use Rattle.rtsp_grammar.specs.Item.{message_of};

    /// The whole message. Whether the body is as long as the headers say is not looked at.
    pub fn with_body(self, body: Text) -> Item
        ensures { result ≡ message_of self.start self.headers body }
    {
        let Head { start, headers } = self;
        match start {
            StartLine::Request {
                method,
                uri,
                version,
            } => Item::Request(Request {
                method,
                uri,
                version,
                headers,
                body,
            }),
            StartLine::Status {
                version,
                status,
                reason,
            } => Item::Response(Response {
                version,
                status,
                reason,
                headers,
                body,
            }),
        }
    }
}

/// The head that lines spell, and the length of its body.
#[tactic(auto, unfolding(crate::specs::Reading::head_of))]
pub fn head_of(alloc: Global, text: HeadText<'_>) -> Result<(Head, usize), MessageFault>
    ensures reads { (lines : List (List ℕ)) → HoldsHead lines text.entry → Gives OutOfMemory result (head_of lines) }
    ensures small { IfOk result (λ found. found.1 ≤ 65536) }
{
    let start = start_of(alloc, text.first)?;
    let headers = headers_of(alloc, text.headers, text.count)?;
    let length = body_length(&headers)?;
    Ok((Head { start, headers }, length))
}
