//! Who is told of requests that aren't let through, and knows whose sessions and presentations are.

use rtsp_credentials::Refusal;
use rtsp_grammar::Request;
use std::alloc::AllocError;

/// The header by which a request names its session.
#[derive(Clone, Copy, Debug, PartialEq, Eq)]
pub enum NamedBy {
    Session,
    PipelinedRequests,
}

/// What a request names that isn't there for its user.
#[derive(Clone, Copy, Debug, PartialEq, Eq)]
pub enum Foreign {
    /// A session of another user.
    Session(NamedBy),
    /// A presentation that is there for others alone.
    Presentation,
}

/// Who is told of each request that isn't let through at a gate, before it is answered. What is told
/// changes no byte of an answer.
pub trait Porter {
    fn refused(&self, refusal: Refusal, request: &Request);

    /// What a request of this user names that isn't there for him, if it names such. Who asks for a session
    /// isn't forgotten until the request is answered.
    fn of_another(&self, request: &Request, user: &[u8]) -> Result<Option<Foreign>, AllocError>;
}
