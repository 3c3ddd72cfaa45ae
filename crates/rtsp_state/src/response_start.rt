//! What each response shows first.

ghost use Rattle.std.specs.Prelude.{◌≡◌};
ghost use Rattle.rtsp_state.specs.Response.{without_session};

/// What each response shows first: the request's number, and its session.
#[derive(Clone, Copy)]
pub struct ResponseStart {
    pub cseq: u32,
    /// The id of the living session that is shown.
    pub session: Option<u128>,
}

impl ResponseStart {
    /// The same of a session that has ended.
    pub fn without_session(self) -> ResponseStart
        ensures { result ≡ without_session self }
    {
        ResponseStart {
            cseq: self.cseq,
            session: None,
        }
    }
}
