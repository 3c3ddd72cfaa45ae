//! Who is told of answers.

use crate::reading::{id_of, session_of};
use rtsp_grammar::Method;
use rtsp_record::{Life, Setup};

/// A request that was answered.
#[derive(Clone, Copy)]
pub struct Told<'a> {
    pub method: &'a Method,
    /// As the player wrote it.
    pub uri: &'a [u8],
    /// Of the response; 0 where the response has none, as the answer to a request that needs none.
    pub status: u16,
    /// As it will be written; empty where there is none.
    pub response: &'a [u8],
    /// The session that it has ended, if it has ended one.
    pub ended: Option<Life>,
    /// The track that it has set up, if it has set one up.
    pub set_up: Option<Setup>,
}

impl Told<'_> {
    /// The first eight digits of the session that the response names: that in which the request was
    /// asked, or which it has opened.
    pub fn session(&self) -> Option<u32> {
        session_of(self.response)
    }

    /// The id of that session. Whoever has it may act on the session.
    pub fn id(&self) -> Option<u128> {
        id_of(self.response)
    }
}

/// Who is told of each request that was answered. Several lanes may tell at once.
pub trait Witness {
    /// A request of this method is about to be answered.
    fn asked(&self, method: &Method);

    /// A frame came on this channel.
    fn heard(&self, channel: u8);

    /// A request was answered. The answer isn't written yet.
    fn answered(&self, told: &Told<'_>);
}
