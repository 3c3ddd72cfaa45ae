//! The plays of a connection that are to be handed over to the pacers.

ghost use Rattle.std.specs.Prelude.{◌≡◌, ◌<◌, ◌↔◌, [], None, IsSome, IsTrue, vec_len, vec_capacity};

use crate::bell::Bells;
use rtsp_record::Phase;
use rtsp_state::MediaUri;
use std::alloc::Global;
use std::sync::Wait;

// A play of a session, and the PLAY that asked for it.
#[derive(Drop)]
pub(crate) struct NotedPlay {
    pub(crate) session: u64,
    pub(crate) cseq: u32,
    pub(crate) uri: MediaUri,
}

// A play that was begun, and the phase of its session that its PLAY made.
#[derive(Drop)]
pub(crate) struct BegunPlay {
    pub(crate) noted: NotedPlay,
    pub(crate) phase: Phase,
}

// A play that a pacer is to send, and the number of the connection that asked for it. The connection
// may be closed while the play goes on, so nothing of it is held here.
#[derive(Drop)]
pub(crate) struct NewPlay {
    pub(crate) begun: BegunPlay,
    pub(crate) conn: u64,
}

/// The plays of a connection that were begun, and are not yet handed over to the pacers.
pub struct NotedPlays {
    // The one that is not yet settled. There is room for it among those that were begun.
    pub(crate) noted: Option<NotedPlay>,
    pub(crate) begun: Vec<BegunPlay>,
    // The session of the play that was handed over last, until it is asked for.
    last: Option<u64>,
    ghost room: { IsSome noted → vec_len begun < vec_capacity begun },
}

// Written out, so that whoever lets go of them makes one call, and not one for each of their parts.
impl Drop for NotedPlays {
    fn drop(self) {
        let Self {
            noted: _noted,
            begun: _begun,
            last: _,
        } = self;
    }
}

impl NotedPlays {
    /// No play is noted. It takes no memory.
    pub fn new(alloc: Global) -> NotedPlays
        ensures noted { result.noted ≡ None }
        ensures begun { result.begun.items ≡ [] }
    {
        NotedPlays {
            noted: None,
            begun: Vec::new(alloc),
            last: None,
        }
    }

    /// Whether no play waits to be handed over.
    pub fn is_empty(&self) -> bool
        ensures { IsTrue result ↔ (self.now.begun.items ≡ []) }
    {
        self.begun.is_empty()
    }

    /// Hands the plays that were begun over to the pacers of their sessions. It is called once the answers
    /// to their PLAYs are put into the outlet of the connection, whose number is `conn`. Whether none of
    /// these pacers has a crowd of plays to hear of: else the connection isn't to be read on now. Where
    /// no more plays may wait for a pacer, it waits here until that has heard of one.
    pub fn hand_over<R: Wait>(&mut self, rt: &R, bells: &Bells, conn: u64) -> bool
        ensures begun { self.new.begun.items ≡ [] }
        ensures noted { self.new.noted ≡ self.old.noted }
    {
        let mut is_heard = true;
        // The play that was begun first is handed over first.
        self.begun.reverse();
        while let Some(begun) = self.begun.pop() {
            let session = begun.noted.session;
            self.last = Some(session);
            if let Some(bell) = bells.of(session) {
                bell.ring(rt, NewPlay { begun, conn });
                is_heard = is_heard && !bell.is_crowded();
            }
        }
        is_heard
    }

    /// The session of the play that was handed over last, if one was since this was asked.
    pub fn take_last(&mut self) -> Option<u64>
        ensures last { result ≡ self.old.last }
        ensures kept { self.new ≡ record self.old { last = None } }
    {
        self.last.take()
    }
}
