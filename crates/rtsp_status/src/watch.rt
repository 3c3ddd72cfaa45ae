//! What the system tells of descriptors.

use mio::unix::SourceFd;
use mio::{Events, Interest, Poll, Token};
use std::alloc::Global;
use std::io;
use std::net::Net;
use std::os::fd::RawFd;
use std::time::Duration;

// The most events that are taken at once.
pub(crate) const EVENTS: usize = 64;

// Descriptors that are watched, and what was told of them last.
#[derive(Drop)]
pub(crate) struct Watch {
    poll: Poll,
    events: Events<Global>,
}

impl Watch {
    pub(crate) fn new<R: Net>(rt: &R, alloc: Global) -> io::Result<Watch> {
        let poll = Poll::new(rt)?;
        Ok(Watch {
            poll,
            events: Events::with_capacity(alloc, EVENTS)?,
        })
    }

    // Watches a descriptor, of which is told under this token until it is closed.
    pub(crate) fn add(&self, fd: RawFd, token: Token, interest: Interest) -> io::Result<()> {
        self.poll
            .registry()
            .register(&mut SourceFd(&fd), token, interest)
    }

    // Waits until something is told, at most for so long.
    pub(crate) fn wait(&mut self, timeout: Duration) {
        let _ = self.poll.poll(&mut self.events, Some(timeout));
    }

    // Whether nothing was told.
    pub(crate) fn is_quiet(&self) -> bool {
        self.events.is_empty()
    }

    // The token of the event of this place.
    pub(crate) fn token_at(&self, place: usize) -> Option<Token> {
        let event = self.events.iter().nth(place)?;
        Some(event.token())
    }
}
