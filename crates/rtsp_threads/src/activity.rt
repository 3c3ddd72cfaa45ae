//! When a connection was heard of.

ghost use Rattle.std.specs.Prelude.{◌≡◌, ◌↔◌, IsTrue, length};
ghost use Rattle.rtsp_threads.specs.Silence.{accepted, Heard, IsOverdue};

use crate::limits::{MESSAGE_LIMIT, SILENCE_LIMIT};
use rtsp_engine::Connection;

/// When a connection was heard of, and whether a SETUP may have opened a session on it. Moments are
/// milliseconds.
#[derive(Clone, Copy)]
pub struct Activity {
    // Whether a SETUP may have opened a session on it.
    has_setup: bool,
    // When it was last heard of, and since when it has owed the rest of a message.
    heard: u64,
    begun: Option<u64>,
}

impl Activity {
    /// That of a connection that was accepted at this moment.
    pub fn new(now: u64) -> Activity
        ensures { result ≡ accepted now }
    {
        Activity {
            has_setup: false,
            heard: now,
            begun: None,
        }
    }

    /// A piece came, which made so many bytes with what was held, and was answered; this is held
    /// now. `has_setup` says whether a SETUP in it may have opened a session.
    pub fn note(&mut self, now: u64, all: usize, held: &Connection, has_setup: bool)
        ensures { Heard now all (length held.now) has_setup self.old self.new }
    {
        self.heard = now;
        self.has_setup = self.has_setup || has_setup;
        // Where some of the bytes have gone, an item was finished, and what is left is another one.
        if held.is_idle() {
            self.begun = None;
        } else if self.begun.is_none() || held.len() < all {
            self.begun = Some(now);
        }
    }

    /// Whether up to this moment the player was silent for too long, or owed the rest of a message for
    /// too long. Where it may have opened a session, it may be silent for `timeout`, for which a session
    /// lives without a request.
    pub fn is_overdue(&self, moment: u64, timeout: u64) -> bool
        ensures { IsTrue result ↔ IsOverdue moment timeout self.now }
    {
        let most = if self.has_setup {
            SILENCE_LIMIT.max(timeout)
        } else {
            SILENCE_LIMIT
        };
        let is_late = match self.begun {
            Some(begun) => moment.saturating_sub(begun) >= MESSAGE_LIMIT,
            None => false,
        };
        is_late || moment.saturating_sub(self.heard) >= most
    }
}
