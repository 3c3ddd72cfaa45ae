//! What is known of a port that refuses datagrams.

ghost use Rattle.std.specs.Prelude.{◌≡◌, ◌↔◌, ◌<◌, IsTrue};
ghost use Rattle.rtsp_pacing.specs.Refusals.{IsRefused, unrefused};

/// For how many milliseconds a player's port refuses all datagrams before it is sent no more.
pub const REFUSED_FOR: u64 = 5_000;

/// For how many milliseconds it is sent none then, unless the session is renewed.
pub const SPARED_FOR: u64 = 60_000;

// Whether a player's port refuses datagrams, as its system tells where nobody has it.
#[derive(Clone, Copy, PartialEq, Eq)]
pub(crate) struct Refusals {
    // Since when each datagram was refused, if any was.
    since: Option<u64>,
    // Until when none is sent.
    spared_until: u64,
}

impl Refusals {
    // None was refused.
    pub(crate) fn none() -> Refusals
        ensures { result ≡ unrefused }
    {
        Refusals {
            since: None,
            spared_until: 0,
        }
    }

    // Whether the port is sent none at this moment.
    pub(crate) fn is_spared(&self, now: u64) -> bool
        ensures { IsTrue result ↔ (now < self.now.spared_until) }
    {
        now < self.spared_until
    }

    // Until when it is sent none; in the past where it is sent to.
    pub(crate) fn spared_until(&self) -> u64
        ensures { result ≡ self.now.spared_until }
    {
        self.spared_until
    }

    // At this moment the system tells that the datagram before was refused.
    pub(crate) fn note_refused(&mut self, now: u64)
        ensures { IsRefused self.old now self.new }
    {
        let since = self.since.unwrap_or(now);
        if now.saturating_sub(since) < REFUSED_FOR {
            self.since = Some(since);
        } else {
            self.since = None;
            self.spared_until = now.saturating_add(SPARED_FOR);
        }
    }
}
