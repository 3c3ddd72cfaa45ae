//! Where a session is in its play.

ghost use Rattle.std.specs.Prelude.{◌≡◌, ◌<◌};
ghost use Rattle.rtsp_record.specs.Moments.{due, point, sent_before, sent_with_due};
ghost use Rattle.rtsp_record.specs.Rules.{is_ready, is_playing};
ghost use Rattle.rtsp_record.specs.Sums.{is_opening};

/// Where a session is in its play. `at`, `from` and `stop` are units of media, `stop` exclusive;
/// `sent` counts the units sent in earlier plays, modulo 2^32.
#[derive(Clone, Copy, PartialEq, Eq)]
pub enum Phase {
    /// It plays from `at` on when it is asked to.
    Ready {
        at: u32,
        sent: u32,
    },
    /// It has played from `from` since the moment `since`, in milliseconds, and plays on to `stop`.
    Playing {
        from: u32,
        stop: u32,
        sent: u32,
        since: u64,
    },
    /// It has played to the end of the range.
    Ended {
        at: u32,
        sent: u32,
    },
}

impl Phase {
    /// The phase of a session that has just been opened.
    pub const OPENING: Phase = Phase::Ready { at: 0, sent: 0 };

    /// Whether it is the opening phase.
    pub fn is_opening(&self) -> bool
        ensures { result ≡ is_opening self.now }
    {
        matches!(self, Phase::Ready { at: 0, sent: 0 })
    }

    /// Whether the session is Ready.
    pub fn is_ready(&self) -> bool
        ensures { result ≡ is_ready self.now }
    {
        matches!(self, Phase::Ready { .. })
    }

    /// Whether the session is Playing.
    pub fn is_playing(&self) -> bool
        ensures { result ≡ is_playing self.now }
    {
        matches!(self, Phase::Playing { .. })
    }

    /// How many units of the present play are due at a moment: one at once, and one more each
    /// `unit_ms`. Both are in milliseconds. A moment before the play counts as its beginning.
    pub fn due(&self, unit_ms: u32, moment: u64) -> u32
        requires { 0 < unit_ms }
        ensures { result ≡ due self.now unit_ms moment }
    {
        match *self {
            Phase::Playing {
                from,
                stop,
                since,
                ..
            } => {
                let length = stop.saturating_sub(from);
                let passed = moment.saturating_sub(since) / u64::from(unit_ms);
                if passed < u64::from(length) {
                    (passed + 1).min(u64::from(length)) as u32
                } else {
                    length
                }
            }
            Phase::Ready { .. } | Phase::Ended { .. } => 0,
        }
    }

    /// The unit where the next play begins: in a play the first one that is not due yet, else where
    /// the session is.
    pub fn point(&self, unit_ms: u32, moment: u64) -> u32
        requires { 0 < unit_ms }
        ensures { result ≡ point self.now unit_ms moment }
    {
        match *self {
            Phase::Ready { at, .. } | Phase::Ended { at, .. } => at,
            Phase::Playing {
                from,
                stop: _stop,
                ..
            } => from + self.due(unit_ms, moment),
        }
    }

    // The units sent in earlier plays, modulo 2^32.
    fn sent_before(&self) -> u32
        ensures { result ≡ sent_before self.now }
    {
        match *self {
            Phase::Ready { sent, .. } | Phase::Playing { sent, .. } | Phase::Ended { sent, .. } => {
                sent
            }
        }
    }

    /// The units sent in all plays, with what is due of the present one, modulo 2^32.
    pub fn sent_with_due(&self, unit_ms: u32, moment: u64) -> u32
        requires { 0 < unit_ms }
        ensures { result ≡ sent_with_due self.now unit_ms moment }
    {
        self.sent_before().wrapping_add(self.due(unit_ms, moment))
    }
}
