//! Whether a session is renewed whose player refuses packets.

ghost use Rattle.std.specs.Prelude.{◌≡◌, ◌≢◌, ◌+◌, ◌↔◌, min, Some, None, IsTrue, IsSomeAnd};

// How often, in milliseconds, it is looked whether a session was renewed whose player's ports refuse
// packets.
const LOOK_EVERY: u64 = 1_000;

// The end of a session as it was seen while packets were refused, and when to look again.
#[derive(Clone, Copy)]
pub(crate) struct Renewal {
    end: Option<u64>,
    pub(crate) look_at: u64,
}

impl Renewal {
    pub(crate) fn unseen() -> Renewal
        ensures { result ≡ record { end = None; look_at = 0 } }
    {
        Renewal {
            end: None,
            look_at: 0,
        }
    }

    // The end of the session is seen at a moment. Whether it was renewed since it was seen last.
    pub(crate) fn see(&mut self, end: u64, moment: u64) -> bool
        ensures renewed { IsTrue result ↔ IsSomeAnd self.old.end (λ seen. seen ≢ end) }
        ensures seen { self.new ≡ record { end = Some end; look_at = min (moment + LOOK_EVERY) u64.MAX } }
    {
        let is_renewed = match self.end {
            Some(seen) => seen != end,
            None => false,
        };
        self.end = Some(end);
        self.look_at = moment.saturating_add(LOOK_EVERY);
        is_renewed
    }
}
