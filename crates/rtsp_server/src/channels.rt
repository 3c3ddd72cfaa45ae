//! Channels of a connection.

// Half of the channels there may be.
const HALF: u8 = 128;

/// A set of channels of a connection (RFC 7826 section 14).
#[derive(Clone, Copy, PartialEq, Eq)]
pub(crate) struct Channels {
    // A bit for each.
    lower: u128,
    upper: u128,
}

impl Channels {
    pub(crate) const fn none() -> Channels {
        Channels { lower: 0, upper: 0 }
    }

    pub(crate) fn is_empty(self) -> bool {
        self.lower == 0 && self.upper == 0
    }

    pub(crate) fn has(self, channel: u8) -> bool {
        let half = if channel < HALF {
            self.lower
        } else {
            self.upper
        };
        half >> u32::from(channel % HALF) & 1 == 1
    }

    /// The set with one channel more.
    pub(crate) fn with(self, channel: u8) -> Channels {
        let bit = 1 << u32::from(channel % HALF);
        if channel < HALF {
            Channels {
                lower: self.lower | bit,
                ..self
            }
        } else {
            Channels {
                upper: self.upper | bit,
                ..self
            }
        }
    }

    /// Those that aren't in the other set.
    pub(crate) fn without(self, others: Channels) -> Channels {
        Channels {
            lower: self.lower & !others.lower,
            upper: self.upper & !others.upper,
        }
    }
}
