//! The channels that a client asks for.

ghost use Rattle.std.specs.Prelude.{◌≡◌, ◌≤◌, ◌%◌};
ghost use Rattle.rtsp_transport.specs.Channels.{pair_at, pair_of};

use rtsp_text::{number_of, split_once};
use std::marker::Model;

// The most digits of a channel.
const CHANNEL_DIGITS: usize = 3;

/// Two channels of an interleaved connection: an even one of at most 254 for RTP, and the next for
/// RTCP. A contract sees it as the channel of RTP.
#[derive(Clone, Copy, PartialEq, Eq)]
pub struct ChannelPair {
    rtp: u8,
}

impl Model for ChannelPair {
    ghost use Rattle.std.specs.Prelude.{ℕ, ◌≡◌, ◌≤◌, ◌%◌};

    ghost Value = { ℕ };

    ghost view = { λ p. p.rtp };

    ghost invariant = { λ p. (p.rtp % 2 ≡ 0) × (p.rtp ≤ 254) };

    ghost inverse = { λ n. record { rtp = n } };
}

impl ChannelPair {
    /// The pair that begins at a channel, where that is even and at most 254.
    pub fn new(rtp: u8) -> Option<ChannelPair>
        ensures { result ≡ pair_at rtp }
    {
        if rtp % 2 == 0 && rtp <= 254 {
            Some(ChannelPair { rtp })
        } else {
            None
        }
    }

    /// The channel of RTP. RTCP has the next.
    pub fn rtp(self) -> u8
        ensures value { result ≡ self }
        ensures even { result % 2 ≡ 0 }
        ensures few { result ≤ 254 }
    {
        self.rtp
    }

    // The pair of a text `k-(k+1)`, where there is one.
    #[tactic(auto, unfolding(crate::specs::Channels::pair_of))]
    pub(crate) fn read(text: &[u8]) -> Option<ChannelPair>
        ensures { result ≡ pair_of text.now }
    {
        let (first, second) = split_once(text, b'-')?;
        let first = number_of(first, CHANNEL_DIGITS)?;
        let second = number_of(second, CHANNEL_DIGITS)?;
        if first <= 254 && second == first + 1 {
            ChannelPair::new(first as u8)
        } else {
            None
        }
    }
}
