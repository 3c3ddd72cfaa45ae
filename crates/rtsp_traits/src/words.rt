//! Where the ids of sessions and the words of streams come from.

ghost use Rattle.std.specs.Prelude.{IfOk, OnErr};
ghost use Rattle.rtsp_traits.specs.Devices.{WordCalls, Gave, Lacked};

use thiserror::Error;

/// A word that can't be had.
#[derive(Clone, Copy, Debug, PartialEq, Eq, Error)]
#[error("no random word can be had")]
pub struct WordsFault;

/// A source of words. Its failures are counted.
pub trait Words {
    /// What each call gives and does, and how many have failed, up to the greatest `u64`.
    ghost calls: { WordCalls Self };

    /// The id of a session (RFC 7826 section 4.3).
    fn id(&mut self) -> Result<u128, WordsFault>
        ensures ok { IfOk result (λ word. Gave calls calls.ids word self.old self.new) }
        ensures err { OnErr result (Lacked calls self.old self.new) };

    /// The SSRC of a stream (RFC 3550 section 5.1).
    fn ssrc(&mut self) -> Result<u32, WordsFault>
        ensures ok { IfOk result (λ word. Gave calls calls.ssrcs word self.old self.new) }
        ensures err { OnErr result (Lacked calls self.old self.new) };

    /// The sequence number of a stream's first packet.
    fn seq(&mut self) -> Result<u16, WordsFault>
        ensures ok { IfOk result (λ word. Gave calls calls.seqs word self.old self.new) }
        ensures err { OnErr result (Lacked calls self.old self.new) };

    /// The timestamp of a stream's first packet.
    fn rtptime(&mut self) -> Result<u32, WordsFault>
        ensures ok { IfOk result (λ word. Gave calls calls.rtptimes word self.old self.new) }
        ensures err { OnErr result (Lacked calls self.old self.new) };
}
