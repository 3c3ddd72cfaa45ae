//! Who learns of the plays that are begun.

ghost use Rattle.std.specs.Prelude.{OnOk, OnErr};
ghost use Rattle.rtsp_traits.specs.Devices.{PlayCalls};

use rtsp_record::Phase;
use std::alloc::{AllocError, Global};

/// Who learns of the plays that are begun, as the part that sends their packets.
pub trait Plays {
    /// What each call does.
    ghost calls: { PlayCalls Self };

    /// A play is to be begun: that of this session, for the PLAY of this CSeq and URI. All memory
    /// that is needed for it is taken here. Where there is none, nothing is noted, and the play is
    /// not begun.
    fn note(&mut self, alloc: Global, session: u64, cseq: u32, uri: &[u8]) -> Result<(), AllocError>
        ensures ok { OnOk result (calls.notes self.old session cseq uri.now self.new) }
        ensures err { OnErr result (calls.lacks self.old self.new) };

    /// The play noted last was begun, and this is the phase that its PLAY made; or it was refused.
    /// Its answer is ready, but perhaps not yet written. The session may have left the phase by now.
    fn settle(&mut self, begun: Option<Phase>)
        ensures { calls.settles self.old begun self.new };
}
