//! Words that are counted, for a program whose answers are the same in each run.

ghost use Rattle.rtspd.specs.CountedWords.{calls, Counts};

use rtsp_engine::{Words, WordsFault};

/// Ids and SSRCs, each counted from 1. Sequence numbers and timestamps begin at 0.
#[derive(Drop)]
pub struct CountedWords {
    // How many of each were given.
    ids: u128,
    ssrcs: u32,
    failed: u64,
}

impl CountedWords {
    ghost use Rattle.std.specs.Prelude.{◌≡◌};

    /// Words of which none was given.
    pub fn new() -> CountedWords
        ensures { result ≡ record { ids = 0; ssrcs = 0; failed = 0 } }
    {
        CountedWords {
            ids: 0,
            ssrcs: 0,
            failed: 0,
        }
    }

    fn fail(&mut self) -> WordsFault
        ensures { Counts self.old self.new }
    {
        self.failed = self.failed.saturating_add(1);
        WordsFault
    }
}

impl Words for CountedWords {
    ghost calls = { calls };

    fn id(&mut self) -> Result<u128, WordsFault> {
        if self.ids == u128::MAX {
            return Err(self.fail());
        }
        self.ids += 1;
        Ok(self.ids)
    }

    fn ssrc(&mut self) -> Result<u32, WordsFault> {
        if self.ssrcs == u32::MAX {
            return Err(self.fail());
        }
        self.ssrcs += 1;
        Ok(self.ssrcs)
    }

    fn seq(&mut self) -> Result<u16, WordsFault> {
        Ok(0)
    }

    fn rtptime(&mut self) -> Result<u32, WordsFault> {
        Ok(0)
    }
}
