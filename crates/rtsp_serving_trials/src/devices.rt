//! What is lent to a server in these tests: words and plays that can be had, or never, and a clock.

use rtsp_engine::{Clock, Plays, Words, WordsFault};
use rtsp_record::Phase;
use std::alloc::{AllocError, Global};

/// Ids and SSRCs count the streams for which words are drawn, from 1 on.
#[derive(Drop)]
pub(crate) struct Drawing {
    pub(crate) works: bool,
    pub(crate) failures: u64,
    pub(crate) streams: u32,
}

impl Words for Drawing {
    ghost use Rattle.std.specs.Prelude.{⊤};

    ghost calls = { record { ids = λ b word c. ⊤; ssrcs = λ b word c. ⊤; seqs = λ b word c. ⊤; rtptimes = λ b word c. ⊤; fails = λ b c. ⊤; failures = λ b. b.failures } };

    fn id(&mut self) -> Result<u128, WordsFault> {
        Ok(u128::from(self.streams))
    }

    fn ssrc(&mut self) -> Result<u32, WordsFault> {
        Ok(self.streams)
    }

    fn seq(&mut self) -> Result<u16, WordsFault> {
        Ok(2)
    }

    // It is the last that is drawn for a stream.
    fn rtptime(&mut self) -> Result<u32, WordsFault> {
        if self.works {
            self.streams = self.streams.wrapping_add(1);
            return Ok(3);
        }
        self.failures = self.failures.saturating_add(1);
        Err(WordsFault)
    }
}

/// A second passes between any two readings.
#[derive(Drop)]
pub(crate) struct Ticking {
    pub(crate) moment: u64,
}

impl Clock for Ticking {
    ghost use Rattle.std.specs.Prelude.{⊤};

    ghost tells = { λ b moment c. ⊤ };

    fn now(&mut self) -> u64 {
        let now = self.moment;
        self.moment = now.saturating_add(1_000);
        now
    }
}

/// The number of the PLAY noted last, and what came of it: the phase that it began, if any.
#[derive(Drop)]
pub(crate) struct Noting {
    pub(crate) works: bool,
    pub(crate) noted: Option<u32>,
    pub(crate) settled: Option<Option<Phase>>,
}

impl Plays for Noting {
    ghost use Rattle.std.specs.Prelude.{⊤};

    ghost calls = { record { notes = λ b session cseq uri c. ⊤; lacks = λ b c. ⊤; settles = λ b begun c. ⊤ } };

    fn note(
        &mut self,
        _alloc: Global,
        _session: u64,
        cseq: u32,
        _uri: &[u8],
    ) -> Result<(), AllocError> {
        if !self.works {
            return Err(AllocError);
        }
        self.noted = Some(cseq);
        Ok(())
    }

    fn settle(&mut self, begun: Option<Phase>) {
        self.settled = Some(begun);
    }
}
