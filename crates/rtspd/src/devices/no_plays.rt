//! Who learns of plays where none is sent.

use rtsp_engine::Plays;
use rtsp_record::Phase;
use std::alloc::{AllocError, Global};

/// In place of whoever learns of plays: nothing is kept of them.
#[derive(Drop)]
pub struct NoPlays;

impl Plays for NoPlays {
    ghost use Rattle.std.specs.Prelude.{⊤};

    ghost calls = { record { notes = λ b session cseq uri c. ⊤; lacks = λ b c. ⊥; settles = λ b begun c. ⊤ } };

    fn note(
        &mut self,
        _alloc: Global,
        _session: u64,
        _cseq: u32,
        _uri: &[u8],
    ) -> Result<(), AllocError> {
        Ok(())
    }

    fn settle(&mut self, _begun: Option<Phase>) {}
}
