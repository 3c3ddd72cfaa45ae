//! Plays are noted, and then begun or refused.

ghost use Rattle.rtsp_pacing.specs.Noted.{calls};

use crate::noted::{BegunPlay, NotedPlay, NotedPlays};
use rtsp_record::Phase;
use rtsp_state::MediaUri;
use rtsp_traits::Plays;
use std::alloc::{AllocError, Global};

impl Plays for NotedPlays {
    ghost calls = { calls };

    fn note(
        &mut self,
        alloc: Global,
        session: u64,
        cseq: u32,
        uri: &[u8],
    ) -> Result<(), AllocError> {
        let Some(uri) = MediaUri::read(alloc, uri)? else {
            return Err(AllocError);
        };
        self.begun.reserve(1)?;
        self.noted = Some(NotedPlay { session, cseq, uri });
        Ok(())
    }

    fn settle(&mut self, begun: Option<Phase>) {
        if let Some(noted) = self.noted.take()
            && let Some(phase) = begun
        {
            let _ = self.begun.push(BegunPlay { noted, phase });
        }
    }
}
