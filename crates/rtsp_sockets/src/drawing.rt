//! Words of a source of bytes, drawn one by one.

ghost use Rattle.rtsp_sockets.specs.SourceWords.{calls};

use crate::words::SourceWords;
use rtsp_traits::{Words, WordsFault};
use std::io::Read;

// A word is bytes that the source gave, each of them given once and in order.
impl<S: Read> Words for SourceWords<S> {
    ghost calls = { calls S.remaining };

    fn id(&mut self) -> Result<u128, WordsFault> {
        Ok(u128::from_ne_bytes(self.take()?))
    }

    fn ssrc(&mut self) -> Result<u32, WordsFault> {
        Ok(u32::from_ne_bytes(self.take()?))
    }

    fn seq(&mut self) -> Result<u16, WordsFault> {
        Ok(u16::from_ne_bytes(self.take()?))
    }

    fn rtptime(&mut self) -> Result<u32, WordsFault> {
        Ok(u32::from_ne_bytes(self.take()?))
    }
}
