//! The URI of a presentation.

ghost use Rattle.std.specs.Prelude.{◌≡◌, IfOk};
ghost use Rattle.rtsp_state.specs.Notify.{media_uri};

use crate::media_base::MediaBase;
use crate::uri::read_uri;
use rtsp_grammar::Text;
use std::alloc::{AllocError, Global};

/// The URI of a presentation, as a request has it, and what the names of its tracks are joined to:
/// the same without query and fragment, with one slash at its end.
#[derive(Drop)]
pub struct MediaUri {
    pub text: Text,
    pub base: MediaBase<'static>,
}

impl MediaUri {
    /// Reads a URI of the scheme `rtsp`, or gives `None` where the text is none.
    pub fn read(alloc: Global, text: &[u8]) -> Result<Option<MediaUri>, AllocError>
        ensures { IfOk result (λ found. found ≡ media_uri text.now) }
    {
        let Some(url) = read_uri(alloc, text)? else {
            return Ok(None);
        };
        let text = Text::from_slice(alloc, text)?;
        let base = MediaBase::new(url);
        Ok(Some(MediaUri { text, base }))
    }
}
