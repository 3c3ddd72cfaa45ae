//! The URI of media, to which the names of tracks are joined.

ghost use Rattle.std.specs.Prelude.{◌≡◌, ◌++◌, IfOk};
ghost use Rattle.rtsp_state.specs.Values.{bare_text, with_slash};

use rtsp_grammar::Text;
use std::alloc::{AllocError, Global};
use std::borrow::CowSlice;
use std::marker::Model;
use url::{Position, Url};

/// The URI of media as it is written, without query and fragment and with one slash at its end: the
/// names of tracks are joined to it. A contract sees its bytes.
pub struct MediaBase<'a> {
    // Without query and fragment; it may lack the slash. A plain URI is lent by its request.
    bare: CowSlice<'a, u8>,
}

// Written out, so that whoever drops a `MediaBase` makes one call.
impl<'a> Drop for MediaBase<'a> {
    #[inline(always)]
    fn drop(self) {
        let Self { bare: _bare } = self;
    }
}

impl<'a> Model for MediaBase<'a> {
    ghost use Rattle.std.specs.Prelude.{List, ℕ};
    ghost use Rattle.std.specs.Cow.{cow_slice_items};
    ghost use Rattle.rtsp_state.specs.Values.{with_slash};

    ghost Value = { List ℕ };

    ghost view = { λ b. with_slash (cow_slice_items b.bare) };
}

impl<'a> MediaBase<'a> {
    /// What the tracks under a URL are joined to, which takes no memory.
    pub(crate) fn new(url: Url) -> MediaBase<'a>
        ensures { result ≡ with_slash (bare_text url) }
    {
        let len = url.slice(Position::BeforeScheme, Position::AfterPath).len();
        let mut bytes = String::from(url).into_bytes();
        bytes.truncate(len);
        MediaBase {
            bare: CowSlice::Owned(bytes),
        }
    }

    /// What the tracks under a plain URI are joined to.
    pub(crate) fn plain(text: &'a [u8]) -> MediaBase<'a>
        ensures { result ≡ with_slash text.now }
    {
        MediaBase {
            bare: CowSlice::Borrowed(text),
        }
    }

    /// A copy of the bytes.
    pub(crate) fn to_text(&self, alloc: Global) -> Result<Text, AllocError>
        ensures { IfOk result (λ text. text ≡ self.now) }
    {
        let (bytes, slash) = self.parts();
        let mut text = Vec::with_capacity(alloc, bytes.len().saturating_add(slash.len()))?;
        text.extend_from_slice(bytes)?;
        text.extend_from_slice(slash)?;
        Ok(Text::from_vec(text))
    }

    /// The bytes, in two parts: those of the URI, and the slash that they may lack.
    #[tactic(auto, unfolding(crate::specs::Values::with_slash))]
    pub fn parts(&self) -> (&[u8], &'static [u8])
        ensures { result.0.now ++ result.1.now ≡ self.now }
    {
        let bare = self.bare.as_slice();
        let slash: &'static [u8] = match bare {
            [.., b'/'] => b"",
            _ => b"/",
        };
        (bare, slash)
    }
}
