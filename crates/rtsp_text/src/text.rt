//! A text of bytes, which contracts see as a list.

ghost use Rattle.std.specs.Prelude.{◌≡◌, IfOk};

use std::alloc::{AllocError, Global};
use std::marker::Model;

#[derive(Drop)]
enum Bytes {
    Owned(Vec<u8>),
    Fixed(&'static [u8]),
}

/// A text: bytes of its own, or bytes of the program, which take no memory.
pub struct Text {
    bytes: Bytes,
}

// Written out, so that dropping a text is one call.
impl Drop for Text {
    fn drop(self) {
        let Self { bytes: _bytes } = self;
    }
}

impl Model for Text {
    ghost use Rattle.std.specs.Prelude.{List, ℕ};
    ghost use Rattle.rtsp_text.specs.Text.{bytes_in};

    ghost Value = { List ℕ };

    ghost view = { λ t. bytes_in t.bytes };
}

impl Text {
    /// A copy of the bytes. An empty one takes no memory.
    pub fn from_slice(alloc: Global, bytes: &[u8]) -> Result<Text, AllocError>
        ensures { IfOk result (λ t. t ≡ bytes.now) }
    {
        if bytes.is_empty() {
            return Ok(Text::fixed(b""));
        }
        Ok(Text {
            bytes: Bytes::Owned(Vec::from_slice(alloc, bytes)?),
        })
    }

    /// The bytes themselves, which takes no memory.
    pub fn from_vec(bytes: Vec<u8>) -> Text
        ensures { result ≡ bytes.items }
    {
        Text {
            bytes: Bytes::Owned(bytes),
        }
    }

    /// A text of the program, which takes no memory.
    pub fn fixed(bytes: &'static [u8]) -> Text
        ensures { result ≡ bytes.now }
    {
        Text {
            bytes: Bytes::Fixed(bytes),
        }
    }

    /// The bytes of the text.
    pub fn as_bytes(&self) -> &[u8]
        ensures { result.now ≡ self.now }
    {
        match &self.bytes {
            Bytes::Owned(bytes) => bytes.as_slice(),
            Bytes::Fixed(bytes) => bytes,
        }
    }
}
