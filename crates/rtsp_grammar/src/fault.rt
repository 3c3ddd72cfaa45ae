//! Why an item could not be read.

ghost use Rattle.std.specs.Prelude.{◌≡◌};
ghost use Rattle.rtsp_grammar.specs.declared.fault.MessageFault.TheVariants.{OutOfMemory};

use std::alloc::{AllocError, AllocFailed};
use thiserror::Error;

/// The first rule of the grammar that a text breaks, or that memory ran out.
#[derive(Clone, Copy, Debug, PartialEq, Eq, Error)]
pub enum MessageFault {
    /// A line has a CR or an LF alone, or the first line is neither a request line nor a
    /// status line.
    #[error("bad line")]
    BadLine,
    /// A line is no header, or the first header line continues none.
    #[error("bad header")]
    BadHeader,
    /// The head has over 8,192 bytes, empty lines before it included, or over 64 headers.
    #[error("head too long")]
    HeadTooLong,
    /// The URI has over 1,024 bytes.
    #[error("URI too long")]
    UriTooLong,
    /// A body of over 65,536 bytes is announced.
    #[error("body too long")]
    BodyTooLong,
    /// Content-Length isn't one number of 1 to 10 digits.
    #[error("bad length")]
    BadLength,
    /// An allocation was refused.
    #[error("out of memory")]
    OutOfMemory,
}

impl From<AllocError> for MessageFault {
    ghost from_gives = { λ _ e. e ≡ OutOfMemory };

    fn from(_e: AllocError) -> MessageFault {
        MessageFault::OutOfMemory
    }
}

impl<T: Drop> From<AllocFailed<T>> for MessageFault {
    ghost from_gives = { λ _ e. e ≡ OutOfMemory };

    fn from(_e: AllocFailed<T>) -> MessageFault {
        MessageFault::OutOfMemory
    }
}
