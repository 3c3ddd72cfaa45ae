//! Why a configuration is refused.

ghost use Rattle.std.specs.Prelude.{◌≡◌};
ghost use Rattle.rtsp_content.specs.Fault.{must};
ghost use Rattle.rtsp_content.specs.declared.fault.TableFault.TheVariants.{OutOfMemory};

use std::alloc::{AllocError, AllocFailed};
use thiserror::Error;

/// Why a configuration is refused: the first fault in the order in which its keys are checked.
#[derive(Clone, Copy, Debug, PartialEq, Eq, Error)]
pub enum TableFault {
    /// The bytes are not a TOML document.
    #[error("not a TOML text")]
    NotToml,

    /// A key without a default is missing.
    #[error("a key is missing")]
    Missing,

    /// A value is of the wrong type, of the wrong form or outside its limits.
    #[error("a value is of the wrong type or outside its limits")]
    BadValue,

    /// A presentation has the name of one before it, or a track that of one before it in its
    /// presentation.
    #[error("a name is used twice")]
    Duplicate,

    /// A key is another that stays as long as a server runs.
    #[error("a key is another that stays as long as the server runs")]
    Fixed,

    /// A server has come to have as many places of presentations as it may.
    #[error("the server has no place left for another presentation: start it anew")]
    TooMany,

    /// An allocation was refused. The configuration may have a fault or none.
    #[error("out of memory")]
    OutOfMemory,
}

impl From<AllocError> for TableFault {
    ghost from_gives = { λ _ e. e ≡ OutOfMemory };

    fn from(_e: AllocError) -> TableFault {
        TableFault::OutOfMemory
    }
}

impl<T: Drop> From<AllocFailed<T>> for TableFault {
    ghost from_gives = { λ _ e. e ≡ OutOfMemory };

    fn from(_e: AllocFailed<T>) -> TableFault {
        TableFault::OutOfMemory
    }
}

// The fault, unless a rule holds.
pub(crate) fn must(holds: bool, fault: TableFault) -> Result<(), TableFault>
    ensures { result ≡ must holds fault }
{
    if holds { Ok(()) } else { Err(fault) }
}
