//! Why a range is refused.

use thiserror::Error;

/// Why a Range header is refused.
#[derive(Clone, Copy, Debug, PartialEq, Eq, Error)]
pub enum RangeFault {
    /// Another unit than `npt`: header field not valid for resource (456).
    #[error("the range is not in normal play time")]
    NotNpt,
    /// The text is not a range (400).
    #[error("malformed range")]
    BadNpt,
    /// The range names the present moment, `now`, which stored media don't have (457).
    #[error("the range names the present moment")]
    Now,
}

/// The range is outside the media, or its stop is not above its start (457).
#[derive(Clone, Copy, Debug, PartialEq, Eq, Error)]
#[error("the range is out of the media")]
pub struct OutOfMedia;
