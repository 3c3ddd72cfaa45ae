//! What comes of a message.

/// What came of a message that was put into an outlet.
#[derive(Clone, Copy, PartialEq, Eq)]
pub enum Put {
    /// It was written whole.
    Sent,
    /// What of it wasn't written waits.
    Kept,
    /// There is no room for it, or the connection takes no more frames. Nothing of it is written or
    /// waits.
    Dropped,
    /// The connection is closed.
    Closed,
}
