//! What a living session is searched by.

/// What a living session is searched by.
#[derive(Clone, Copy)]
pub(crate) enum Search {
    /// A number that is not below this one.
    From(u64),
    /// An expiry at this moment or before, in milliseconds.
    Expired(u64),
    /// Channels or a binding of this connection.
    OnConn(u64),
    /// A SETUP that is under way.
    Unsettled,
}
