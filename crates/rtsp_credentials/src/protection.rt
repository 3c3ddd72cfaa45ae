//! How credentials are protected against being used again.

/// Which qop a gate takes.
#[derive(Clone, Copy, Debug, PartialEq, Eq)]
pub enum Protection {
    /// `auth` alone, whose nc grows from request to request.
    Auth,
    /// None too, as RFC 2069 had it. Such credentials are good for the same request as often as it is
    /// sent on their connection.
    AuthOrNone,
}
