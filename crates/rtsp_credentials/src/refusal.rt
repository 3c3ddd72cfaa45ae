//! Why a request isn't let through.

/// Why a request isn't let through.
#[derive(Clone, Copy, Debug, PartialEq, Eq)]
pub enum Refusal {
    /// It has no Authorization header.
    Missing,
    /// It has more than one.
    Repeated,
    /// The header is of another scheme than Digest.
    OtherScheme,
    /// The parameters can't be read, or one that is needed isn't there.
    Malformed,
    /// They are of another URI than the request's.
    OtherUri,
    /// They are of another realm.
    OtherRealm,
    /// They are of another hash function.
    OtherAlgorithm,
    /// Their qop is another than the one that was asked for.
    OtherProtection,
    /// They are of another nonce than the connection's.
    Stale,
    /// Their nc isn't greater than the last.
    Replayed,
    /// There is no such user, or the response isn't the one that the user's password makes.
    Wrong,
    /// So many responses of the connection were wrong that no more are looked at.
    TooManyWrong,
}
