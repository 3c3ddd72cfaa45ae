//! The hash functions of Digest.

/// A hash function of Digest (RFC 7616 section 3.3), without the variants for a session.
#[derive(Clone, Copy, Debug, PartialEq, Eq)]
pub enum Algorithm {
    Md5,
    Sha256,
}
