//! Startup numbers.

/// A startup number on a connection (RFC 7826 section 18.33).
#[derive(Clone, Copy, PartialEq, Eq)]
pub struct Startup {
    pub conn: u64,
    pub number: u32,
}
