//! A place of an address.

/// A place that an address has taken.
#[derive(Clone, Copy, PartialEq, Eq)]
pub struct Place {
    /// The IPv4 address.
    pub(crate) address: u32,
    /// The number of that for which the place is kept. `None` while whoever took the place holds it.
    pub(crate) number: Option<u64>,
}
