//! Why an address gets no place.

/// Why an address gets no place.
#[derive(Clone, Copy, PartialEq, Eq)]
pub enum NoPlace {
    /// As many of its places as its share are in use.
    Share,
    /// Its share isn't, but all places that there are for addresses are.
    Full,
}
