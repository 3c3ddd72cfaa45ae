//! How often a nonce was used.

/// What `qop="auth"` adds to the nonce: the player's count of its uses, and a text of the player's own.
#[derive(Clone, Copy)]
pub struct Count<'a> {
    pub nc: &'a [u8],
    pub cnonce: &'a [u8],
}
