//! What a key of the configuration says of the share of an address.

ghost use Rattle.std.specs.Prelude.{◌≡◌, true, false, Some, None};

/// The share where the key is missing: no address can come to have as much.
pub(crate) const ANY: usize = usize::MAX;

/// How many one address may have by this key, or any number where it is missing.
pub(crate) fn share_of(key: Option<u16>) -> usize
    ensures some { (share : _) → key ≡ Some share → result ≡ share }
    ensures none { key ≡ None → result ≡ ANY }
{
    match key {
        Some(share) => usize::from(share),
        None => ANY,
    }
}

/// The same where what each address has is counted: where there is the key, or may come to be.
pub(crate) fn counted_share(key: Option<u16>, may_change: bool) -> Option<usize>
    ensures some { (share : _) → key ≡ Some share → result ≡ Some share }
    ensures any { key ≡ None → may_change ≡ true → result ≡ Some ANY }
    ensures none { key ≡ None → may_change ≡ false → result ≡ None }
{
    if key.is_some() || may_change {
        Some(share_of(key))
    } else {
        None
    }
}
