//! Comparing texts in a time that tells nothing of them.

ghost use Rattle.std.specs.Prelude.{◌≡◌, bytes_eq};

/// Whether the texts are the same. How long it takes tells nothing of where they differ.
pub fn is_same(text: &[u8], given: &[u8]) -> bool
    ensures { result ≡ bytes_eq text.now given.now }
{
    if text.len() != given.len() {
        return false;
    }
    let mut same = true;
    for i in 0..text.len() {
        same = same & (text[i] == given[i]);
    }
    same
}
