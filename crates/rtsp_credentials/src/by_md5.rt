//! The response of Digest by MD5.

ghost use Rattle.std.specs.Prelude.{◌≡◌, ℕ, List, Some, None, option_map};
ghost use Rattle.rtsp_credentials.specs.Digest.{hashed, secret_of, asked_hash, keyed, proved_text, response_of};
ghost use Rattle.rtsp_credentials.specs.CountView.{shown};
ghost use Rattle.rtsp_credentials.specs.declared.algorithm.Algorithm.TheVariants as algorithms;

use crate::count::Count;
use hex::encode_to_slice;
use md5::{Digest, Md5};

// The digits of a digest.
#[tactic(auto, unfolding(crate::specs::Digest::hashed))]
fn md5_digits(hasher: Md5) -> [u8; 32]
    ensures { (m : List ℕ) → ⟦<Md5 as md5::Digest>⟧.holds hasher m → result ≡ hashed algorithms.Md5 m }
{
    let mut text = [0; 32];
    encode_to_slice(hasher.finalize(), &mut text).unwrap();
    text
}

/// H(A1) of a user, which a file of users has.
pub fn md5_secret(user: &[u8], realm: &[u8], password: &[u8]) -> [u8; 32]
    ensures { result ≡ secret_of algorithms.Md5 user.now realm.now password.now }
{
    let mut hasher = Md5::new();
    hasher.update(user);
    hasher.update(b":");
    hasher.update(realm);
    hasher.update(b":");
    hasher.update(password);
    md5_digits(hasher)
}

// H(A2).
fn md5_asked(method: &[u8], uri: &[u8]) -> [u8; 32]
    ensures { result ≡ asked_hash algorithms.Md5 method.now uri.now }
{
    let mut hasher = Md5::new();
    hasher.update(method);
    hasher.update(b":");
    hasher.update(uri);
    md5_digits(hasher)
}

// The response without qop.
fn md5_old(secret: &[u8], nonce: &[u8], asked: &[u8; 32]) -> [u8; 32]
    ensures { result ≡ keyed algorithms.Md5 secret.now (proved_text nonce.now None asked.now) }
{
    let mut hasher = Md5::new();
    hasher.update(secret);
    hasher.update(b":");
    hasher.update(nonce);
    hasher.update(b":");
    hasher.update(asked);
    md5_digits(hasher)
}

// The response with qop="auth".
fn md5_counted(secret: &[u8], nonce: &[u8], count: Count<'_>, asked: &[u8; 32]) -> [u8; 32]
    ensures { result ≡ keyed algorithms.Md5 secret.now (proved_text nonce.now (Some (shown count.entry)) asked.now) }
{
    let mut hasher = Md5::new();
    hasher.update(secret);
    hasher.update(b":");
    hasher.update(nonce);
    hasher.update(b":");
    hasher.update(count.nc);
    hasher.update(b":");
    hasher.update(count.cnonce);
    hasher.update(b":auth:");
    hasher.update(asked);
    md5_digits(hasher)
}

/// The response of credentials whose H(A1) is the secret: with a count by `qop="auth"`, and without by
/// RFC 2069.
pub fn md5_response(
    secret: &[u8],
    nonce: &[u8],
    count: Option<Count<'_>>,
    method: &[u8],
    uri: &[u8],
) -> [u8; 32]
    ensures { result ≡ response_of algorithms.Md5 secret.now nonce.now (option_map shown count.entry) method.now uri.now }
{
    let asked = md5_asked(method, uri);
    match count {
        Some(count) => md5_counted(secret, nonce, count, &asked),
        None => md5_old(secret, nonce, &asked),
    }
}
