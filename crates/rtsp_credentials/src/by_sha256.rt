//! The response of Digest by SHA-256.

ghost use Rattle.std.specs.Prelude.{◌≡◌, ℕ, List, Some, None, option_map};
ghost use Rattle.rtsp_credentials.specs.Digest.{hashed, secret_of, asked_hash, keyed, proved_text, response_of};
ghost use Rattle.rtsp_credentials.specs.CountView.{shown};
ghost use Rattle.rtsp_credentials.specs.declared.algorithm.Algorithm.TheVariants as algorithms;

use crate::count::Count;
use hex::encode_to_slice;
use sha2::{Digest, Sha256};

// The digits of a digest.
#[tactic(auto, unfolding(crate::specs::Digest::hashed))]
fn sha256_digits(hasher: Sha256) -> [u8; 64]
    ensures { (m : List ℕ) → ⟦<Sha256 as sha2::Digest>⟧.holds hasher m → result ≡ hashed algorithms.Sha256 m }
{
    let mut text = [0; 64];
    encode_to_slice(hasher.finalize(), &mut text).unwrap();
    text
}

/// H(A1) of a user, which a file of users has.
pub fn sha256_secret(user: &[u8], realm: &[u8], password: &[u8]) -> [u8; 64]
    ensures { result ≡ secret_of algorithms.Sha256 user.now realm.now password.now }
{
    let mut hasher = Sha256::new();
    hasher.update(user);
    hasher.update(b":");
    hasher.update(realm);
    hasher.update(b":");
    hasher.update(password);
    sha256_digits(hasher)
}

// H(A2).
fn sha256_asked(method: &[u8], uri: &[u8]) -> [u8; 64]
    ensures { result ≡ asked_hash algorithms.Sha256 method.now uri.now }
{
    let mut hasher = Sha256::new();
    hasher.update(method);
    hasher.update(b":");
    hasher.update(uri);
    sha256_digits(hasher)
}

// The response without qop.
fn sha256_old(secret: &[u8], nonce: &[u8], asked: &[u8; 64]) -> [u8; 64]
    ensures { result ≡ keyed algorithms.Sha256 secret.now (proved_text nonce.now None asked.now) }
{
    let mut hasher = Sha256::new();
    hasher.update(secret);
    hasher.update(b":");
    hasher.update(nonce);
    hasher.update(b":");
    hasher.update(asked);
    sha256_digits(hasher)
}

// The response with qop="auth".
fn sha256_counted(secret: &[u8], nonce: &[u8], count: Count<'_>, asked: &[u8; 64]) -> [u8; 64]
    ensures { result ≡ keyed algorithms.Sha256 secret.now (proved_text nonce.now (Some (shown count.entry)) asked.now) }
{
    let mut hasher = Sha256::new();
    hasher.update(secret);
    hasher.update(b":");
    hasher.update(nonce);
    hasher.update(b":");
    hasher.update(count.nc);
    hasher.update(b":");
    hasher.update(count.cnonce);
    hasher.update(b":auth:");
    hasher.update(asked);
    sha256_digits(hasher)
}

/// The response of credentials whose H(A1) is the secret: with a count by `qop="auth"`, and without by
/// RFC 2069.
pub fn sha256_response(
    secret: &[u8],
    nonce: &[u8],
    count: Option<Count<'_>>,
    method: &[u8],
    uri: &[u8],
) -> [u8; 64]
    ensures { result ≡ response_of algorithms.Sha256 secret.now nonce.now (option_map shown count.entry) method.now uri.now }
{
    let asked = sha256_asked(method, uri);
    match count {
        Some(count) => sha256_counted(secret, nonce, count, &asked),
        None => sha256_old(secret, nonce, &asked),
    }
}
