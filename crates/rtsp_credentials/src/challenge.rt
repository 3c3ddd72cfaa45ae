//! What a server asks of whom it doesn't let through.

ghost use Rattle.std.specs.Prelude.{◌≡◌, ◌++◌, OnOk, OnErr};
ghost use Rattle.rtsp_credentials.specs.Challenge.{algorithm_name, stale_text, challenge_of, challenge_text};

use crate::algorithm::Algorithm;
use crate::gate::Gate;
use crate::refusal::Refusal;
use rtsp_text::append_all;
use std::alloc::AllocError;

fn algorithm_name(algorithm: Algorithm) -> &'static [u8]
    ensures { result.now ≡ algorithm_name algorithm }
{
    match algorithm {
        Algorithm::Md5 => b"MD5",
        Algorithm::Sha256 => b"SHA-256",
    }
}

// Whoever has another nonce than the connection's may ask again without asking for a password.
fn stale_text(refusal: Refusal) -> &'static [u8]
    ensures { result.now ≡ stale_text refusal }
{
    match refusal {
        Refusal::Stale => b", stale=true",
        _ => b"",
    }
}

// The parts of a challenge, all or none.
fn append_parts<'a>(
    out: &mut Vec<u8>,
    realm: &'a [u8],
    algorithm: &'a [u8],
    stale: &'a [u8],
    nonce: &'a [u8],
) -> Result<(), AllocError>
    ensures ok { OnOk result (out.new.items ≡ out.old.items ++ challenge_of realm.now algorithm.now stale.now nonce.now) }
    ensures err { OnErr result (out.new.items ≡ out.old.items) }
{
    append_all(
        out,
        &[
            b"Digest realm=\"",
            realm,
            b"\", qop=\"auth\", algorithm=",
            algorithm,
            stale,
            b", nonce=\"",
            nonce,
            b"\"",
        ],
    )
}

/// Writes the value of a WWW-Authenticate header at the end, or nothing: a realm, a hash function and
/// the nonce of a gate that refused.
pub fn write_challenge(
    out: &mut Vec<u8>,
    realm: &[u8],
    gate: &Gate,
    algorithm: Algorithm,
    refusal: Refusal,
) -> Result<(), AllocError>
    ensures ok { OnOk result (out.new.items ≡ out.old.items ++ challenge_text realm.now gate.now algorithm refusal) }
    ensures err { OnErr result (out.new.items ≡ out.old.items) }
{
    let (name, stale) = (algorithm_name(algorithm), stale_text(refusal));
    append_parts(out, realm, name, stale, gate.nonce.as_slice())
}
