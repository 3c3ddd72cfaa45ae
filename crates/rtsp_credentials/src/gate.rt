//! The gate of a connection.

ghost use Rattle.std.specs.Prelude.{◌≡◌, IfOk, option_map};
ghost use Rattle.rtsp_text.specs.Slices.{held};
ghost use Rattle.rtsp_credentials.specs.Seen.{seen};
ghost use Rattle.rtsp_credentials.specs.CountView as counts;
ghost use Rattle.rtsp_credentials.specs.CredentialsView.{shown};
ghost use Rattle.rtsp_credentials.specs.Verdict.{must, is_right, is_response, number_rule, last_uncounted, is_options, is_free, counted};
ghost use Rattle.rtsp_text.specs.Hexadecimal.{hex_text};

use crate::algorithm::Algorithm;
use crate::by_md5::md5_response;
use crate::by_sha256::sha256_response;
use crate::comparing::is_same;
use crate::count::Count;
use crate::credentials::{Credentials, count_number};
use crate::protection::Protection;
use crate::refusal::Refusal;
use crate::users::Users;
use hex::encode_to_slice;
use rtsp_grammar::{Method, Request};

/// How many wrong responses a gate hashes. From then on it refuses without looking at them.
const MOST_WRONG: u32 = 8;

/// The gate of a connection.
#[derive(Clone, Copy)]
pub struct Gate {
    /// The connection's own, so that what was right on another one isn't here.
    pub nonce: [u8; 32],
    /// The greatest nc that was let through, or 0.
    pub last: u32,
    /// How many responses were wrong.
    pub wrong: u32,
    pub protection: Protection,
}

/// A request that is let through.
#[derive(Clone, Copy)]
pub struct Passage<'r> {
    /// The gate after it.
    pub gate: Gate,
    /// The user it is from. Nobody, where it is an OPTIONS that is free.
    pub user: Option<&'r [u8]>,
}

// Stands for the secret of a user that isn't there, so that a request of one takes as long.
fn no_secret(algorithm: Algorithm) -> &'static [u8] {
    match algorithm {
        Algorithm::Md5 => b"00000000000000000000000000000000",
        Algorithm::Sha256 => { b"0000000000000000000000000000000000000000000000000000000000000000" }
    }
}

// Whether the response is the one that a secret makes.
fn is_right(secret: &[u8], c: &Credentials<'_>, method: &[u8]) -> bool
    ensures { result ≡ is_right secret.now (shown c.now) method.now }
{
    match c.algorithm {
        Algorithm::Md5 => is_same(
            &md5_response(secret, c.nonce, c.count, method, c.uri),
            c.response,
        ),
        Algorithm::Sha256 => is_same(
            &sha256_response(secret, c.nonce, c.count, method, c.uri),
            c.response,
        ),
    }
}

// The 32 digits of a nonce.
fn nonce_of(number: u128) -> [u8; 32]
    ensures { result ≡ hex_text 32 number }
{
    let mut digits = [0; 32];
    let encoded = encode_to_slice(number.to_be_bytes(), &mut digits);
    encoded.unwrap();
    digits
}

fn must(holds: bool, refusal: Refusal) -> Result<(), Refusal>
    ensures { result ≡ must holds refusal }
{
    if holds { Ok(()) } else { Err(refusal) }
}

// Whether the response is the one that the user's password makes. It takes as long where there is no
// such user.
fn is_response(secret: Option<&[u8]>, c: &Credentials<'_>, method: &[u8]) -> bool
    ensures { result ≡ is_response (held secret.entry) (shown c.now) method.now }
{
    match secret {
        Some(secret) => is_right(secret, c, method),
        None => is_right(no_secret(c.algorithm), c, method) & false,
    }
}

fn number_rule(last: u32, number: Option<u32>) -> Result<u32, Refusal>
    ensures { result ≡ number_rule last number }
{
    let Some(number) = number else {
        return Err(Refusal::Malformed);
    };
    if last < number {
        Ok(number)
    } else {
        Err(Refusal::Replayed)
    }
}

// The greatest nc after credentials without one.
fn last_uncounted(protection: Protection, last: u32) -> Result<u32, Refusal>
    ensures { result ≡ last_uncounted protection last }
{
    match protection {
        Protection::AuthOrNone => Ok(last),
        Protection::Auth => Err(Refusal::OtherProtection),
    }
}

// One wrong response more.
fn counted(wrong: u32) -> u32
    ensures { result ≡ counted wrong }
{
    if wrong < MOST_WRONG { wrong + 1 } else { wrong }
}

// Whether the method is OPTIONS.
fn is_options(method: &Method) -> bool
    ensures { result ≡ is_options method.now }
{
    matches!(method, Method::Options)
}

// Whether the request is an OPTIONS that names no session.
#[tactic(auto, unfolding(crate::specs::Verdict::is_free))]
fn is_free(request: &Request) -> bool
    ensures { result ≡ is_free request.now }
{
    is_options(&request.method)
        && request.headers.count_of(b"Session") == 0
        && request.headers.count_of(b"Pipelined-Requests") == 0
}

impl Gate {
    ghost use Rattle.rtsp_credentials.specs.Verdict.{last_after, judged_by, passed, user_asking, after};

    // The greatest nc after a request.
    fn last_after(&self, count: Option<Count<'_>>) -> Result<u32, Refusal>
        ensures { result ≡ last_after self.now (option_map counts.shown count.entry) }
    {
        match count {
            Some(count) => number_rule(self.last, count_number(count.nc)),
            None => last_uncounted(self.protection, self.last),
        }
    }

    #[tactic(auto, unfolding(crate::specs::Verdict::judged_by))]
    fn judged_by(
        &self,
        users: &Users,
        method: &[u8],
        uri: &[u8],
        c: &Credentials<'_>,
    ) -> Result<u32, Refusal>
        ensures { result ≡ judged_by users.now self.now method.now uri.now (shown c.now) }
    {
        must(c.uri == uri, Refusal::OtherUri)?;
        must(c.realm == users.realm.as_bytes(), Refusal::OtherRealm)?;
        must(c.nonce == self.nonce.as_slice(), Refusal::Stale)?;
        let last = self.last_after(c.count)?;
        let secret = users.secret_of(c.username, c.algorithm);
        must(is_response(secret, c, method), Refusal::Wrong)?;
        Ok(last)
    }

    /// The gate of a connection that was just opened. The number has to be drawn at random.
    pub fn open(number: u128, protection: Protection) -> Gate
        ensures nonce { result.nonce ≡ hex_text 32 number }
        ensures unused { (result.last ≡ 0) × (result.wrong ≡ 0) }
        ensures protection { result.protection ≡ protection }
    {
        Gate {
            nonce: nonce_of(number),
            last: 0,
            wrong: 0,
            protection,
        }
    }

    /// Who a request is from, and the gate after it, or why it isn't let through.
    #[tactic(auto, unfolding(crate::specs::Verdict::passed, crate::specs::Verdict::judged, crate::specs::Verdict::user_asking))]
    pub fn passage<'r>(&self, users: &Users, request: &'r Request) -> Result<Passage<'r>, Refusal>
        ensures gate { seen (λ p. p.gate) result ≡ passed users.now self.now request.now }
        ensures user { IfOk result (λ p. held p.user ≡ user_asking request.now) }
    {
        if is_free(request) {
            return Ok(Passage {
                gate: *self,
                user: None,
            });
        }
        must(self.wrong < MOST_WRONG, Refusal::TooManyWrong)?;
        let credentials = Credentials::among(&request.headers)?;
        let method = request.method.as_bytes();
        let last = self.judged_by(users, method, request.uri.as_bytes(), &credentials)?;
        Ok(Passage {
            gate: Gate {
                nonce: self.nonce,
                last,
                wrong: self.wrong,
                protection: self.protection,
            },
            user: Some(credentials.username),
        })
    }

    /// The gate after a request that is let through, or why it isn't.
    pub fn passed(&self, users: &Users, request: &Request) -> Result<Gate, Refusal>
        ensures { result ≡ passed users.now self.now request.now }
    {
        Ok(self.passage(users, request)?.gate)
    }

    /// The gate after a refusal.
    pub fn after(&self, refusal: Refusal) -> Gate
        ensures { result ≡ after refusal self.now }
    {
        match refusal {
            Refusal::Wrong => Gate {
                nonce: self.nonce,
                last: self.last,
                wrong: counted(self.wrong),
                protection: self.protection,
            },
            _ => *self,
        }
    }
}
