//! The credentials of a request.

ghost use Rattle.std.specs.Prelude.{◌≡◌, codes, Some, None, option_map};
ghost use Rattle.rtsp_text.specs.Slices.{held};
ghost use Rattle.rtsp_text.specs.SplitOnce.{split_once};
ghost use Rattle.rtsp_grammar.specs.Header.{values_of};
ghost use Rattle.rtsp_credentials.specs.Credentials.{authorization_of, behind_scheme, needed, algorithm_of, count_with, credentials_of, credentials_in, credentials_among, count_number};
ghost use Rattle.rtsp_credentials.specs.ParameterView as views;
ghost use Rattle.rtsp_credentials.specs.CountView as counts;
ghost use Rattle.rtsp_credentials.specs.Seen.{seen};

use crate::algorithm::Algorithm;
use crate::count::Count;
use crate::parameters::Parameters;
use crate::refusal::Refusal;
use hex::decode_to_slice;
use rtsp_grammar::{Headers, Repeated};
use rtsp_text::split_once;
use rtsp_transport::is_named;

/// What a Digest authorization says.
#[derive(Clone, Copy)]
pub struct Credentials<'a> {
    pub username: &'a [u8],
    pub realm: &'a [u8],
    pub nonce: &'a [u8],
    pub uri: &'a [u8],
    pub response: &'a [u8],
    pub algorithm: Algorithm,
    pub count: Option<Count<'a>>,
}

// The value of the one Authorization header.
#[tactic(auto, unfolding(crate::specs::Credentials::authorization_of))]
fn authorization_of(headers: &Headers) -> Result<&[u8], Refusal>
    ensures { seen (λ v. v.now) result ≡ authorization_of (values_of (codes "Authorization") headers.now) }
{
    match headers.only_value(b"Authorization") {
        Ok(Some(value)) => Ok(value),
        Ok(None) => Err(Refusal::Missing),
        Err(Repeated) => Err(Refusal::Repeated),
    }
}

// What follows the name of the scheme.
fn behind_scheme(value: &[u8]) -> Result<&[u8], Refusal>
    ensures { seen (λ v. v.now) result ≡ behind_scheme (split_once 32 value.now) }
{
    match split_once(value, b' ') {
        Some((scheme, text)) => {
            if is_named(scheme, b"Digest") {
                Ok(text)
            } else {
                Err(Refusal::OtherScheme)
            }
        }
        None => Err(Refusal::OtherScheme),
    }
}

// A parameter that has to be there.
fn needed(value: Option<&[u8]>) -> Result<&[u8], Refusal>
    ensures { seen (λ v. v.now) result ≡ needed (held value.entry) }
{
    match value {
        Some(value) => Ok(value),
        None => Err(Refusal::Malformed),
    }
}

fn algorithm_of(name: Option<&[u8]>) -> Result<Algorithm, Refusal>
    ensures { result ≡ algorithm_of (held name.entry) }
{
    match name {
        None => Ok(Algorithm::Md5),
        Some(name) => {
            if is_named(name, b"MD5") {
                return Ok(Algorithm::Md5);
            }
            if is_named(name, b"SHA-256") {
                return Ok(Algorithm::Sha256);
            }
            Err(Refusal::OtherAlgorithm)
        }
    }
}

// nc and cnonce, where there is a qop.
fn count_with<'a>(
    qop: Option<&[u8]>,
    nc: Option<&'a [u8]>,
    cnonce: Option<&'a [u8]>,
) -> Result<Option<Count<'a>>, Refusal>
    ensures { seen (λ c. option_map counts.shown c) result ≡ count_with (held qop.entry) (held nc.entry) (held cnonce.entry) }
{
    let Some(qop) = qop else {
        return Ok(None);
    };
    if !is_named(qop, b"auth") {
        return Err(Refusal::OtherProtection);
    }
    let nc = needed(nc)?;
    let cnonce = needed(cnonce)?;
    Ok(Some(Count { nc, cnonce }))
}

/// The number of nc: eight hexadecimal digits.
#[tactic(auto, unfolding(crate::specs::Credentials::count_number))]
pub fn count_number(text: &[u8]) -> Option<u32>
    ensures { result ≡ count_number text.now }
{
    let mut bytes = [0; 4];
    match decode_to_slice(text, &mut bytes) {
        Ok(()) => Some(u32::from_be_bytes(bytes)),
        Err(_) => None,
    }
}

impl<'a> Credentials<'a> {
    ghost use Rattle.rtsp_credentials.specs.CredentialsView.{shown};

    #[tactic(auto, unfolding(crate::specs::Credentials::credentials_of))]
    fn of(parameters: &Parameters<'a>) -> Result<Credentials<'a>, Refusal>
        ensures { seen shown result ≡ credentials_of (views.shown parameters.now) }
    {
        Ok(Credentials {
            username: needed(parameters.username)?,
            realm: needed(parameters.realm)?,
            nonce: needed(parameters.nonce)?,
            uri: needed(parameters.uri)?,
            response: needed(parameters.response)?,
            algorithm: algorithm_of(parameters.algorithm)?,
            count: count_with(parameters.qop, parameters.nc, parameters.cnonce)?,
        })
    }

    /// The credentials that a header's value is.
    #[tactic(auto, unfolding(crate::specs::Credentials::credentials_in))]
    pub fn read(value: &'a [u8]) -> Result<Credentials<'a>, Refusal>
        ensures { seen shown result ≡ credentials_in value.now }
    {
        let text = behind_scheme(value)?;
        match Parameters::read(text) {
            Some(parameters) => Credentials::of(&parameters),
            None => Err(Refusal::Malformed),
        }
    }

    /// The credentials of a request.
    #[tactic(auto, unfolding(crate::specs::Credentials::credentials_among))]
    pub fn among(headers: &'a Headers) -> Result<Credentials<'a>, Refusal>
        ensures { seen shown result ≡ credentials_among headers.now }
    {
        Credentials::read(authorization_of(headers)?)
    }
}
