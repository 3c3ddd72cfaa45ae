//! The protocol's version.

ghost use Rattle.std.specs.Prelude.{◌≡◌, IfOk};
ghost use Rattle.rtsp_grammar.specs.Reading.{is_version, is_version_2_0, version_of};
ghost use Rattle.rtsp_grammar.specs.Version.{version_text};

use crate::number::number;
use crate::words::is_word;
use rtsp_text::{Text, is_number, split_once};
use std::alloc::{AllocError, Global};

/// The protocol's version (RFC 7826 sections 4.1 and 20.2.2).
#[derive(Drop)]
pub enum Version {
    /// 2.0. Its numbers are compared as numbers, so that leading zeros count for nothing.
    Rtsp2,
    /// Any other, as it is written: `RTSP/1.0`.
    Other(Text),
}

impl Version {
    /// The version that a text is. Only another than 2.0 takes memory.
    #[inline(always)]
    #[tactic(auto, unfolding(crate::specs::Reading::version_of))]
    pub(crate) fn from_slice(alloc: Global, text: &[u8]) -> Result<Version, AllocError>
        ensures { IfOk result (λ version. version ≡ version_of text.now) }
    {
        if is_version_2_0(text) {
            return Ok(Version::Rtsp2);
        }
        Ok(Version::Other(Text::from_slice(alloc, text)?))
    }

    /// The version, as it is written: 2.0 without leading zeros.
    pub fn as_bytes(&self) -> &[u8]
        ensures { result.now ≡ version_text self.now }
    {
        match self {
            Version::Rtsp2 => b"RTSP/2.0",
            Version::Other(text) => text.as_bytes(),
        }
    }
}

/// Whether this is the protocol's name, a slash, and two numbers with a dot between them.
#[inline(always)]
pub fn is_version(text: &[u8]) -> bool
    ensures { result ≡ is_version text.now }
{
    is_word(text, b"RTSP/2.0") || is_any_version(text)
}

// The same, where it isn't the version that nearly all have.
#[cold]
fn is_any_version(text: &[u8]) -> bool
    ensures { result ≡ is_version text.now }
{
    let [b'R', b'T', b'S', b'P', b'/', numbers @ ..] = text else {
        return false;
    };
    match split_once(numbers, b'.') {
        Some((major, minor)) => is_number(major) && is_number(minor),
        None => false,
    }
}

#[inline(always)]
fn is_version_2_0(text: &[u8]) -> bool
    ensures { result ≡ is_version_2_0 text.now }
{
    is_word(text, b"RTSP/2.0") || has_numbers_2_0(text)
}

// The same, where there may be leading zeros.
#[cold]
fn has_numbers_2_0(text: &[u8]) -> bool
    ensures { result ≡ is_version_2_0 text.now }
{
    if !is_any_version(text) {
        return false;
    }
    match split_once(&text[5..], b'.') {
        Some((major, minor)) => number(major) == 2 && number(minor) == 0,
        None => false,
    }
}
