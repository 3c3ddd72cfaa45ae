//! Methods of a request.

ghost use Rattle.std.specs.Prelude.{◌≡◌, IfOk, IfSome, IfNone};
ghost use Rattle.rtsp_grammar.specs.Method.{method_name, method_of};
ghost use Rattle.rtsp_grammar.specs.declared.method.Method.TheVariants.{Other};

use crate::words::is_word;
use rtsp_text::Text;
use std::alloc::{AllocError, Global};

/// A method (RFC 7826 section 13): one of the standard's ten, or any other token.
#[derive(Drop)]
pub enum Method {
    Describe,
    GetParameter,
    Options,
    Pause,
    Play,
    /// From the server to the client, as `Redirect` is.
    PlayNotify,
    Redirect,
    Setup,
    SetParameter,
    Teardown,
    /// A token that names none of the ten, with regard to case.
    Other(Text),
}

impl Method {
    /// The method that a token names, with regard to case. Only another method takes memory.
    #[tactic(auto, unfolding(crate::specs::Method::method_of))]
    pub fn from_slice(alloc: Global, name: &[u8]) -> Result<Method, AllocError>
        ensures { IfOk result (λ method. method ≡ method_of name.now) }
    {
        match standard_method(name) {
            Some(method) => Ok(method),
            None => Ok(Method::Other(Text::from_slice(alloc, name)?)),
        }
    }

    /// The name, as it is written.
    pub fn as_bytes(&self) -> &[u8]
        ensures { result.now ≡ method_name self.now }
    {
        match self {
            Method::Describe => b"DESCRIBE",
            Method::GetParameter => b"GET_PARAMETER",
            Method::Options => b"OPTIONS",
            Method::Pause => b"PAUSE",
            Method::Play => b"PLAY",
            Method::PlayNotify => b"PLAY_NOTIFY",
            Method::Redirect => b"REDIRECT",
            Method::Setup => b"SETUP",
            Method::SetParameter => b"SET_PARAMETER",
            Method::Teardown => b"TEARDOWN",
            Method::Other(name) => name.as_bytes(),
        }
    }
}

// The method of the standard with this name.
#[tactic(auto, unfolding(crate::specs::Method::method_of))]
fn standard_method(name: &[u8]) -> Option<Method>
    ensures some { IfSome result (λ method. method ≡ method_of name.now) }
    ensures none { IfNone result (method_of name.now ≡ Other name.now) }
{
    if is_word(name, b"OPTIONS") {
        return Some(Method::Options);
    }
    if is_word(name, b"SETUP") {
        return Some(Method::Setup);
    }
    if is_word(name, b"PLAY") {
        return Some(Method::Play);
    }
    if is_word(name, b"PAUSE") {
        return Some(Method::Pause);
    }
    if is_word(name, b"TEARDOWN") {
        return Some(Method::Teardown);
    }
    if is_word(name, b"DESCRIBE") {
        return Some(Method::Describe);
    }
    if is_word(name, b"GET_PARAMETER") {
        return Some(Method::GetParameter);
    }
    if is_word(name, b"SET_PARAMETER") {
        return Some(Method::SetParameter);
    }
    if is_word(name, b"PLAY_NOTIFY") {
        return Some(Method::PlayNotify);
    }
    if is_word(name, b"REDIRECT") {
        return Some(Method::Redirect);
    }
    None
}
