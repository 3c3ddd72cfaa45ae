//! What a request asks for.

ghost use Rattle.std.specs.Prelude.{◌≡◌, ◌↔◌, ℕ, Bool, List, IsTrue, codes};
ghost use Rattle.rtsp_status.specs.Asking.{IsLook, Asks};

use rtsp_text::{hex_number, number_of, split_once};

// The most digits of a session's number.
const DIGITS: usize = 19;

/// Which session is meant: by its number, and by the first eight digits of its id where these are
/// given, too.
#[derive(Clone, Copy, PartialEq, Eq)]
pub struct SessionMeant {
    pub number: u64,
    pub digits: Option<u32>,
}

/// From where somebody asks.
#[derive(Clone, Copy, PartialEq, Eq)]
pub enum Nearness {
    /// From this machine.
    Loopback,
    Elsewhere,
}

/// What is asked for.
#[derive(Clone, Copy, PartialEq, Eq)]
pub(crate) enum Asked {
    Metrics,
    // The same in the older format.
    Plain,
    Page,
    Health,
    Ready,
    Agent,
    Sessions,
    // The same, which isn't for whoever asks from there.
    Hidden,
    Drain,
    End(SessionMeant),
    // The end of what is no session.
    NoSession,
    // A change, which isn't for whoever asks from there.
    Forbidden,
    Nothing,
    NotAllowed,
}

fn is_look(method: &str) -> bool
    ensures { IsTrue result ↔ IsLook method.now }
{
    method == "GET" || method == "HEAD"
}

// The first eight digits of an id.
fn first_digits(text: &[u8]) -> Option<u32> {
    if text.len() != 8 {
        return None;
    }
    u32::try_from(hex_number(text)?).ok()
}

// The session of a name, as 28 or 28:1f2e3d4c.
fn session_named(name: &[u8]) -> Option<SessionMeant> {
    let (number, digits) = match split_once(name, b':') {
        Some((number, digits)) => (number, Some(first_digits(digits)?)),
        None => (name, None),
    };
    Some(SessionMeant {
        number: number_of(number, DIGITS)?,
        digits,
    })
}

// The name of the session that a path ends, as /sessions/28/end.
fn name_in(path: &str) -> Option<&str> {
    path.strip_prefix("/sessions/")?.strip_suffix("/end")
}

fn looked_at(path: &str, nearness: Nearness, is_open: bool, is_plain: bool) -> Asked
    ensures { (method : List ℕ) → IsLook method → Asks method path.now nearness is_open is_plain result }
{
    match path {
        "/metrics" if is_plain => Asked::Plain,
        "/metrics" => Asked::Metrics,
        "/" => Asked::Page,
        "/healthz" => Asked::Health,
        "/ready" => Asked::Ready,
        "/agent" => Asked::Agent,
        "/sessions" if is_open || nearness == Nearness::Loopback => Asked::Sessions,
        "/sessions" => Asked::Hidden,
        _ => Asked::Nothing,
    }
}

// What changes something is taken from this machine alone.
fn posted_to(path: &str, nearness: Nearness) -> Asked
    ensures { (is_open is_plain : Bool) → Asks (codes "POST") path.now nearness is_open is_plain result }
{
    if nearness == Nearness::Elsewhere {
        return Asked::Forbidden;
    }
    if path == "/drain" {
        return Asked::Drain;
    }
    match name_in(path) {
        Some(name) => match session_named(name.as_bytes()) {
            Some(session) => Asked::End(session),
            None => Asked::NoSession,
        },
        None => Asked::NotAllowed,
    }
}

/// What a request of this method for this path asks for, which comes from there.
pub(crate) fn asked_by(
    method: &str,
    path: &str,
    nearness: Nearness,
    is_open: bool,
    is_plain: bool,
) -> Asked
    ensures { Asks method.now path.now nearness is_open is_plain result }
{
    if is_look(method) {
        return looked_at(path, nearness, is_open, is_plain);
    }
    match method {
        "POST" => posted_to(path, nearness),
        "OPTIONS" => Asked::Ready,
        _ => Asked::NotAllowed,
    }
}
