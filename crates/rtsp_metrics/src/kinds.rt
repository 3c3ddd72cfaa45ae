//! What requests and answers are counted by.

ghost use Rattle.std.specs.Prelude.{◌≡◌, ◌↔◌, IsTrue};
ghost use Rattle.rtsp_metrics.specs.Kinds.{IsMethodOf, IsOutcomeOf, IsRefusalOf};

/// The method of a request, as the figures name it.
#[derive(Clone, Copy, PartialEq, Eq)]
pub enum Method {
    Options,
    Describe,
    Setup,
    Play,
    Pause,
    Teardown,
    GetParameter,
    SetParameter,
    Other,
}

/// What the first digit of a status says.
#[derive(Clone, Copy, PartialEq, Eq)]
pub enum Outcome {
    Success,
    Redirection,
    ClientError,
    ServerError,
}

/// Why a request was refused, as the figures name it.
#[derive(Clone, Copy, PartialEq, Eq)]
pub enum Refusal {
    Bandwidth,
    Unavailable,
    Session,
    Path,
    State,
    Transport,
    Credentials,
    Other,
}

// Whether a text is this word.
fn is_word(text: &[u8], word: &[u8]) -> bool
    ensures { IsTrue result ↔ (text.now ≡ word.now) }
{
    text == word
}

impl Method {
    /// The method of this name; any other name is `Other`.
    pub fn of(name: &[u8]) -> Method
        ensures { IsMethodOf name.now result }
    {
        match name {
            _ if is_word(name, b"OPTIONS") => Method::Options,
            _ if is_word(name, b"DESCRIBE") => Method::Describe,
            _ if is_word(name, b"SETUP") => Method::Setup,
            _ if is_word(name, b"PLAY") => Method::Play,
            _ if is_word(name, b"PAUSE") => Method::Pause,
            _ if is_word(name, b"TEARDOWN") => Method::Teardown,
            _ if is_word(name, b"GET_PARAMETER") => Method::GetParameter,
            _ if is_word(name, b"SET_PARAMETER") => Method::SetParameter,
            _ => Method::Other,
        }
    }
}

impl Outcome {
    /// Of this status. One below 300 is a success, one from 500 on an error of the server.
    pub fn of(status: u16) -> Outcome
        ensures { IsOutcomeOf status result }
    {
        match status {
            0..=299 => Outcome::Success,
            300..=399 => Outcome::Redirection,
            400..=499 => Outcome::ClientError,
            _ => Outcome::ServerError,
        }
    }
}

impl Refusal {
    /// Of this status. None below 400.
    pub fn of(status: u16) -> Option<Refusal>
        ensures { IsRefusalOf status result }
    {
        match status {
            0..=399 => None,
            401 => Some(Refusal::Credentials),
            404 => Some(Refusal::Path),
            453 => Some(Refusal::Bandwidth),
            454 => Some(Refusal::Session),
            455 => Some(Refusal::State),
            461 => Some(Refusal::Transport),
            503 => Some(Refusal::Unavailable),
            _ => Some(Refusal::Other),
        }
    }
}
