//! The statuses of responses (RFC 7826 section 17).

ghost use Rattle.std.specs.Prelude.{◌≡◌};
ghost use Rattle.rtsp_state.specs.Status.{code, status_of};

use rtsp_book::Refusal;

/// The status of a response: `Success`, or why a request is refused.
#[derive(Clone, Copy, PartialEq, Eq)]
pub enum Status {
    Success,
    BadRequest,
    NotFound,
    ParameterNotUnderstood,
    NotEnoughBandwidth,
    SessionNotFound,
    MethodNotValid,
    HeaderNotValid,
    InvalidRange,
    AggregateNotAllowed,
    OnlyAggregateAllowed,
    UnsupportedTransport,
    DestinationProhibited,
    ServerError,
    NotImplemented,
    Unavailable,
    VersionNotSupported,
    OptionNotSupported,
}

/// The number of a status, of three digits.
pub fn code(status: Status) -> u16
    ensures { result ≡ code status }
{
    match status {
        Status::Success => 200,
        Status::BadRequest => 400,
        Status::NotFound => 404,
        Status::ParameterNotUnderstood => 451,
        Status::NotEnoughBandwidth => 453,
        Status::SessionNotFound => 454,
        Status::MethodNotValid => 455,
        Status::HeaderNotValid => 456,
        Status::InvalidRange => 457,
        Status::AggregateNotAllowed => 459,
        Status::OnlyAggregateAllowed => 460,
        Status::UnsupportedTransport => 461,
        Status::DestinationProhibited => 463,
        Status::ServerError => 500,
        Status::NotImplemented => 501,
        Status::Unavailable => 503,
        Status::VersionNotSupported => 505,
        Status::OptionNotSupported => 551,
    }
}

/// The status of a refused step.
pub fn status_of(refusal: Refusal) -> Status
    ensures { result ≡ status_of refusal }
{
    match refusal {
        Refusal::NoSession => Status::SessionNotFound,
        Refusal::NoBandwidth => Status::NotEnoughBandwidth,
        Refusal::WrongState => Status::MethodNotValid,
        Refusal::NotHeld => Status::MethodNotValid,
        Refusal::TooManySessions => Status::Unavailable,
        Refusal::NoPair => Status::Unavailable,
        Refusal::NoChannel => Status::Unavailable,
        Refusal::JournalFull => Status::Unavailable,
        Refusal::NumbersSpent => Status::Unavailable,
        Refusal::IdTaken => Status::ServerError,
        Refusal::StartupTaken => Status::ServerError,
        Refusal::OutOfMemory => Status::ServerError,
        Refusal::NothingDue => Status::ServerError,
    }
}
