//! Fixed texts of responses.

ghost use Rattle.std.specs.Prelude.{◌≡◌};
ghost use Rattle.rtsp_state.specs.Words.{name_of_field, text_of};

/// Headers of a response, in their order.
#[derive(Clone, Copy)]
pub enum Field {
    CSeq,
    Session,
    Public,
    Allow,
    Unsupported,
    Transport,
    AcceptRanges,
    MediaProperties,
    MediaRange,
    Range,
    SeekStyle,
    RtpInfo,
    ContentBase,
    ContentType,
    ContentLength,
}

/// The name of a header, without the colon.
#[tactic(auto, unfolding(crate::specs::Words::name_of_field))]
pub fn name_of_field(of: Field) -> &'static [u8]
    ensures { result.now ≡ name_of_field of }
{
    match of {
        Field::CSeq => b"CSeq",
        Field::Session => b"Session",
        Field::Public => b"Public",
        Field::Allow => b"Allow",
        Field::Unsupported => b"Unsupported",
        Field::Transport => b"Transport",
        Field::AcceptRanges => b"Accept-Ranges",
        Field::MediaProperties => b"Media-Properties",
        Field::MediaRange => b"Media-Range",
        Field::Range => b"Range",
        Field::SeekStyle => b"Seek-Style",
        Field::RtpInfo => b"RTP-Info",
        Field::ContentBase => b"Content-Base",
        Field::ContentType => b"Content-Type",
        Field::ContentLength => b"Content-Length",
    }
}

/// Fixed parts of values.
#[derive(Clone, Copy)]
pub enum Word {
    AllMethods,
    AlwaysMethods,
    Npt,
    Timeout,
    RandomAccess,
    Immutable,
    Rap,
    Sdp,
    Parameters,
    UrlIs,
    SsrcIs,
    SeqIs,
    RtptimeIs,
    Comma,
    PositionIs,
    DurationIs,
    LineEnd,
}

/// The bytes of a fixed part.
#[tactic(auto, unfolding(crate::specs::Words::text_of))]
pub fn text_of(of: Word) -> &'static [u8]
    ensures { result.now ≡ text_of of }
{
    match of {
        Word::AllMethods =>
            b"OPTIONS, DESCRIBE, SETUP, PLAY, PAUSE, TEARDOWN, GET_PARAMETER, SET_PARAMETER",
        Word::AlwaysMethods => b"OPTIONS, DESCRIBE, GET_PARAMETER, SET_PARAMETER",
        Word::Npt => b"npt",
        Word::Timeout => b";timeout=",
        Word::RandomAccess => b"Random-Access=",
        Word::Immutable => b", Immutable, Unlimited",
        Word::Rap => b"RAP",
        Word::Sdp => b"application/sdp",
        Word::Parameters => b"text/parameters",
        Word::UrlIs => b"url=\"",
        Word::SsrcIs => b"\" ssrc=",
        Word::SeqIs => b":seq=",
        Word::RtptimeIs => b";rtptime=",
        Word::Comma => b",",
        Word::PositionIs => b"position: ",
        Word::DurationIs => b"duration: ",
        Word::LineEnd => b"\r\n",
    }
}
