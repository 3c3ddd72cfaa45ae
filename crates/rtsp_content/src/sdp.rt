//! The description of a presentation in SDP.

ghost use Rattle.std.specs.Prelude.{◌≡◌, ◌++◌, IfOk, OnOk};
ghost use Rattle.std.specs.List.{flat_map};
ghost use Rattle.rtsp_text.specs.Slices.{held};
ghost use Rattle.rtsp_content.specs.Sdp.{session_text, channels_text, parameters_text, track_text};

use crate::track::Track;
use itoa::Buffer;
use rtsp_text::{append_all, three_digits};
use std::alloc::{AllocError, Global};

#[tactic(auto, unfolding(crate::specs::Sdp::session_text))]
fn append_session(out: &mut Vec<u8>, name: &str, length_ms: u64) -> Result<(), AllocError>
    ensures { OnOk result (out.new.items ≡ out.old.items ++ session_text name.now length_ms) }
{
    let mut seconds = Buffer::new();
    let seconds = seconds.format(length_ms / 1000);
    let decimals = three_digits(length_ms);
    append_all(
        out,
        &[
            b"v=0\r\n",
            b"o=- 1 1 IN IP4 127.0.0.1\r\n",
            b"s=",
            name.as_bytes(),
            b"\r\n",
            b"c=IN IP4 0.0.0.0\r\n",
            b"t=0 0\r\n",
            b"a=control:*\r\n",
            b"a=range:npt=0.000-",
            seconds.as_bytes(),
            b".",
            &decimals,
            b"\r\n",
        ],
    )
}

// What an encoding's line says of channels.
fn channels_text(alloc: Global, channels: Option<u8>) -> Result<Vec<u8>, AllocError>
    ensures { IfOk result (λ text. text.items ≡ channels_text channels) }
{
    let mut text = Vec::new(alloc);
    if let Some(channels) = channels {
        let mut number = Buffer::new();
        append_all(&mut text, &[b"/", number.format(channels).as_bytes()])?;
    }
    Ok(text)
}

// The line of format parameters, or nothing.
fn parameters_text(
    alloc: Global,
    payload_type: &str,
    parameters: Option<&str>,
) -> Result<Vec<u8>, AllocError>
    ensures { IfOk result (λ text. text.items
        ≡ parameters_text payload_type.now (held parameters.entry)) }
{
    let mut text = Vec::new(alloc);
    if let Some(parameters) = parameters {
        append_all(
            &mut text,
            &[
                b"a=fmtp:",
                payload_type.as_bytes(),
                b" ",
                parameters.as_bytes(),
                b"\r\n",
            ],
        )?;
    }
    Ok(text)
}

#[tactic(auto, unfolding(crate::specs::Sdp::track_text))]
fn append_track(alloc: Global, out: &mut Vec<u8>, track: &Track) -> Result<(), AllocError>
    ensures { OnOk result (out.new.items ≡ out.old.items ++ track_text track.now) }
{
    let mut payload_type = Buffer::new();
    let payload_type = payload_type.format(track.payload_type());
    let mut clock = Buffer::new();
    let clock = clock.format(track.clock());
    let channels = channels_text(alloc, track.channels())?;
    let parameters = parameters_text(alloc, payload_type, track.format_parameters())?;
    append_all(
        out,
        &[
            b"m=",
            track.media_name().as_bytes(),
            b" 0 RTP/AVP ",
            payload_type.as_bytes(),
            b"\r\na=rtpmap:",
            payload_type.as_bytes(),
            b" ",
            track.encoding().as_bytes(),
            b"/",
            clock.as_bytes(),
            channels.as_slice(),
            b"\r\n",
            parameters.as_slice(),
            b"a=control:",
            track.name().as_bytes(),
            b"\r\n",
        ],
    )
}

/// The description of a presentation of this name and length, in milliseconds, with these tracks
/// (RFC 4566, RFC 7826 appendix D).
pub(crate) fn sdp_of(
    alloc: Global,
    name: &str,
    length_ms: u64,
    tracks: &[Track],
) -> Result<Vec<u8>, AllocError>
    ensures { IfOk result (λ text. text.items
        ≡ session_text name.now length_ms ++ flat_map track_text tracks.now) }
{
    let mut text = Vec::new(alloc);
    append_session(&mut text, name, length_ms)?;
    for track in tracks {
        append_track(alloc, &mut text, track)?;
    }
    Ok(text)
}
