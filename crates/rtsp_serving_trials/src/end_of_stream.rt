//! The request at the end of a stream.

ghost use Rattle.std.specs.Prelude.{IsTrue};
ghost use Rattle.rtsp_state.specs.Notify.{IsEnded};

use crate::sessions::{example, sessions};
use rtsp_book::{BookRep, SessionView};
use rtsp_content::{Presentation, Table};
use rtsp_grammar::write_request;
use rtsp_record::Phase;
use rtsp_state::*;
use std::alloc::{AllocError, Global};

const NOTIFY: &str = "PLAY_NOTIFY rtsp://h/tone RTSP/2.0\r\n\
    CSeq: 1\r\n\
    Session: 00000000000000000000000000000004\r\n\
    Notify-Reason: end-of-stream\r\n\
    Request-Status: cseq=2 status=200 reason=\"OK\"\r\n\
    Range: npt=-10.000\r\n\
    RTP-Info: url=\"rtsp://h/tone/a\" ssrc=00000001:seq=500;rtptime=80000\r\n\r\n";

fn is_ended(view: &SessionView) -> bool
    ensures { IsTrue result → IsEnded view.now.1.phase }
{
    matches!(view.phase(), Phase::Ended { .. })
}

// What is sent to a session that is Ended.
fn written(
    alloc: Global,
    uri: &MediaUri,
    view: &SessionView,
    presentation: &Presentation,
) -> Result<Vec<u8>, AllocError>
    requires { IsEnded view.now.1.phase }
{
    let mut text = Vec::new(alloc);
    let request = notify(alloc, uri, view, presentation, 1, 2)?;
    write_request(&mut text, &request)?;
    Ok(text)
}

// What is sent to a session; nothing where it isn't Ended.
fn notified(alloc: Global, table: &Table, view: &SessionView) -> Result<Vec<u8>, AllocError> {
    let uri = MediaUri::read(alloc, b"rtsp://h/tone")?;
    match (&uri, table.presentation(0)) {
        (Some(uri), Some(presentation)) if is_ended(view) => {
            written(alloc, uri, view, presentation)
        }
        _ => Ok(Vec::new(alloc)),
    }
}

// What is sent to the session that is Ended.
fn reported(alloc: Global) -> Option<Vec<u8>> {
    let table = example(alloc)?;
    let view = sessions(alloc)?.session(4)?;
    notified(alloc, &table, &view).ok()
}

#[test]
fn an_ended_play_is_reported(rt: HostRuntime) {
    let is_reported = match reported(rt.alloc()) {
        Some(text) => text.as_slice() == NOTIFY.as_bytes(),
        None => false,
    };
    assert!(rt; is_reported);
}
