//! What is counted of a play for its session and for its presentation.

use super::PacedPlay;
use crate::desk::PacerDesk;
use crate::packet_count::PacketCount;
use rtsp_book::SessionView;
use rtsp_lock::Numbers;
use rtsp_log::SessionName;
use rtsp_metrics::{SessionCounts, Transport};
use std::sync::{Arc, Wait};

// Which presentation is sent over what, and what counts it for the session, where there is memory for
// that.
#[derive(Drop)]
pub(super) struct Watched {
    presentation: u16,
    transport: Transport,
    counts: Option<Arc<SessionCounts>>,
}

// What a session's packets go over: the connection where one of its streams does.
fn transport_of(view: &SessionView) -> Transport {
    let admissions = view.admissions();
    for place in 0..admissions.len() {
        if let Some(stream) = admissions.at(place).1.stream
            && stream.rtp_port == 0
        {
            return Transport::Tcp;
        }
    }
    Transport::Udp
}

impl Watched {
    // A play of this presentation begins, by this session.
    pub(super) fn by<R: Wait, N: Numbers>(
        desk: &PacerDesk<'_, R, N>,
        view: &SessionView,
        presentation: u16,
    ) -> Watched {
        Watched {
            presentation,
            transport: transport_of(view),
            counts: desk.parts.audience.play(desk.rt, view.session()),
        }
    }

    // Counts what came of the packets of a turn, of which the first was so many milliseconds late.
    pub(super) fn count<R, N: Numbers>(
        &self,
        desk: &mut PacerDesk<'_, R, N>,
        count: &PacketCount,
        late: u64,
    ) {
        desk.count_bytes(self.presentation, self.transport, count.bytes);
        if let Some(counts) = &self.counts {
            counts.add(count.sent, count.lost, late);
        }
    }
}

impl PacedPlay {
    // Its session, as the log names it.
    pub(super) fn name(&self) -> SessionName {
        let number = self.session();
        match &self.watched.counts {
            Some(counts) => SessionName::Known {
                number,
                digits: counts.digits(),
            },
            None => SessionName::Number(number),
        }
    }
}

// The place of the presentation of a session's streams.
pub(super) fn presentation_of(view: &SessionView) -> Option<u16> {
    let admissions = view.admissions();
    for place in 0..admissions.len() {
        if let Some(stream) = admissions.at(place).1.stream {
            return Some(stream.presentation);
        }
    }
    None
}
