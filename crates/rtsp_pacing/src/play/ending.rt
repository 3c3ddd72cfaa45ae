//! The end of a play: the session is told, then who asked for it, and the streams say goodbye.

use super::{Next, PacedPlay, Stage};
use crate::desk::PacerDesk;
use crate::noted::NewPlay;
use crate::sink::WaysOfControl;
use rtsp_book::{Refusal, SessionView};
use rtsp_content::{Players, Presentation};
use rtsp_grammar::write_request;
use rtsp_lock::Numbers;
use rtsp_record::Phase;
use rtsp_sockets::{Content, Message};
use rtsp_state::notify;
use std::alloc::{AllocError, Global};
use std::sync::Wait;

// After how many milliseconds the report of a play is tried again for which there was no memory.
const REPORT_AGAIN: u64 = 1_000;

// How many milliseconds after its report a play says goodbye. Over UDP RTCP may overtake the last
// packets, or be read before them, and then GStreamer drops these.
const GOODBYE_AFTER: u64 = 250;

impl PacedPlay {
    // Ends the play. Where that is refused, as for want of room in the journal, it is tried again
    // a unit later.
    pub(super) fn finish<R: Wait, N: Numbers>(
        &mut self,
        alloc: Global,
        desk: &mut PacerDesk<'_, R, N>,
        content: &Content,
        presentation: &Presentation,
        moment: u64,
    ) -> Next {
        let unit_ms = presentation.unit_ms();
        match desk.finish(self.session(), unit_ms, moment) {
            Ok(()) => {
                self.stage = Stage::Finished;
                self.report(alloc, desk, content, presentation, moment)
            }
            Err(Refusal::NoSession | Refusal::WrongState) => Next::Never,
            Err(_) => Next::At(moment.saturating_add(u64::from(unit_ms.ms()))),
        }
    }

    // Tells the connection that asked for the play of its end, unless the session has gone on. The
    // streams of GStreamer say goodbye a moment later: it waits for that.
    pub(super) fn report<R: Wait, N: Numbers>(
        &mut self,
        alloc: Global,
        desk: &mut PacerDesk<'_, R, N>,
        content: &Content,
        presentation: &Presentation,
        moment: u64,
    ) -> Next {
        let Some(view) = desk.look(self.session()) else {
            return Next::Never;
        };
        match self.put_report(alloc, desk, &view, presentation, moment) {
            Ok(()) => {
                desk.paced.reported = desk.paced.reported.saturating_add(1);
                self.stage = Stage::Reported;
                match content.table.server().players {
                    Players::Strict => Next::Never,
                    Players::Gstreamer => Next::At(moment.saturating_add(GOODBYE_AFTER)),
                }
            }
            Err(AllocError) => Next::At(moment.saturating_add(REPORT_AGAIN)),
        }
    }

    fn put_report<R: Wait, N: Numbers>(
        &self,
        alloc: Global,
        desk: &PacerDesk<'_, R, N>,
        view: &SessionView,
        presentation: &Presentation,
        moment: u64,
    ) -> Result<(), AllocError> {
        let Phase::Ended { .. } = view.phase() else {
            return Ok(());
        };
        let NewPlay { begun, conn } = &self.asked;
        let noted = &begun.noted;
        // A connection that was closed is told nothing.
        let Some(outlet) = desk.parts.outlets.get(desk.rt, *conn) else {
            return Ok(());
        };
        let cseq = outlet.next_cseq(desk.rt);
        let request = notify(alloc, &noted.uri, view, presentation, cseq, noted.cseq)?;
        let mut text = Vec::new(alloc);
        write_request(&mut text, &request)?;
        outlet.put(desk.rt, moment, Message::Response, text.as_slice());
        Ok(())
    }

    // Says goodbye for the streams of the play, unless the session has gone on.
    pub(super) fn say_goodbye<R: Wait, N: Numbers>(
        &self,
        desk: &mut PacerDesk<'_, R, N>,
        phase: Phase,
        moment: u64,
    ) {
        if let Phase::Ended { .. } = phase {
            let mut sink = WaysOfControl {
                rt: desk.rt,
                ways: &self.ways,
                now: moment,
            };
            self.pacer.say_goodbye(&mut desk.room.packets, &mut sink);
        }
    }
}
