//! Hears the RTCP that comes on a connection.

use crate::channels::Channels;
use crate::desk::Desk;
use rtsp_lock::BookHandle;
use rtsp_pacing::{Bells, Report, hear, report_step};
use std::sync::Wait;

/// Whose RTCP a connection hears: that of the session whose play was begun on it last.
#[derive(Clone, Copy)]
pub(crate) struct Hearing {
    session: Option<u64>,
    // The channels that were looked at since this moment.
    since: u64,
    looked: Channels,
}

impl Hearing {
    /// That of a connection on which no play was begun.
    pub(crate) fn new() -> Hearing {
        Hearing {
            session: None,
            since: 0,
            looked: Channels::none(),
        }
    }

    /// A play of this session was begun.
    pub(crate) fn expect(&mut self, session: u64) {
        self.session = Some(session);
        self.looked = Channels::none();
    }

    /// Whether so many plays wait for the pacer of that session that the connection isn't read now.
    pub(crate) fn is_held_up(&self, bells: &Bells) -> bool {
        match self.session.and_then(|session| bells.of(session)) {
            Some(bell) => bell.is_crowded(),
            None => false,
        }
    }

    /// Frames came on these channels of the connection. They are signs of life of the session, whose end
    /// moves by steps: within one such step each channel is looked at once.
    pub(crate) fn hear<R: Wait>(
        &mut self,
        desk: &Desk<'_, R>,
        handle: &mut BookHandle,
        conn: u64,
        heard: Channels,
    ) {
        let Some(session) = self.session else {
            return;
        };
        let moment = desk.now;
        let step = report_step(&desk.table.server());
        if moment.saturating_sub(self.since) >= step {
            self.looked = Channels::none();
        }
        let new = heard.without(self.looked);
        if new.is_empty() {
            return;
        }
        if self.looked.is_empty() {
            self.since = moment;
        }
        desk.recorded.note();
        for channel in 0..=u8::MAX {
            if new.has(channel) {
                self.looked = self.looked.with(channel);
                let report = Report {
                    conn,
                    channel,
                    moment,
                };
                let BookHandle { lock, seat } = &mut *handle;
                hear(desk.rt, seat, lock, desk.table, session, report);
            }
        }
    }
}
