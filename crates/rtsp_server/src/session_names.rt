//! The sessions of answers, as the log names them, and who watches what by them.

use rtsp_engine::Asker;
use rtsp_log::SessionName;
use rtsp_metrics::{Audience, Transport, Viewing, first_digits};
use rtsp_watch::Told;
use std::sync::Wait;

/// The session that an answer names, or that the request has ended.
pub(crate) fn named<R: Wait>(rt: &R, audience: &Audience, told: &Told<'_>) -> Option<SessionName> {
    if let Some(life) = told.ended {
        return Some(SessionName::Known {
            number: life.session,
            digits: first_digits(life.id.number()),
        });
    }
    let digits = told.session()?;
    let number = match told.set_up {
        Some(setup) => Some(setup.session),
        None => audience.number_of(rt, told.id()?),
    };
    Some(match number {
        Some(number) => SessionName::Known { number, digits },
        None => SessionName::Digits(digits),
    })
}

/// Who watches what by a session in which a request has set up a track, at this moment.
pub(crate) fn viewing_of(told: &Told<'_>, asker: Asker, now: u64) -> Option<Viewing> {
    let setup = told.set_up?;
    let transport = if setup.stream.rtp_port == 0 {
        Transport::Tcp
    } else {
        Transport::Udp
    };
    Some(Viewing {
        session: setup.session,
        id: told.id()?,
        peer: asker.peer,
        conn: asker.conn,
        film: setup.stream.presentation,
        transport,
        since: now,
    })
}
