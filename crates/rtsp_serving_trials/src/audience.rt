//! Who watches what, as the status listener has it.

use rtsp_metrics::{Audience, FilmFigures, SessionSums, Transport, Viewing};
use std::alloc::AllocError;

fn viewing(session: u64, film: u16, transport: Transport) -> Viewing {
    Viewing {
        session,
        id: (0x0a1b_2c3du128 << 96) + u128::from(session),
        peer: 0x7f00_0001,
        conn: 7,
        film,
        transport,
        since: 5,
    }
}

#[test]
fn who_watches_what_is_known(rt: HostRuntime) -> Result<(), AllocError> {
    let audience = Audience::open(rt.alloc(), 2)?;
    let one = viewing(28, 1, Transport::Udp);
    audience.enter(&rt, one);
    audience.enter(&rt, one);
    audience.enter(&rt, viewing(29, 1, Transport::Tcp));
    assert!(rt; one.digits() == 0x0a1b_2c3d);
    assert!(rt; audience.number_of(&rt, one.id) == Some(28));
    assert!(rt; audience.viewing(&rt, 28) == Some(one) && audience.viewing(&rt, 30).is_none());
    assert!(rt; audience.next(&rt, 29).map(|it| it.viewing.session) == Some(29));
    assert!(rt; audience.next_of(&rt, 7, 28).is_some() && audience.next_of(&rt, 8, 0).is_none());
    if let Some(counts) = audience.play(&rt, 28) {
        counts.add(500, 2, 40);
        counts.add(3, 0, 41);
    }
    audience.sent(1, Transport::Udp, 80_000);
    audience.sent(2, Transport::Udp, 1);
    let udp = FilmFigures {
        sessions: 1,
        plays: 1,
        bytes: 80_000,
    };
    assert!(rt; audience.film(1, Transport::Udp) == Some(udp));
    assert!(rt; audience.film(2, Transport::Udp).is_none());
    let sums = SessionSums {
        sent: 503,
        lost: 2,
        late: 3,
    };
    assert!(rt; audience.leave(&rt, 28).map(|it| it.sums) == Some(sums));
    assert!(rt; audience.leave(&rt, 28).is_none() && audience.number_of(&rt, one.id).is_none());
    assert!(rt; audience.film(1, Transport::Udp).map(|it| it.sessions) == Some(0));
    Ok(())
}

// It is told the second time in a row that a session doesn't live.
#[test]
fn who_is_missing_twice_is_gone(rt: HostRuntime) -> Result<(), AllocError> {
    let audience = Audience::open(rt.alloc(), 1)?;
    audience.enter(&rt, viewing(28, 0, Transport::Tcp));
    assert!(rt; !audience.note_living(&rt, 28, false) && !audience.note_living(&rt, 28, true));
    assert!(rt; !audience.note_living(&rt, 28, false) && audience.note_living(&rt, 28, false));
    Ok(())
}
