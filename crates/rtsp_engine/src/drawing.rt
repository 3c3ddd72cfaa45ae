//! What is drawn for an admission: words, and then numbers.

ghost use Rattle.std.specs.Prelude.{◌≡◌, IfOk, IfErr, OnErr};
ghost use Rattle.rtsp_lock.specs.Calls.{seat_view, IsSeatOf, SameSeat};
ghost use Rattle.rtsp_engine.specs.Drawing.{opens, GivesId, LacksId, GivesWords, LacksWord, Draws, DrawsNone, DrawsNumbers, LacksNumber};

use rtsp_book::NumbersSpent;
use rtsp_lock::{BookLock, BookSeat, Numbers};
use rtsp_state::{SessionKey, SetupSession};
use rtsp_traits::{Words, WordsFault};
use std::sync::Wait;

// The words of an admission. A living session keeps its id: then none is drawn, and `id` is 0.
#[derive(Clone, Copy)]
pub(crate) struct GivenWords {
    pub(crate) id: u128,
    pub(crate) ssrc: u32,
    pub(crate) seq: u16,
    pub(crate) rtptime: u32,
}

// The first word that can't be had.
#[derive(Clone, Copy)]
pub(crate) enum Lacking {
    Id,
    Ssrc,
    Seq,
    Rtptime,
}

// The numbers of an admission: its session's key, and its own.
#[derive(Clone, Copy)]
pub(crate) struct AdmissionNumbers {
    pub(crate) key: SessionKey,
    pub(crate) admission: u64,
}

// The first number that isn't left.
#[derive(Clone, Copy)]
pub(crate) enum Spent {
    Session,
    Admission,
}

pub(crate) fn opens(session: SetupSession) -> bool
    ensures { result ≡ opens session }
{
    matches!(session, SetupSession::New { .. })
}

// An id, where a session is opened.
fn id_where<W: Words>(words: &mut W, opens: bool) -> Result<u128, WordsFault>
    ensures ok { IfOk result (λ word. GivesId W.calls opens word words.old words.new) }
    ensures err { OnErr result (LacksId W.calls opens words.old words.new) }
{
    if opens { words.id() } else { Ok(0) }
}

// The words of an admission, in this order.
pub(crate) fn draw_words<W: Words>(words: &mut W, opens: bool) -> Result<GivenWords, Lacking>
    ensures ok { IfOk result (λ given. GivesWords W.calls opens given words.old words.new) }
    ensures err { IfErr result (λ at. LacksWord W.calls opens at words.old words.new) }
{
    let Ok(id) = id_where(words, opens) else {
        return Err(Lacking::Id);
    };
    let Ok(ssrc) = words.ssrc() else {
        return Err(Lacking::Ssrc);
    };
    let Ok(seq) = words.seq() else {
        return Err(Lacking::Seq);
    };
    let Ok(rtptime) = words.rtptime() else {
        return Err(Lacking::Rtptime);
    };
    Ok(GivenWords {
        id,
        ssrc,
        seq,
        rtptime,
    })
}

// One number.
fn draw<R: Wait, N: Numbers>(
    rt: &R,
    seat: &mut BookSeat,
    lock: &BookLock<N>,
) -> Result<u64, NumbersSpent>
    requires { IsSeatOf seat.old lock.now }
    ensures same { SameSeat seat.old seat.new }
    ensures ok { IfOk result (λ n. Draws n (seat_view seat.old) (seat_view seat.new)) }
    ensures err { OnErr result (DrawsNone (seat_view seat.old) (seat_view seat.new)) }
{
    seat.draw(rt, lock)
}

// The number of a session that is opened, then the admission's. A new session gets this id.
pub(crate) fn draw_numbers<R: Wait, N: Numbers>(
    rt: &R,
    seat: &mut BookSeat,
    lock: &BookLock<N>,
    session: SetupSession,
    id: u128,
) -> Result<AdmissionNumbers, Spent>
    requires { IsSeatOf seat.old lock.now }
    ensures same { SameSeat seat.old seat.new }
    ensures ok { IfOk result (λ n. DrawsNumbers session id n (seat_view seat.old) (seat_view seat.new)) }
    ensures err { IfErr result (λ at. LacksNumber session at (seat_view seat.old) (seat_view seat.new)) }
{
    match session {
        SetupSession::New { .. } => match draw(rt, seat, lock) {
            Ok(session) => match draw(rt, seat, lock) {
                Ok(admission) => Ok(AdmissionNumbers {
                    key: SessionKey { session, id },
                    admission,
                }),
                Err(NumbersSpent) => Err(Spent::Admission),
            },
            Err(NumbersSpent) => Err(Spent::Session),
        },
        SetupSession::Living(key) => match draw(rt, seat, lock) {
            Ok(admission) => Ok(AdmissionNumbers { key, admission }),
            Err(NumbersSpent) => Err(Spent::Admission),
        },
    }
}
