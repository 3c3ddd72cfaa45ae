//! Threads at one lock, each with a seat of its own.

ghost use Rattle.std.specs.Prelude.{IfOk};
ghost use Rattle.rtsp_record.specs.Choices.{HasPorts};
ghost use Rattle.rtsp_book.specs.Replies.{IsAskable};
ghost use Rattle.rtsp_lock.specs.Calls.{IsSeatOf, SameSeat};
ghost use Rattle.rtsp_admit.specs.Steps.{HasWish};

use crate::steps::{RATE, stream};
use crate::world::SMALL;
use rtsp_admit::{BindFault, Binder, admit};
use rtsp_book::{Admitted, Ask, BookRep, Life, NumbersSpent, Opening, Refusal, Step, Wanted};
use rtsp_lock::{BookLock, BookSeat, open};
use rtsp_record::{Entry, Id, Whole};
use std::process::Abort;
use std::sync::Wait;
use std::sync::atomic::{AtomicBool, Ordering};
use std::test::Fail;
use std::thread;
use std::thread::Threads;
use std::time::{Clock, Duration};

// So many sessions are opened and ended by each thread.
pub const TURNS: u64 = 100;

#[test]
fn four_threads_leave_one_journal(rt: HostRuntime) -> Result<(), Fail> {
    let (lock, mut first) = open(rt.alloc(), &SMALL)?;
    let two = two_seats(&rt, &lock, &mut first)?;
    let more = two_seats(&rt, &lock, &mut first)?;
    by_four(&rt, &lock, two, more);
    let kept = first.finish(&rt, lock);
    assert!(rt; is_of_four(kept.journal()) && kept.next_number() == 405);
    Ok(())
}

fn two_seats<R: Wait>(
    rt: &R,
    lock: &BookLock,
    first: &mut BookSeat,
) -> Result<(BookSeat, BookSeat), NumbersSpent>
    requires { IsSeatOf first.old lock.now }
    ensures same { SameSeat first.old first.new }
    ensures seats { IfOk result (λ s. IsSeatOf s.0 lock.now × IsSeatOf s.1 lock.now) }
{
    let one = first.split(rt, lock)?;
    let two = first.split(rt, lock)?;
    Ok((one, two))
}

// Whether each actor from 1 to 4 has its entries, and no other has any.
fn is_of_four(journal: &[Entry]) -> bool {
    for actor in 1..5u64 {
        if journal.iter().filter(|entry| entry.actor == actor).count() != 200 {
            return false;
        }
    }
    journal.len() == 800
}

fn by_two<R: Threads + Wait + Sync>(rt: &R, lock: &BookLock, one: BookSeat, two: BookSeat)
    requires one { IsSeatOf one lock.now }
    requires two { IsSeatOf two lock.now }
{
    thread::join(
        rt,
        move ||
            requires { IsSeatOf one lock.now }
        { open_and_end(rt, lock, one) },
        move ||
            requires { IsSeatOf two lock.now }
        { open_and_end(rt, lock, two) },
    );
}

fn by_four<R: Threads + Wait + Sync>(
    rt: &R,
    lock: &BookLock,
    two: (BookSeat, BookSeat),
    more: (BookSeat, BookSeat),
)
    requires two { IsSeatOf two.0 lock.now × IsSeatOf two.1 lock.now }
    requires more { IsSeatOf more.0 lock.now × IsSeatOf more.1 lock.now }
{
    let (a, b) = two;
    let (c, d) = more;
    thread::join(
        rt,
        move ||
            requires a { IsSeatOf a lock.now }
            requires b { IsSeatOf b lock.now }
        { by_two(rt, lock, a, b) },
        move ||
            requires c { IsSeatOf c lock.now }
            requires d { IsSeatOf d lock.now }
        { by_two(rt, lock, c, d) },
    );
}

// Opens and ends sessions, one after another.
pub fn open_and_end<R: Wait>(rt: &R, lock: &BookLock, mut seat: BookSeat)
    requires { IsSeatOf seat lock.now }
{
    for _ in 0..TURNS {
        let _ = one_session(rt, lock, &mut seat);
    }
}

// Opens a session of a number drawn, and ends it.
fn one_session<R: Wait>(rt: &R, lock: &BookLock, seat: &mut BookSeat) -> Result<(), NumbersSpent>
    requires { IsSeatOf seat.old lock.now }
    ensures { SameSeat seat.old seat.new }
{
    let session = seat.draw(rt, lock)?;
    let _ = seat.act(rt, lock, &opening(session));
    let _ = seat.act(rt, lock, &Step::End { session });
    Ok(())
}

pub fn opening(session: u64) -> Step
    ensures { IsAskable result }
{
    Step::Open(Life {
        session,
        id: Id::new(u128::from(session)),
        conn: 1,
        expires: 60_000,
    })
}

const ONE_PAIR: Whole = Whole { pairs: 1, ..SMALL };

#[test]
fn two_threads_admit_into_one_pair(rt: HostRuntime) -> Result<(), Fail> {
    assert!(rt; contend(&rt, &ONE_PAIR, true)? == (1, 1, 1, None));
    Ok(())
}

// One binds only when the other is answered.
#[test]
fn a_bind_keeps_nobody_waiting(rt: HostRuntime) -> Result<(), Fail> {
    assert!(rt; contend(&rt, &SMALL, false)? == (2, 0, 2, None));
    Ok(())
}

// What two admissions at once came to: how many were granted, how many found no pair, how many
// sessions live, and which pair is free. The first binds once the second is answered, or at once where
// `is_answered` says that the second counts as answered from the beginning.
fn contend<R: AllocGlobal + Threads + Wait + Clock + Sync>(
    rt: &R,
    whole: &Whole,
    is_answered: bool,
) -> Result<(usize, usize, usize, Option<u16>), Fail>
    requires { HasPorts whole.now }
{
    let (lock, mut first) = open(rt.alloc(), whole)?;
    let (one, two) = two_seats(rt, &lock, &mut first)?;
    let answered = AtomicBool::new(is_answered);
    let (one, two) = admit_both(rt, &lock, one, two, &answered);
    let kept = first.finish(rt, lock);
    let book = kept.book();
    Ok((
        count(one.is_ok(), two.is_ok()),
        count(one == Err(Refusal::NoPair), two == Err(Refusal::NoPair)),
        book.living(),
        book.least_pair(0),
    ))
}

fn count(one: bool, two: bool) -> usize {
    usize::from(one) + usize::from(two)
}

fn admit_both<R: Threads + Wait + Clock + Sync>(
    rt: &R,
    lock: &BookLock,
    one: BookSeat,
    two: BookSeat,
    answered: &AtomicBool,
) -> (Result<Admitted, Refusal>, Result<Admitted, Refusal>)
    requires one { IsSeatOf one lock.now }
    requires two { IsSeatOf two lock.now }
{
    let at_once = AtomicBool::new(true);
    let at_once = &at_once;
    thread::join(
        rt,
        move || -> Result<Admitted, Refusal>
            requires { IsSeatOf one lock.now }
        { admit_pair(rt, lock, one, 4, answered, at_once) },
        move || -> Result<Admitted, Refusal>
            requires { IsSeatOf two lock.now }
        { admit_pair(rt, lock, two, 6, at_once, answered) },
    )
}

// Admits into a pair, which is bound once `before` is set, and then sets `after`.
fn admit_pair<R: Wait + Clock>(
    rt: &R,
    lock: &BookLock,
    mut seat: BookSeat,
    session: u64,
    before: &AtomicBool,
    after: &AtomicBool,
) -> Result<Admitted, Refusal>
    requires { IsSeatOf seat lock.now }
{
    let mut binder = Waits {
        rt,
        before,
        failures: 0,
    };
    let answer = admit(rt, &mut seat, lock, &mut binder, &ask(session));
    after.store(true, Ordering::SeqCst);
    answer
}

// Asks for a pair in a new session; the admission has the next number.
fn ask(session: u64) -> Ask
    ensures { HasWish result.wanted }
{
    let admission = session.saturating_add(1);
    Ask {
        session,
        admission,
        opening: Some(Opening {
            id: u128::from(session),
            conn: 1,
            expires: 60_000,
        }),
        rate: RATE,
        wanted: Wanted::Pair,
        stream: stream(admission, 0, 8000, 8001),
        startup: None,
    }
}

// Binds once this is set, and refuses after 10,000 turns of a millisecond.
#[derive(Drop)]
struct Waits<'r, 'a, R> {
    rt: &'r R,
    before: &'a AtomicBool,
    failures: u64,
}

impl<R: Clock> Waits<'_, '_, R> {
    fn is_time(&self) -> bool {
        for _ in 0..10_000u32 {
            if self.before.load(Ordering::SeqCst) {
                return true;
            }
            thread::sleep(self.rt, Duration::from_millis(1));
        }
        false
    }
}

impl<R: Clock> Binder for Waits<'_, '_, R> {
    ghost use Rattle.std.specs.Prelude.{⊤};

    ghost calls = { record { binds = λ b a p c. ⊤; fails = λ b a p c. ⊤; unbinds = λ b a p c. ⊤; failures = λ b. b.failures } };

    fn bind(&mut self, _admission: u64, _pair: u16) -> Result<(), BindFault> {
        if self.is_time() {
            return Ok(());
        }
        self.failures = self.failures.saturating_add(1);
        Err(BindFault)
    }

    fn unbind(&mut self, _admission: u64, _pair: u16) {}

    fn bind_port(&mut self, admission: u64, port: u16) -> Result<(), BindFault> {
        self.bind(admission, port)
    }

    fn unbind_port(&mut self, admission: u64, port: u16) {
        self.unbind(admission, port)
    }
}
