//! Threads that sleep until the lock is free: each gets it in the end. Where a wake-up is lost a
//! thread sleeps for ever, and the test doesn't end.

ghost use Rattle.std.specs.Prelude.{All, IfOk};
ghost use Rattle.rtsp_lock.specs.Calls.{IsSeatOf, SameSeat};

use crate::threads::{TURNS, open_and_end, opening};
use crate::world::SMALL;
use rtsp_book::Step;
use rtsp_lock::{BookLock, BookSeat, open};
use rtsp_record::Whole;
use std::alloc::{AllocError, Global};
use std::sync::Wait;
use std::sync::atomic::{AtomicBool, Ordering};
use std::test::Fail;
use std::thread;
use std::thread::Threads;

// Far more than there are cores.
const THREADS: u64 = 64;

// Room for all sessions at once, and for their entries without a checkpoint.
const CROWDED: Whole = Whole {
    sessions: 64,
    journal: 20_000,
    ..SMALL
};

#[test]
fn each_of_64_threads_gets_the_lock(rt: HostRuntime) -> Result<(), Fail> {
    let (lock, mut first) = open(rt.alloc(), &CROWDED)?;
    let seats = seats_of(&rt, rt.alloc(), &lock, &mut first)?;
    open_and_end_all(&rt, &lock, seats)?;
    let kept = first.finish(&rt, lock);
    assert!(rt; kept.journal().len() as u64 == 2 * THREADS * TURNS);
    assert!(rt; kept.next_number() == 1 + THREADS + THREADS * TURNS);
    Ok(())
}

// As many seats as threads.
fn seats_of<R: Wait>(
    rt: &R,
    alloc: Global,
    lock: &BookLock,
    first: &mut BookSeat,
) -> Result<Vec<BookSeat>, Fail>
    requires { IsSeatOf first.old lock.now }
    ensures same { SameSeat first.old first.new }
    ensures all { IfOk result (λ v. All (λ s. IsSeatOf s lock.now) v.items) }
{
    let mut seats = Vec::new(alloc);
    for _ in 0..THREADS {
        seats.push(first.split(rt, lock)?)?;
    }
    Ok(seats)
}

fn open_and_end_all<R: Threads + Wait + Sync>(
    rt: &R,
    lock: &BookLock,
    seats: Vec<BookSeat>,
) -> Result<Vec<()>, AllocError>
    requires { All (λ s. IsSeatOf s lock.now) seats.items }
{
    thread::map_vec(
        rt,
        seats,
        &|seat|
            requires { IsSeatOf seat lock.now }
        { open_and_end(rt, lock, seat) },
    )
}

// Room for the entries of so many sessions, so that a checkpoint takes long enough for the other to
// fall asleep.
const FULL: Whole = Whole {
    journal: 4_000,
    ..SMALL
};

// So many sessions fill that journal ten times.
const SESSIONS: u64 = 20_000;

// With two seats nobody else would wake the one that a wake-up was lost of.
#[test]
fn who_slept_while_room_was_made_is_woken(rt: HostRuntime) -> Result<(), Fail> {
    let (lock, mut first) = open(rt.alloc(), &FULL)?;
    let other = first.split(&rt, &lock)?;
    assert!(rt; fill_and_look(&rt, &lock, first, other) == SESSIONS);
    Ok(())
}

// How many sessions one seat opened and ended, while the other looked.
fn fill_and_look<R: Threads + Wait + Sync>(
    rt: &R,
    lock: &BookLock,
    one: BookSeat,
    two: BookSeat,
) -> u64
    requires one { IsSeatOf one lock.now }
    requires two { IsSeatOf two lock.now }
{
    let at_work = AtomicBool::new(true);
    let at_work = &at_work;
    let (ended, ()) = thread::join(
        rt,
        move || -> u64
            requires { IsSeatOf one lock.now }
        { fill(rt, lock, one, at_work) },
        move ||
            requires { IsSeatOf two lock.now }
        { look_on(rt, lock, two, at_work) },
    );
    ended
}

fn fill<R: Wait>(rt: &R, lock: &BookLock, mut seat: BookSeat, at_work: &AtomicBool) -> u64
    requires { IsSeatOf seat lock.now }
{
    let mut ended = 0u64;
    for _ in 0..SESSIONS {
        if opens_and_ends(rt, lock, &mut seat) {
            ended = ended.saturating_add(1);
        }
    }
    at_work.store(false, Ordering::SeqCst);
    ended
}

// Whether a session of a number drawn was opened and ended.
fn opens_and_ends<R: Wait>(rt: &R, lock: &BookLock, seat: &mut BookSeat) -> bool
    requires { IsSeatOf seat.old lock.now }
    ensures { SameSeat seat.old seat.new }
{
    let Ok(session) = seat.draw(rt, lock) else {
        return false;
    };
    seat.act(rt, lock, &opening(session)).is_ok()
        && seat.act(rt, lock, &Step::End { session }).is_ok()
}

fn look_on<R: Wait>(rt: &R, lock: &BookLock, mut seat: BookSeat, at_work: &AtomicBool)
    requires { IsSeatOf seat lock.now }
{
    for _ in rt.forever() {
        if !at_work.load(Ordering::SeqCst) {
            return;
        }
        let _ = seat.phase(rt, lock, 0);
    }
    unreachable!()
}
