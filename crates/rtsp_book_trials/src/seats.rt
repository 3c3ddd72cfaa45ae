//! Dialogues at a lock with two seats: the first acts and admits, and the other one does what is
//! asked in between, and binds the ports of admissions.

ghost use Rattle.std.specs.Prelude.{IfSome};
ghost use Rattle.rtsp_record.specs.Choices.{HasPorts};
ghost use Rattle.rtsp_lock.specs.Calls.{IsSeatOf, SameSeat};
ghost use Rattle.rtsp_admit.specs.Steps.{HasWish};

use crate::answers::{write_answer, write_fault, write_number, write_word};
use crate::kept_books::{answers, expect};
use crate::lines::{Line, read_line};
use crate::other_seat::OtherSeat;
use crate::steps::{RATE, step_of, stream};
use rtsp_admit::{admit, unbind_freed};
use rtsp_book::{Admitted, Ask, Opening, Receipt, Refusal, Startup, Step, Wanted};
use rtsp_expiry::{Swept, hang_up, sweep};
use rtsp_journal_text::{Field, write_line};
use rtsp_lock::{BookLock, BookSeat, open};
use rtsp_record::{Thing, Whole};
use std::alloc::{AllocError, Global};
use std::process::Abort;
use std::sync::Wait;

// Answers a line. Beside the steps of the first seat, after each of which the ports that it freed
// are unbound, there are
//
// - `admit-pair`, `admit-port` and `admit-channels SESSION ADMISSION LEAST-PORT TRACK`, where ports
//   can be bound from that one on, and `add-pair` .. for the same in a session that lives;
// - `sweep NOW LIMIT` and `hang-up CONNECTION LIMIT`;
// - `renew SESSION FROM TIMES`, by a millisecond at a time, and `draw`;
// - what the other seat is asked for.
fn answer<R: Wait>(
    rt: &R,
    lock: &BookLock,
    seat: &mut BookSeat,
    other: &mut OtherSeat<'_, '_, R>,
    line: &Line,
) -> Result<(), AllocError>
    requires { IsSeatOf seat.old lock.now }
    ensures { SameSeat seat.old seat.new }
{
    match line.word {
        "sweep" | "hang-up" => {
            let swept = swept(rt, lock, seat, other, line);
            write_swept(&mut other.said, swept)
        }
        "renew" => {
            let renewed = renewed(rt, lock, seat, line.numbers);
            write_number(&mut other.said, b"renewed", renewed)
        }
        "draw" => match seat.draw(rt, lock) {
            Ok(number) => write_number(&mut other.said, b"drawn", number),
            Err(spent) => write_fault(&mut other.said, other.alloc, &spent),
        },
        _ => match ask_of(line) {
            Some(ask) => {
                other.least = line.numbers[2];
                let answer = admit(rt, seat, lock, other, &ask);
                write_admitted(&mut other.said, other.alloc, answer)
            }
            None => act(rt, lock, seat, other, line),
        },
    }
}

fn act<R: Wait>(
    rt: &R,
    lock: &BookLock,
    seat: &mut BookSeat,
    other: &mut OtherSeat<'_, '_, R>,
    line: &Line,
) -> Result<(), AllocError>
    requires { IsSeatOf seat.old lock.now }
    ensures { SameSeat seat.old seat.new }
{
    match step_of(line) {
        Some(step) => {
            let mut made = Receipt::new();
            let answer = seat.act_into(rt, lock, &step, &mut made);
            write_answer(&mut other.said, other.alloc, answer, &made)?;
            unbind_freed(other, &made);
            Ok(())
        }
        None => other.answer(line),
    }
}

/// How often a session was renewed, by a millisecond at a time.
pub fn renewed<R: Wait>(rt: &R, lock: &BookLock, seat: &mut BookSeat, numbers: [u64; 5]) -> u64
    requires { IsSeatOf seat.old lock.now }
    ensures { SameSeat seat.old seat.new }
{
    let [session, from, times, ..] = numbers;
    for turn in 0..times {
        let until = from.saturating_add(turn);
        if seat.act(rt, lock, &Step::Touch { session, until }).is_err() {
            return turn;
        }
    }
    times
}

// What a line asks to be admitted.
fn ask_of(line: &Line) -> Option<Ask>
    ensures { IfSome result (λ a. HasWish a.wanted) }
{
    let wanted = match line.word {
        "admit-pair" | "add-pair" => Wanted::Pair,
        "admit-port" | "add-port" => Wanted::Port,
        "admit-channels" | "add-channels" => Wanted::Channels {
            conn: 1,
            wish: None,
        },
        _ => return None,
    };
    let [session, admission, _least, track, startup] = line.numbers;
    Some(Ask {
        session,
        admission,
        opening: opening(line),
        rate: RATE,
        wanted,
        stream: stream(admission, track, 8000, 8001),
        startup: startup_of(startup),
    })
}

fn opening(line: &Line) -> Option<Opening> {
    let [session, ..] = line.numbers;
    if line.word.starts_with("add") {
        return None;
    }
    Some(Opening {
        id: u128::from(session),
        conn: 1,
        expires: 60_000,
    })
}

// A startup number of connection 1, where it isn't 0.
fn startup_of(number: u64) -> Option<Startup> {
    match number {
        0 => None,
        _ => Some(Startup {
            conn: 1,
            number: number.min(0xffff_ffff) as u32,
        }),
    }
}

fn swept<R: Wait>(
    rt: &R,
    lock: &BookLock,
    seat: &mut BookSeat,
    other: &mut OtherSeat<'_, '_, R>,
    line: &Line,
) -> Swept
    requires { IsSeatOf seat.old lock.now }
    ensures { SameSeat seat.old seat.new }
{
    let [first, second, ..] = line.numbers;
    let limit = second.min(0xffff_ffff) as u32;
    match line.word {
        "sweep" => sweep(rt, seat, lock, other, first, limit),
        _ => hang_up(rt, seat, lock, other, first, limit),
    }
}

// How many steps were accepted, the session of the last, and whether there may be more.
fn write_swept(out: &mut Vec<u8>, swept: Swept) -> Result<(), AllocError> {
    write_line(
        out,
        &[
            Field::Word(b"swept"),
            Field::Number(u64::from(swept.ended)),
            Field::Word(b"last"),
            Field::Number(swept.last.unwrap_or(0)),
            Field::Word(if swept.more { b"more" } else { b"done" }),
        ],
    )
}

fn write_admitted(
    out: &mut Vec<u8>,
    alloc: Global,
    answer: Result<Admitted, Refusal>,
) -> Result<(), AllocError> {
    match answer {
        Ok(admitted) => match admitted.address {
            Thing::Pair(port) => write_number(out, b"admitted pair", u64::from(port)),
            Thing::Port(port) => write_number(out, b"admitted port", u64::from(port)),
            Thing::Chan(_, channel) => write_number(out, b"admitted channels", u64::from(channel)),
            Thing::Rate(bits) => write_number(out, b"admitted rate", bits),
        },
        Err(refusal) => write_fault(out, alloc, &refusal),
    }
}

// What is said by two seats until the lock is given up.
fn said_at<R: Wait>(
    rt: &R,
    alloc: Global,
    lock: &BookLock,
    seat: &mut BookSeat,
    other: BookSeat,
    dialogue: &str,
) -> Result<Vec<u8>, AllocError>
    requires own { IsSeatOf seat.old lock.now }
    requires other { IsSeatOf other lock.now }
    ensures { SameSeat seat.old seat.new }
{
    let mut other = OtherSeat::new(rt, lock, other, alloc);
    for line in dialogue.lines() {
        if let Some(asked) = line.strip_prefix("> ") {
            write_word(&mut other.said, line.as_bytes())?;
            answer(rt, lock, seat, &mut other, &read_line(asked))?;
        }
    }
    Ok(other.said)
}

// What is said in such a dialogue.
fn answers_at_lock<R: AllocGlobal + Wait>(rt: &R, whole: &Whole, dialogue: &str) -> Option<Vec<u8>>
    requires { HasPorts whole.now }
{
    let (before, after) = dialogue.split_once("> finish\n")?;
    let (lock, mut seat) = open(rt.alloc(), whole).ok()?;
    let other = seat.split(rt, &lock).ok()?;
    let mut said = said_at(rt, rt.alloc(), &lock, &mut seat, other, before).ok()?;
    write_word(&mut said, b"> finish").ok()?;
    answers(rt.alloc(), seat.finish(rt, lock), said, after).ok()
}

/// Holds a dialogue at a lock of an empty book. The line `> finish` gives the lock up, and what
/// stands behind it is asked of the kept book that was in it.
pub fn converse_at_lock<R: AllocGlobal + Abort + Wait>(rt: &R, whole: &Whole, dialogue: &str)
    requires { HasPorts whole.now }
{
    expect(rt, answers_at_lock(rt, whole, dialogue), dialogue)
}
