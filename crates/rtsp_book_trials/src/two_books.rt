//! A plain and an indexed book side by side. Each is asked the same at random, and both say the same.

ghost use Rattle.rtsp_record.specs.Choices.{HasPorts};

use crate::kept_books::Partner;
use crate::lines::Line;
use rtsp_book::{BookRep, PlainBook};
use rtsp_index::IndexedBook;
use rtsp_record::Whole;
use std::alloc::{AllocError, Global};

// Room for 64 sessions, but not for all that they ask.
const CROWDED: Whole = Whole {
    first_port: 5000,
    pairs: 8,
    uplink: 4_000_000,
    sessions: 64,
    journal: 1_000_000,
};

// Two books to which the same is said.
#[derive(Drop)]
struct TwoBooks {
    plain: Partner<PlainBook>,
    indexed: Partner<IndexedBook>,
    // The most sessions that lived, and the most entries that there were.
    most: usize,
    longest: usize,
}

impl TwoBooks {
    fn open(alloc: Global, whole: &Whole) -> Result<Self, AllocError>
        requires { HasPorts whole.now }
    {
        Ok(TwoBooks {
            plain: Partner::open(alloc, whole)?,
            indexed: Partner::open(alloc, whole)?,
            most: 0,
            longest: 0,
        })
    }

    // Whether both say the same.
    fn agree(&mut self, word: &str, numbers: [u64; 5]) -> Result<bool, AllocError> {
        let line = Line { word, numbers };
        self.plain.said.clear();
        self.indexed.said.clear();
        self.plain.answer(&line)?;
        self.indexed.answer(&line)?;
        self.most = self.indexed.kept.book().living().max(self.most);
        self.longest = self.indexed.kept.journal().len().max(self.longest);
        Ok(self.plain.said.as_slice() == self.indexed.said.as_slice())
    }

    // Whether both say the same, and print the same book afterwards.
    fn stay_alike(&mut self, word: &str, numbers: [u64; 5]) -> Result<bool, AllocError> {
        Ok(self.agree(word, numbers)? && self.agree("book", [0; 5])?)
    }

    // Whether both are restated alike, by so many entries.
    fn are_restated(&mut self, entries: usize) -> Result<bool, AllocError> {
        Ok(
            self.stay_alike("checkpoint", [0; 5])?
                && self.agree("journal", [0; 5])?
                && self.plain.kept.journal().len() == entries,
        )
    }

    // Whether the journals of both lead to the book that was printed last.
    fn are_replayed(&mut self) -> Result<bool, AllocError> {
        let printed = self.plain.said.clone()?;
        Ok(self.stay_alike("replay", [0; 5])? && self.plain.said.as_slice() == printed.as_slice())
    }

    // The first turn of 10,000 at random after which both differ.
    fn act_at_random(&mut self) -> Result<Option<u32>, AllocError> {
        let mut seed = 1;
        for turn in 0..10_000u32 {
            let one = next(seed);
            seed = next(one);
            let drawn = drawn_from(one, seed);
            let word = word_at(seed, one >> 26, drawn.few);
            if !self.stay_alike(word, numbers_of(word, drawn))? {
                return Ok(Some(turn));
            }
        }
        Ok(None)
    }

    // Whether both set sixteen streams of the session 2 up alike, the last under the least number.
    fn set_sixteen_up(&mut self) -> Result<bool, AllocError> {
        for track in 0..16u64 {
            if !self.set_up_alike(100 - track, track)? {
                return Ok(false);
            }
        }
        Ok(true)
    }

    // Whether both set a stream of the session 2 up alike, the first one with a startup number.
    fn set_up_alike(&mut self, admission: u64, track: u64) -> Result<bool, AllocError> {
        let last = if track == 0 { "startup" } else { "commit" };
        let numbers = [2, admission, 0, 0, 0];
        Ok(
            self.agree("rate", numbers)?
                && self.agree("port", numbers)?
                && self.agree(last, [2, admission, track, 1, 7])?,
        )
    }

    // Whether both open 200 sessions alike, the last number first, and end 70 of them.
    fn open_and_end_many(&mut self) -> Result<bool, AllocError> {
        for turn in 0..200u64 {
            let number = 1_000 - turn;
            if !self.agree("open", [number, number, 1, 60_000, 0])? {
                return Ok(false);
            }
        }
        for turn in 0..70u64 {
            if !self.agree("end", [801 + 2 * turn, 0, 0, 0, 0])? {
                return Ok(false);
            }
        }
        Ok(true)
    }
}

// The numbers of a linear congruential generator (Numerical Recipes, second edition, section 7.1).
fn next(seed: u32) -> u32 {
    seed.wrapping_mul(1_664_525).wrapping_add(1_013_904_223)
}

// What a step at random may name, drawn from two numbers.
#[derive(Clone, Copy)]
struct Draw {
    session: u64,
    admission: u64,
    conn: u64,
    moment: u64,
    few: u64,
}

fn drawn_from(one: u32, two: u32) -> Draw {
    let session = 1 + u64::from((one >> 16) % 64);
    Draw {
        session,
        admission: 1_000 + 2 * session + u64::from((one >> 13) % 2),
        conn: 1 + u64::from((two >> 24) % 8),
        moment: 1_000 * u64::from((two >> 18) % 64),
        few: u64::from((two >> 14) % 16),
    }
}

// Most of 64 kinds of steps give nothing back, so that there is something to be given back.
fn word_of(kind: u32, few: u64) -> &'static str {
    match kind {
        0..=13 => "open",
        14..=27 => "rate",
        28..=30 => "pair",
        31..=33 => "port",
        34..=41 if few < 9 => "first-channels",
        34..=41 => "channels",
        42..=49 if few < 8 => "startup",
        42..=49 => "commit",
        50..=51 => "touch",
        52..=54 => "play",
        55 => "pause",
        56 => "finish",
        57 if few < 8 => "return-rate",
        57 if few < 12 => "return-port",
        57 => "return-pair",
        58 if few == 0 => "unwind-session",
        58 => "unwind-rate",
        59..=60 => "drop-track",
        61 => "end",
        62 => "expire",
        _ => "hangup",
    }
}

// The numbers behind a word.
fn numbers_of(word: &str, drawn: Draw) -> [u64; 5] {
    let Draw {
        session,
        admission,
        conn,
        moment,
        few,
    } = drawn;
    match word {
        "open" => [session, session.saturating_add(few / 15), conn, moment, 0],
        "pair" | "port" => [session, admission, few.saturating_add(4_996), 0, 0],
        "channels" | "first-channels" => [session, admission, conn, 0, 0],
        "commit" | "startup" => [session, admission, few % 4, conn, few % 4],
        "touch" | "finish" => [session, moment.saturating_mul(2), 0, 0, 0],
        "play" | "pause" => [session, moment, 0, 0, 0],
        "return-port" | "return-pair" => [session, admission, 5_000 + moment / 1_000 % 16, 0, 0],
        "drop-track" => [session, few % 4, 0, 0, 0],
        "expire" => [moment / 16, 0, 0, 0, 0],
        "hangup" => [conn, 0, 0, 0, 0],
        _ => [session, admission, 0, 0, 0],
    }
}

// Each step is answered alike, and after each both print the same. Of 256 turns 16 take the last
// entry back, and one makes a checkpoint.
fn word_at(seed: u32, kind: u32, few: u64) -> &'static str {
    match seed >> 24 {
        0..=15 => "undo",
        16 => "checkpoint",
        _ => word_of(kind, few),
    }
}

fn stay_alike_at_random(alloc: Global) -> Result<bool, AllocError> {
    let mut both = TwoBooks::open(alloc, &CROWDED)?;
    let is_alike = both.act_at_random()?.is_none();
    Ok(is_alike && both.most > 40 && both.longest > 200 && both.are_replayed()?)
}

#[test]
fn steps_at_random_leave_both_books_alike(rt: HostRuntime) {
    assert!(rt; stay_alike_at_random(rt.alloc()) == Ok(true));
}

// A session with as many streams as it may have, each under an admission of its own. It has a
// startup number and plays, so that it ends by the most records of a step.
fn sixteen_are_restated(both: &mut TwoBooks) -> Result<bool, AllocError> {
    Ok(
        both.agree("open", [2, 1, 1, 60_000, 0])?
            && both.set_sixteen_up()?
            && both.agree("play", [2, 0, 0, 0, 0])?
            && both.are_restated(51)?
            && both.stay_alike("end", [2, 0, 0, 0, 0])?
            && both.longest == 102,
    )
}

#[test]
fn sixteen_streams_are_restated(rt: HostRuntime) -> Result<(), AllocError> {
    let mut both = TwoBooks::open(rt.alloc(), &CROWDED)?;
    assert!(rt; sixteen_are_restated(&mut both) == Ok(true));
    Ok(())
}

const MANY: Whole = Whole {
    sessions: 1_000,
    ..CROWDED
};

// More sessions than one look for the next ones finds: a table that isn't in order.
fn many_are_restated(alloc: Global) -> Result<bool, AllocError> {
    let mut both = TwoBooks::open(alloc, &MANY)?;
    Ok(both.open_and_end_many()? && both.are_restated(130)?)
}

#[test]
fn many_sessions_are_restated_in_order(rt: HostRuntime) {
    assert!(rt; many_are_restated(rt.alloc()) == Ok(true));
}
