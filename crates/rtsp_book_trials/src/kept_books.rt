//! Dialogues with a kept book. Each is held with a plain book and with an indexed one, and both
//! have to say what stands in it.

ghost use Rattle.rtsp_record.specs.Choices.{HasPorts};

use crate::answers::{write_answer, write_fault, write_number, write_word};
use crate::lines::{Line, read_line};
use crate::steps::step_of;
use rtsp_book::{BookRep, Kept, PlainBook, Receipt, Step};
use rtsp_index::IndexedBook;
use rtsp_journal_text::{Field, book_text, read_journal, write_journal, write_line, write_record};
use rtsp_record::Whole;
use rtsp_undo::{
    AuditFault, replay, replay_without_admission, replay_without_session, rewind, same_strands,
    without_ended, without_session,
};
use std::alloc::{AllocError, Global};
use std::process::Abort;

/// A kept book, and what was said so far.
#[derive(Drop)]
pub struct Partner<B: BookRep> {
    alloc: Global,
    pub kept: Kept<B>,
    // The actor of the steps.
    actor: u64,
    made: Receipt,
    pub said: Vec<u8>,
}

impl<B: BookRep> Partner<B> {
    /// An empty book.
    pub fn open(alloc: Global, whole: &Whole) -> Result<Self, AllocError>
        requires { HasPorts whole.now }
    {
        Ok(Partner::new(alloc, Kept::open(alloc, whole)?, Vec::new(alloc)))
    }

    // A book, and what was said before.
    fn new(alloc: Global, kept: Kept<B>, said: Vec<u8>) -> Self {
        Partner {
            alloc,
            kept,
            actor: 0,
            made: Receipt::new(),
            said,
        }
    }

    /// Answers a line. Beside the steps there are
    ///
    /// - `as ACTOR`, `checkpoint`, `forget` and `rewind ENTRIES`, to which nothing is said;
    /// - `renew SESSION FROM TIMES`, by a millisecond at a time, `relieve ABOVE`, `draw`, `undo`;
    /// - `replay`, `without-session SESSION`, `without-admission ADMISSION`, after which the book is
    ///   the one of that journal;
    /// - `book`, `journal`, `without-ended` and `numbers`, which are printed, and `same-strands
    ///   SESSION`: whether the journal without that session says the same of each session.
    pub fn answer(&mut self, line: &Line) -> Result<(), AllocError> {
        match line.word {
            "as" | "checkpoint" | "forget" => {
                self.change(line);
                Ok(())
            }
            "rewind" | "replay" | "without-session" | "without-admission" => self.go_back(line),
            "renew" | "relieve" | "draw" | "undo" => self.tell(line),
            "book" | "journal" | "without-ended" | "numbers" => self.print(line.word),
            "same-strands" => self.compare(line.numbers[0]),
            _ => self.act(line),
        }
    }

    fn act(&mut self, line: &Line) -> Result<(), AllocError> {
        let Some(step) = step_of(line) else {
            return write_word(&mut self.said, b"unknown");
        };
        let answer = self.kept.act_into(self.actor, &step, &mut self.made);
        write_answer(&mut self.said, self.alloc, answer, &self.made)
    }

    fn change(&mut self, line: &Line) {
        match line.word {
            "as" => self.actor = line.numbers[0],
            "checkpoint" => self.kept.checkpoint(),
            _ => self.kept.forget(),
        }
    }

    fn tell(&mut self, line: &Line) -> Result<(), AllocError> {
        match line.word {
            "renew" => {
                let renewed = self.renew(line.numbers);
                write_number(&mut self.said, b"renewed", renewed)
            }
            "relieve" if self.kept.relieve(line.numbers[0] as usize) => {
                write_word(&mut self.said, b"relieved")
            }
            "relieve" => write_word(&mut self.said, b"not due"),
            "draw" => match self.kept.draw() {
                Ok(number) => write_number(&mut self.said, b"drawn", number),
                Err(spent) => write_fault(&mut self.said, self.alloc, &spent),
            },
            _ => match self.kept.undo_last()? {
                Some(change) => write_record(&mut self.said, &change),
                None => write_word(&mut self.said, b"nothing"),
            },
        }
    }

    // How often it was renewed.
    fn renew(&mut self, numbers: [u64; 5]) -> u64 {
        let [session, from, times, ..] = numbers;
        for turn in 0..times {
            let until = from.saturating_add(turn);
            if self
                .kept
                .act(self.actor, &Step::Touch { session, until })
                .is_err()
            {
                return turn;
            }
        }
        times
    }

    fn go_back(&mut self, line: &Line) -> Result<(), AllocError> {
        let number = line.numbers[0];
        if line.word == "rewind" {
            return match rewind(&mut self.kept, number as usize) {
                Ok(()) => Ok(()),
                Err(cut) => write_fault(&mut self.said, self.alloc, &cut),
            };
        }
        let replayed = match line.word {
            "without-session" => replay_without_session(self.alloc, &self.kept, number),
            "without-admission" => replay_without_admission(self.alloc, &self.kept, number),
            _ => replayed(self.alloc, &self.kept),
        };
        match replayed {
            Ok(kept) => {
                self.kept = kept;
                Ok(())
            }
            Err(fault) => write_fault(&mut self.said, self.alloc, &fault),
        }
    }

    fn print(&mut self, word: &str) -> Result<(), AllocError> {
        match word {
            "book" => book_text(&mut self.said, &self.kept),
            "journal" => write_journal(&mut self.said, self.kept.journal()),
            "without-ended" => {
                let less = without_ended(self.alloc, self.kept.journal())?;
                write_journal(&mut self.said, &less)
            }
            _ => write_numbers(&mut self.said, &self.kept),
        }
    }

    fn compare(&mut self, session: u64) -> Result<(), AllocError> {
        let less = without_session(self.alloc, self.kept.journal(), session)?;
        if same_strands(self.kept.journal(), &less) {
            write_word(&mut self.said, b"the same")
        } else {
            write_word(&mut self.said, b"others")
        }
    }
}

// The kept book of the journal of this one.
fn replayed<B: BookRep>(alloc: Global, kept: &Kept<B>) -> Result<Kept<B>, AuditFault> {
    match Vec::from_slice(alloc, kept.journal()) {
        Ok(journal) => replay(alloc, kept.whole(), journal),
        Err(_) => Err(AuditFault::OutOfMemory),
    }
}

fn write_numbers<B: BookRep>(out: &mut Vec<u8>, kept: &Kept<B>) -> Result<(), AllocError> {
    write_line(
        out,
        &[
            Field::Word(b"entries"),
            Field::Number(kept.journal().len() as u64),
            Field::Word(b"owed"),
            Field::Number(kept.book().owed() as u64),
            Field::Word(b"rounds"),
            Field::Number(kept.rounds()),
            Field::Word(b"next"),
            Field::Number(kept.next_number()),
        ],
    )
}

/// What is said in a dialogue from here on, behind what was said before.
pub fn answers<B: BookRep>(
    alloc: Global,
    kept: Kept<B>,
    said: Vec<u8>,
    dialogue: &str,
) -> Result<Vec<u8>, AllocError> {
    let mut partner = Partner::new(alloc, kept, said);
    for line in dialogue.lines() {
        if let Some(asked) = line.strip_prefix("> ") {
            write_word(&mut partner.said, line.as_bytes())?;
            partner.answer(&read_line(asked))?;
        }
    }
    Ok(partner.said)
}

// What is said in a dialogue after a journal: of one that can't be replayed, why.
fn answers_after<B: BookRep>(
    alloc: Global,
    whole: &Whole,
    journal: &str,
    dialogue: &str,
) -> Option<Vec<u8>>
    requires { HasPorts whole.now }
{
    let journal = read_journal(alloc, journal.as_bytes()).ok()?;
    let replayed: Result<Kept<B>, AuditFault> = replay(alloc, whole, journal);
    match replayed {
        Ok(kept) => answers(alloc, kept, Vec::new(alloc), dialogue).ok(),
        Err(fault) => {
            let mut said = Vec::new(alloc);
            write_fault(&mut said, alloc, &fault).ok()?;
            Some(said)
        }
    }
}

/// Sees that this was said.
pub fn expect(rt: &impl Abort, said: Option<Vec<u8>>, dialogue: &str) {
    let Some(said) = said else {
        panic!(rt; "no dialogue was held")
    };
    let said = std::str::from_utf8(&said).unwrap_or("no text");
    assert!(rt; said == dialogue, "said was\n{said}");
}

/// Holds a dialogue with the book of a journal.
pub fn converse_after<R: AllocGlobal + Abort>(rt: &R, whole: &Whole, journal: &str, dialogue: &str)
    requires { HasPorts whole.now }
{
    let plain = answers_after::<PlainBook>(rt.alloc(), whole, journal, dialogue);
    expect(rt, plain, dialogue);
    let indexed = answers_after::<IndexedBook>(rt.alloc(), whole, journal, dialogue);
    expect(rt, indexed, dialogue);
}

/// Holds a dialogue with an empty book.
pub fn converse<R: AllocGlobal + Abort>(rt: &R, whole: &Whole, dialogue: &str)
    requires { HasPorts whole.now }
{
    converse_after(rt, whole, "", dialogue)
}
