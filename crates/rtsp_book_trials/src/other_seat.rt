//! The other seat of a lock: what it is asked for, and what it does while it binds the ports of an
//! admission.

ghost use Rattle.std.specs.Prelude.{◌≡◌};
ghost use Rattle.rtsp_lock.specs.Calls.{IsSeatOf};

use crate::answers::{write_number, write_phase, write_word};
use crate::lines::Line;
use rtsp_admit::{BindFault, Binder};
use rtsp_book::Step;
use rtsp_journal_text::{Field, write_line};
use rtsp_lock::{BookLock, BookSeat, Name};
use std::alloc::{AllocError, Global};
use std::sync::Wait;

// What the seat does each time that it binds ports.
#[derive(Clone, Copy)]
enum Meanwhile {
    Nothing,
    Checkpoint,
    Expire(u64),
}

/// The other seat, the least port that it can bind, and what was said so far.
#[derive(Drop)]
pub struct OtherSeat<'r, 'l, R> {
    rt: &'r R,
    lock: &'l BookLock,
    seat: BookSeat,
    pub alloc: Global,
    pub least: u64,
    pub said: Vec<u8>,
    meanwhile: Meanwhile,
    failures: u64,
    ghost ours: { IsSeatOf seat lock.now },
}

impl<'r, 'l, R: Wait> OtherSeat<'r, 'l, R> {
    ghost use Rattle.std.specs.Prelude.{OnOk, OnErr};
    ghost use Rattle.rtsp_record.specs.Counters.{raised};

    pub fn new(rt: &'r R, lock: &'l BookLock, seat: BookSeat, alloc: Global) -> Self
        requires { IsSeatOf seat lock.now }
    {
        OtherSeat {
            rt,
            lock,
            seat,
            alloc,
            least: 0,
            said: Vec::new(alloc),
            meanwhile: Meanwhile::Nothing,
            failures: 0,
        }
    }

    /// Answers a line:
    ///
    /// - `checkpoint` and `forget`, to which nothing is said, and `relieve ABOVE`;
    /// - `look ID` and `phase SESSION`;
    /// - `meanwhile-checkpoint` and `meanwhile-expire NOW`, which are done at each bind from there
    ///   on.
    pub fn answer(&mut self, line: &Line) -> Result<(), AllocError> {
        let number = line.numbers[0];
        match line.word {
            "relieve" => return self.relieve(number),
            "look" => return self.look(u128::from(number)),
            "phase" => return self.tell_phase(number),
            "checkpoint" => self.seat.checkpoint(self.rt, self.lock),
            "forget" => self.seat.forget(self.rt, self.lock),
            "meanwhile-checkpoint" => self.meanwhile = Meanwhile::Checkpoint,
            "meanwhile-expire" => self.meanwhile = Meanwhile::Expire(number),
            _ => return write_word(&mut self.said, b"unknown"),
        }
        Ok(())
    }

    fn relieve(&mut self, above: u64) -> Result<(), AllocError> {
        if self.seat.relieve(self.rt, self.lock, above as usize) {
            write_word(&mut self.said, b"relieved")
        } else {
            write_word(&mut self.said, b"not due")
        }
    }

    fn look(&mut self, id: u128) -> Result<(), AllocError> {
        match self.seat.look(self.rt, self.lock, Name::Id(id)) {
            Some(view) => write_number(&mut self.said, b"session", view.session()),
            None => write_word(&mut self.said, b"nobody"),
        }
    }

    fn tell_phase(&mut self, session: u64) -> Result<(), AllocError> {
        match self.seat.phase(self.rt, self.lock, session) {
            Some(phase) => write_phase(&mut self.said, phase),
            None => write_word(&mut self.said, b"nobody"),
        }
    }

    fn act_meanwhile(&mut self)
        ensures { self.new.failures ≡ self.old.failures }
    {
        match self.meanwhile {
            Meanwhile::Nothing => {}
            Meanwhile::Checkpoint => self.seat.checkpoint(self.rt, self.lock),
            Meanwhile::Expire(now) => {
                let _ = self.seat.act(self.rt, self.lock, &Step::Expire { now });
            }
        }
    }

    // Says what is bound or unbound. A line for which there is no memory is missing.
    fn say(&mut self, word: &[u8], admission: u64, port: u16)
        ensures { self.new.failures ≡ self.old.failures }
    {
        let _ = write_line(
            &mut self.said,
            &[
                Field::Word(word),
                Field::Number(admission),
                Field::Number(u64::from(port)),
            ],
        );
    }

    // Binds ports, or counts that they can't be bound.
    fn try_bind(&mut self, kind: &[u8], admission: u64, port: u16) -> Result<(), BindFault>
        ensures bound { OnOk result (self.new.failures ≡ self.old.failures) }
        ensures failed { OnErr result (self.new.failures ≡ raised self.old.failures) }
    {
        self.act_meanwhile();
        self.say(kind, admission, port);
        if u64::from(port) < self.least {
            self.failures = self.failures.saturating_add(1);
            return Err(BindFault);
        }
        Ok(())
    }
}

impl<R: Wait> Binder for OtherSeat<'_, '_, R> {
    ghost use Rattle.std.specs.Prelude.{⊤};

    ghost calls = { record { binds = λ b a p c. ⊤; fails = λ b a p c. ⊤; unbinds = λ b a p c. ⊤; failures = λ b. b.failures } };

    fn bind(&mut self, admission: u64, pair: u16) -> Result<(), BindFault> {
        self.try_bind(b"bind pair", admission, pair)
    }

    fn unbind(&mut self, admission: u64, pair: u16) {
        self.say(b"unbind pair", admission, pair);
    }

    fn bind_port(&mut self, admission: u64, port: u16) -> Result<(), BindFault> {
        self.try_bind(b"bind port", admission, port)
    }

    fn unbind_port(&mut self, admission: u64, port: u16) {
        self.say(b"unbind port", admission, port);
    }
}
