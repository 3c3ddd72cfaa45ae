//! Up to which moment all that had come was read, so that whoever has asked in time is not ended.

ghost use Rattle.std.specs.Prelude.{◌≡◌, ◌++◌, ◌∷◌, [], drop, replicate, IfOk};
ghost use Rattle.rtsp_shares.specs.Watermark.{IsMark, IsNoted, oldest};

use std::alloc::{AllocError, Global};
use std::collections::VecDeque;
use std::marker::Model;

/// For how many sweeps at most a lane that hasn't read all that has come holds the sweeps back.
pub const HELD_SWEEPS: usize = 10;

/// The moments up to which the lanes have read all that had come, and those of the last sweeps, in
/// milliseconds of one clock. A sweep ends what was over at the least moment of the lanes: what came to
/// a lane later may be a renewal. But no lane holds it up for more than `HELD_SWEEPS` sweeps. It is
/// sweeps that are counted, and not time, so that each lane has time to read after a stall, too.
#[derive(Drop)]
pub struct Watermark {
    // By lane.
    read: Vec<u64>,
    // The oldest first. There are always `HELD_SWEEPS` of them.
    sweeps: VecDeque<u64>,
}

impl Model for Watermark {
    ghost use Rattle.std.specs.Prelude.{◌≡◌};
    ghost use Rattle.std.specs.VecDeque.{deque_len, deque_capacity};
    ghost use Rattle.rtsp_shares.specs.Watermark.{Marks};
    ghost use Rattle.rtsp_shares.specs.declared.watermark.TheConstants.{HELD_SWEEPS};

    ghost Value = { Marks };

    ghost view = { λ w. record { read = w.read.items; sweeps = w.sweeps.items } };

    ghost invariant = { λ w. (deque_len w.sweeps ≡ HELD_SWEEPS) × (deque_capacity w.sweeps ≡ HELD_SWEEPS) };
}

// The least of a moment and of others, of which none counts as less than `oldest`.
fn least(now: u64, oldest: u64, moments: &[u64]) -> u64
    ensures { IsMark oldest moments.now now result }
{
    let mut least = now;
    for moment in moments {
        least = least.min(oldest.max(*moment));
    }
    least
}

impl Watermark {
    /// That of so many lanes, which have read nothing, before any sweep. It takes all its memory here.
    pub fn new(alloc: Global, lanes: usize) -> Result<Watermark, AllocError>
        ensures read { IfOk result (λ w. w.read ≡ replicate lanes 0) }
        ensures sweeps { IfOk result (λ w. w.sweeps ≡ replicate HELD_SWEEPS 0) }
    {
        let read = vec![in alloc; 0; lanes]?;
        let mut sweeps = VecDeque::with_capacity(alloc, HELD_SWEEPS)?;
        for _count in 0..HELD_SWEEPS {
            sweeps.push_back(0)?;
        }
        Ok(Watermark { read, sweeps })
    }

    /// The lane of this number, from 0, has read all that had come up to a moment.
    pub fn note_read(&mut self, lane: usize, moment: u64)
        ensures read { IsNoted self.old.read self.new.read lane moment }
        ensures sweeps { self.new.sweeps ≡ self.old.sweeps }
    {
        if let Some(read) = self.read.get_mut(lane) {
            *read = moment.max(*read);
        }
    }

    /// A sweep is made at a moment, and the oldest one counts no more.
    pub fn note_sweep(&mut self, now: u64)
        ensures sweeps { self.new.sweeps ≡ drop 1 self.old.sweeps ++ now ∷ [] }
        ensures read { self.new.read ≡ self.old.read }
    {
        self.sweeps.pop_front();
        let _ = self.sweeps.push_back(now);
    }

    /// The moment up to which a sweep goes, at the present one.
    pub fn moment(&self, now: u64) -> u64
        ensures { IsMark (oldest self.now.sweeps) self.now.read now result }
    {
        let oldest = match self.sweeps.front() {
            Some(oldest) => *oldest,
            None => 0,
        };
        least(now, oldest, self.read.as_slice())
    }
}
