//! When the plays of a pacer have something due.

ghost use Rattle.std.specs.Prelude.{◌≡◌, ◌≤◌, ◌+◌, Some, None, slice_set, IfSome, IfNone, min, replicate};
ghost use Rattle.rtsp_pacing.specs.Wheel.{slot_of, place_of, head, IsNext, IsBare, IsBareUntil, Taken, Passed};

use std::marker::Model;

/// How many slots of a millisecond the wheel of a pacer has. A unit lasts 1,000 ms at most, so the
/// next one of a play is always within a round.
pub const SLOTS: usize = 1024;

// The last moment that the wheel comes to. It is some 580 million years after the beginning.
const LAST: u64 = u64::MAX - 1024;

// A slot for each of the next milliseconds, with the key of the play that was linked to it last. It
// is that play which knows the one linked before it. All slots up to the moment `done` are past.
#[derive(Drop)]
pub(crate) struct Wheel {
    heads: [Option<usize>; SLOTS],
    done: u64,
}

impl Model for Wheel {
    ghost use Rattle.std.specs.Prelude.{◌≤◌};
    ghost use Rattle.rtsp_pacing.specs.Wheel.{Turning, last};

    ghost Value = { Turning };

    ghost view = { λ w. record { heads = w.heads; done = w.done } };

    ghost invariant = { λ w. w.done ≤ last };
}

fn slot_of(moment: u64) -> usize
    ensures { result ≡ slot_of moment }
{
    (moment % 1024) as usize
}

// Slots to which no play is linked.
fn no_heads() -> [Option<usize>; SLOTS]
    ensures { result ≡ replicate 1024 None }
{
    [None; SLOTS]
}

impl Wheel {
    // A wheel at a moment, with no play.
    pub(crate) fn new(now: u64) -> Wheel
        ensures done { result.done ≡ min now LAST }
        ensures bare { IsBare result }
    {
        Wheel {
            heads: no_heads(),
            done: now.min(LAST),
        }
    }

    // Where a play is linked that has something due at a moment: there, if that is within the next
    // round, else at the end of the round that is nearer to it.
    fn place(&self, due: u64) -> u64
        ensures { result ≡ place_of self.now due }
    {
        due.max(self.done + 1).min(self.done + 1023)
    }

    // Links a play to the slot of a moment: the play that was linked there before it.
    pub(crate) fn link(&mut self, key: usize, due: u64) -> Option<usize>
        ensures before { head self.old (place_of self.old due) ≡ Some result }
        ensures heads { self.new.heads ≡ slice_set self.old.heads (slot_of (place_of self.old due)) (Some key) }
        ensures done { self.new.done ≡ self.old.done }
    {
        let slot = slot_of(self.place(due));
        let before = self.heads[slot];
        self.heads[slot] = Some(key);
        before
    }

    // The next moment whose slot has a play.
    #[tactic(auto, using(crate::proofs::Turning::bare_none, crate::proofs::Turning::bare_more))]
    pub(crate) fn next_full(&self) -> Option<u64>
        ensures some { IfSome result (IsNext self.now) }
        ensures none { IfNone result (IsBare self.now) }
    {
        for ahead in 1..1024u64 {
            let moment = self.done + ahead;
            if self.heads[slot_of(moment)].is_some() {
                return Some(moment);
            }
        }
        None
    }

    // The next moment whose slot has a play, if it isn't later than this one.
    #[tactic(auto, using(crate::proofs::Turning::bare_all, crate::proofs::Turning::bare_short))]
    fn next_until(&self, end: u64) -> Option<u64>
        ensures some { IfSome result (λ moment. IsNext self.now moment × moment ≤ end) }
        ensures none { IfNone result (IsBareUntil self.now end) }
    {
        let moment = self.next_full()?;
        if moment > end {
            return None;
        }
        Some(moment)
    }

    // Goes on to the next slot that has a play, if its moment has come, and empties it: the play
    // that was linked to it last. Without one it goes on to the present moment.
    pub(crate) fn take(&mut self, now: u64) -> Option<usize>
        ensures some { IfSome result (Taken self.old now self.new) }
        ensures none { IfNone result (Passed self.old now self.new) }
    {
        let end = now.min(LAST);
        let Some(moment) = self.next_until(end) else {
            self.done = self.done.max(end);
            return None;
        };
        self.done = moment;
        self.heads[slot_of(moment)].take()
    }
}
