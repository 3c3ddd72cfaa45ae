//! When a session left a play.

ghost use Rattle.std.specs.Prelude.{◌≡◌, ◌≢◌, ◌<◌, ◌≤◌, ◌+◌, ◌-◌, ◌*◌, ◌^◌, min, ℕ, IfSome, IfNone};
ghost use Rattle.rtsp_record.specs.Moments.{sent_with_due};
ghost use Rattle.rtsp_rtp.specs.Pacing.{units_in};
ghost use Rattle.rtsp_rtp.specs.Leaving.{IsLeftFor};
ghost use Rattle.rtsp_rtp.specs.Progress.{phase_of};

use crate::play::Play;
use rtsp_record::Phase;

impl Play {
    // A moment at which the session may have left the play for this phase. Which one it was can't
    // be told, but at all of them as many units were due.
    pub(crate) fn left_for(&self, phase: &Phase) -> Option<u64>
        requires { 0 < self.now.unit_ms }
        ensures some { IfSome result (λ m. IsLeftFor (phase_of self.now) self.now.unit_ms m phase.now) }
        ensures moment { IfSome result (λ m. m < 2 ^ 64) }
        ensures few { IfSome result (λ m. units_in (phase_of self.now) < 2 ^ 32) }
        ensures none { IfNone result ((m : ℕ) → m < 2 ^ 64 → ¬ (IsLeftFor (phase_of self.now) self.now.unit_ms m phase.now)) }
    {
        match *phase {
            Phase::Ready { at, sent } => {
                let moment = self.counted_by(sent, u64::MAX)?;
                if self.phase().point(self.unit_ms, moment) == at {
                    Some(moment)
                } else {
                    None
                }
            }
            Phase::Playing { sent, since, .. } => self.counted_by(sent, since),
            Phase::Ended { .. } => None,
        }
    }

    // A moment up to `end` at which `sent` is what was sent in earlier plays and what was due in
    // this one, if there is such a moment.
    fn counted_by(&self, sent: u32, end: u64) -> Option<u64>
        requires { 0 < self.now.unit_ms }
        ensures some { IfSome result (λ m. sent ≡ sent_with_due (phase_of self.now) self.now.unit_ms m) }
        ensures end { IfSome result (λ m. m ≤ end) }
        ensures few { IfSome result (λ m. units_in (phase_of self.now) < 2 ^ 32) }
        ensures none { IfNone result ((m : ℕ) → m ≤ end → sent ≢ sent_with_due (phase_of self.now) self.now.unit_ms m) }
    {
        let count = sent.wrapping_sub(self.sent);
        if self.units() < count {
            return None;
        }
        let moment = self.due_at(count).min(end);
        let play = self.phase();
        if play.sent_with_due(self.unit_ms, moment) == sent {
            Some(moment)
        } else {
            None
        }
    }

    // The first moment, from the beginning of the play on, at which so many units are due; the
    // greatest moment where that would be beyond it.
    fn due_at(&self, count: u32) -> u64
        ensures { result ≡ min (self.now.since + (count - 1) * self.now.unit_ms) (2 ^ 64 - 1) }
    {
        let passed = u64::from(count.saturating_sub(1)) * u64::from(self.unit_ms);
        self.since.saturating_add(passed)
    }
}
