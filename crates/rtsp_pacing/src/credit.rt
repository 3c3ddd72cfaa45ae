//! What plays that are late may send beyond their pace.

ghost use Rattle.std.specs.Prelude.{◌≡◌, ◌≤◌, ◌-◌, ◌*◌, ◌↔◌, min, IsTrue};
ghost use Rattle.rtsp_pacing.specs.Credits.{gathered};
ghost use Rattle.rtsp_pacing.specs.declared.credit.TheConstants.{KEPT};

// How much of the free rate is kept for later, in milliseconds of it.
const KEPT: u64 = 100;

// For how long a rate that was read is gone by, in milliseconds.
const READ_EVERY: u64 = 1_000;

// What is free of the uplink, for the plays of all pacers. It is counted in thousandths of a bit: so
// many come each millisecond as the rate has bits per second, and a play that sends a millisecond of
// media takes as many as its own rate has.
#[derive(Clone, Copy, PartialEq, Eq)]
pub(crate) struct Credit {
    rate: u64,
    left: u64,
    // Up to when it was filled, and when the rate is to be read.
    filled: u64,
    read_at: u64,
    ghost few: { left ≤ KEPT * rate },
}

impl Credit {
    // Nothing is known to be free.
    pub(crate) fn new() -> Credit
        ensures rate { result.rate ≡ 0 }
        ensures old { result.read_at ≡ 0 }
    {
        Credit {
            rate: 0,
            left: 0,
            filled: 0,
            read_at: 0,
        }
    }

    // Whether the rate is to be read.
    pub(crate) fn is_old(&self, moment: u64) -> bool
        ensures { IsTrue result ↔ (self.now.read_at ≤ moment) }
    {
        self.read_at <= moment
    }

    // What is free was read: so many bits per second.
    pub(crate) fn learn(&mut self, rate: u64, moment: u64)
        ensures rate { self.new.rate ≡ rate }
        ensures left { self.new.left ≡ min self.old.left (KEPT * rate) }
        ensures filled { self.new.filled ≡ self.old.filled }
    {
        *self = Credit {
            rate,
            left: self.left.min(rate.saturating_mul(KEPT)),
            filled: self.filled,
            read_at: moment.saturating_add(READ_EVERY),
        };
    }

    // What there is at a moment.
    fn gathered(&self, moment: u64) -> u64
        ensures { result ≡ gathered KEPT self.now.left self.now.rate (moment - self.now.filled) }
    {
        let passed = moment.saturating_sub(self.filled).min(KEPT);
        let come = self.rate.saturating_mul(passed);
        let most = self.rate.saturating_mul(KEPT);
        self.left.saturating_add(come).min(most)
    }

    // Takes what a play of this rate needs for so many milliseconds of media at most. For how many.
    #[tactic(auto, using(crate::proofs::Crediting::share_fits))]
    pub(crate) fn take(&mut self, most: u64, rate: u64, moment: u64) -> u64
        ensures most { result ≤ most }
        ensures enough { result * rate ≤ gathered KEPT self.old.left self.old.rate (moment - self.old.filled) }
        ensures spent { self.new.left ≡ gathered KEPT self.old.left self.old.rate (moment - self.old.filled) - result * rate }
        ensures rate { self.new.rate ≡ self.old.rate }
    {
        let left = self.gathered(moment);
        let taken = match left.checked_div(rate) {
            Some(share) => most.min(share),
            None => most,
        };
        self.left = left.saturating_sub(taken.saturating_mul(rate));
        self.filled = self.filled.max(moment);
        taken
    }
}
