//! At which moment a play has its turn, and when its next one.

ghost use Rattle.std.specs.Prelude.{◌≡◌, ◌<◌, ◌≤◌, ◌+◌, ◌-◌, ◌%◌, ◌*◌, ◌^◌, ◌↔◌, min, IsTrue};
ghost use Rattle.rtsp_pacing.specs.Catching.{IsMeasured, most_at_once};

// How much of the time since the last turn of a play counts where it is behind, in milliseconds.
const COUNTED: u64 = 50;

// The moment up to which a play sends in a turn, where its next unit is due at `due` and so much time
// has passed since its last turn: the present one, unless more units are due by then than fit into
// twice that time. Of a longer time `COUNTED` counts, so after a stall a play catches up at twice its
// pace. Two units are sent in any case: the next turn is a unit later.
#[tactic(auto, using(crate::proofs::Measure::is_measured))]
pub(crate) fn measured(due: u64, unit_ms: u32, passed: u64, moment: u64) -> u64
    requires { 0 < unit_ms }
    ensures come { result ≤ moment }
    ensures on_time { moment + unit_ms ≤ due + most_at_once unit_ms (min passed COUNTED) → result ≡ moment }
    ensures goes_on { due ≤ moment → due ≤ result }
    ensures measured { IsMeasured unit_ms due (min passed COUNTED) result }
{
    let unit_ms = u64::from(unit_ms);
    let twice = 2 * passed.min(COUNTED);
    let ahead = twice.saturating_sub(unit_ms).max(unit_ms);
    moment.min(due.saturating_add(ahead))
}

// How much of a pause, in milliseconds, a play makes up for that keeps its pace.
const MADE_UP: u64 = 100;

// The moment up to which a play may send that keeps its pace, where that was `reached` at its last turn
// and so much time has passed since: a turn that comes late by more than `MADE_UP` makes it late.
pub(crate) fn at_pace(reached: u64, unit_ms: u32, passed: u64) -> u64
    ensures pace { result ≤ reached + passed }
    ensures kept { reached + passed < 2 ^ 64 → result ≡ reached + min passed (unit_ms + MADE_UP) }
{
    reached.saturating_add(passed.min(u64::from(unit_ms) + MADE_UP))
}

// The first moment after this one at which a unit is due, where one was due at `due`.
#[tactic(auto, using(crate::proofs::Units::whole_units))]
pub(crate) fn next_unit(due: u64, unit_ms: u32, moment: u64) -> u64
    requires { 0 < unit_ms }
    ensures later { moment < u64.MAX → moment < result }
    ensures soon { result ≤ moment + unit_ms }
    ensures ahead { moment < due → result ≡ min due (moment + unit_ms) }
    ensures in_step { due ≤ moment → result < u64.MAX → (result - due) % unit_ms ≡ 0 }
{
    if due > moment {
        return due.min(moment.saturating_add(u64::from(unit_ms)));
    }
    let unit_ms = u64::from(unit_ms);
    let passed = (moment - due) % unit_ms;
    moment.saturating_add(unit_ms - passed)
}

// How soon, in milliseconds, a play is looked at again whose next unit isn't at hand.
const SOONEST: u64 = 5;

// How late at most.
const LATEST: u64 = 250;

// When a play is looked at again whose next unit was due at `due` and isn't at hand: the later that
// is, the less often, so that thousands of plays that wait for a disk cost no more than if they played.
pub(crate) fn look_again(due: u64, moment: u64) -> u64
    ensures later { moment + SOONEST < 2 ^ 64 → moment + SOONEST ≤ result }
    ensures soon { result ≤ moment + LATEST }
    ensures measured { moment ≤ due + 8 * SOONEST → result ≤ moment + SOONEST }
{
    let late = moment.saturating_sub(due);
    moment.saturating_add((late / 8).max(SOONEST).min(LATEST))
}

// For how long, in milliseconds, the media of what was counted of a play that was left is waited for.
const LEFT_FOR: u64 = 10_000;

// For how long that was waited for, where it was for `waited` before, and so much time has passed since the
// last look. A longer time than that between two looks is one in which the server stood still, or its
// pacer was held up, and the disk may have been, too.
pub(crate) fn waited_on(waited: u64, passed: u64) -> u64
    ensures { result ≡ min (waited + min passed LATEST) u64.MAX }
{
    waited.saturating_add(passed.min(LATEST))
}

// Whether what was counted of a play that was left is waited for no longer. Otherwise a player could make
// play after play that waits for a disk.
pub(crate) fn is_given_up(waited: u64) -> bool
    ensures { IsTrue result ↔ (LEFT_FOR < waited) }
{
    waited > LEFT_FOR
}

// For how many of so many milliseconds more a play waits to hear of the next one, where so much time has
// passed since its last turn: of a pause of the server no more counts than a unit and `MADE_UP`.
pub(crate) fn patience_after(patience: u64, unit_ms: u32, passed: u64) -> u64
    ensures { result ≡ patience - min passed (unit_ms + MADE_UP) }
{
    patience.saturating_sub(passed.min(u64::from(unit_ms) + MADE_UP))
}
