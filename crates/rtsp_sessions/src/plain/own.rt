//! What a record asks of its own session.

ghost use Rattle.std.specs.Prelude.{◌≡◌, ◌<◌, ◌↔◌, Some, None, IsTrue, option_copied};
ghost use Rattle.std.specs.FinMap.{empty};
ghost use Rattle.rtsp_record.specs.Books.{opened};
ghost use Rattle.rtsp_record.specs.Rules.{alike, Own, MayHold, MayFree, MayAdd, MayDrop, MayMove};
ghost use Rattle.rtsp_sessions.specs.Plain.{session_in};

use crate::admissions::Admissions;
use crate::measures::Measure;
use crate::views::SessionView;
use rtsp_record::{Admission, Life, Phase, Record, Stream, Thing};

/// Whether the record is allowed as far as its own session goes.
pub fn allowed_for_session(view: Option<&SessionView>, change: &Record) -> bool
    ensures { IsTrue result ↔ Own change.now (session_in (option_copied view.entry)) }
{
    match view {
        Some(view) => allowed_for_living(view, change),
        None => matches!(change, Record::Open(_)),
    }
}

// Whether the record is allowed as far as its own living session goes.
fn allowed_for_living(view: &SessionView, change: &Record) -> bool
    ensures { IsTrue result ↔ Own change.now (Some view.now.1) }
{
    match change {
        Record::Open(_) => false,
        Record::Close(life) => is_opened(view, life),
        Record::Hold(holding) => may_hold(view, holding.admission, &holding.thing),
        Record::Free(holding) => may_free(view, holding.admission, &holding.thing),
        Record::Add(setup) => may_add(view, setup.admission, &setup.stream),
        Record::Drop(setup) => may_drop(view, setup.admission, &setup.stream),
        Record::Move(transition) => may_move(view, &transition.from, &transition.to),
        Record::Touch(renewal) => view.expires() == renewal.from,
        Record::Bind(_) => view.binding().is_none(),
        Record::Unbind(binding) => view.is_bound(binding.conn, binding.number),
    }
}

fn is_empty(admissions: &Admissions) -> bool
    ensures { IsTrue result ↔ (admissions.now ≡ empty) }
{
    admissions.len() == 0
}

// Whether the session is as it was opened.
fn is_opened(view: &SessionView, life: &Life) -> bool
    ensures { IsTrue result ↔ (view.now.1 ≡ opened life.now.id life.now.conn life.now.expires) }
{
    let id = life.id.number();
    if view.id() != id || view.conn() != life.conn || view.expires() != life.expires {
        return false;
    }
    if !view.phase().is_opening() || view.binding().is_some() {
        return false;
    }
    is_empty(view.admissions())
}

// What is held of the kind of this thing.
fn alike(thing: &Thing, held: &Admission) -> Option<Thing>
    ensures { result ≡ alike thing.now held.now }
{
    match *thing {
        Thing::Rate(_) => match held.rate {
            Some(bits) => Some(Thing::Rate(bits)),
            None => None,
        },
        Thing::Pair(_) | Thing::Port(_) | Thing::Chan(_, _) => held.address,
    }
}

fn may_hold(view: &SessionView, admission: u64, thing: &Thing) -> bool
    ensures { IsTrue result ↔ MayHold view.now.1 admission thing.now }
{
    let held = view.under(admission);
    held.stream.is_none() && alike(thing, &held).is_none() && view.others_holding(admission) < 16
}

fn may_free(view: &SessionView, admission: u64, thing: &Thing) -> bool
    ensures { IsTrue result ↔ MayFree view.now.1 admission thing.now }
{
    let held = view.under(admission);
    alike(thing, &held) == Some(*thing) && held.stream.is_none()
}

fn may_add(view: &SessionView, admission: u64, stream: &Stream) -> bool
    ensures { IsTrue result ↔ MayAdd view.now.1 admission stream.now }
{
    let held = view.under(admission);
    view.phase().is_ready()
        && held.rate.is_some()
        && held.address.is_some()
        && held.stream.is_none()
        && view.count(&Measure::Clashing(*stream)) == 0
}

fn may_drop(view: &SessionView, admission: u64, stream: &Stream) -> bool
    ensures { IsTrue result ↔ MayDrop view.now.1 admission stream.now }
{
    let held = view.under(admission);
    view.phase().is_ready() && held.stream == Some(*stream)
}

fn may_move(view: &SessionView, from: &Phase, to: &Phase) -> bool
    ensures { IsTrue result ↔ MayMove view.now.1 from.now to.now }
{
    view.phase() == *from && (!to.is_playing() || view.count(&Measure::Streams) > 0)
}
