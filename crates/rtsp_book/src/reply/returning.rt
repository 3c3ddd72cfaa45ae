//! The records that give back.

ghost use Rattle.std.specs.Prelude.{◌≡◌, ◌+◌, ◌≤◌, ◌++◌, [], length, flat_map};
ghost use Rattle.std.specs.FinMap.{entries};
ghost use Rattle.rtsp_sessions.specs.Lookups.{as_binding};
ghost use Rattle.rtsp_book.specs.Returns.{dropping, freeing, freeing_rate, giving_back, resetting, unbinding, ending};

use crate::receipts::Receipt;
use rtsp_record::{
    Admission, Binding, Holding, Id, Life, Phase, Record, Setup, Stream, Thing, Transition,
};
use rtsp_sessions::{Admissions, SessionView, Startup};

pub(crate) fn drop_stream(made: &mut Receipt, session: u64, admission: u64, stream: Option<Stream>)
    requires { length made.old + length (dropping session admission stream) ≤ 51 }
    ensures { made.new ≡ made.old ++ dropping session admission stream }
{
    if let Some(stream) = stream {
        made.push(Record::Drop(Setup {
            session,
            admission,
            stream,
        }));
    }
}

pub(crate) fn free_address(made: &mut Receipt, session: u64, admission: u64, address: Option<Thing>)
    requires { length made.old + length (freeing session admission address) ≤ 51 }
    ensures { made.new ≡ made.old ++ freeing session admission address }
{
    if let Some(thing) = address {
        made.push(Record::Free(Holding {
            session,
            admission,
            thing,
        }));
    }
}

pub(crate) fn free_rate(made: &mut Receipt, session: u64, admission: u64, rate: Option<u64>)
    requires { length made.old + length (freeing_rate session admission rate) ≤ 51 }
    ensures { made.new ≡ made.old ++ freeing_rate session admission rate }
{
    if let Some(bits) = rate {
        made.push(Record::Free(Holding {
            session,
            admission,
            thing: Thing::Rate(bits),
        }));
    }
}

// Gives back all that stands under an admission: its stream, its address and its rate.
pub(crate) fn give_back(made: &mut Receipt, session: u64, admission: u64, held: &Admission)
    requires { length made.old + length (giving_back session (admission, held.now)) ≤ 51 }
    ensures { made.new ≡ made.old ++ giving_back session (admission, held.now) }
{
    drop_stream(made, session, admission, held.stream);
    free_address(made, session, admission, held.address);
    free_rate(made, session, admission, held.rate);
}

// Gives back all that stands under these admissions.
fn give_back_all(made: &mut Receipt, session: u64, admissions: &Admissions)
    requires { length made.old + length (flat_map (giving_back session) (entries admissions.now)) ≤ 51 }
    ensures { made.new ≡ made.old ++ flat_map (giving_back session) (entries admissions.now) }
{
    for index in 0..admissions.len() {
        let (admission, held) = admissions.at(index);
        give_back(made, session, admission, &held);
    }
}

fn reset(made: &mut Receipt, session: u64, phase: Phase)
    requires { length made.old + length (resetting session phase) ≤ 51 }
    ensures { made.new ≡ made.old ++ resetting session phase }
{
    if !phase.is_opening() {
        made.push(Record::Move(Transition {
            session,
            from: phase,
            to: Phase::OPENING,
        }));
    }
}

pub(crate) fn unbind(made: &mut Receipt, session: u64, binding: Option<Startup>)
    requires { length made.old + length (unbinding session (as_binding binding)) ≤ 51 }
    ensures { made.new ≡ made.old ++ unbinding session (as_binding binding) }
{
    if let Some(Startup { conn, number }) = binding {
        made.push(Record::Unbind(Binding {
            session,
            conn,
            number,
        }));
    }
}

// The records that end the session, its Close the last.
pub(crate) fn end(made: &mut Receipt, view: &SessionView)
    requires empty { made.old ≡ [] }
    requires short { length (ending view.now.0 view.now.1) ≤ 51 }
    ensures { made.new ≡ ending view.now.0 view.now.1 }
{
    let session = view.session();
    reset(made, session, view.phase());
    give_back_all(made, session, view.admissions());
    unbind(made, session, view.binding());
    made.push(Record::Close(Life {
        session,
        id: Id::new(view.id()),
        conn: view.conn(),
        expires: view.expires(),
    }));
}
