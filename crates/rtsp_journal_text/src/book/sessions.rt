//! The lines of the sessions of a book. Each function appends; after a refusal a part may be at the
//! end.

ghost use Rattle.std.specs.Prelude.{◌≡◌, ℕ, ◌+◌, ◌≤◌, ◌<◌, ◌^◌, ◌++◌, length, take, None, IfOk, OnOk, OnErr, nat_le};
ghost use Rattle.std.specs.List.{flat_map};
ghost use Rattle.std.specs.FinMap.{get, entries};
ghost use Rattle.rtsp_text.specs.Appending.{Appends};
ghost use Rattle.rtsp_record.specs.Sums.{amount, of_admission, of_session};
ghost use Rattle.rtsp_sessions.specs.Lookups.{as_binding};
ghost use Rattle.rtsp_sessions.specs.Searches.{first_with};
ghost use Rattle.rtsp_record.specs.Ports.{pairs, singles, ports};
ghost use Rattle.rtsp_journal_text.specs.BookText.{admission_text, binding_lines, session_line, session_text};

use crate::book::lines::write_admission;
use crate::fields::{Field, write_line};
use crate::writing::write_record;
use rtsp_book::{Admissions, BookRep, SessionView, Startup};
use rtsp_record::{Admission, Binding, Id, Record, Thing};
use std::alloc::AllocError;

fn write_admissions(
    out: &mut Vec<u8>,
    session: u64,
    admissions: &Admissions,
) -> Result<(), AllocError>
    ensures { Appends result out.old.items out.new.items (flat_map (admission_text session) (entries admissions.now)) }
{
    for index in 0..admissions.len() {
        write_admission(out, session, &admissions.at(index))?;
    }
    Ok(())
}

#[tactic(auto, using(rtsp_text::proofs::AppendLemmas::appends_whole))]
fn write_binding(
    out: &mut Vec<u8>,
    session: u64,
    binding: Option<Startup>,
) -> Result<(), AllocError>
    ensures { Appends result out.old.items out.new.items (binding_lines session (as_binding binding)) }
{
    match binding {
        Some(Startup { conn, number }) => {
            let binding = Binding {
                session,
                conn,
                number,
            };
            write_record(out, &Record::Bind(binding))
        }
        None => Ok(()),
    }
}

#[tactic(auto, using(rtsp_text::proofs::AppendLemmas::appends_whole))]
fn write_own(out: &mut Vec<u8>, view: &SessionView) -> Result<(), AllocError>
    ensures { Appends result out.old.items out.new.items (session_line view.now.0 view.now.1) }
{
    write_line(
        out,
        &[
            Field::Word(b"session"),
            Field::Number(view.session()),
            Field::Id(Id::new(view.id())),
            Field::Number(view.conn()),
            Field::Number(view.expires()),
            Field::Phase(view.phase()),
        ],
    )
}

// The lines of a session.
fn write_session(out: &mut Vec<u8>, view: &SessionView) -> Result<(), AllocError>
    ensures { Appends result out.old.items out.new.items (session_text view.now) }
{
    write_own(out, view)?;
    write_admissions(out, view.session(), view.admissions())?;
    write_binding(out, view.session(), view.binding())
}

/// What is held of the UDP ports: how many pairs, and how many ports by themselves.
#[derive(Clone, Copy)]
pub(super) struct Held {
    pub(super) pairs: u64,
    pub(super) singles: u64,
}

// What is held of the UDP ports under an admission.
fn held_under(held: &Admission) -> Held
    ensures pairs { result.pairs ≡ of_admission pairs held.now }
    ensures singles { result.singles ≡ of_admission singles held.now }
    ensures few { result.pairs + result.singles ≤ 1 }
{
    match held.address {
        Some(Thing::Pair(_)) => Held {
            pairs: 1,
            singles: 0,
        },
        Some(Thing::Port(_)) => Held {
            pairs: 0,
            singles: 1,
        },
        _ => Held {
            pairs: 0,
            singles: 0,
        },
    }
}

// What a session holds of the UDP ports.
fn held_by(view: &SessionView) -> Held
    ensures pairs { result.pairs ≡ of_session pairs view.now.1 }
    ensures singles { result.singles ≡ of_session singles view.now.1 }
{
    let admissions = view.admissions();
    let (mut pairs, mut singles) = (0, 0);
    for index in 0..admissions.len() {
        let held = held_under(&admissions.at(index).1);
        pairs += held.pairs;
        singles += held.singles;
    }
    Held { pairs, singles }
}

// The first session not below a number.
fn next_view<B: BookRep>(book: &B, from: u64) -> Option<SessionView>
    ensures { result ≡ first_with (λ e. nat_le from e.0) (entries (B.contents book.now)) }
{
    match book.next_session(from) {
        Some(session) => book.session(session),
        None => None,
    }
}

/// The lines of all sessions of a book, of which none is above `last`; and what they hold of the
/// UDP ports.
pub(super) fn write_sessions<B: BookRep>(
    out: &mut Vec<u8>,
    book: &B,
    last: u64,
) -> Result<Held, AllocError>
    requires last { (session : ℕ) → last < session → get (B.contents book.now) session ≡ None }
    requires few { amount ports (B.contents book.now) < 2 ^ 64 }
    ensures text { OnOk result (out.new.items ≡ out.old.items ++ flat_map session_text (entries (B.contents book.now))) }
    ensures front { OnErr result (take (length out.old.items) out.new.items ≡ out.old.items) }
    ensures pairs { IfOk result (λ held. held.pairs ≡ amount pairs (B.contents book.now)) }
    ensures singles { IfOk result (λ held. held.singles ≡ amount singles (B.contents book.now)) }
{
    let mut from = 0;
    let (mut pairs, mut singles) = (0, 0);
    while let Some(view) = next_view(book, from) {
        write_session(out, &view)?;
        let held = held_by(&view);
        pairs += held.pairs;
        singles += held.singles;
        if last <= view.session() {
            return Ok(Held { pairs, singles });
        }
        from = view.session() + 1;
    }
    Ok(Held { pairs, singles })
}
