//! A session as it is shown.

ghost use Rattle.std.specs.Prelude.{◌≡◌, ◌<◌, ◌≤◌, ◌^◌, Some, IsSome, length, is_some, sum_by, count_by};
ghost use Rattle.std.specs.FinMap.{entries};
ghost use Rattle.rtsp_record.specs.Books.{opened, under, kept, holding, freed, streaming, with_under, effect};
ghost use Rattle.rtsp_record.specs.Sums.{of_session, of_admission, others_holding, is_holding};
ghost use Rattle.rtsp_sessions.specs.Lookups.{as_binding, is_startup};
ghost use Rattle.rtsp_sessions.specs.Plain.{RoomUnder, RoomFor};
ghost use Rattle.rtsp_sessions.specs.Searches.{is_of_track, is_chan_of, is_channelled, is_bound_on, is_on, first_with, is_settled, all_streaming};
ghost use Rattle.rtsp_sessions.specs.Measures.{measure_of};

use crate::admissions::Admissions;
use crate::measures::{Measure, of_admission, of_binding, of_life, of_phase};
use crate::startups::Startup;
use rtsp_record::{
    Admission, Binding, Holding, Life, Phase, Record, Renewal, Setup, Stream, Thing, Transition,
};
use std::marker::Model;

/// A living session as it is shown, of fixed size.
#[derive(Drop)]
pub struct SessionView {
    session: u64,
    id: u128,
    conn: u64,
    expires: u64,
    phase: Phase,
    binding: Option<(u64, u32)>,
    admissions: Admissions,
}

impl Model for SessionView {
    ghost use Rattle.std.specs.Prelude.{ℕ};
    ghost use Rattle.rtsp_record.specs.Books.{Session};
    ghost use Rattle.rtsp_sessions.specs.Codes.{session_code};
    ghost use Rattle.rtsp_record.specs.contracts.holdings.Admission as admission;
    ghost use Rattle.rtsp_record.specs.contracts.phases.Phase as play;

    ghost Value = { ℕ × Session };

    ghost coded = { session_code admission.the_row.coded play.the_row.coded };

    ghost view = { λ v. (v.session, record { id = v.id; conn = v.conn; expires = v.expires; phase = v.phase; binding = v.binding; admissions = v.admissions }) };
}

impl SessionView {
    /// A session that has just been opened.
    pub fn opened(life: &Life) -> Self
        ensures { result ≡ (life.now.session, opened life.now.id life.now.conn life.now.expires) }
    {
        SessionView {
            session: life.session,
            id: life.id.number(),
            conn: life.conn,
            expires: life.expires,
            phase: Phase::OPENING,
            binding: None,
            admissions: Admissions::new(),
        }
    }

    /// The session's number.
    pub fn session(&self) -> u64
        ensures { result ≡ self.now.0 }
    {
        self.session
    }

    /// The session's id, shown as 32 lower case hexadecimal digits.
    pub fn id(&self) -> u128
        ensures { result ≡ self.now.1.id }
    {
        self.id
    }

    /// The connection that opened it.
    pub fn conn(&self) -> u64
        ensures { result ≡ self.now.1.conn }
    {
        self.conn
    }

    /// The moment from which on it may be ended, in milliseconds.
    pub fn expires(&self) -> u64
        ensures { result ≡ self.now.1.expires }
    {
        self.expires
    }

    /// Whether it plays, and where in the media it is, in units.
    pub fn phase(&self) -> Phase
        ensures { result ≡ self.now.1.phase }
    {
        self.phase
    }

    /// The startup number that the session has, with its connection (RFC 7826 section 18.33).
    pub fn binding(&self) -> Option<Startup>
        ensures { as_binding result ≡ self.now.1.binding }
    {
        match self.binding {
            Some((conn, number)) => Some(Startup { conn, number }),
            None => None,
        }
    }

    /// Whether it has this startup number of the connection.
    pub fn is_bound(&self, conn: u64, number: u32) -> bool
        ensures { result ≡ is_startup conn number self.now.1.binding }
    {
        match self.binding {
            Some(held) => held.0 == conn && held.1 == number,
            None => false,
        }
    }

    /// Whether it has a startup number of the connection.
    pub fn is_bound_on(&self, conn: u64) -> bool
        ensures { result ≡ is_bound_on conn self.now.1 }
    {
        match self.binding {
            Some(held) => held.0 == conn,
            None => false,
        }
    }

    /// What it holds, by admission.
    pub fn admissions(&self) -> &Admissions
        ensures { result.now ≡ self.now.1.admissions }
    {
        &self.admissions
    }

    /// What stands under an admission; nothing where the session has none of this number.
    pub fn under(&self, admission: u64) -> Admission
        ensures { result ≡ under self.now.1 admission }
    {
        match self.admissions.get(admission) {
            Some(held) => held,
            None => Admission {
                rate: None,
                address: None,
                stream: None,
            },
        }
    }

    /// How many other admissions hold something.
    pub fn others_holding(&self, admission: u64) -> usize
        ensures { result ≡ others_holding self.now.1 admission }
    {
        let all = how_many_hold(self.admissions.rows());
        if is_holding(&self.under(admission)) {
            all - 1
        } else {
            all
        }
    }

    /// The admission whose stream is of this track, the least where there were several.
    pub fn with_track(&self, track: u16) -> Option<(u64, Admission)>
        ensures { result ≡ first_with (is_of_track track) (entries self.now.1.admissions) }
    {
        first_of_track(self.admissions.rows(), track)
    }

    /// Whether it holds channels of the connection.
    pub fn has_channels_of(&self, conn: u64) -> bool
        ensures { result ≡ is_channelled conn self.now.1 }
    {
        any_channels_of(self.admissions.rows(), conn)
    }

    /// Whether it holds channels of the connection or is bound to it.
    pub fn is_on(&self, conn: u64) -> bool
        ensures { result ≡ is_on conn self.now }
    {
        self.has_channels_of(conn) || self.is_bound_on(conn)
    }

    /// Whether no SETUP of the session is under way: a stream stands under each of its admissions.
    pub fn is_settled(&self) -> bool
        ensures { result ≡ is_settled self.now.1 }
    {
        all_streaming(self.admissions.rows())
    }

    /// How much there is of this in the session.
    pub fn count(&self, measure: &Measure) -> u128
        ensures { result ≡ of_session (measure_of measure.now) self.now.1 }
    {
        self.weight(measure)
    }

    // What the session counts, with a bound.
    pub(crate) fn weight(&self, measure: &Measure) -> u128
        ensures value { result ≡ of_session (measure_of measure.now) self.now.1 }
        ensures small { result ≤ 2 ^ 70 }
    {
        let life = of_life(measure, self.id)
            + of_phase(measure, &self.phase)
            + of_binding(measure, self);
        life + of_rows(measure, self.admissions.rows())
    }

    /// A copy of the session.
    pub fn copied(&self) -> SessionView
        ensures { result ≡ self.now }
    {
        SessionView {
            session: self.session,
            id: self.id,
            conn: self.conn,
            expires: self.expires,
            phase: self.phase,
            binding: self.binding,
            admissions: self.admissions.copied(),
        }
    }

    /// Makes a change of this session, which lives on. A thing or a stream needs a row of its
    /// admission, or room for one.
    pub fn change(&mut self, change: &Record)
        requires { RoomFor change.now self.old.1 }
        ensures number { self.new.0 ≡ self.old.0 }
        ensures session { effect change.now (Some self.old.1) ≡ Some self.new.1 }
    {
        match *change {
            Record::Hold(
                Holding {
                    admission,
                    thing,
                    ..
                },
            ) => self.put(admission, with_thing(self.under(admission), &thing)),
            Record::Free(
                Holding {
                    admission,
                    thing,
                    ..
                },
            ) => self.put(admission, without_thing(self.under(admission), &thing)),
            Record::Add(
                Setup {
                    admission,
                    stream,
                    ..
                },
            ) => self.put(admission, with_stream(self.under(admission), Some(stream))),
            Record::Drop(Setup { admission, .. }) => {
                self.put(admission, with_stream(self.under(admission), None))
            }
            Record::Move(Transition { to, .. }) => self.phase = to,
            Record::Touch(Renewal { to, .. }) => self.expires = to,
            Record::Bind(Binding { conn, number, .. }) => self.binding = Some((conn, number)),
            Record::Unbind(_) => self.binding = None,
            Record::Open(_) | Record::Close(_) => unreachable!(),
        }
    }

    // Writes what stands under an admission.
    fn put(&mut self, admission: u64, held: Admission)
        requires { IsSome (kept held) → RoomUnder self.old.1 admission }
        ensures number { self.new.0 ≡ self.old.0 }
        ensures session { self.new.1 ≡ with_under self.old.1 admission held }
    {
        self.admissions.set(admission, kept(held));
    }
}

// The row of what stands under an admission, or none.
fn kept(held: Admission) -> Option<Admission>
    ensures { result ≡ kept held }
{
    if held.rate.is_none() && held.address.is_none() && held.stream.is_none() {
        None
    } else {
        Some(held)
    }
}

fn with_thing(held: Admission, thing: &Thing) -> Admission
    ensures { result ≡ holding thing.now held }
{
    match *thing {
        Thing::Rate(bits) => Admission {
            rate: Some(bits),
            ..held
        },
        Thing::Pair(_) | Thing::Port(_) | Thing::Chan(_, _) => Admission {
            address: Some(*thing),
            ..held
        },
    }
}

fn without_thing(held: Admission, thing: &Thing) -> Admission
    ensures { result ≡ freed thing.now held }
{
    match *thing {
        Thing::Rate(_) => Admission { rate: None, ..held },
        Thing::Pair(_) | Thing::Port(_) | Thing::Chan(_, _) => Admission {
            address: None,
            ..held
        },
    }
}

fn with_stream(held: Admission, stream: Option<Stream>) -> Admission
    ensures { result ≡ streaming stream held }
{
    Admission { stream, ..held }
}

fn is_holding(held: &Admission) -> bool
    ensures { result ≡ is_holding held.now }
{
    held.rate.is_some() || held.address.is_some()
}

// How many of the admissions hold something.
fn how_many_hold(rows: &[(u64, Admission)]) -> usize
    ensures { result ≡ count_by (λ e. is_holding e.1) rows.now }
{
    rows.iter().filter(|row| is_holding(&row.1)).count()
}

fn is_of_track(row: &(u64, Admission), track: u16) -> bool
    ensures { result ≡ is_of_track track row.now }
{
    match &row.1.stream {
        Some(stream) => stream.track == track,
        None => false,
    }
}

fn first_of_track(rows: &[(u64, Admission)], track: u16) -> Option<(u64, Admission)>
    ensures { result ≡ first_with (is_of_track track) rows.now }
{
    for row in rows {
        if is_of_track(row, track) {
            return Some(*row);
        }
    }
    None
}

fn has_channels(row: &(u64, Admission), conn: u64) -> bool
    ensures { result ≡ is_chan_of conn row.now.1.address }
{
    match row.1.address {
        Some(Thing::Chan(of, _)) => of == conn,
        _ => false,
    }
}

fn any_channels_of(rows: &[(u64, Admission)], conn: u64) -> bool
    ensures { result ≡ is_some (first_with (λ e. is_chan_of conn e.1.address) rows.now) }
{
    for row in rows {
        if has_channels(row, conn) {
            return true;
        }
    }
    false
}

// Whether a stream stands under each of these admissions.
fn all_streaming(rows: &[(u64, Admission)]) -> bool
    ensures { result ≡ all_streaming rows.now }
{
    for row in rows {
        if row.1.stream.is_none() {
            return false;
        }
    }
    true
}

// What all the admissions count.
fn of_rows(measure: &Measure, rows: &[(u64, Admission)]) -> u128
    requires { length rows.now ≤ 16 }
    ensures value { result ≡ sum_by (λ e. of_admission (measure_of measure.now) e.1) rows.now }
    ensures small { result ≤ 2 ^ 69 }
{
    let mut total = 0;
    for row in rows {
        total += of_admission(measure, &row.1);
    }
    total
}
