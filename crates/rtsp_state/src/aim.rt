//! What a request is about, of several presentations that have had one name: for whoever has streams of
//! one that one, for all others the one that is offered.

ghost use Rattle.std.specs.Prelude.{◌≡◌, option_map};
ghost use Rattle.rtsp_state.specs.Aim.{first_place, own_of, meant, meant_track, at_place, at_track, Aims};
ghost use Rattle.rtsp_state.specs.Context.{streams_of};

use crate::fault::Fault;
use crate::method::Method;
use crate::request::Target;
use crate::status::Status;
use rtsp_book::SessionView;
use rtsp_content::Table;

// The place of the presentation that a session has streams of. It stands apart, as what aims at media does, so
// that a request which needs neither doesn't pay for their room on the stack.
#[inline(never)]
fn first_place(view: &SessionView) -> Option<u16>
    ensures { result ≡ first_place (streams_of view.now.1) }
{
    for index in 0..view.admissions().len() {
        let (_, held) = view.admissions().at(index);
        if let Some(stream) = held.stream {
            return Some(stream.presentation);
        }
    }
    None
}

/// The place by which a request of the session is understood. A description is of what is offered, whoever
/// asks for it.
pub fn own_of(method: Method, view: Option<&SessionView>) -> Option<u16>
    ensures { result ≡ own_of method (option_map (λ v. v.now) view.entry) }
{
    if matches!(method, Method::Describe) {
        return None;
    }
    first_place(view?)
}

// What is meant has to be there.
fn meant(table: &Table, own: Option<u16>, place: u16) -> Result<u16, Fault>
    ensures { result ≡ meant table.now own place }
{
    match table.meant(own, place) {
        Some(meant) => Ok(meant),
        None => Err(Fault::Refused(Status::NotFound)),
    }
}

// So has its track.
fn meant_track(table: &Table, place: u16, track: u16, meant: u16) -> Result<u16, Fault>
    ensures { result ≡ meant_track table.now place track meant }
{
    match table.track_as(place, track, meant) {
        Some(track) => Ok(track),
        None => Err(Fault::Refused(Status::NotFound)),
    }
}

// Names another place of a presentation.
fn set_place(target: &mut Target<'_>, meant: u16)
    ensures { target.new ≡ at_place target.old meant }
{
    match target {
        Target::Presentation(_, place) => *place = meant,
        Target::Track(_, place, _) => *place = meant,
        Target::Server | Target::Star => {}
    }
}

// Names another place of a track.
fn set_track(target: &mut Target<'_>, meant: u16)
    ensures { target.new ≡ at_track target.old meant }
{
    if let Target::Track(_, _, track) = target {
        *track = meant;
    }
}

// Aims a target at the places that are meant.
#[inline(never)]
fn aim_at_media(table: &Table, own: Option<u16>, target: &mut Target<'_>) -> Result<(), Fault>
    ensures { Aims table.now own result target.old target.new }
{
    match &*target {
        Target::Presentation(_, place) => {
            let meant = meant(table, own, *place)?;
            set_place(target, meant);
            Ok(())
        }
        Target::Track(_, place, track) => {
            let meant = meant(table, own, *place)?;
            let track = meant_track(table, *place, *track, meant)?;
            set_track(target, track);
            set_place(target, meant);
            Ok(())
        }
        Target::Server | Target::Star => Ok(()),
    }
}

/// Aims a target at the places that are meant. It stays where it is, since it is dear to move.
#[inline(always)]
pub fn aim(table: &Table, own: Option<u16>, target: &mut Target<'_>) -> Result<(), Fault>
    ensures { Aims table.now own result target.old target.new }
{
    match &*target {
        Target::Server | Target::Star => Ok(()),
        Target::Presentation(..) | Target::Track(..) => aim_at_media(table, own, target),
    }
}
