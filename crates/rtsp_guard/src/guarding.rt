//! One who answers behind a gate, as an `Answerer`.

ghost use Rattle.std.specs.Prelude.{◌≡◌, IfOk, IfSome, OnOk, OnErr};
ghost use Rattle.rtsp_grammar.specs.declared.message.Item.{Item};
ghost use Rattle.rtsp_engine.specs.Served.{Puts};
ghost use Rattle.rtsp_guard.specs.Estranging.{IsEstranged, IsTakenAs};
ghost use Rattle.rtsp_guard.specs.Guarding.{AnswersBehind, GivesUpBehind};

use crate::estranging::{estranged, names_by};
use crate::hiding::hidden;
use crate::porter::{Foreign, NamedBy, Porter};
use crate::refusing::refuse;
use rtsp_credentials::{Gate, Users};
use rtsp_engine::Answerer;
use rtsp_grammar::{Item, Request};
use rtsp_record::{Life, Setup};
use rtsp_state::Room;
use rtsp_watch::Recorder;
use std::alloc::{AllocError, Global};

/// One who answers, behind a gate. A request that isn't let through is refused, and he never learns of
/// it.
#[derive(Drop)]
pub(crate) struct Guarded<'a, 'u, 'p, A, P> {
    pub(crate) gate: Gate,
    pub(crate) users: &'u Users,
    pub(crate) porter: &'p P,
    pub(crate) answerer: &'a mut A,
}

// The request as of no session, where it names one by this header.
fn estranged_by(
    alloc: Global,
    by: NamedBy,
    request: &Request,
) -> Result<Option<Request>, AllocError>
    ensures { IfOk result (λ found. IfSome found (IsEstranged request.now)) }
{
    if names_by(by, &request.headers) {
        Ok(Some(estranged(alloc, by, request)?))
    } else {
        Ok(None)
    }
}

// The request as it is taken, where it names what isn't there for its user. A free OPTIONS has none.
fn taken_as<P: Porter>(
    alloc: Global,
    porter: &P,
    request: &Request,
    user: Option<&[u8]>,
) -> Result<Option<Request>, AllocError>
    ensures { IfOk result (λ found. IfSome found (IsTakenAs request.now)) }
{
    let Some(user) = user else {
        return Ok(None);
    };
    match porter.of_another(request, user)? {
        Some(Foreign::Session(by)) => estranged_by(alloc, by, request),
        Some(Foreign::Presentation) => Ok(Some(hidden(alloc, request)?)),
        None => Ok(None),
    }
}

// Has a request answered, and lets it go.
fn answer_request<A: Answerer>(
    alloc: Global,
    answerer: &mut A,
    request: Request,
    room: &mut Room,
) -> Result<(), AllocError>
    ensures ok { OnOk result (Puts (λ bytes. A.answers answerer.old (Item.Request request) bytes answerer.new) room.old.text room.new.text) }
    ensures err { OnErr result (A.gives_up answerer.old (Item.Request request) answerer.new) }
    ensures mute { OnErr result (room.new.text ≡ room.old.text) }
{
    answerer.answer(alloc, &Item::Request(request), room)
}

impl<A: Answerer, P: Porter> Answerer for Guarded<'_, '_, '_, A, P> {
    ghost answers = { AnswersBehind A.answers A.gives_up };

    ghost gives_up = { GivesUpBehind A.answers A.gives_up };

    fn answer(&mut self, alloc: Global, item: &Item, room: &mut Room) -> Result<(), AllocError> {
        match item {
            Item::Request(request) => match self.gate.passage(self.users, request) {
                Ok(passage) => {
                    let taken = taken_as(alloc, self.porter, request, passage.user)?;
                    self.gate = passage.gate;
                    match taken {
                        Some(request) => answer_request(alloc, self.answerer, request, room),
                        None => self.answerer.answer(alloc, item, room),
                    }
                }
                Err(refusal) => {
                    let gate = self.gate;
                    self.gate = gate.after(refusal);
                    self.porter.refused(refusal, request);
                    refuse(alloc, self.users, &gate, refusal, request, room)
                }
            },
            Item::Response(_) | Item::Frame(_) => self.answerer.answer(alloc, item, room),
        }
    }
}

impl<A: Recorder, P: Porter> Recorder for Guarded<'_, '_, '_, A, P> {
    fn closed(&self) -> Option<Life> {
        self.answerer.closed()
    }

    fn added(&self) -> Option<Setup> {
        self.answerer.added()
    }
}
