//! A step of a living session, and the response to it: room before the step, and the text after it.

ghost use Rattle.std.specs.Prelude.{◌≡◌, ◌≤◌, ◌+◌, ◌-◌, ◌^◌, ◌++◌, ◌∷◌, [], min, OnOk};
ghost use Rattle.std.specs.Result.{result_map_both};
ghost use Rattle.rtsp_grammar.specs.Writing.{headers_text, response_text};
ghost use Rattle.rtsp_state.specs.Room.{Takes};
ghost use Rattle.rtsp_state.specs.Bounds.{info_room, details_room, step_room};
ghost use Rattle.rtsp_state.specs.Lines.{range_line};
ghost use Rattle.rtsp_state.specs.Answer.{moved, paused_at, played_in, played_lines, shown_lines, done, step_answer};

use crate::headers::{put_end, put_range, put_response_start, put_seek_style};
use crate::refusals::write_refused_step;
use crate::response_start::ResponseStart;
use crate::room::Room;
use crate::rtp_info::{RtpInfo, StreamInfo, info_size, put_info};
use crate::status::Status;
use crate::status_line::put_status_line;
use crate::timing::Timing;
use rtsp_book::{Receipt, Refusal, Step};
use rtsp_record::{Phase, Record};
use std::alloc::AllocError;

/// A step of a living session, and what the response to it shows.
#[derive(Drop)]
pub struct StepPlan {
    /// What a response shows first where the step is refused.
    pub start: ResponseStart,
    /// What it shows first once the step is made.
    pub done: ResponseStart,
    pub step: Step,
    pub details: Details,
}

/// What the response to a step shows beside its start.
#[derive(Drop)]
pub enum Details {
    Nothing,
    /// Where the session is paused: at the point that the step moves to, or at this one.
    Paused { timing: Timing, at: u32 },
    /// What is played.
    Played { timing: Timing, info: RtpInfo },
}

impl StepPlan {
    /// Makes room for the response, whatever comes of the step.
    pub fn make_room(&self, room: &mut Room) -> Result<(), AllocError>
        ensures text { room.new.text ≡ room.old.text }
        ensures ok { OnOk result (step_room self.now ≤ room.new.spare) }
    {
        room.reserve(details_size(&self.details).saturating_add(211))
    }

    /// Writes the response, from what came of the step. It takes no memory and can't fail.
    pub fn answer(&self, room: &mut Room, made: Result<&Receipt, Refusal>)
        requires { step_room self.now ≤ room.old.spare }
        ensures text { room.new.text ≡ room.old.text ++ response_text (step_answer self.now (result_map_both (λ r. r.now) (λ e. e) made.entry)) }
        ensures room { Takes room.old room.new (step_room self.now) }
    {
        match made {
            Ok(receipt) => write_done(room, self, receipt),
            Err(refusal) => write_refused_step(room, self.start, refusal),
        }
    }
}

fn details_size(details: &Details) -> usize
    ensures { result ≡ min (details_room details.now) (2 ^ 64 - 1) }
{
    match details {
        Details::Nothing => 0,
        Details::Paused { .. } => 67,
        Details::Played { info, .. } => info_size(info.as_slice()).saturating_add(110),
    }
}

/// The phase that a step moved to: in a play that was begun, the play's own.
pub fn moved(receipt: &Receipt) -> Option<Phase>
    ensures { result ≡ moved receipt.now }
{
    match receipt.records().first() {
        Some(Record::Move(transition)) => Some(transition.to),
        _ => None,
    }
}

// Where a session is paused: the point that the step moved to, or the one that it was at.
fn paused_at(at: u32, phase: Option<Phase>) -> u32
    ensures { result ≡ paused_at at phase }
{
    match phase {
        Some(Phase::Ready { at, .. }) => at,
        _ => at,
    }
}

/// What is played, and how many units were sent in earlier plays.
#[derive(Clone, Copy)]
pub struct Played {
    from: u32,
    stop: u32,
    sent: u32,
}

fn played_in(phase: Option<Phase>) -> Played
    ensures { result ≡ played_in phase }
{
    match phase {
        Some(
            Phase::Playing {
                from,
                stop,
                sent,
                ..
            },
        ) => Played { from, stop, sent },
        _ => Played {
            from: 0,
            stop: 0,
            sent: 0,
        },
    }
}

#[tactic(auto, using(crate::proofs::MessageLemmas::headers_three))]
fn put_played(room: &mut Room, timing: Timing, streams: &[StreamInfo], play: Played)
    requires { info_room streams.now + 110 ≤ room.old.spare }
    ensures text { room.new.text ≡ room.old.text ++ headers_text (played_lines timing streams.now play) }
    ensures room { Takes room.old room.new (info_room streams.now + 110) }
{
    put_range(room, play.from, play.stop, timing.unit_ms);
    put_seek_style(room);
    put_info(room, streams, play.sent);
}

fn put_paused(room: &mut Room, timing: Timing, at: u32)
    requires { 67 ≤ room.old.spare }
    ensures text { room.new.text ≡ room.old.text ++ headers_text (range_line at timing.units timing.unit_ms ∷ []) }
    ensures room { Takes room.old room.new 67 }
{
    put_range(room, at, timing.units, timing.unit_ms);
}

// What is shown of the phase that the step moved to.
#[tactic(auto, using(crate::proofs::MessageLemmas::headers_nothing))]
fn put_shown(room: &mut Room, details: &Details, phase: Option<Phase>)
    requires { details_room details.now ≤ room.old.spare }
    ensures text { room.new.text ≡ room.old.text ++ headers_text (shown_lines details.now phase) }
    ensures room { Takes room.old room.new (details_room details.now) }
{
    match details {
        Details::Nothing => {}
        Details::Paused { timing, at } => put_paused(room, *timing, paused_at(*at, phase)),
        Details::Played { timing, info } => {
            put_played(room, *timing, info.as_slice(), played_in(phase))
        }
    }
}

// The response to a step that was made.
fn write_done(room: &mut Room, plan: &StepPlan, receipt: &Receipt)
    requires { details_room plan.now.details + 144 ≤ room.old.spare }
    ensures text { room.new.text ≡ room.old.text ++ response_text (done plan.now receipt.now) }
    ensures room { Takes room.old room.new (details_room plan.now.details + 144) }
{
    put_status_line(room, Status::Success);
    put_response_start(room, plan.done);
    put_shown(room, &plan.details, moved(receipt));
    put_end(room);
}
