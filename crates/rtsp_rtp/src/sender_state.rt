//! What the streams of a play have sent in it, whose units have several packets.

ghost use Rattle.std.specs.Prelude.{◌≡◌, ◌≤◌, ◌<◌, ◌^◌, List, ℕ, set, length};
ghost use Rattle.rtsp_rtp.specs.SenderStates.{unsent_state, unsent_states, state_of, counted, report_every};
ghost use Rattle.rtsp_content.specs.declared.limits.TheConstants.{MAX_TRACKS};

use crate::part::Part;
use rtsp_content::MAX_TRACKS;
use std::marker::Model;

// What a stream has sent in a play, as its reports have it (RFC 3550 section 6.4.1).
#[derive(Clone, Copy, PartialEq, Eq)]
pub(crate) struct SenderState {
    // Modulo 2^32. The numbers of packets go on by it, too.
    pub(crate) packets: u32,
    // The bytes of their payloads, modulo 2^32.
    pub(crate) octets: u32,
    // The unit of the play from which on it reports again.
    pub(crate) reports_from: u64,
}

impl SenderState {
    fn unsent() -> SenderState
        ensures { result ≡ unsent_state }
    {
        SenderState {
            packets: 0,
            octets: 0,
            reports_from: 0,
        }
    }

    // The state with one packet more.
    pub(crate) fn counted(self, part: Part) -> SenderState
        requires few { part.end < 2 ^ 32 }
        requires order { part.start ≤ part.end }
        ensures { result ≡ counted self part }
    {
        SenderState {
            packets: self.packets.wrapping_add(1),
            octets: self.octets.wrapping_add((part.end - part.start) as u32),
            reports_from: self.reports_from,
        }
    }
}

// Every how many units of this length a stream reports.
pub(crate) fn report_every(unit_ms: u32) -> u32
    requires { 1 ≤ unit_ms }
    ensures { result ≡ report_every unit_ms }
{
    1000u32.div_ceil(unit_ms)
}

// The states of the streams of a play, each at its track's place.
#[derive(Drop)]
pub(crate) struct SenderStates {
    rows: [SenderState; MAX_TRACKS],
}

impl Model for SenderStates {
    ghost use Rattle.std.specs.Prelude.{List};
    ghost use Rattle.rtsp_rtp.specs.declared.sender_state.SenderState.{SenderState};

    ghost Value = { List SenderState };

    ghost view = { λ s. s.rows };
}

impl SenderStates {
    pub(crate) fn unsent() -> SenderStates
        ensures { result ≡ unsent_states }
    {
        SenderStates {
            rows: [SenderState::unsent(); MAX_TRACKS],
        }
    }

    pub(crate) fn of(&self, track: u16) -> SenderState
        requires { track < MAX_TRACKS }
        ensures { result ≡ state_of self.now track }
    {
        self.rows[usize::from(track)]
    }

    pub(crate) fn set(&mut self, track: u16, state: SenderState)
        requires { track < MAX_TRACKS }
        ensures { self.new ≡ set self.old track state }
    {
        self.rows[usize::from(track)] = state;
    }
}
