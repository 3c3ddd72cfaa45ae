//! A track that is to be set up: what is known of its admission before anything is drawn, the whole
//! ask, room for the response, and its text once the track is admitted or refused.

ghost use Rattle.std.specs.Prelude.{◌≡◌, ◌≤◌, ◌++◌, OnOk};
ghost use Rattle.std.specs.Result.{result_map_both};
ghost use Rattle.rtsp_grammar.specs.Writing.{headers_text, response_text};
ghost use Rattle.rtsp_record.specs.Choices.{IsWish};
ghost use Rattle.rtsp_state.specs.Room.{Takes};
ghost use Rattle.rtsp_state.specs.Bounds.{setup_room};
ghost use Rattle.rtsp_state.specs.SetupPlan.{setup_start, key_of, opening_of, wanted_of, startup_of, stream_of, ask_of, WishesWell};
ghost use Rattle.rtsp_state.specs.Response.{refused};
ghost use Rattle.rtsp_state.specs.Answer.{granted_lines, media_lines, admitted, setup_answer};
ghost use Rattle.rtsp_state.specs.declared.fault.Fault.TheVariants as faults;

use crate::headers::{
    put_accept_ranges, put_cseq, put_end, put_media_range, put_opened, put_properties,
    put_transport,
};
use crate::refusals::{write_refused, write_refused_step};
use crate::response_start::ResponseStart;
use crate::room::Room;
use crate::status::Status;
use crate::status_line::put_status_line;
use crate::timing::Timing;
use rtsp_book::{Admitted, Ask, Opening, Refusal, Startup, Wanted};
use rtsp_record::Stream;
use rtsp_transport::ChannelPair;
use std::alloc::AllocError;

/// A session, by its number in the book and its id on the wire.
#[derive(Clone, Copy, PartialEq, Eq)]
pub struct SessionKey {
    pub session: u64,
    pub id: u128,
}

/// The session that a track is set up in.
#[derive(Clone, Copy)]
pub enum SetupSession {
    /// One that is opened: the moment at which it ends if nothing renews it, in milliseconds, and
    /// the startup number that the client gave it (RFC 7826 section 18.33).
    New { expires: u64, startup: Option<u32> },
    /// One that lives.
    Living(SessionKey),
}

/// How the packets of a track are sent to the player.
#[derive(Clone, Copy)]
pub enum Delivery {
    /// By UDP, to these ports.
    Udp { rtp_port: u16, rtcp_port: u16 },
    /// By UDP, RTP and RTCP both to this one port (RFC 5761).
    Mux { port: u16 },
    /// Over the connection, on an even channel and the next: those that the player wishes, where it
    /// named some and they are free.
    Interleaved { wish: Option<ChannelPair> },
}

/// A track that is to be set up, with what is known of it from the request and the table.
#[derive(Clone, Copy)]
pub struct SetupPlan {
    pub cseq: u32,
    pub session: SetupSession,
    /// Bits per second.
    pub rate: u64,
    pub delivery: Delivery,
    /// The track, by the places of its presentation and of itself in the table.
    pub presentation: u16,
    pub track: u16,
    /// The player's IPv4 address.
    pub peer: u32,
    /// Seconds that a session lives without a request.
    pub timeout: u32,
    pub timing: Timing,
}

/// What an admission has beside its plan: the connection's number, and what is drawn for it. That is
/// the session's key where one is opened (a living session keeps its own), the admission's number,
/// and the words of the stream.
#[derive(Clone, Copy)]
pub struct Drawn {
    pub conn: u64,
    pub key: SessionKey,
    pub admission: u64,
    pub ssrc: u32,
    pub seq: u16,
    pub rtptime: u32,
}

// The channel of RTP that a player wishes.
fn channel_of(wish: Option<ChannelPair>) -> Option<u8>
    ensures value { result ≡ wish }
    ensures wish { IsWish result }
{
    match wish {
        Some(pair) => Some(pair.rtp()),
        None => None,
    }
}

impl SetupPlan {
    /// What a response shows first where the track isn't set up.
    pub fn start(&self) -> ResponseStart
        ensures { result ≡ setup_start self.now }
    {
        let session = match self.session {
            SetupSession::New { .. } => None,
            SetupSession::Living(key) => Some(key.id),
        };
        ResponseStart {
            cseq: self.cseq,
            session,
        }
    }

    /// The session that the track is set up in, where this key was drawn for a new one.
    pub fn key(&self, drawn: SessionKey) -> SessionKey
        ensures { result ≡ key_of self.now.session drawn }
    {
        match self.session {
            SetupSession::New { .. } => drawn,
            SetupSession::Living(key) => key,
        }
    }

    // The session that is opened, where one is.
    fn opening(&self, drawn: Drawn) -> Option<Opening>
        ensures { result ≡ opening_of self.now.session drawn }
    {
        match self.session {
            SetupSession::New { expires, .. } => Some(Opening {
                id: drawn.key.id,
                conn: drawn.conn,
                expires,
            }),
            SetupSession::Living(_) => None,
        }
    }

    // The startup number of the session that is opened.
    fn startup(&self, conn: u64) -> Option<Startup>
        ensures { result ≡ startup_of self.now.session conn }
    {
        match self.session {
            SetupSession::New {
                startup: Some(number),
                ..
            } => Some(Startup { conn, number }),
            _ => None,
        }
    }

    // The address that is asked for.
    fn wanted(&self, conn: u64) -> Wanted
        ensures value { result ≡ wanted_of self.now.delivery conn }
        ensures wish { WishesWell result }
    {
        match self.delivery {
            Delivery::Udp { .. } => Wanted::Pair,
            Delivery::Mux { .. } => Wanted::Port,
            Delivery::Interleaved { wish } => Wanted::Channels {
                conn,
                wish: channel_of(wish),
            },
        }
    }

    // The stream with its words.
    fn stream(&self, drawn: Drawn) -> Stream
        ensures { result ≡ stream_of self.now drawn }
    {
        let (rtp_port, rtcp_port) = match self.delivery {
            Delivery::Udp {
                rtp_port,
                rtcp_port,
            } => (rtp_port, rtcp_port),
            Delivery::Mux { port } => (port, port),
            Delivery::Interleaved { .. } => (0, 0),
        };
        Stream {
            presentation: self.presentation,
            track: self.track,
            ssrc: drawn.ssrc,
            seq: drawn.seq,
            rtptime: drawn.rtptime,
            peer: self.peer,
            rtp_port,
            rtcp_port,
        }
    }

    /// The whole ask, once everything is drawn.
    pub fn ask(&self, drawn: Drawn) -> Ask
        ensures value { result ≡ ask_of self.now drawn }
        ensures wish { WishesWell result.wanted }
    {
        Ask {
            session: self.key(drawn.key).session,
            admission: drawn.admission,
            opening: self.opening(drawn),
            rate: self.rate,
            wanted: self.wanted(drawn.conn),
            stream: self.stream(drawn),
            startup: self.startup(drawn.conn),
        }
    }

    /// Makes room for the response, whatever comes of the admission.
    pub fn make_room(&self, room: &mut Room) -> Result<(), AllocError>
        ensures text { room.new.text ≡ room.old.text }
        ensures ok { OnOk result (setup_room ≤ room.new.spare) }
    {
        room.reserve(470)
    }

    /// Writes the response, from the key that was drawn and what came of the admission. `source` is
    /// the IPv4 address that packets over UDP come from, where the player connected to another one.
    /// It takes no memory and can't fail.
    pub fn answer(
        &self,
        room: &mut Room,
        source: Option<u32>,
        drawn: SessionKey,
        made: Result<&Admitted, Refusal>,
    )
        requires { setup_room ≤ room.old.spare }
        ensures text { room.new.text ≡ room.old.text ++ response_text (setup_answer self.now source drawn (result_map_both (λ m. m.now) (λ e. e) made.entry)) }
        ensures room { Takes room.old room.new setup_room }
    {
        match made {
            Ok(made) => write_admitted(room, self, source, self.key(drawn).id, made),
            Err(refusal) => write_refused_step(room, self.start(), refusal),
        }
    }

    /// Writes the response that refuses by a status, where it didn't come to an admission. It takes
    /// no memory and can't fail.
    pub fn refuse(&self, room: &mut Room, status: Status)
        requires { setup_room ≤ room.old.spare }
        ensures text { room.new.text ≡ room.old.text ++ response_text (refused (setup_start self.now) (faults.Refused status)) }
        ensures room { Takes room.old room.new setup_room }
    {
        write_refused(room, self.start(), status);
    }
}

#[tactic(auto, using(crate::proofs::MessageLemmas::headers_three))]
fn put_granted(room: &mut Room, plan: &SetupPlan, source: Option<u32>, id: u128, made: &Admitted)
    requires { 239 ≤ room.old.spare }
    ensures text { room.new.text ≡ room.old.text ++ headers_text (granted_lines plan.now source id made.now) }
    ensures room { Takes room.old room.new 239 }
{
    put_cseq(room, plan.cseq);
    put_opened(room, id, plan.timeout);
    put_transport(room, source, made.address, &made.stream);
}

#[tactic(auto, using(crate::proofs::MessageLemmas::headers_three))]
fn put_media(room: &mut Room, timing: Timing)
    requires { 167 ≤ room.old.spare }
    ensures text { room.new.text ≡ room.old.text ++ headers_text (media_lines timing) }
    ensures room { Takes room.old room.new 167 }
{
    put_accept_ranges(room);
    put_properties(room, timing.longest_gap, timing.unit_ms);
    put_media_range(room, timing);
}

// The response to a track that was admitted into the session of this id.
fn write_admitted(room: &mut Room, plan: &SetupPlan, source: Option<u32>, id: u128, made: &Admitted)
    requires { setup_room ≤ room.old.spare }
    ensures text { room.new.text ≡ room.old.text ++ response_text (admitted plan.now source id made.now) }
    ensures room { Takes room.old room.new setup_room }
{
    put_status_line(room, Status::Success);
    put_granted(room, plan, source, id, made);
    put_media(room, plan.timing);
    put_end(room);
}
