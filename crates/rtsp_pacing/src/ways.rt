//! Where the packets of the streams of a play go.

use crate::channel::{Channel, room_when_late};
use crate::desk::PacerParts;
use crate::refusals::Refusals;
use crate::went::Went;
use rtsp_book::SessionView;
use rtsp_lock::Numbers;
use rtsp_record::{Admission, Stream, Thing};
use rtsp_rtp::Packet;
use rtsp_sockets::{FrameRoom, PortSockets};
use std::cell::Cell;
use std::io::ErrorKind;
use std::net::{Ipv4Addr, SocketAddrV4};
use std::sync::{Arc, Wait};

// The most tracks of a presentation.
const TRACKS: usize = 8;

// The port of a player that datagrams go to.
#[derive(Drop)]
pub(crate) struct PlayerPort {
    // The socket of RTP is connected to it.
    sockets: Arc<PortSockets>,
    // Where RTCP goes.
    rtcp: SocketAddrV4,
    // The pacer's alone: a cell, since what sends a turn's packets has a shared reference.
    refusals: Cell<Refusals>,
}

// Where the packets of a stream go.
#[derive(Drop)]
pub(crate) enum Way {
    // They are lost: there is no stream, or its address is given up.
    Nowhere,
    // As datagrams to a player's port.
    Datagrams(PlayerPort),
    // As frames of a channel of a connection.
    Frames(Channel),
}

// The ways of a play, by track.
#[derive(Drop)]
pub(crate) struct Ways {
    ways: [Way; TRACKS],
    // Until when one of the ports at least is sent none.
    spared_until: Cell<u64>,
    // What the streams that go over connections hold of the uplink, in bits per second.
    frame_rate: u64,
}

// The way of datagrams to a stream's player, where its address is still bound.
fn datagrams(sockets: Option<Arc<PortSockets>>, stream: &Stream) -> Way {
    match sockets {
        Some(sockets) if connect(&sockets, stream) => {
            let rtcp = SocketAddrV4::new(Ipv4Addr::from_bits(stream.peer), stream.rtcp_port);
            Way::Datagrams(PlayerPort {
                sockets,
                rtcp,
                refusals: Cell::new(Refusals::none()),
            })
        }
        _ => Way::Nowhere,
    }
}

// The way of a stream under an admission.
fn way_of<R: Wait, N: Numbers>(
    rt: &R,
    parts: &PacerParts<'_, N>,
    number: u64,
    admission: &Admission,
    stream: &Stream,
) -> Way {
    match admission.address {
        Some(Thing::Pair(pair)) => datagrams(parts.ports.pair_sockets(rt, number, pair), stream),
        Some(Thing::Port(port)) => datagrams(parts.ports.port_socket(rt, number, port), stream),
        Some(Thing::Chan(conn, number)) => match parts.outlets.get(rt, conn) {
            Some(outlet) => Way::Frames(Channel::new(outlet, number)),
            None => Way::Nowhere,
        },
        Some(Thing::Rate(_)) | None => Way::Nowhere,
    }
}

// What the streams of a session that go over connections hold of the uplink, in bits per second.
fn frame_rate_of(view: &SessionView) -> u64 {
    let admissions = view.admissions();
    let mut rate = 0u64;
    for place in 0..admissions.len() {
        let (_, admission) = admissions.at(place);
        if let Some(Thing::Chan(_, _)) = admission.address {
            rate = rate.saturating_add(admission.rate.unwrap_or(0));
        }
    }
    rate
}

// What a session's streams hold of the uplink, in bits per second.
pub(crate) fn rate_of(view: &SessionView) -> u64 {
    let admissions = view.admissions();
    let mut rate = 0u64;
    for place in 0..admissions.len() {
        rate = rate.saturating_add(admissions.at(place).1.rate.unwrap_or(0));
    }
    rate
}

// Connects the socket of RTP to the player's.
fn connect(sockets: &Arc<PortSockets>, stream: &Stream) -> bool {
    let player = SocketAddrV4::new(Ipv4Addr::from_bits(stream.peer), stream.rtp_port);
    sockets.rtp.connect(player).is_ok()
}

impl PlayerPort {
    // Sends a datagram. Whether it was sent. An error of a connected socket may be that of an earlier
    // datagram, and then this one wasn't sent yet.
    fn send(&self, now: u64, datagram: &[u8]) -> bool {
        let mut refusals = self.refusals.get();
        if refusals.is_spared(now) {
            return false;
        }
        match self.sockets.rtp.send(datagram) {
            Ok(_) => {
                self.refusals.set(Refusals::none());
                return true;
            }
            Err(fault) if fault.kind() == ErrorKind::ConnectionRefused => {
                refusals.note_refused(now);
                self.refusals.set(refusals);
            }
            Err(_) => {}
        }
        !refusals.is_spared(now) && self.sockets.rtp.send(datagram).is_ok()
    }

    // Sends RTCP: from a pair's second port, or the one port that RTP has too.
    fn send_control(&self, datagram: &[u8]) {
        let socket = self.sockets.rtcp.as_ref().unwrap_or(&self.sockets.rtp);
        let _ = socket.send_to(datagram, self.rtcp);
    }
}

impl Way {
    // Until when its player's port is sent none.
    fn spared_until(&self) -> u64 {
        match self {
            Way::Datagrams(port) => port.refusals.get().spared_until(),
            Way::Nowhere | Way::Frames(_) => 0,
        }
    }

    // Sends a datagram. Frames are put on the channel.
    fn send_datagram(&self, now: u64, datagram: &[u8]) -> Went {
        match self {
            Way::Datagrams(port) => {
                if port.send(now, datagram) {
                    Went::Sent
                } else {
                    Went::Lost
                }
            }
            Way::Nowhere | Way::Frames(_) => Went::Lost,
        }
    }

    // Sends an RTCP packet, on a connection on the second channel of a pair, which is odd. One that
    // can't be sent is lost.
    fn send_control<R: Wait>(&self, rt: &R, now: u64, room: FrameRoom, packet: &mut Packet) {
        match self {
            Way::Nowhere => {}
            Way::Datagrams(port) => port.send_control(packet.datagram()),
            Way::Frames(channel) => {
                channel.put(rt, now, room, packet.frame(channel.number() | 1));
            }
        }
    }
}

impl Ways {
    // The ways of the streams that a session has.
    pub(crate) fn of<R: Wait, N: Numbers>(
        rt: &R,
        parts: &PacerParts<'_, N>,
        view: &SessionView,
    ) -> Ways {
        let mut ways = Ways {
            ways: [
                Way::Nowhere,
                Way::Nowhere,
                Way::Nowhere,
                Way::Nowhere,
                Way::Nowhere,
                Way::Nowhere,
                Way::Nowhere,
                Way::Nowhere,
            ],
            spared_until: Cell::new(0),
            frame_rate: frame_rate_of(view),
        };
        let admissions = view.admissions();
        for place in 0..admissions.len() {
            let (number, admission) = admissions.at(place);
            if let Some(stream) = admission.stream
                && let Some(way) = ways.ways.get_mut(usize::from(stream.track))
            {
                *way = way_of(rt, parts, number, &admission, &stream);
            }
        }
        ways
    }

    // Whether a player's port has refused so much that it is sent none at this moment.
    pub(crate) fn is_any_spared(&self, now: u64) -> bool {
        now < self.spared_until.get()
    }

    // Sends to all ports again.
    pub(crate) fn spare_none(&self) {
        for way in &self.ways {
            if let Way::Datagrams(port) = way {
                port.refusals.set(Refusals::none());
            }
        }
        self.spared_until.set(0);
    }

    // How much of the streams may wait, where the play is late by so many milliseconds.
    pub(crate) fn room_when_late(&self, late: u64) -> FrameRoom {
        room_when_late(self.frame_rate, late)
    }

    // The number of the channel that packets of a track go to as frames, if they do.
    pub(crate) fn channel_number(&self, track: u16) -> Option<u8> {
        match self.ways.get(usize::from(track)) {
            Some(Way::Frames(channel)) => Some(channel.number()),
            _ => None,
        }
    }

    // Puts frames of a track, one behind another, which may wait within this room: all of them, or none.
    pub(crate) fn put_frames<R: Wait>(
        &self,
        rt: &R,
        now: u64,
        room: FrameRoom,
        track: u16,
        frames: &[u8],
    ) -> Went {
        match self.ways.get(usize::from(track)) {
            Some(Way::Frames(channel)) => channel.put(rt, now, room, frames),
            _ => Went::Lost,
        }
    }

    // Sends a packet of a track as a datagram.
    pub(crate) fn send_datagram(&self, now: u64, track: u16, datagram: &[u8]) -> Went {
        let Some(way) = self.ways.get(usize::from(track)) else {
            return Went::Lost;
        };
        let went = way.send_datagram(now, datagram);
        if went != Went::Sent {
            let until = way.spared_until().max(self.spared_until.get());
            self.spared_until.set(until);
        }
        went
    }

    // Sends an RTCP packet of a track.
    pub(crate) fn send_control<R: Wait>(&self, rt: &R, now: u64, track: u16, packet: &mut Packet) {
        if let Some(way) = self.ways.get(usize::from(track)) {
            way.send_control(rt, now, self.room_when_late(0), packet);
        }
    }
}
