//! What is counted over a session, or over a whole book.

ghost use Rattle.std.specs.Prelude.{◌≡◌, ◌+◌, ◌^◌, ◌≤◌, ◌<◌};
ghost use Rattle.rtsp_record.specs.Sums.{if_there, of_admission, covers, UdpPort, Channel};
ghost use Rattle.rtsp_sessions.specs.Measures.{measure_of};

use crate::views::SessionView;
use rtsp_record::{Admission, Phase, Stream, Thing};

/// What is counted, over a session or over a whole book.
#[derive(Clone, Copy)]
pub enum Measure {
    /// Living sessions.
    Sessions,
    /// Living sessions with this id.
    Id(u128),
    /// Bindings of this startup number on this connection.
    Binding(u64, u32),
    /// Bits per second that are held.
    Rates,
    /// Held things that cover this port.
    Port(u32),
    /// Held things that cover this channel of this connection.
    Channel(u64, u16),
    /// Streams.
    Streams,
    /// Streams beside which this one cannot stand: of its track, or of another presentation.
    Clashing(Stream),
    /// Streams of another presentation than this one's.
    Elsewhere(Stream),
    /// Streams of other tracks.
    OtherTracks(u16),
    /// Returns that are owed: the records that would end all sessions.
    Returns,
}

// What a session with this id counts for living.
pub(crate) fn of_life(measure: &Measure, id: u128) -> u128
    ensures value { result ≡ (measure_of measure.now).life id }
    ensures small { result ≤ 1 }
{
    match *measure {
        Measure::Sessions | Measure::Returns => 1,
        Measure::Id(wanted) => u128::from(id == wanted),
        _ => 0,
    }
}

pub(crate) fn of_phase(measure: &Measure, phase: &Phase) -> u128
    ensures value { result ≡ (measure_of measure.now).phase phase.now }
    ensures small { result ≤ 1 }
{
    match *measure {
        Measure::Returns => u128::from(!phase.is_opening()),
        _ => 0,
    }
}

pub(crate) fn of_binding(measure: &Measure, view: &SessionView) -> u128
    ensures value { result ≡ if_there (measure_of measure.now).binding view.now.1.binding }
    ensures small { result ≤ 1 }
{
    match *measure {
        Measure::Binding(conn, number) => u128::from(view.is_bound(conn, number)),
        Measure::Returns => u128::from(view.binding().is_some()),
        _ => 0,
    }
}

// Whether the thing covers this port.
fn covers_port(thing: &Thing, port: u32) -> bool
    ensures { result ≡ covers (UdpPort port) thing.now }
{
    match *thing {
        Thing::Pair(first) => port == u32::from(first) || port == u32::from(first) + 1,
        Thing::Port(only) => port == u32::from(only),
        Thing::Chan(_, _) | Thing::Rate(_) => false,
    }
}

// Whether the thing covers this channel of the connection.
fn covers_channel(thing: &Thing, conn: u64, channel: u16) -> bool
    ensures { result ≡ covers (Channel conn channel) thing.now }
{
    match *thing {
        Thing::Chan(of, first) => {
            conn == of && (channel == u16::from(first) || channel == u16::from(first) + 1)
        }
        Thing::Pair(_) | Thing::Port(_) | Thing::Rate(_) => false,
    }
}

// What a held thing counts.
fn of_thing(measure: &Measure, thing: &Thing) -> u128
    ensures value { result ≡ (measure_of measure.now).thing thing.now }
    ensures small { result < 2 ^ 64 }
{
    match *measure {
        Measure::Rates => match *thing {
            Thing::Rate(bits) => u128::from(bits),
            Thing::Pair(_) | Thing::Port(_) | Thing::Chan(_, _) => 0,
        },
        Measure::Port(port) => u128::from(covers_port(thing, port)),
        Measure::Channel(conn, channel) => u128::from(covers_channel(thing, conn, channel)),
        Measure::Returns => 1,
        _ => 0,
    }
}

// What a stream counts.
fn of_stream(measure: &Measure, stream: &Stream) -> u128
    ensures value { result ≡ (measure_of measure.now).stream stream.now }
    ensures small { result ≤ 1 }
{
    match *measure {
        Measure::Streams | Measure::Returns => 1,
        Measure::Clashing(other) => u128::from(
            other.track == stream.track || other.presentation != stream.presentation,
        ),
        Measure::Elsewhere(other) => u128::from(other.presentation != stream.presentation),
        Measure::OtherTracks(track) => u128::from(stream.track != track),
        _ => 0,
    }
}

// What all that stands under an admission counts.
pub(crate) fn of_admission(measure: &Measure, held: &Admission) -> u128
    ensures value { result ≡ of_admission (measure_of measure.now) held.now }
    ensures small { result ≤ 2 ^ 65 }
{
    let rate = match held.rate {
        Some(bits) => of_thing(measure, &Thing::Rate(bits)),
        None => 0,
    };
    let address = match &held.address {
        Some(thing) => of_thing(measure, thing),
        None => 0,
    };
    let stream = match &held.stream {
        Some(stream) => of_stream(measure, stream),
        None => 0,
    };
    rate + address + stream
}
