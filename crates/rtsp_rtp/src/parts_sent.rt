//! The sending of a unit of several packets.

ghost use Rattle.std.specs.Prelude.{◌≡◌, ◌≤◌, ◌<◌, ◌^◌, length, Some, None};
ghost use Rattle.rtsp_content.specs.PackingLimits.{packet_count};
ghost use Rattle.rtsp_rtp.specs.Parts.{parts_of};
ghost use Rattle.rtsp_rtp.specs.SenderStates.{counted_all};
ghost use Rattle.rtsp_rtp.specs.UnitStarts.{packets_from};
ghost use Rattle.rtsp_rtp.specs.Turns.{PacketsSent};

use crate::buffer::Packet;
use crate::part::{SlotFault, part_at};
use crate::sender_state::SenderState;
use crate::sink::Sink;
use crate::source::{PacketHeader, Source};

// What the headers of a unit's packets count from.
#[derive(Clone, Copy)]
pub(crate) struct UnitStart {
    // The number of the first packet of the play.
    pub(crate) number: u16,
    pub(crate) timestamp: u32,
    // What the stream has sent before.
    pub(crate) state: SenderState,
}

// What was sent of a unit.
#[derive(Clone, Copy)]
pub(crate) struct PartsSent {
    pub(crate) packets: u16,
    // The state of the stream behind them.
    pub(crate) state: SenderState,
    // What is wrong with what is left of the unit, if anything is.
    pub(crate) fault: Option<SlotFault>,
}

impl PartsSent {
    fn sound(packets: u16, state: SenderState) -> PartsSent
        ensures { result ≡ record { packets = packets; state = state; fault = None } }
    {
        PartsSent {
            packets,
            state,
            fault: None,
        }
    }

    fn faulty(packets: u16, state: SenderState, fault: SlotFault) -> PartsSent
        ensures { result ≡ record { packets = packets; state = state; fault = Some fault } }
    {
        PartsSent {
            packets,
            state,
            fault: Some(fault),
        }
    }
}

// Sends the packets of a unit.
pub(crate) fn send_parts<S: Sink>(
    source: &Source,
    start: UnitStart,
    unit: &[u8],
    packet: &mut Packet,
    sink: &mut S,
) -> PartsSent
    requires some { 1 ≤ packet_count source.now.packing }
    requires few { length unit.now < 2 ^ 32 }
    ensures sent { PacketsSent S.calls source.now.track (packets_from source.now start unit.now) sink.old sink.new }
    ensures packets { result.packets ≡ length (parts_of source.now.packing source.now.ticks unit.now).parts }
    ensures state { result.state ≡ counted_all start.state (parts_of source.now.packing source.now.ticks unit.now).parts }
    ensures fault { result.fault ≡ (parts_of source.now.packing source.now.ticks unit.now).fault }
{
    let most = source.packing.packet_count();
    let mut at = 0usize;
    let mut packets = 0u16;
    let mut state = start.state;
    while packets < most {
        let part = match part_at(source.packing, source.ticks, unit, packets, at) {
            Ok(Some(part)) => part,
            Ok(None) => return PartsSent::sound(packets, state),
            Err(fault) => return PartsSent::faulty(packets, state, fault),
        };
        let header = PacketHeader {
            marker: part.marker,
            number: start.number.wrapping_add((state.packets % 65_536) as u16),
            timestamp: start.timestamp.wrapping_add(part.offset),
        };
        packet.put_marked(source, header, &unit[part.start..part.end]);
        sink.send(source.track, packet);
        state = state.counted(part);
        at = part.end;
        packets += 1;
    }
    PartsSent::sound(packets, state)
}
