//! What holds of all that is sent. These functions do nothing: their contracts are the laws.

ghost use Rattle.std.specs.Prelude.{ℕ};
ghost use Rattle.rtsp_rtp.specs.Alone.{AreOnePacket};
ghost use Rattle.rtsp_rtp.specs.Wire.{Way, IsUnitWithin, AreWithin, IsPlayWithin};

use crate::pacer::Pacer;
use crate::sink::Sink;
use rtsp_record::Phase;

/// Of a track whose units are single packets each unit that is sent is its packet, with the unit's
/// octets and the number and timestamp behind those of all units before; nothing is told or counted.
pub fn law_one_packet<S: Sink>(phase: Phase, unit_ms: u32)
    ensures { AreOnePacket S.calls phase unit_ms }
{}

/// The packets of a unit that is sent take of the uplink no more than is held for them, over UDP and
/// in frames of a connection.
pub fn law_unit_within<S: Sink>(phase: Phase, unit_ms: u32)
    ensures { (way : ℕ → Way) → IsUnitWithin S.calls way phase unit_ms }
{}

/// The packets of several units take no more than is held for them.
pub fn law_turn_within<S: Sink>(phase: Phase, unit_ms: u32)
    ensures { (way : ℕ → Way) → AreWithin S.calls way phase unit_ms }
{}

/// By any moment a play has sent at most its held rate for the time since it began and one unit
/// more, and one report of each stream more, whatever its turns were and however late.
pub fn law_play_within<S: Sink>(pacer: &Pacer)
    ensures { (way : ℕ → Way) → IsPlayWithin S.calls way pacer.now }
{
    pacer.told();
}
