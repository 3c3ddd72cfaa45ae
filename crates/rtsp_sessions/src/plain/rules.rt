//! Whether a record may be made now.

ghost use Rattle.std.specs.Prelude.{◌↔◌, IsTrue};
ghost use Rattle.rtsp_record.specs.Rules.{InWhole, IsFree, MayOpen, Others, Allowed};
ghost use Rattle.rtsp_record.specs.declared.holdings.Thing.TheVariants.{Pair, Port, Chan, Rate};

use super::own::allowed_for_session;
use super::rows::Rows;
use crate::measures::Measure;
use rtsp_record::{Record, Thing, Whole};

impl Rows {
    /// Whether the record may be made now.
    pub(super) fn allows(&self, whole: &Whole, change: &Record) -> bool
        ensures { IsTrue result ↔ Allowed whole.now self.now change.now }
    {
        allowed_for_session(self.get(change.session()), change) && self.others_allow(whole, change)
    }

    // Whether the record is allowed as far as the other sessions go.
    fn others_allow(&self, whole: &Whole, change: &Record) -> bool
        ensures { IsTrue result ↔ Others whole.now change.now self.now }
    {
        match change {
            Record::Open(life) => self.may_open(whole, life.id.number()),
            Record::Hold(holding) => self.is_free(whole, &holding.thing),
            Record::Bind(binding) => {
                self.amount(&Measure::Binding(binding.conn, binding.number)) == 0
            }
            _ => true,
        }
    }

    // Whether no living session has the id, and fewer live than may.
    fn may_open(&self, whole: &Whole, id: u128) -> bool
        ensures { IsTrue result ↔ MayOpen whole.now self.now id }
    {
        self.amount(&Measure::Id(id)) == 0
            && self.amount(&Measure::Sessions) < u128::from(whole.sessions)
    }

    // Whether the thing is one of the whole, and free.
    fn is_free(&self, whole: &Whole, thing: &Thing) -> bool
        ensures { IsTrue result ↔ IsFree whole.now self.now thing.now }
    {
        match *thing {
            Thing::Pair(first) => self.is_free_pair(whole, first),
            Thing::Port(port) => self.is_free_port(whole, port),
            Thing::Chan(conn, first) => self.is_free_chan(whole, conn, first),
            Thing::Rate(bits) => self.is_free_rate(whole, bits),
        }
    }

    fn is_free_pair(&self, whole: &Whole, first: u16) -> bool
        ensures { IsTrue result ↔ IsFree whole.now self.now (Pair first) }
    {
        whole.has_pair(first) && self.is_pair_free(u32::from(first))
    }

    fn is_free_port(&self, whole: &Whole, port: u16) -> bool
        ensures { IsTrue result ↔ IsFree whole.now self.now (Port port) }
    {
        whole.has_port(port) && self.is_port_free(u32::from(port))
    }

    fn is_free_chan(&self, whole: &Whole, conn: u64, first: u8) -> bool
        ensures { IsTrue result ↔ IsFree whole.now self.now (Chan conn first) }
    {
        has_chan(whole, conn, first) && self.is_chan_free(conn, first)
    }

    // Whether the bits fit within the uplink, beside all that are held.
    fn is_free_rate(&self, whole: &Whole, bits: u64) -> bool
        ensures { IsTrue result ↔ IsFree whole.now self.now (Rate bits) }
    {
        let uplink = u128::from(whole.uplink);
        let held = self.amount(&Measure::Rates);
        held <= uplink && u128::from(bits) <= uplink - held
    }
}

// Whether channels begin at an even number.
fn has_chan(whole: &Whole, conn: u64, first: u8) -> bool
    ensures { IsTrue result ↔ InWhole whole.now (Chan conn first) }
{
    first % 2 == 0
}
