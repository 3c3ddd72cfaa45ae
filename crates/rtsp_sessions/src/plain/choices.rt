//! What a plain book chooses of what is free.

ghost use Rattle.std.specs.Prelude.{◌≡◌, ◌+◌, ◌*◌, ◌<◌, ◌^◌};
ghost use Rattle.rtsp_record.specs.Choices.{from_on, least_chan, chosen_chan, HasPorts};
ghost use Rattle.rtsp_sessions.specs.Ports.{step_of, count_in, is_free_at, least_free};

use super::rows::Rows;
use crate::udp_ports::UdpPorts;
use rtsp_record::Whole;

impl UdpPorts {
    // How many of them the whole has.
    fn count(self, whole: &Whole) -> u32
        ensures { result ≡ count_in whole.now self }
    {
        let pairs = u32::from(whole.pairs);
        match self {
            UdpPorts::Pair => pairs,
            UdpPorts::Port => 2 * pairs,
        }
    }

    // The first port of the one at this place in the whole, counted from 0.
    fn first_at(self, whole: &Whole, place: u32) -> u16
        requires ports { HasPorts whole.now }
        requires within { place < count_in whole.now self }
        ensures { result ≡ whole.now.first_port + step_of self * place }
    {
        let past = match self {
            UdpPorts::Pair => 2 * place,
            UdpPorts::Port => place,
        };
        whole.first_port + past as u16
    }

    // Whether the one with this first port is not below `from`, and free.
    fn is_candidate(self, rows: &Rows, from: u32, first: u32) -> bool
        requires { first < 2 ^ 31 }
        ensures { result ≡ from_on from (is_free_at self rows.now) first }
    {
        from <= first
            && match self {
                UdpPorts::Pair => rows.is_pair_free(first),
                UdpPorts::Port => rows.is_port_free(first),
            }
    }
}

impl Rows {
    /// The least free one not below `from`, by its first port.
    pub(super) fn least_free(&self, wanted: UdpPorts, whole: &Whole, from: u32) -> Option<u16>
        requires { HasPorts whole.now }
        ensures { result ≡ least_free wanted whole.now self.now from }
    {
        for place in 0..wanted.count(whole) {
            let first = wanted.first_at(whole, place);
            if wanted.is_candidate(self, from, u32::from(first)) {
                return Some(first);
            }
        }
        None
    }

    // The least free even pair of channels of the connection, by its first.
    fn least_chan(&self, conn: u64) -> Option<u8>
        ensures { result ≡ least_chan self.now conn }
    {
        for pair in 0..128u8 {
            if self.is_chan_free(conn, 2 * pair) {
                return Some(2 * pair);
            }
        }
        None
    }

    /// The wish where its two channels of the connection are free, else the least free.
    pub(super) fn chosen_chan(&self, conn: u64, wish: Option<u8>) -> Option<u8>
        ensures { result ≡ chosen_chan self.now conn wish }
    {
        match wish {
            None => self.least_chan(conn),
            Some(channel) => {
                if self.is_chan_free(conn, channel) {
                    Some(channel)
                } else {
                    self.least_chan(conn)
                }
            }
        }
    }
}
