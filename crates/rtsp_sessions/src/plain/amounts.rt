//! Sums over the rows of a plain book.

ghost use Rattle.std.specs.Prelude.{◌≡◌, ◌+◌, ◌<◌, ◌^◌};
ghost use Rattle.rtsp_record.specs.Sums.{amount, Channel};
ghost use Rattle.rtsp_record.specs.Choices.{is_free, is_port_free, is_pair_free, is_chan_free};
ghost use Rattle.rtsp_sessions.specs.Measures.{measure_of};

use super::rows::Rows;
use crate::measures::Measure;

impl Rows {
    /// How much there is of this in the book.
    pub(super) fn amount(&self, measure: &Measure) -> u128
        ensures { result ≡ amount (measure_of measure.now) self.now }
    {
        let mut total = 0;
        for row in self.views() {
            total += row.weight(measure);
        }
        total
    }

    /// Whether nothing that is held covers the port.
    pub(super) fn is_port_free(&self, port: u32) -> bool
        ensures { result ≡ is_port_free self.now port }
    {
        self.amount(&Measure::Port(port)) == 0
    }

    /// Whether both ports of the pair are free.
    pub(super) fn is_pair_free(&self, first: u32) -> bool
        requires { first < 2 ^ 31 }
        ensures { result ≡ is_pair_free self.now first }
    {
        self.is_port_free(first) && self.is_port_free(first + 1)
    }

    // Whether no held channels cover the channel of the connection.
    fn is_channel_free(&self, conn: u64, channel: u16) -> bool
        ensures { result ≡ is_free self.now (Channel conn channel) }
    {
        self.amount(&Measure::Channel(conn, channel)) == 0
    }

    /// Whether both channels of the connection are free.
    pub(super) fn is_chan_free(&self, conn: u64, first: u8) -> bool
        ensures { result ≡ is_chan_free self.now conn first }
    {
        let channel = u16::from(first);
        self.is_channel_free(conn, channel) && self.is_channel_free(conn, channel + 1)
    }
}
