//! What a pacer has sent and not yet put down where all pacers count.

use rtsp_metrics::{Audience, Counters, Transport};

// Packets that were sent equally late, and bytes of one presentation over one transport, since they were put
// down last. All pacers add to the same counts, and each addition waits for the other cores: so what is alike
// is put down together, before the pacer sleeps at the latest.
#[derive(Clone, Copy)]
pub(crate) struct Untold {
    packets: u64,
    late: u64,
    bytes: u64,
    presentation: u16,
    transport: Transport,
}

impl Untold {
    // Nothing.
    pub(crate) fn none() -> Untold {
        Untold {
            packets: 0,
            late: 0,
            bytes: 0,
            presentation: 0,
            transport: Transport::Udp,
        }
    }

    // Counts packets more, each so many milliseconds late.
    pub(crate) fn add_packets(&mut self, counters: &Counters, packets: u64, late: u64) {
        if self.late != late {
            self.put_packets(counters);
            self.late = late;
        }
        self.packets = self.packets.saturating_add(packets);
    }

    // Counts bytes more of a presentation over a transport.
    pub(crate) fn add_bytes(
        &mut self,
        audience: &Audience,
        presentation: u16,
        transport: Transport,
        bytes: u64,
    ) {
        if self.presentation != presentation || self.transport != transport {
            self.put_bytes(audience);
            self.presentation = presentation;
            self.transport = transport;
        }
        self.bytes = self.bytes.saturating_add(bytes);
    }

    fn put_packets(&mut self, counters: &Counters) {
        if self.packets > 0 {
            counters.sent(self.packets, self.late);
            self.packets = 0;
        }
    }

    fn put_bytes(&mut self, audience: &Audience) {
        if self.bytes > 0 {
            audience.sent(self.presentation, self.transport, self.bytes);
            self.bytes = 0;
        }
    }

    // Puts all of it down.
    pub(crate) fn put_down(&mut self, counters: &Counters, audience: &Audience) {
        self.put_packets(counters);
        self.put_bytes(audience);
    }
}
