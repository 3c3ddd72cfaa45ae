//! What whoever runs a server is shown of its parts, and acts on.

use crate::content_counts::ContentCounts;
use crate::draining::Draining;
use crate::end_lines::EndTeller;
use crate::end_note::EndNote;
use crate::shared::Shared;
use rtsp_metrics::Counters;
use rtsp_shares::ShareTable;
use rtsp_sockets::PortTable;
use rtsp_threads::{Gate, ScribeBell};
use std::sync::Mutex;
use std::sync::atomic::AtomicU64;

/// What whoever runs a server is shown of what its threads share, ends sessions by, and drains.
#[derive(Clone, Copy)]
pub(crate) struct Shown<'a> {
    pub(crate) teller: EndTeller<'a>,
    pub(crate) ends: &'a EndNote,
    pub(crate) session_shares: &'a Option<Mutex<ShareTable>>,
    pub(crate) ports: &'a PortTable,
    pub(crate) gate: &'a Gate,
    pub(crate) counters: &'a Counters,
    pub(crate) content_counts: &'a ContentCounts,
    pub(crate) draining: &'a Draining,
    pub(crate) scribe: &'a Option<ScribeBell>,
    pub(crate) written_at: &'a AtomicU64,
    pub(crate) started: u64,
}

impl Shared {
    /// What is shown of it.
    pub(crate) fn shown(&self) -> Shown<'_> {
        Shown {
            teller: self.end_teller(),
            ends: &self.ends,
            session_shares: &self.session_shares,
            ports: &self.ports,
            gate: &self.gate,
            counters: &self.counters,
            content_counts: &self.content_counts,
            draining: &self.draining,
            scribe: &self.scribe,
            written_at: &self.written_at,
            started: self.started,
        }
    }
}
