//! What is shown of one snapshot.

ghost use Rattle.std.specs.Prelude.{◌≡◌, IfOk};
ghost use Rattle.rtsp_metrics.specs.Figures.{metrics_text as metrics_of};
ghost use Rattle.rtsp_metrics.specs.Page.{page_text as page_of};

use crate::standing::Standing;
use rtsp_metrics::{PAGE_HEAD, Snapshot, metrics_text, page_text, plain_text};
use std::alloc::{AllocError, Global};

/// What is shown beside a snapshot: lines of further families, and a section of the page.
#[derive(Drop)]
pub struct Further {
    pub lines: Vec<u8>,
    pub section: Vec<u8>,
}

/// The texts of one snapshot, and how the server stands.
#[derive(Drop)]
pub struct Shown {
    pub metrics: Vec<u8>,
    /// The same in the older format of Prometheus.
    pub plain: Vec<u8>,
    pub page: Vec<u8>,
    /// What HAProxy's agent-check is told.
    pub agent: Vec<u8>,
    pub is_ready: bool,
}

impl Shown {
    /// Nothing yet, of a server that isn't ready.
    pub fn nothing(alloc: Global) -> Shown {
        Shown {
            metrics: Vec::new(alloc),
            plain: Vec::new(alloc),
            page: Vec::new(alloc),
            agent: Vec::new(alloc),
            is_ready: false,
        }
    }

    /// What these figures show, with further lines and a further section, and how the server stands.
    pub fn of(
        alloc: Global,
        snapshot: &Snapshot,
        further: &Further,
        standing: Standing,
    ) -> Result<Shown, AllocError>
        ensures metrics { IfOk result (λ s. s.metrics.items ≡ metrics_of snapshot.now further.now.lines.items) }
        ensures page { IfOk result (λ s. s.page.items ≡ page_of PAGE_HEAD.now snapshot.now further.now.section.items) }
        ensures ready { IfOk result (λ s. s.is_ready ≡ standing.is_ready) }
    {
        let metrics = metrics_text(alloc, snapshot, &further.lines)?;
        let plain = plain_text(alloc, &metrics)?;
        let page = page_text(alloc, snapshot, &further.section)?;
        let agent = standing.agent.line(alloc)?;
        Ok(Shown {
            metrics,
            plain,
            page,
            agent,
            is_ready: standing.is_ready,
        })
    }
}
