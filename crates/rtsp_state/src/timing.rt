//! How long a presentation lasts.

use rtsp_npt::UnitLength;

/// How many units a presentation has, how long each lasts, and where a play of it may begin.
#[derive(Clone, Copy)]
pub struct Timing {
    pub units: u32,
    pub unit_ms: UnitLength,
    /// The most units from one where a play may begin to the next.
    pub longest_gap: u32,
}
