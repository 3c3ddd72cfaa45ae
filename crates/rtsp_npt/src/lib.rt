//! The Range header of RTSP 2.0 in normal play time (RFC 7826, sections 4.4.2 and 18.40): read,
//! turned into units of media, and written.

#![tactic(auto)]

mod fault;
mod laws;
mod range;
mod reading;
mod time;
mod unit_length;
mod units;
mod writing;

pub use crate::fault::{OutOfMedia, RangeFault};
pub use crate::laws::{law_fits_header, law_reads_back, law_units_stay};
pub use crate::range::Range;
pub use crate::reading::read_range;
pub use crate::time::Time;
pub use crate::unit_length::UnitLength;
pub use crate::units::{Span, resolve};
pub use crate::writing::{write_range, write_stop, write_time};
