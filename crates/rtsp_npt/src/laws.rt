//! Laws of written ranges, each the contract of a function that does nothing.

ghost use Rattle.rtsp_npt.specs.Laws.{TimeReadsBack, RangeReadsBack, StopReadsBack, UnitsStay};
ghost use Rattle.rtsp_npt.specs.Laws.{TimeFits, RangeFits, StopFits};

/// What is written is read back as the same times.
pub fn law_reads_back()
    ensures time { TimeReadsBack }
    ensures range { RangeReadsBack }
    ensures stop { StopReadsBack }
{}

/// The times at which units begin are resolved to the same units.
pub fn law_units_stay()
    ensures { UnitsStay }
{}

/// What is printed fits a header: it is short, and visible ASCII.
pub fn law_fits_header()
    ensures time { TimeFits }
    ensures range { RangeFits }
    ensures stop { StopFits }
{}
