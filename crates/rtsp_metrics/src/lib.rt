//! The figures of a server: counters that its threads add to without a lock, a copy of them with what
//! the book has at one moment, and that copy as the text of OpenMetrics and as a page.
//!
//! The definitions of `specs/` read in this order: Families (what a family of figures is, and its
//! text), Figures (the families of a server), Page (the page that shows them).

#![tactic(auto)]

mod answer_counters;
mod audience;
mod counter;
mod counters;
mod families;
mod figures;
mod film_rows;
mod films;
mod further;
mod history;
mod kinds;
mod media_failures;
mod page;
mod plain;
mod player_rows;
mod plots;
mod rows;
mod session_counts;
mod snapshot;
mod viewer_text;

pub use answer_counters::AnswerCounters;
pub use audience::{Audience, Viewer, Viewing, first_digits};
pub use counters::Counters;
pub use figures::metrics_text;
pub use film_rows::film_section;
pub use films::{FilmFigures, Transport};
pub use further::{ContentFigures, FilmLine, ProcessFigures, WritingFigures, further_text};
pub use history::{History, SAMPLE_MS, SAMPLES, Sample};
pub use kinds::{Method, Outcome, Refusal};
pub use page::{PAGE_HEAD, page_text};
pub use plain::plain_text;
pub use player_rows::{PLAYERS_SHOWN, PlayerLine, player_section};
pub use plots::history_section;
pub use session_counts::{LATE_MS, SessionCounts, SessionSums};
pub use snapshot::{
    BookFigures, ByMethod, ByOutcome, Connections, Counts, Held, Lateness, Packets, Refusals,
    Snapshot,
};
