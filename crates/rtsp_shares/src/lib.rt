//! What keeps one player from harming the others, by what it takes or by how long it holds a thread.
//!
//! `table` has the places that addresses have taken, each by its share of then; `no_place` says why one
//! gets none. A place is held by whoever took it, or kept for something with a number until whoever
//! ends that tells. In case nobody told, `living` tells what still lives, whom `kept_place` asks, and
//! `search` says about whose places. Nobody is asked with a table held. `headcount` counts who is inside
//! by such a table. `watermark` says up to which moment all that had come was read, so that a sweep ends
//! nobody who has asked in time.
//!
//! The definitions of `specs/` read in this order: Places (who has what, and how it changes), Living
//! (what was told of numbers), Keeping (which places are kept, and looked for), Heads (who is inside),
//! Watermark (how far a sweep goes).

#![tactic(auto)]

mod headcount;
mod kept_place;
mod living;
mod no_place;
mod place;
mod search;
mod table;
mod watermark;

pub use headcount::{Headcount, Refused};
pub use kept_place::{EndedPlace, KeptPlace};
pub use living::Living;
pub use no_place::NoPlace;
pub use place::Place;
pub use search::{LOOKS, Search};
pub use table::ShareTable;
pub use watermark::{HELD_SWEEPS, Watermark};
