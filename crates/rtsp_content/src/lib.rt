//! What the server serves: its configuration, the presentations and tracks in it, and their
//! description.

#![tactic(auto)]

mod allowed;
mod balancers;
mod example;
mod fault;
mod found;
mod growing;
mod journal_files;
mod keys;
mod laws;
mod limits;
mod meaning;
mod media_path;
mod numbers;
mod operation;
mod packing;
mod presentation;
mod reading;
mod same;
mod sdp;
mod server;
mod standing;
mod starts;
mod table;
mod track;

pub use allowed::{Allowed, AllowedRow};
pub use example::EXAMPLE;
pub use fault::TableFault;
pub use found::Found;
pub use journal_files::{JournalFiles, WhenFull};
pub use laws::{law_extends_chain, law_finds_alike, law_keeps_places};
pub use limits::{
    MAX_CONNECTIONS, MAX_OCTETS, MAX_PACKETS, MAX_PLACES, MAX_TRACKS, MAX_UNIT_OCTETS, SLOT_HEAD,
};
pub use operation::Operation;
pub use packing::Packing;
pub use presentation::Presentation;
pub use server::{Players, Server};
pub use starts::Starts;
pub use table::Table;
pub use track::{Media, Track};
