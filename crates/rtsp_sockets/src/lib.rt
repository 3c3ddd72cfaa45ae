//! The sockets and files of a server, each a part by itself. No thread is started here. None waits here
//! for more than a lock, except a reader, which waits for what it has to read.
//!
//! `outlet` is the writing side of a connection, over `pending`, the bytes that wait to be written;
//! `outlets` are those of all connections. `frame_room` is how much of a stream may wait, `loan` what
//! a connection has of room that all share. `ports` are the sockets of ports that are bound, and `taken`
//! those that others have. `words` and `clock` are the system's words and moments, `decisions` what lanes
//! are deciding on.
//!
//! `media` are the files of the tracks. Where these aren't held in memory, the readers of each `disk` read
//! them ahead (`reader`), by cuts of a file (`cut`) that are `wanted`. What was read is `kept` on the
//! `shelf`, from which units are taken (`taking`). Media go on by another table (`renewing`), and what is
//! `closed` meanwhile is remembered.

#![tactic(auto)]

mod bound;
mod clock;
mod closed;
mod contents;
mod cut;
mod decisions;
mod disk;
mod drawing;
mod frame_room;
mod kept;
mod loan;
mod media;
mod media_file;
mod message;
mod opened_files;
mod options;
mod outlet;
mod outlets;
mod pending;
mod port_binder;
mod ports;
mod put;
mod read_at;
mod reader;
mod renewing;
mod shelf;
mod slots;
mod spaces;
mod taken;
mod taking;
mod try_write;
mod unit;
mod wanted;
mod wishes;
mod words;

pub use clock::{PieceClock, RunningClock};
pub use closed::ClosedMedia;
pub use contents::{Content, Contents, Seen};
pub use decisions::{Decisions, LaneDecisions};
pub use disk::READERS;
pub use frame_room::{FrameRoom, LENT_IN_ALL, MOST_ROOM};
pub use loan::{Loan, SharedRoom};
pub use media::{HELD_LIMIT, Media, MediaFault, MediaOf, TrackPlace};
pub use media_file::FileMark;
pub use message::{ALL_ROOM, FRAME_ROOM, Message};
pub use options::{FIRST_SEND_BUFFER, SEND_BUFFER, prepare};
pub use outlet::{Outlet, SLOW_LIMIT, STALL_LIMIT};
pub use outlets::Outlets;
pub use port_binder::PortBinder;
pub use ports::{PortSockets, PortTable};
pub use put::Put;
pub use read_at::ReadAt;
pub use reader::Reader;
pub use renewing::Longer;
pub use taking::NotTaken;
pub use words::{RandomWords, SourceWords};
