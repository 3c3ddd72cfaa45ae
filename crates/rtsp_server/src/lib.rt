//! The threads of a server: lanes that serve connections, what paces the packets, and what ends
//! sessions whose time is over.
//!
//! `server` starts all of them and joins them, with what `opening` gives; `threads` is what each
//! does, and `shared` what all share, `all_lanes` and `end_note` among it; what of that takes memory is
//! `opened` first. `desk`, `doorway` and `shown` lend parts of it together. `socket_lane` is a lane of
//! sockets, `clients` its connections and its turns, and `letting_in` lets them in; `client` is one
//! of them, and `visiting` reads it. Where `balancers` lists who connected, `naming` finds whom it
//! connects. While the journal has no room `foresight` tells what may be read, and `putting_aside`
//! has the others wait. `answering` is what is done with its input over its handle of the book,
//! `writing` and `hearing` what is done with its output and its RTCP; `unread` is what it holds of a
//! message that isn't whole. `guarding` is its gate, where only those of `users` are let through, and `owners` which of them each
//! session is of; `growing_users` takes a changed file of them up, which `watched_file` sees. Of
//! a lane, `service` and `tools` are what it answers with, `lane_lines` what it holds of the log, and
//! `recorded` whether it has to look at the journal's room. `sweeper` and `stopping` are the threads
//! that end sessions and the server, and `figures` is what is counted and shown. `readers`,
//! `writing_journal`, `growing_users` and `errands` have the threads that a disk may hold up, which are
//! then left behind. `growing` takes a changed configuration up, for which
//! `wanted_media` tells what is open, and `growth_reasons` tells why it is refused. What
//! they go by is in rtsp_threads, who is to be visited in rtsp_roster, and how one player is kept from
//! harming the others in rtsp_shares.

#![tactic(auto)]

mod all_lanes;
mod answering;
mod attending;
mod balancers;
mod channels;
mod client;
mod clients;
mod content_counts;
mod descriptors;
mod desk;
mod doorway;
mod draining;
mod end_lines;
mod end_note;
mod errands;
mod fault;
mod figures;
mod following;
mod foresight;
mod further;
mod giving;
mod growing;
mod growing_users;
mod growth_reasons;
mod guarding;
mod hearing;
mod hiding;
mod lane_lines;
mod letting_in;
mod naming;
mod opened;
mod opening;
mod operating;
mod owners;
mod putting_aside;
mod readers;
mod recorded;
mod replaced;
mod server;
mod service;
mod session_names;
mod shared;
mod shown;
mod socket_lane;
mod stopping;
mod sweeper;
mod threads;
mod tools;
mod unread;
mod users;
mod users_reasons;
mod visiting;
mod wanted_media;
mod watched_file;
mod writing;
mod writing_journal;

pub use descriptors::descriptor_fault;
pub use fault::ServerFault;
pub use rtsp_chronicle::Doubt;
pub use rtsp_lock::BookHandle;
pub use rtsp_threads::{Lane, LaneTurn, PoolEnd, run_pool, whole_of};
pub use server::{Announce, Server, ServerEnd};
pub use socket_lane::SocketLane;
pub use users_reasons::users_reason;
pub use watched_file::WatchedFile;
