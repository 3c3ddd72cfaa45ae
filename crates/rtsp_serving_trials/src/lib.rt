//! Tests of the crates by which a connection is answered, and of what a server does beside its
//! conversations: what it sends over real sockets of this host, what players may have of it, what it
//! writes down of its history, and what whoever runs it sees of its log and its figures. The crate has
//! nothing else.

#![tactic(auto)]

#[cfg(test)]
mod audience;
#[cfg(test)]
mod conversations;
#[cfg(test)]
mod crowds;
#[cfg(test)]
mod devices;
#[cfg(test)]
mod end_of_stream;
#[cfg(test)]
mod figures;
#[cfg(test)]
mod files;
#[cfg(test)]
mod folders;
#[cfg(test)]
mod guards;
#[cfg(test)]
mod history;
#[cfg(test)]
mod host;
#[cfg(test)]
mod logs;
#[cfg(test)]
mod outlets;
#[cfg(test)]
mod parts;
#[cfg(test)]
mod players;
#[cfg(test)]
mod plays;
#[cfg(test)]
mod ports;
#[cfg(test)]
mod refused_headers;
#[cfg(test)]
mod repairs;
#[cfg(test)]
mod rows;
#[cfg(test)]
mod server;
#[cfg(test)]
mod session;
#[cfg(test)]
mod sessions;
#[cfg(test)]
mod sockets;
#[cfg(test)]
mod state_table;
#[cfg(test)]
mod status;
#[cfg(test)]
mod steps;
#[cfg(test)]
mod threads;
#[cfg(test)]
mod tone;
