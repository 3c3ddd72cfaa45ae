//! Tests of the public names of the crates that run the program, rtsp_server and rtspd, in modules
//! by subject. The crate has nothing else.

#![tactic(auto)]

#[cfg(test)]
mod command_lines;
#[cfg(test)]
mod conversations;
#[cfg(test)]
mod devices;
#[cfg(test)]
mod failures;
#[cfg(test)]
mod pools;
#[cfg(test)]
mod servers;
#[cfg(test)]
mod world;
