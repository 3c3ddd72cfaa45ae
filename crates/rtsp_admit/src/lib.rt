//! Admissions over a lock that others use at the same time.
//!
//! An admission is a chain of steps: Open where a session is to be opened, HoldRate, HoldPair,
//! HoldPort or HoldChan, Commit. Ports are bound after they are held; those that can't be bound are
//! given back, and the next free ones above them are tried. The lock is not kept between the steps,
//! so other seats act between any two of them, and a bind keeps nobody waiting. At the first
//! refusal the chain is unwound and nothing of it is left.
//!
//! The definitions of `specs/` read in this order: Binder (what its calls do), Steps (the steps of
//! an admission and what is unwound of them), Runs (the calls of an admission, one after another),
//! Refused (what a refusal leaves), Addresses (what a binder has afterwards), Faults (binds that
//! fail are counted), Numbers (the numbers that a seat uses), Additions (the records that it
//! makes).

#![tactic(auto)]

mod admission;
mod binder;
mod failure;
mod laws;
mod ports;
mod steps;
mod udp_ports;

pub use admission::{admit, admit_into};
pub use binder::{BindFault, Binder, unbind_freed};
pub use laws::{
    law_acts_use_drawn, law_admitted_address, law_admitted_grows, law_admitted_keeps_all,
    law_admitted_keeps_drawn, law_drawn_is_unused, law_drawn_used_alone, law_faults_counted,
    law_history_used_alone, law_looks_use_drawn, law_owns_all, law_refused, law_refused_addresses,
    law_refused_alone, law_refused_drawn, law_refused_unused,
};
