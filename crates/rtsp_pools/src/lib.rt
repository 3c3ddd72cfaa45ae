//! Pools of what is free: ports, each by itself and in pairs, channels by connection, and bits of
//! the uplink. Only opening a pool, and holding the first channels of a connection, take memory.
//!
//! The definitions of `specs/` read in this order: Bits (numbers as bits of words), Pools (what is
//! free in each pool).

#![tactic(auto)]

mod bit_set;
mod chan_pool;
mod pair_pool;
mod rate_pool;
mod words;

pub use chan_pool::ChanPool;
pub use pair_pool::PairPool;
pub use rate_pool::RatePool;
