//! Tests of the public names of the crates of sessions, from rtsp_record up to rtsp_expiry, in
//! modules by subject. The crate has nothing else.
#![tactic(auto)]

#[cfg(test)]
mod admissions;
#[cfg(test)]
mod answers;
#[cfg(test)]
mod books;
#[cfg(test)]
mod checkpoints;
#[cfg(test)]
mod checkpoints_at_lock;
#[cfg(test)]
mod forgetting;
#[cfg(test)]
mod full_journals;
#[cfg(test)]
mod journals;
#[cfg(test)]
mod kept_books;
#[cfg(test)]
mod lines;
#[cfg(test)]
mod locks;
#[cfg(test)]
mod other_seat;
#[cfg(test)]
mod seats;
#[cfg(test)]
mod single_ports;
#[cfg(test)]
mod sleepers;
#[cfg(test)]
mod steps;
#[cfg(test)]
mod sweeps;
#[cfg(test)]
mod texts;
#[cfg(test)]
mod threads;
#[cfg(test)]
mod two_books;
#[cfg(test)]
mod world;
