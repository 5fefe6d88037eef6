//! Clients and workers that share one store, all at the same time.
#![tactic(auto)]

mod client;
mod counter;
mod counts;
mod crew;
mod fresh;
mod storming;
mod tallying;
mod worker;

pub use counts::Counts;
pub use storming::storm;
pub use tallying::{Tallied, tally};
