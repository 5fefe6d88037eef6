//! A Bloom filter of keys: a block of bits that shows that a key is not among those that were put in, or that perhaps it
//! is.
#![tactic(auto)]

mod bits;
mod filter;
pub mod laws;
mod probes;

pub use filter::{FILTER_BYTES, Filter};
pub use probes::KeyHash;
