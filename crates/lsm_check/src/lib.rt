//! A device is checked: whether it holds, as it reads, the image of a store.
#![tactic(auto)]

mod checking;
mod entries;
mod epochs;
mod finding;
mod levels;
mod report;
mod seen;
mod table;

pub use checking::check;
pub use finding::Finding;
pub use report::Report;
