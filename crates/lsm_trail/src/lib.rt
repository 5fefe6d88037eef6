//! The history of a store that many clients use: its entries, and its numbers, which are read without a lock.
#![tactic(auto)]

mod beside;
mod counters;
mod entry;
mod knowledge;
mod law;
mod numbers;
mod opened;
mod rule;
mod start;
mod trail;

pub use counters::Counters;
pub use entry::TrailEntry;
pub use knowledge::{Knowledge, Pass};
pub use numbers::Numbers;
pub use opened::Opened;
pub use rule::{Compare, Deal, Hear, Law, Lend, Look, Note, Nothing, Peek, Publish, Put, Tell};
pub use start::{SessionName, Start};
pub use trail::Trail;

/// Laws of the definitions: functions without a body, whose clauses are theorems.
pub mod laws {
    pub use crate::law::base_stays;
}
