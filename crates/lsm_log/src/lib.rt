//! A log of batches in a region of a device.
//!
//! A [`Log`] appends batches to its region, and [`replay`] reads back what a region holds.
#![tactic(auto)]

mod append;
mod log;
mod read_batches;
mod reading;
mod region;

pub use log::Log;
pub use reading::replay;

/// Laws of the definitions: functions without a body, whose clauses are theorems.
pub mod laws {
    pub use crate::reading::replay_is_longest;
    pub use crate::region::epoch_laws;
}
