//! Stores are made on a device, and found again on what a crash left of one.
//!
//! [`format`] makes a device an empty store; until it has answered Ok nothing is promised of the device. [`recover`] is
//! what an opening does below the store: it syncs, reads the root and what of each table is kept in memory, replays the log regions,
//! and installs the next generation. What sectors stand for (`StandFor`), and what a crash inside an installation leaves, are laws here.
//! A refusal of `format` hands the device back.
//!
//! ```
//! let device = match format(alloc, device, 128) {
//!     Ok(device) => device,
//!     Err((refusal, _)) => return Err(refusal),
//! };
//! ```
#![tactic(auto)]

mod counting;
mod counting_law;
mod formatting;
mod image_law;
mod install_law;
mod job_law;
mod law;
mod next;
mod recovered;
mod regions;
mod reopened;
mod replayed;
mod tables;

pub use counting::load_counted;
pub use formatting::format;
pub use next::table_records;
pub use recovered::{Recovered, recover};
pub use regions::{OpenRegion, Regions};
pub use replayed::{Replayed, replay_regions};
pub use tables::{TablesRead, read_tables};

/// Laws of the definitions: functions without a body, whose clauses are theorems.
pub mod laws {
    pub use crate::counting_law::{
        counted_roots_stand, counts_leave_the_same, only_old_tables_are_counted,
    };
    pub use crate::image_law::{
        batches_apply_to_tables, crashes_leave_beginnings, free_writes_change_nothing,
        sectors_have_one_meaning, syncs_keep_placements,
    };
    pub use crate::install_law::{
        flushes_may_be_installed, installs_switch, merges_may_be_installed,
        openings_may_be_installed, rotations_may_be_installed,
    };
    pub use crate::job_law::{
        installs_take_over, jobs_keep_what_they_place, jobs_write_free_blocks, written_tables_stand,
    };
    pub use crate::law::openings_leave_the_same;
}
