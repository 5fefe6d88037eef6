//! A store on a device: an ordered map from keys to values, whose batches are in log regions and in tables.
//!
//! A batch is committed whole or not at all, and is durable from the next sync on. Reads ask the present map or that of a snapshot.
//! Nothing is flushed or compacted by itself: [`Store::rotate`] closes the log, and `job_take`, `job_read`, `job_input`,
//! `job_accept`, `job_write` and `job_install` move what waits into tables, piece by piece. After a failed write or sync every call
//! that can be refused answers `Stopped`, until [`Store::into_device`] and an opening. Each call's contract says its errors in their
//! order, what it replies, and what a crash at any moment within it leaves (`Serves`, `Works`).
//!
//! ```
//! let mut store = match Store::open(alloc, device, 256) {
//!     Ok(store) => store,
//!     Err((refusal, _)) => return Err(refusal),
//! };
//! store.commit(&batch)?;
//! store.sync()?;
//! let value = store.get(At::Now, b"apple")?;
//! ```
#![tactic(auto)]

mod checks;
mod counted;
mod device_law;
mod fitting;
mod install_checks;
mod install_law;
mod installation;
mod law;
mod memory;
mod next_levels;
mod numbers;
mod opened_law;
mod opening;
mod pieces;
mod reading;
mod rotation;
mod serve;
mod snapshots;
mod stat;
mod store;
mod stored_law;
mod told;
mod work_law;
mod working;

pub use lsm_jobs::TakenJob;
pub use lsm_levels::Choice;
pub use lsm_machine::{At, Piece};
pub use lsm_mem::{MemSize, Page, RowRef, Rows};
pub use stat::Stat;
pub use store::Store;

/// Laws of the definitions: functions without a body, whose clauses are theorems.
pub mod laws {
    pub use crate::device_law::{device_reads_on, stored_is_backed};
    pub use crate::install_law::{
        installed_manifests_are_manifests, installed_records_are_placed,
        written_flushes_are_flushed, written_merges_are_merged, written_outputs_stand,
    };
    pub use crate::law::no_guards_are_a_commit;
    pub use crate::opened_law::{opened_work_is_sound, openings_are_opened};
    pub use crate::stored_law::{
        commits_keep_tables, free_writes_keep_tables, installs_keep_tables, jobs_keep_tables,
        jobs_may_go_on, levels_stay_stored, recovered_tables_are_stored, rotations_keep_tables,
        stored_tables_leave, syncs_keep_tables,
    };
    pub use crate::work_law::{
        extents_stay_accounted_for, maps_stay, slots_answer_the_work, tables_stay_few,
        work_stays_sound,
    };
}
