//! The levels of tables: which job comes next, what installs make of them, and how keys are looked up.
#![tactic(auto)]

mod asking;
mod blocks;
mod choosing;
mod contents;
mod covered;
mod cursor;
mod found;
mod hulls;
mod law;
mod levels;
mod lookup;
mod memory;
mod picking;
mod placed;
mod queue;
mod reading;
mod run;
mod scan;
mod slices;
mod source;
mod sources;
mod sweep;
mod table;
mod view;
mod within;

pub use choosing::Choice;
pub use levels::Levels;
pub use picking::{HeldJobs, Pick};
pub use run::{Run, is_run};
pub use table::{PlacedTable, share_all};
pub use view::ReadView;

/// Laws of the definitions: functions without a body, whose clauses are theorems.
pub mod laws {
    pub use crate::law::{
        caches_stay_fresh, chosen_jobs_have_free_tables, cursors_give_their_versions,
        flushes_keep_the_order, installs_move_tables, jobs_keep_their_tables,
        merges_leave_other_versions, picked_jobs_have_free_tables, sources_come_to_a_page,
    };
}
