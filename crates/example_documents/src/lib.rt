//! The examples with which the documents of crates begin: each stands here as it is printed there, so that it is compiled and proved.
#![tactic(auto)]

mod databases;
mod devices;
mod lives;
mod merging;
mod serving;
mod sessions;
mod stores;

pub use databases::{put_in_a_file, work_off_a_task};
pub use devices::{commit_on_a_mapping, crash_a_device};
pub use lives::{explore_a_life, lead_a_life, lead_a_life_of_a_db};
pub use merging::{build_a_result, take_what_is_advised};
pub use serving::serve_lines;
pub use sessions::{take_a_turn, work_until_stopped};
pub use stores::{commit_and_get, format_a_device, walk_all_rows, write_with_upkeep};
