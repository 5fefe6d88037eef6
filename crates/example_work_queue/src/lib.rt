//! A queue of tasks on a store: an example of how something is proved over a store.
//!
//! A [`Queue`] gives each task a number, hands it out once, and forgets it when it is finished. All of it stands in the map of a store,
//! and each change is one batch; so what a crash leaves of a queue is what it leaves of batches: a beginning. What that means for tasks is
//! said by laws on maps and batches alone ([`crashes_keep_tasks`]).
//!
//! ```
//! let db = Db::open_or_create(rt, "tasks.img", Options::default())?;
//! let mut queue = Queue::on(rt.alloc(), db);
//! let number = queue.add(b"sweep the yard")?;
//! queue.sync()?;
//! if let Some((number, task)) = queue.claim()? {
//!     queue.finish(number)?;
//! }
//! queue.sync()?;
//! ```
#![tactic(auto)]

mod batches;
mod law;
mod queue;
mod rows;

pub use queue::Queue;

/// Laws of the definitions: functions without a body, whose clauses are theorems.
pub mod laws {
    pub use crate::law::{crashes_keep_tasks, deeds_are_told, deeds_change_one_task, deeds_go_on};
}
