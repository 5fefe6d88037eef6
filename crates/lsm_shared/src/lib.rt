//! A store that many threads share: one lock, one history.
//!
//! [`prepare`] and [`Shared::begin`] make a session and its clients, one for each thread. [`Client::call`] makes a call in one hold of
//! the lock; [`Client::turn`] does the next piece of a flush or a compaction, or hands out an input, which the thread merges without the
//! lock and gives back by [`Client::bring`]; [`Client::watch`] reads the numbers of the history without the lock. A client hands what it
//! has seen to another by [`Client::tell`] and [`Client::hear`]: what that one does then comes after it. [`Shared::finish`] ends the
//! session: it gives the store, and the trail of all calls with each client's own. A trail has 65,536 entries at most; then each call
//! answers `TrailFull`, the clients come back, and the next session begins.
//!
//! [`take_turn`] and [`work`] are the turns of a worker: a client that works on flushes and compactions while others make their calls.
//!
//! ```
//! match me.turn(rt, shared)? {
//!     Turn::Idle => Ok(false),
//!     Turn::Did(_) => Ok(true),
//!     Turn::Merge { job, result, input } => {
//!         let built = build(rt, alloc, input, 2)?;
//!         me.bring(rt, shared, job, result, &built)?;
//!         Ok(true)
//!     }
//! }
//! ```
#![tactic(auto)]

mod answer;
mod client;
mod due;
mod ending;
mod history;
mod law;
mod pieces;
mod preparing;
mod seen;
mod session;
mod shared;
mod turn;
mod worker;
mod working;

pub use client::Client;
pub use preparing::prepare;
pub use seen::Seen;
pub use session::Session;
pub use shared::Shared;
pub use turn::Turn;
pub use worker::{take_turn, work};

/// Laws of the definitions: functions without a body, whose clauses are theorems.
pub mod laws {
    pub use crate::law::{trail_tells_what_a_crash_leaves, what_is_heard_comes_first};
}
