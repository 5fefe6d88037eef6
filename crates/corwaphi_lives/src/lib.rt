//! Lives of a `Db` on a device in memory, and the theorem over crashes for them.
//!
//! [`lives_of_db`] formats a device, and leads any lives on it: each sets a fuse, opens a `Db`, makes its calls, and crashes by a mask over
//! the pending writes. Its clause `batches` says in the words of calls, replies, batches and maps that each life begins with the map after a
//! beginning of the accepted batches, with every one whose sync was answered, and none in part.
//!
//! ```
//! let life = DbLife { fuse: None, calls, mask: Vec::from_slice(rt.alloc(), &[true, false])? };
//! let (replies, device) = lives_of_db(rt, 8_192, 128, &[life])?;
//! ```
#![tactic(auto)]

mod calls;
mod living;
mod serving;
mod whole;

pub use calls::{DbCall, DbLife};
pub use whole::lives_of_db;
