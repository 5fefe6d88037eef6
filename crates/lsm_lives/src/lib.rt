//! Calls of a store and pieces of work as values, made one after another, and over lives of a device.
//!
//! [`serve`] makes one call, [`replay`] a list of steps. [`lives`] leads a list of lives on a device in memory: each sets a fuse, opens
//! the store, makes its steps, and crashes by a mask over the pending writes. Its clause `promise` is the theorem over crashes: each life
//! begins with the map after a beginning of the accepted batches, with every one whose sync was answered, and none in part.
//! A refused step is a reply, and the steps go on.
//!
//! ```
//! let life = Life { fuse: None, steps, mask: Vec::from_slice(alloc, &[true, false])? };
//! let (replies, device) = match lives(rt, alloc, device, &[life]) {
//!     Ok(answer) => answer,
//!     Err((refusal, _)) => return Err(refusal),
//! };
//! ```
#![tactic(auto)]

mod calls;
mod law;
mod living;
mod making;
mod replaying;
mod serving;
mod whole;

pub use calls::{Call, Reply, Step, Work};
pub use living::{CACHE_BLOCKS, Life, lives, open, open_and_make};
pub use replaying::replay;
pub use serving::serve;
pub use whole::lives_from_format;

/// Laws of the definitions: functions without a body, whose clauses are theorems.
pub mod laws {
    pub use crate::law::{
        devices_hold_what_was_left, led_lives_go_on, promise_keeps_batches, steps_go_on,
        what_is_asked_is_replayed,
    };
}
