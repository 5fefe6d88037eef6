//! Which merge to choose next, so that few blocks are written.
//!
//! A store merges what its caller chooses. [`Policy::next_choice`] says what to take next: the runs of level 0, as many of the
//! oldest as take in no more blocks than are free; or of a level that is over its limit the neighbours that go down for the fewest
//! blocks of the next level a block of their own. If room is scarce the oldest table goes, with as many neighbours as take in no more
//! blocks than are free, so that deletes come to what they delete. It keeps nothing, so it goes on where it was after each opening.
//!
//! The outputs of a choice may take more blocks than its inputs, up to about twice as many; then the job fails with `NoSpace`. Which
//! steps find room, and which puts leave enough of it, is decided by `lsm_room`.
//!
//! ```
//! let policy = Policy::new();
//! let free_blocks = store.stat()?.free_blocks;
//! if let Some(choice) = policy.next_choice(store.levels(), free_blocks, store.jobs()) {
//!     let job = store.job_take_of(choice)?;
//! }
//! ```
//!
//! Flushes come first, by `job_take`. Contracts say that what is advised may be taken and takes in no more blocks than are free,
//! and they count exactly; how little is written is measured.
#![tactic(auto)]

mod neighbours;
mod policy;
mod room;

pub use policy::Policy;
pub use room::fits;
