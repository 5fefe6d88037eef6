//! Upkeep: what has to be done so that a store goes on taking writes.
//!
//! A store by itself takes batches until its log is full, and then refuses them with `LogFull`: when to rotate, flush and compact is its
//! caller's to decide. This crate decides it. [`write`] opens a log with room, flushes the one before, goes on with compactions that are due,
//! and then commits; so it never ends with `LogFull`, and only puts that find no room in tables are refused, with `NoSpace`.
//!
//! | call | what it does |
//! |---|---|
//! | [`write`] | a commit that finds room: what `admit` does, and then the commit |
//! | [`admit`] | what a batch wants: it finds room in tables, and the open log has room for it |
//! | [`open_log`] | the flush that waits; then a log with room is opened |
//! | [`settle`] | the jobs that come next, until none does; then a log with room is opened |
//! | [`compact`] | a flush where one waits, and the merges that `lsm_policy` chooses, until it chooses none |
//! | [`compact_all`] | merges until all tables are in the last level, or nothing more can go down; [`compact_all_showing`] tells how far it is |
//! | [`lack_of`] | what a store lacks that `compact_all` could not bring to the end |
//! | [`keep_up`] | settles, and compacts where room is scarce |
//!
//! None of them but `write` changes the map, a snapshot, or the count of batches. An error of theirs is skipped: the flush or
//! compaction that it stops is given up, and the next call takes it anew.
//!
//! What is proved of room: a put is refused only by a store that is crowded once its memtable is flushed and no flush waits (`LacksRoom`);
//! after each put that is committed the flushes of all that is in memory leave a hundred blocks free (`HasRoomFor`); and a step that
//! `lsm_room` advises to take finds room. That the steps always come to an end with room for the next batch is tested with random stores,
//! and not proved. All of it is about stores that only this crate writes: commits past it may fill a store so far that no step finds room.
//!
//! A caller that may do one piece of work at a time has the same as data: an [`AdmitState`] tells what is to be done before a batch is
//! committed, and a [`Plan`] what is to be attempted next until that is done.
//!
//! A [`Walk`] goes over all rows of a store, page by page.
//!
//! ```
//! let mut upkeep = Upkeep::new();
//! let number = write(alloc, &mut store, &mut upkeep, None, &batch)?;
//! ```
#![tactic(auto)]

mod admitting;
mod allowing;
mod compacting;
mod demand;
mod finishing;
mod flushing;
mod keeping;
mod lacking;
mod merging;
mod next_compaction;
mod pages;
mod piecework;
mod planning;
mod pushing;
mod readying;
mod settling;
mod stepping;
mod trying;
mod upkeep;
mod writing;

pub use admitting::{admit, open_log};
pub use compacting::{compact, compact_all, compact_all_showing};
pub use demand::Demand;
pub use keeping::keep_up;
pub use lacking::{Lack, Shortage, lack_of};
pub use pages::Walk;
pub use piecework::{PieceDone, do_piece};
pub use planning::{Goal, Plan};
pub use readying::{AdmitState, Verdict};
pub use settling::settle;
pub use stepping::{Way, Went, next_step};
pub use trying::Attempt;
pub use upkeep::Upkeep;
pub use writing::{without_log_full, write};
