//! A store that makes room by itself.
//!
//! A [`Db`] is a store and its upkeep. It is an ordered map from keys to values, whose batches are committed whole or not at all, are
//! durable after the next sync, and are read at present or at a snapshot. Where a write finds no room it flushes, rotates and merges tables
//! down first. It never fails with `LogFull`.
//!
//! ```
//! let mut db = Db::open_or_create(rt, "store.img", Options::default())?;
//! db.put(b"apple", b"red")?;
//! let value = db.get(b"apple")?;
//! db.sync()?;
//! ```
//!
//! Each call's contract says that its reply is the store's (`Serves`), after upkeep that changes no map, no snapshot and no count of
//! batches (`IsUpkept`).
#![tactic(auto)]

mod buffer;
mod buffer_law;
mod buffered;
mod db;
mod files;
mod open_error;
mod open_on_error;
mod opening;
mod operating;
mod options;
mod pages;
mod prefix;
mod prefix_law;
mod range_rows;
mod row;

pub use buffered::BufferedDb;
pub use db::Db;
pub use lsm_codec::{Batch, Guard, Op};
pub use lsm_device::{Device, FileDevice, MemDevice, OpenError, Refusal};
pub use lsm_open::format;
pub use lsm_store::{At, Page, RowRef, Rows, Stat};
pub use open_error::OpenDbError;
pub use open_on_error::OpenOnError;
pub use options::Options;
pub use pages::Pages;
pub use range_rows::RangeRows;
pub use row::Row;

/// Laws of the definitions: functions without a body, whose clauses are theorems.
pub mod laws {
    pub use crate::buffer_law::buffers_show_one_map;
    pub use crate::prefix_law::prefixes_are_ranges;
}
