//! The formats of the store, as bytes and as values.
#![tactic(auto)]

mod agree;
mod batch;
mod batch_text;
mod data_block;
mod edge_text;
mod entry;
mod entry_text;
mod filled;
mod footer;
mod gathered;
mod geometry;
mod greatest;
mod guard;
mod head;
mod index;
mod key;
mod kind;
pub mod laws;
mod lending;
mod log_record;
mod log_sector;
mod manifest;
mod manifest_limits;
mod manifest_text;
mod operation;
mod operation_text;
mod operations;
mod place;
mod records;
mod superblock;
mod table_record;
mod value;
mod version;
mod whole_units;
mod words;

pub use batch::Batch;
pub use data_block::encode_data_block;
pub use entry::Entry;
pub use footer::Footer;
pub use gathered::Gathered;
pub use geometry::{
    LEAST_LOG_SECTORS, LEAST_SECTORS, MOST_LOG_SECTORS, MOST_SECTORS, ROOT_SECTORS, data_blocks,
    is_device_size, is_log_size,
};
pub use greatest::LAST_NUMBER;
pub use guard::Guard;
pub use head::{common_prefix, head_of};
pub use index::{Edge, Index};
pub use key::Key;
pub use lending::is_zero;
pub use log_record::LogRecord;
pub use log_sector::LogSector;
pub use manifest::Manifest;
pub use operation::{Op, OpRef};
pub use operations::Operations;
pub use superblock::{FormatVersion, Superblock};
pub use table_record::TableRecord;
pub use value::Value;
pub use version::VersionRef;
pub use words::{unword, word};
