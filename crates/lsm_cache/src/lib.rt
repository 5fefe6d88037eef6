//! A cache of the blocks of tables: those that were asked for last, with their bytes.
#![tactic(auto)]

mod block_bytes;
mod cache;
mod name;
mod read;

pub use block_bytes::BlockBytes;
pub use cache::Cache;
pub use name::BlockName;
pub use read::read_block;
