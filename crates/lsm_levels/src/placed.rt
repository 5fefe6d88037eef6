//! Where a data block stands.

use lsm_cache::BlockName;

/// A data block of a table, and the first of its eight sectors.
#[derive(Clone, Copy, Debug, PartialEq, Eq)]
pub struct PlacedBlock {
    pub name: BlockName,
    pub sector: u32,
}
