//! How a block is named.

/// A block of a table: the table's number, and the block's place in it.
#[derive(Clone, Copy, Debug, PartialEq, Eq, Hash)]
pub struct BlockName {
    pub table: u64,
    pub block: u8,
}
