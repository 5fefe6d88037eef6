//! A run of blocks.

/// A run of blocks of a data area: its first block, and how many there are.
#[derive(Clone, Copy, Debug, PartialEq, Eq)]
pub struct Extent {
    pub first: u32,
    pub blocks: u32,
}
