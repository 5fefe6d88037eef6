// The numbers of an image.

/// The numbers of the image of a store.
#[derive(Clone, Copy, Debug, PartialEq, Eq)]
pub struct Report {
    /// The generation of the superblock that counts.
    pub generation: u64,
    /// How many batches an opening finds.
    pub batches: u64,
    /// How many tables there are.
    pub tables: usize,
    /// How many entries they have.
    pub entries: u64,
    /// How many blocks of the data area, of eight sectors each, are in no table.
    pub free_blocks: u32,
}
