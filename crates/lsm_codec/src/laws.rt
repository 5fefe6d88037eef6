//! The laws of the formats, for proofs of crates above: the functions do nothing, and their contracts state them.

ghost use Rattle.lsm_codec.specs.Formats.{SuperblockLaws, PartLaws, BatchTextLaws, ManifestLaws, DataBlockLaws, IndexLaws, FooterLaws};

pub use crate::words::word_says_its_bytes;

/// Each superblock within the limits has one spelling, a sector of 512 bytes, and a sector of zeros spells none.
pub fn superblock_laws()
    ensures { SuperblockLaws }
{}

/// Each part within the limits has one spelling, a sector of 512 bytes, and a sector of zeros spells none.
pub fn part_laws()
    ensures { PartLaws }
{}

/// Each batch has one spelling, which takes 1 to 128 log sectors.
pub fn batch_text_laws()
    ensures { BatchTextLaws }
{}

/// Each manifest within the limits has one spelling, in 1 to 41 whole sectors, and what sectors spell in a version is of that
/// version.
pub fn manifest_laws()
    ensures { ManifestLaws }
{}

/// Each data block within the limits has one spelling, a block of 4,096 bytes.
pub fn data_block_laws()
    ensures { DataBlockLaws }
{}

/// Each index of n data blocks within the limits has one spelling, in the fewest blocks that hold it, and an edge
/// takes 10 to 264 bytes of it.
pub fn index_laws()
    ensures { IndexLaws }
{}

/// Each footer within the limits has one spelling, a block of 4,096 bytes.
pub fn footer_laws()
    ensures { FooterLaws }
{}
