//! How large versions are, by numbers that each batch raises.

ghost use Rattle.std.specs.Prelude.{◌≡◌, ◌∷◌, [], ℕ, List};
ghost use Rattle.lsm_codec.specs.References.{shown_operation};
ghost use Rattle.lsm_codec.specs.Versions.{Version};
ghost use Rattle.lsm_mem.specs.EntryOrder.{with_batch};
ghost use Rattle.lsm_mem.specs.Sizes.{AreTogether, Covers, GrowsBy, IsAnEntry, bytes_of, no_size, up_to_64_bits};

use lsm_codec::{Batch, OpRef, Operations};
use std::alloc::Allocator;

/// The bytes of an entry besides its key and its value.
const FRAME: u64 = 12;

/// An entry of this many bytes or more is large: next to another one it may leave half of a block free.
const LARGE: u64 = 2_048;

/// How large the versions of batches are as entries of tables. The numbers are upper bounds: an operation that a later one of its batch
/// hides is counted too.
#[derive(Clone, Copy, Debug, PartialEq, Eq)]
pub struct MemSize {
    /// The entries.
    pub entries: u64,
    /// Their bytes.
    pub bytes: u64,
    /// The puts among them whose entries have 2,048 bytes or more.
    pub large: u64,
    /// The deletes among them.
    pub deletes: u64,
    /// The bytes of the deletes.
    pub delete_bytes: u64,
    /// The bytes of the largest entry.
    pub largest: u64,
}

impl MemSize {
    /// The size of no version.
    pub fn empty() -> MemSize
        ensures { result ≡ no_size }
    {
        MemSize {
            entries: 0,
            bytes: 0,
            large: 0,
            deletes: 0,
            delete_bytes: 0,
            largest: 0,
        }
    }

    /// This size and that of the versions that a batch makes.
    pub fn with_batch<A: Allocator>(self, batch: &Batch<A>) -> MemSize
        ensures grows { GrowsBy batch.now self result }

        // It covers what this size covers with the batch under any number.
        ensures covers { (number : ℕ) (versions : List Version) → Covers versions self
            → Covers (with_batch number batch.now versions) result }
    {
        self.with_operations(batch.operations())
    }

    fn with_operations(self, operations: Operations<'_>) -> MemSize
        ensures grows { GrowsBy operations.entry self result }
        ensures covers { (number : ℕ) (versions : List Version) → Covers versions self
            → Covers (with_batch number operations.entry versions) result }
    {
        let mut size = self;
        for operation in operations {
            size = size.and(MemSize::of_operation(operation));
        }
        size
    }

    // The size of the version that an operation makes.
    fn of_operation(operation: OpRef<'_>) -> MemSize
        ensures { IsAnEntry (up_to_64_bits (bytes_of (shown_operation operation.entry))) result }
    {
        let key = FRAME.saturating_add(operation.key.len() as u64);
        match operation.value {
            Some(value) => MemSize::of_put(key.saturating_add(value.len() as u64)),
            None => MemSize::of_delete(key),
        }
    }

    // The size of a put whose entry has `bytes` bytes.
    fn of_put(bytes: u64) -> MemSize
        ensures { IsAnEntry bytes result }
    {
        MemSize {
            entries: 1,
            bytes,
            large: if bytes >= LARGE { 1 } else { 0 },
            deletes: 0,
            delete_bytes: 0,
            largest: bytes,
        }
    }

    // The size of a delete whose entry has `bytes` bytes.
    fn of_delete(bytes: u64) -> MemSize
        ensures { IsAnEntry bytes result }
    {
        MemSize {
            entries: 1,
            bytes,
            large: 0,
            deletes: 1,
            delete_bytes: bytes,
            largest: bytes,
        }
    }

    // Both sizes together.
    fn and(self, other: MemSize) -> MemSize
        ensures { AreTogether self other result }
    {
        MemSize {
            entries: self.entries.saturating_add(other.entries),
            bytes: self.bytes.saturating_add(other.bytes),
            large: self.large.saturating_add(other.large),
            deletes: self.deletes.saturating_add(other.deletes),
            delete_bytes: self.delete_bytes.saturating_add(other.delete_bytes),
            largest: self.largest.max(other.largest),
        }
    }
}
