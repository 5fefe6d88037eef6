//! What a batch demands of a store.

ghost use Rattle.std.specs.Prelude.{◌≡◌, ◌||◌, ℕ, [], true, false};
ghost use Rattle.lsm_extent.specs.Area.{free_count};
ghost use Rattle.lsm_mem.specs.EntryOrder.{with_batch};
ghost use Rattle.lsm_mem.specs.Sizes.{Covers, GrowsBy, no_size};
ghost use Rattle.lsm_room.specs.Crowding.{blocks_for};
ghost use Rattle.lsm_room.specs.Flushes.{FlushesLeave};
ghost use Rattle.lsm_upkeep.specs.Writing.{IsCrowdedIn, IsWithin, has_puts, is_live, wants_room};

use crate::stepping::standing;
use lsm_codec::{Batch, Operations};
use lsm_device::Device;
use lsm_mem::MemSize;
use lsm_room::{InMemory, is_small};
use lsm_store::Store;

/// The bytes of a batch that a sector of the log takes.
const SECTOR_ROOM: usize = 480;

/// What a batch demands of a store: that memory becomes so large, and so many sectors of the log.
#[derive(Clone, Copy)]
pub struct Demand {
    memory: InMemory,
    sectors: u32,
    /// Whether it has puts, or a snapshot keeps its deletes.
    pub(crate) puts: bool,
}

impl Demand {
    /// That of a batch, of a store as it now is.
    pub(crate) fn of<D: Device>(store: &Store<D>, batch: &Batch) -> Demand
        ensures puts { result.puts ≡ wants_room batch.now store.now.state }
        ensures before { store.now.work.memory ≡ [] → result.memory.before ≡ no_size }
        ensures after { store.now.work.memory ≡ [] → GrowsBy batch.now no_size result.memory.after }
        ensures waiting { store.now.work.sealed ≡ [] → result.memory.waiting ≡ no_size }
        ensures covers { (number : ℕ)
            → Covers (with_batch number batch.now store.now.work.memory) result.memory.after }
        ensures sealed { Covers store.now.work.sealed result.memory.waiting }
    {
        let before = store.memtable_size();
        let memory = InMemory {
            waiting: waiting(store),
            before,
            after: before.with_batch(batch),
        };
        Demand {
            memory,
            sectors: batch.text_len().div_ceil(SECTOR_ROOM) as u32,
            puts: puts_some(batch.operations()) || store.has_snapshots(),
        }
    }

    /// Whether the open log has room for it.
    pub(crate) fn has_log<D: Device>(&self, store: &Store<D>) -> bool {
        match store.log_room() {
            Ok(room) => self.sectors <= room,
            Err(_) => false,
        }
    }

    /// Whether it is admitted.
    pub(crate) fn is_met<D: Device>(&self, store: &Store<D>) -> bool
        ensures crowded { result ≡ false → self.now.memory.before.entries ≡ 0
            → self.now.memory.waiting ≡ no_size → self.now.puts ≡ true
            → IsCrowdedIn store.now.work
            (blocks_for self.now.memory.after.bytes self.now.memory.after.entries) }
        ensures room { result ≡ true
            → FlushesLeave 100 (free_count store.now.work.area) (is_live store.now.state)
            self.now.memory.waiting self.now.memory.after }
    {
        standing(store).admits(self.memory, self.puts)
    }

    /// How large memory may become by it and so many more entries, of so many bytes, none of which is larger than the largest up to then.
    pub(crate) fn with_more(&self, entries: u64, bytes: u64) -> MemSize
        ensures { IsWithin self.now.memory.after result }
    {
        let all = self.memory.after;
        MemSize {
            entries: all.entries.saturating_add(entries),
            bytes: all.bytes.saturating_add(bytes),
            large: all.large.saturating_add(bytes / 2_048),
            deletes: all.deletes.saturating_add(entries),
            delete_bytes: all.delete_bytes.saturating_add(bytes),
            largest: all.largest,
        }
    }

    /// Whether it is admitted, and so is whatever else leaves memory within this size.
    pub(crate) fn is_met_up_to<D: Device>(&self, store: &Store<D>, most: MemSize) -> bool
        ensures { result ≡ true
            → FlushesLeave 100 (free_count store.now.work.area) (is_live store.now.state)
            self.now.memory.waiting most }
    {
        standing(store).admits_up_to(self.memory, most)
    }

    /// What waits for its flush.
    pub(crate) fn waiting(&self) -> MemSize
        ensures { result ≡ self.now.memory.waiting }
    {
        self.memory.waiting
    }

    /// Whether it leaves memory within this size, and no more waits for a flush than so much.
    pub(crate) fn is_within(&self, most: MemSize, waiting: MemSize) -> bool
        ensures { result ≡ true → IsWithin self.now.memory.after most
            × IsWithin self.now.memory.waiting waiting }
    {
        is_within(self.memory.after, most) && is_within(self.memory.waiting, waiting)
    }

    /// Whether it is admitted with blocks to spare.
    pub(crate) fn is_met_easily<D: Device>(&self, store: &Store<D>) -> bool {
        standing(store).admits_easily(self.memory, self.puts)
    }

    /// Whether it is refused, where tables were brought down as far as they go: it puts values, and isn't admitted, or no blocks are to
    /// spare.
    pub(crate) fn is_refused<D: Device>(&self, store: &Store<D>) -> bool
        ensures puts { result ≡ true → self.now.puts ≡ true }
        ensures crowded { result ≡ true → self.now.memory.before.entries ≡ 0
            → self.now.memory.waiting ≡ no_size
            → IsCrowdedIn store.now.work
            (blocks_for self.now.memory.after.bytes self.now.memory.after.entries) }
        ensures room { result ≡ false → self.now.puts ≡ true
            → FlushesLeave 100 (free_count store.now.work.area) (is_live store.now.state)
            self.now.memory.waiting self.now.memory.after }
    {
        self.puts && !(self.is_met(store) && Demand::has_spare(store))
    }

    /// Whether blocks are free to spare.
    fn has_spare<D: Device>(store: &Store<D>) -> bool
        ensures { result ≡ false → IsCrowdedIn store.now.work 0 }
    {
        standing(store).has_spare()
    }

    /// Whether it may come into the memory that is there, which is small enough still.
    pub(crate) fn joins<D: Device>(&self, store: &Store<D>) -> bool {
        self.memory.before.entries > 0 && is_small(standing(store).reserve(), self.memory.after)
    }
}

/// How large what waits for its flush is at most.
pub(crate) fn waiting<D: Device>(store: &Store<D>) -> MemSize
    ensures covers { Covers store.now.work.sealed result }
    ensures none { store.now.work.sealed ≡ [] → result ≡ no_size }
{
    match store.sealed_size() {
        Some(size) => size,
        None => MemSize::empty(),
    }
}

// Whether a size is within another one.
fn is_within(size: MemSize, most: MemSize) -> bool
    ensures { result ≡ true → IsWithin size most }
{
    size.entries <= most.entries
        && size.bytes <= most.bytes
        && size.large <= most.large
        && size.deletes <= most.deletes
        && size.delete_bytes <= most.delete_bytes
        && size.largest <= most.largest
}

// Whether one of these operations puts a value.
fn puts_some(operations: Operations<'_>) -> bool
    ensures { result ≡ has_puts operations.entry }
{
    for operation in operations {
        if operation.value.is_some() {
            return true;
        }
    }
    false
}
