// Numbers that a store tells besides its calls, also where it is stopped.
ghost use Rattle.std.specs.Prelude.{◌≡◌, [], IfSome, MatchOption, is_some, length, nat_lt};
ghost use Rattle.lsm_machine.specs.State.{are_waiting};
ghost use Rattle.lsm_mem.specs.Sizes.{Covers, no_size};

use crate::store::Store;
use lsm_device::Device;
use lsm_mem::MemSize;
use std::alloc::Allocator;

impl<D: Device, A: Allocator> Store<D, A> {
    /// How large the versions in the memtable are at most, as entries of tables.
    pub fn memtable_size(&self) -> MemSize
        ensures covers { Covers self.now.work.memory result }
        ensures none { self.now.work.memory ≡ [] → result ≡ no_size }
    {
        self.memory.mem.size()
    }

    /// How large those in the immutable memtable are at most, where one waits for a flush.
    pub fn sealed_size(&self) -> Option<MemSize>
        ensures covers { MatchOption result (self.now.work.sealed ≡ [])
            (Covers self.now.work.sealed) }
        ensures none { self.now.work.sealed ≡ [] → IfSome result (λ size. size ≡ no_size) }
    {
        match &self.memory.sealed {
            Some(sealed) => Some(sealed.size()),
            None => None,
        }
    }

    /// Whether a snapshot is live, also in a stopped store, so that merges keep what it has. It takes no memory.
    pub fn has_snapshots(&self) -> bool
        ensures { result ≡ nat_lt 0 (length self.now.state.snapshots) }
    {
        self.memory.snapshots.len() > 0
    }

    /// The generation of the superblock that stands, also in a stopped store. It takes no memory.
    pub fn generation(&self) -> u64
        ensures { result ≡ self.now.state.generation }
    {
        self.memory.regions.generation
    }
    /// Whether the store is stopped: then its calls fail with `Stopped`. It takes no memory.
    pub fn is_stopped(&self) -> bool
        ensures { result ≡ is_some self.now.state.stopped }
    {
        self.memory.is_stopped()
    }

    /// Whether what the batches of closed logs made of their keys waits for a flush, as [`stat`](Store::stat) tells among other numbers. It
    /// takes no memory, and goes over nothing.
    pub fn is_waiting(&self) -> bool
        ensures { result ≡ are_waiting self.now.state }
    {
        self.memory.is_waiting()
    }
}
