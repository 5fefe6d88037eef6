//! How much more may come into memory before a store is asked again whether there is room.

ghost use Rattle.std.specs.Prelude.{◌≡◌, true, IfSome};
ghost use Rattle.lsm_extent.specs.Area.{free_count};
ghost use Rattle.lsm_room.specs.Flushes.{FlushesLeave};
ghost use Rattle.lsm_upkeep.specs.Writing.{is_live};

use crate::demand::Demand;
use lsm_device::Device;
use lsm_mem::MemSize;
use lsm_store::Store;
use std::marker::Model;

/// This number of further entries is allowed at once.
const ENTRIES: u64 = 512;

/// This number of further bytes of entries is allowed at once.
const BYTES: u64 = 131_072;

/// How large memory may become before a store is asked again whether there is room: to ask goes over all tables, which most batches
/// then needn't. It holds as long as the tables, the free blocks and the snapshots are those of which it was asked, and no more waits
/// for a flush.
#[derive(Clone, Copy)]
pub(crate) struct Allowance {
    granted: Option<Grant>,
}

/// What a store that was asked granted.
#[derive(Clone, Copy)]
struct Grant {
    most: MemSize,
    waiting: MemSize,
    basis: Basis,
}

impl Model for Grant {
    ghost use Rattle.lsm_mem.specs.declared.size.MemSize.{MemSize};
    ghost use Rattle.lsm_room.specs.Flushes.{FlushesLeave};
    ghost use Rattle.lsm_upkeep.specs.declared.allowing.Basis.{Basis};

    ghost Value = { MemSize × (MemSize × Basis) };

    ghost view = { λ g. (g.most, (g.waiting, g.basis)) };

    ghost inverse = { λ v. record { most = v.0; waiting = v.1.0; basis = v.1.1 } };

    ghost invariant = { λ g. FlushesLeave 100 g.basis.free_blocks g.basis.live g.waiting g.most };
}

/// What a grant rests on: it holds as long as a store has the same.
#[derive(Clone, Copy)]
struct Basis {
    generation: u64,
    free_blocks: u32,
    live: bool,
}

impl Basis {
    fn of<D: Device>(store: &Store<D>) -> Basis
        ensures free { result.free_blocks ≡ free_count store.now.work.area }
        ensures live { result.live ≡ is_live store.now.state }
    {
        Basis {
            generation: store.generation(),
            free_blocks: store.extents().free_blocks(),
            live: store.has_snapshots(),
        }
    }

    fn is_same(self, other: Basis) -> bool
        ensures { result ≡ true → (self.free_blocks ≡ other.free_blocks)
            × (self.live ≡ other.live) }
    {
        self.generation == other.generation
            && self.free_blocks == other.free_blocks
            && self.live == other.live
    }
}

impl Grant {
    // What a store grants for a demand, with `ENTRIES` entries of `BYTES` bytes more.
    fn of<D: Device>(store: &Store<D>, basis: Basis, demand: &Demand) -> Option<Grant>
        requires free { basis.free_blocks ≡ free_count store.now.work.area }
        requires live { basis.live ≡ is_live store.now.state }
        ensures { IfSome result
            (λ grant. FlushesLeave 100 (free_count store.now.work.area) (is_live store.now.state)
            demand.now.memory.waiting demand.now.memory.after) }
    {
        let most = demand.with_more(ENTRIES, BYTES);
        if !demand.is_met_up_to(store, most) {
            return None;
        }
        Some(Grant {
            most,
            waiting: demand.waiting(),
            basis,
        })
    }

    // Whether it covers what is demanded of a store with this basis.
    fn covers(&self, basis: Basis, demand: &Demand) -> bool
        ensures { result ≡ true
            → FlushesLeave 100 basis.free_blocks basis.live demand.now.memory.waiting
            demand.now.memory.after }
    {
        self.basis.is_same(basis) && demand.is_within(self.most, self.waiting)
    }
}

impl Allowance {
    /// Nothing is allowed before a store was asked.
    pub fn none() -> Allowance {
        Allowance { granted: None }
    }

    /// Whether a demand is admitted: it is allowed, or the store is asked. Then more may be allowed.
    pub fn admits<D: Device>(&mut self, store: &Store<D>, demand: &Demand) -> bool
        ensures { result ≡ true
            → FlushesLeave 100 (free_count store.now.work.area) (is_live store.now.state)
            demand.now.memory.waiting demand.now.memory.after }
    {
        let basis = Basis::of(store);
        if self.covers(basis, demand) {
            return true;
        }
        self.granted = Grant::of(store, basis, demand);
        self.granted.is_some() || demand.is_met(store)
    }

    fn covers(&self, basis: Basis, demand: &Demand) -> bool
        ensures { result ≡ true
            → FlushesLeave 100 basis.free_blocks basis.live demand.now.memory.waiting
            demand.now.memory.after }
    {
        match &self.granted {
            Some(grant) => grant.covers(basis, demand),
            None => false,
        }
    }
}
