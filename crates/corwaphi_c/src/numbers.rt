//! The numbers of a store.

ghost use Rattle.std.specs.Prelude.{◌≡◌, Some};
ghost use Rattle.lsm_store.specs.Backing.{StoreView};
ghost use Rattle.lsm_machine.specs.RecoveryPoints.{batch_count};
ghost use Rattle.corwaphi_c.specs.Calls.{IsStat};

use crate::answers::{OK, code};
use crate::handle::{Handle, Slot};
use lsm_device::Refusal;

/// The numbers of a store.
#[repr(C)]
#[derive(Drop)]
pub struct Numbers {
    /// The generation of the superblock that stands.
    pub generation: u64,
    /// How many batches there are.
    pub batches: u64,
    /// How many of them are synced.
    pub synced: u64,
    /// The runs of level 0.
    pub runs: u64,
    /// The tables of all levels.
    pub tables: u64,
    /// The free sectors of the open log.
    pub log_room: u32,
    /// The blocks of 4 KiB that are in no table.
    pub free_blocks: u32,
    /// Whether a flush waits.
    pub waiting: bool,
}

/// Tells the numbers of a store. Fails with Stopped.
#[unsafe(no_mangle)]
pub extern "C" fn corwaphi_store_stat(handle: Handle, slot: &mut Slot, out: &mut Numbers) -> u32
    ensures told { (s : StoreView) → handle.value.store ≡ Some s → IsStat s result out.new }
    ensures kept { slot.new.value ≡ Some handle.value }
{
    let kept = handle.into_box();
    let answer = match &kept.store {
        Some(store) => match store.stat() {
            Ok(stat) => {
                out.generation = stat.generation;
                out.batches = stat.batches;
                out.synced = store.synced_count();
                out.runs = stat.runs as u64;
                out.tables = stat.tables as u64;
                out.log_room = stat.room;
                out.free_blocks = stat.free_blocks;
                out.waiting = stat.waiting;
                OK
            }
            Err(refusal) => code(refusal),
        },
        None => code(Refusal::Stopped),
    };
    slot.put(kept);
    answer
}

/// Tells how many batches there are, and how many of them are synced, also of a stopped store.
#[unsafe(no_mangle)]
pub extern "C" fn corwaphi_store_counts(
    handle: Handle,
    slot: &mut Slot,
    batches: &mut u64,
    synced: &mut u64,
) -> u32
    ensures told { (s : StoreView) → handle.value.store ≡ Some s
        → (result ≡ 0) × ((batches.new ≡ batch_count s.state.points)
        × (synced.new ≡ s.state.points.synced)) }
    ensures kept { slot.new.value ≡ Some handle.value }
{
    let kept = handle.into_box();
    let answer = match &kept.store {
        Some(store) => {
            *batches = store.batch_count();
            *synced = store.synced_count();
            OK
        }
        None => code(Refusal::Stopped),
    };
    slot.put(kept);
    answer
}
