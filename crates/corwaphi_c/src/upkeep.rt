//! Flushes and merges, piece by piece. A piece only reads or only writes, so that none reads what it wrote.

ghost use Rattle.std.specs.Prelude.{◌≡◌, ◌≤◌, List, Some, length};
ghost use Rattle.lsm_device.specs.Disk.{Disk};
ghost use Rattle.lsm_store.specs.Backing.{StoreView, machine_of};
ghost use Rattle.lsm_upkeep.specs.Steps.{IsUpkept};
ghost use Rattle.corwaphi_c.specs.Calls.{IsAsked, IsShown, MakesIn, store_in};

use crate::answers::{OK, code};
use crate::handle::{Handle, Slot};
use crate::kept::{JOURNAL_BYTES, Kept, lend};
use lsm_device::Refusal;
use lsm_mapped::MappedDevice;
use lsm_upkeep::Goal;
use std::alloc::Global;

/// Does a piece of what the store is to reach: what a write waits for, what an opening left, or what `corwaphi_store_compact` asked for. It
/// returns 0 where there is nothing to do, 1 where there may be more, 2 where a flush or compaction was finished, and 3 where a piece was
/// done, and what is left are merges that no write waits for: they may be done a few pieces before each of the next writes. A piece takes a
/// flush or compaction, or finds none to take; reads at most 8 blocks; builds the tables of a result; writes at most 8 blocks; installs the
/// tables; or opens another log. An error is skipped: the flush or compaction that it stops is given up, and the store's map is the same
/// either way. The call fails with Stopped.
#[unsafe(no_mangle)]
pub extern "C" fn corwaphi_store_work(
    alloc: Global,
    handle: Handle,
    slot: &mut Slot,
    image: &[u8],
    journal: &mut [u8],
    used: &mut usize,
    did: &mut u32,
) -> u32
    ghost past: { List Disk }
    requires { IsShown handle.value.store image.now past }
    ensures { MakesIn IsUpkept result
        (record { past = past; used = used.new; journal = journal.new }) handle.value.store
        (store_in slot.new.value) }
{
    let mut kept = handle.into_box();
    let answer = work(alloc, &mut kept, image, journal, used, did);
    slot.put(kept);
    answer
}

fn work(
    alloc: Global,
    kept: &mut Kept,
    image: &[u8],
    journal: &mut [u8],
    used: &mut usize,
    did: &mut u32,
) -> u32
    ghost past: { List Disk }
    requires { IsShown kept.old.store image.now past }
    ensures { MakesIn IsUpkept result
        (record { past = past; used = used.new; journal = journal.new }) kept.old.store
        kept.new.store }
{
    *used = 0;
    *did = 0;
    if journal.len() < JOURNAL_BYTES {
        return code(Refusal::BadLimit);
    }
    let Some(parked) = kept.store.take() else {
        return code(Refusal::Stopped);
    };
    let mut device = MappedDevice::new(image, journal, parked.sectors());
    let mut store = lend(parked, &mut device);
    let reply = kept.upkeep.go_on(alloc, &mut store);
    kept.park(store, &mut device);
    *used = device.used();
    match reply {
        Ok(done) => {
            *did = done.number();
            OK
        }
        Err(refusal) => code(refusal),
    }
}

/// Asks that what is in memory comes into tables, and all tables into the last level, as far as they find room: `corwaphi_store_work` does
/// it. Fails with Stopped.
#[unsafe(no_mangle)]
pub extern "C" fn corwaphi_store_compact(handle: Handle, slot: &mut Slot) -> u32
    ensures asked { (s : StoreView) → handle.value.store ≡ Some s → IsAsked (machine_of s) result }
    ensures kept { store_in slot.new.value ≡ handle.value.store }
{
    let mut kept = handle.into_box();
    let answer = compact(&mut kept);
    slot.put(kept);
    answer
}

fn compact(kept: &mut Kept) -> u32
    ensures asked { (s : StoreView) → kept.old.store ≡ Some s → IsAsked (machine_of s) result }
    ensures kept { kept.new.store ≡ kept.old.store }
{
    let Some(store) = &kept.store else {
        return code(Refusal::Stopped);
    };
    match store.stat() {
        Ok(_) => {
            kept.upkeep.turn_to(Goal::Whole);
            OK
        }
        Err(refusal) => code(refusal),
    }
}
