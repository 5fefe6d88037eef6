//! Batches are made durable.

ghost use Rattle.std.specs.Prelude.{◌≤◌, List, Option, Some, None, length};
ghost use Rattle.lsm_device.specs.Disk.{Disk};
ghost use Rattle.lsm_machine.specs.Calls.{Call, Sync, SyncTo};
ghost use Rattle.corwaphi_c.specs.Calls.{Answers, IsDone, IsShown, MakesIn, store_in, sync_of};

use crate::answers::{code, done};
use crate::handle::{Handle, Slot};
use crate::kept::{JOURNAL_BYTES, Kept, lend};
use lsm_device::{Device, Refusal};
use lsm_mapped::MappedDevice;
use lsm_store::Store;

/// Makes all batches durable, once the journal is made. Fails with Stopped.
#[unsafe(no_mangle)]
pub extern "C" fn corwaphi_store_sync(
    handle: Handle,
    slot: &mut Slot,
    image: &[u8],
    journal: &mut [u8],
    used: &mut usize,
) -> u32
    ghost past: { List Disk }
    requires { IsShown handle.value.store image.now past }
    ensures { MakesIn (Answers Sync (λ reply. IsDone reply result)) result
        (record { past = past; used = used.new; journal = journal.new }) handle.value.store
        (store_in slot.new.value) }
{
    let mut kept = handle.into_box();
    let answer = make(&mut kept, image, journal, used, None);
    slot.put(kept);
    answer
}

/// Makes the batches up to a sequence number durable, once the journal is made, which is empty where they are durable already. Fails
/// with Stopped and NoSuchBatch.
#[unsafe(no_mangle)]
pub extern "C" fn corwaphi_store_sync_to(
    handle: Handle,
    slot: &mut Slot,
    image: &[u8],
    journal: &mut [u8],
    used: &mut usize,
    number: u64,
) -> u32
    ghost past: { List Disk }
    requires { IsShown handle.value.store image.now past }
    ensures { MakesIn (Answers (SyncTo number) (λ reply. IsDone reply result)) result
        (record { past = past; used = used.new; journal = journal.new }) handle.value.store
        (store_in slot.new.value) }
{
    let mut kept = handle.into_box();
    let answer = make(&mut kept, image, journal, used, Some(number));
    slot.put(kept);
    answer
}

// Makes the batches up to a sequence number durable, or all.
fn make(
    kept: &mut Kept,
    image: &[u8],
    journal: &mut [u8],
    used: &mut usize,
    last: Option<u64>,
) -> u32
    ghost past: { List Disk }
    requires { IsShown kept.old.store image.now past }
    ensures { MakesIn (Answers (sync_of last) (λ reply. IsDone reply result)) result
        (record { past = past; used = used.new; journal = journal.new }) kept.old.store
        kept.new.store }
{
    *used = 0;
    if journal.len() < JOURNAL_BYTES {
        return code(Refusal::BadLimit);
    }
    let Some(parked) = kept.store.take() else {
        return code(Refusal::Stopped);
    };
    let mut device = MappedDevice::new(image, journal, parked.sectors());
    let mut store = lend(parked, &mut device);
    let answer = sync(&mut store, last);
    kept.park(store, &mut device);
    *used = device.used();
    answer
}

fn sync<D: Device>(store: &mut Store<D>, last: Option<u64>) -> u32
    ensures { Answers (sync_of last) (λ reply. IsDone reply result) store.old store.new }
{
    match last {
        Some(number) => done(store.sync_to(number)),
        None => done(store.sync()),
    }
}
