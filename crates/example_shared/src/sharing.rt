// A store that several threads share, and a crash.
ghost use Rattle.std.specs.Prelude.{◌≡◌, ◌≢◌, Some, option_map, IfOk};
ghost use Rattle.lsm_codec.specs.Keys.{Bytes};
ghost use Rattle.lsm_device.specs.Disk.{seen};
ghost use Rattle.lsm_device.specs.Medium.{disk};
ghost use Rattle.lsm_device.specs.Memory.{medium_in};
ghost use Rattle.lsm_store.specs.Backing.{IsBacked};
ghost use Rattle.example_shared.specs.Shares.{IsShared, StandsForBoth, OutlastCrashes};

use crate::client::batch_of;
use crate::session::in_two_threads;
use crate::working::in_three_threads;
use lsm_codec::Batch;
use lsm_device::{MemDevice, Refusal};
use lsm_open::format;
use lsm_shared::laws::trail_tells_what_a_crash_leaves;
use lsm_shared::prepare;
use lsm_store::{At, Store};
use lsm_trail::{Opened, SessionName, Trail};
use std::alloc::Global;
use std::marker::Brand;
use std::sync::Wait;
use std::thread::Threads;

// Makes a store.
fn new_store(alloc: Global, device: MemDevice) -> Result<Store<MemDevice>, Refusal>
    ensures { IfOk result (λ store. (store.state.log_sectors ≡ 128) × IsBacked store) }
{
    let device = match format(alloc, device, 128) {
        Ok(device) => device,
        Err((refusal, _)) => return Err(refusal),
    };
    match Store::open(alloc, device, 256) {
        Ok(store) => Ok(store),
        Err((refusal, _)) => Err(refusal),
    }
}

// A session of two clients, or of two and a worker.
fn in_threads<B: SessionName + Send + Sync, R: Threads + Wait + Sync>(
    rt: &R,
    alloc: Global,
    opened: Opened<MemDevice>,
    first: Batch,
    second: Batch,
) -> Result<(Store<MemDevice>, Trail), Refusal>
    requires { opened ≡ B.id }
    ensures { IfOk result (λ ended. IsShared opened.begin first second ended.0 ended.1) }
{
    match opened.clients() {
        2 => in_two_threads::<B, R>(rt, alloc, opened, first, second),
        3 => in_three_threads::<B, R>(rt, alloc, opened, first, second),
        _ => Err(Refusal::TooManyClients),
    }
}

// Lets two clients put a value each, and sync, in a session of `clients` clients.
fn store_both<R: Threads + Wait + Sync>(
    rt: &R,
    alloc: Global,
    store: Store<MemDevice>,
    first_key: &[u8],
    first_value: &[u8],
    second_key: &[u8],
    second_value: &[u8],
    clients: u32,
) -> Result<Store<MemDevice>, Refusal>
    requires sectors { store.state.log_sectors ≡ 128 }
    requires backed { IsBacked store }
    requires apart { first_key.now ≢ second_key.now }
    ensures { IfOk result
        (λ ended. OutlastCrashes (first_key.now, first_value.now) (second_key.now, second_value.now)
        ended) }
{
    let one = batch_of(alloc, first_key, first_value)?;
    let two = batch_of(alloc, second_key, second_value)?;
    let opened = match prepare(alloc, store, clients, 1_024) {
        Ok(opened) => opened,
        Err((refusal, _)) => return Err(refusal),
    };
    let (store, _) = in_threads::<Brand, R>(rt, alloc, opened, one, two)?;
    trail_tells_what_a_crash_leaves();
    Ok(store)
}

// Opens the store on a device, and looks both keys up.
fn find_both(
    alloc: Global,
    device: MemDevice,
    first_key: &[u8],
    second_key: &[u8],
) -> Result<(Option<Vec<u8>>, Option<Vec<u8>>), Refusal>
    ensures { (first_value second_value : Bytes)
        → StandsForBoth (first_key.now, first_value) (second_key.now, second_value)
        (seen (disk (medium_in device)))
        → IfOk result (λ found. (option_map (λ v. v.items) found.0 ≡ Some first_value)
        × (option_map (λ v. v.items) found.1 ≡ Some second_value)) }
{
    let mut store = match Store::open(alloc, device, 256) {
        Ok(store) => store,
        Err((refusal, _)) => return Err(refusal),
    };
    let one = store.get(At::Now, first_key)?;
    let two = store.get(At::Now, second_key)?;
    Ok((one, two))
}

// Crashes the device of a store, keeping any of the pending writes, and looks both keys up.
fn find_after_a_crash(
    alloc: Global,
    store: Store<MemDevice>,
    first_key: &[u8],
    second_key: &[u8],
    keep: &[bool],
) -> Result<(Option<Vec<u8>>, Option<Vec<u8>>), Refusal>
    ensures { (first_value second_value : Bytes)
        → OutlastCrashes (first_key.now, first_value) (second_key.now, second_value) store
        → IfOk result (λ found. (option_map (λ v. v.items) found.0 ≡ Some first_value)
        × (option_map (λ v. v.items) found.1 ≡ Some second_value)) }
{
    let device = store.into_device().crash(keep);
    find_both(alloc, device, first_key, second_key)
}

/// Makes a store and shares it between two threads. Each puts a value under a key and syncs. Then the device crashes, keeping any
/// of the pending writes, and both keys are looked up.
pub fn share<R: Threads + Wait + Sync>(
    rt: &R,
    alloc: Global,
    device: MemDevice,
    first_key: &[u8],
    first_value: &[u8],
    second_key: &[u8],
    second_value: &[u8],
    keep: &[bool],
) -> Result<(Option<Vec<u8>>, Option<Vec<u8>>), Refusal>
    requires { first_key.now ≢ second_key.now }
    ensures { IfOk result (λ found. (option_map (λ v. v.items) found.0 ≡ Some first_value.now)
        × (option_map (λ v. v.items) found.1 ≡ Some second_value.now)) }
{
    let store = new_store(alloc, device)?;
    let store = store_both(
        rt,
        alloc,
        store,
        first_key,
        first_value,
        second_key,
        second_value,
        2,
    )?;
    Ok(find_after_a_crash(alloc, store, first_key, second_key, keep)?)
}

/// The same with a third thread, which works on the jobs of the store meanwhile.
pub fn share_beside_a_worker<R: Threads + Wait + Sync>(
    rt: &R,
    alloc: Global,
    device: MemDevice,
    first_key: &[u8],
    first_value: &[u8],
    second_key: &[u8],
    second_value: &[u8],
    keep: &[bool],
) -> Result<(Option<Vec<u8>>, Option<Vec<u8>>), Refusal>
    requires { first_key.now ≢ second_key.now }
    ensures { IfOk result (λ found. (option_map (λ v. v.items) found.0 ≡ Some first_value.now)
        × (option_map (λ v. v.items) found.1 ≡ Some second_value.now)) }
{
    let store = new_store(alloc, device)?;
    let store = store_both(
        rt,
        alloc,
        store,
        first_key,
        first_value,
        second_key,
        second_value,
        3,
    )?;
    Ok(find_after_a_crash(alloc, store, first_key, second_key, keep)?)
}
