//! Values and rows are read, now or at a snapshot. That writes nothing.

ghost use Rattle.std.specs.Prelude.{◌≡◌, List, option_map};
ghost use Rattle.lsm_device.specs.Disk.{Disk};
ghost use Rattle.lsm_machine.specs.Calls.{Get, Scan, Snapshot, Release};
ghost use Rattle.corwaphi_c.specs.Calls.{Answers, IsDone, IsNumber, IsRows, IsShown, IsValue, Makes, MakesParked, at_of, end_of, no_journal, store_in};

use crate::answers::{NO_VALUE, PageTold, at, code, copy, done, number, put_page};
use crate::handle::{Handle, Slot};
use crate::kept::{Kept, lend};
use lsm_device::{Device, Refusal};
use lsm_mapped::MappedDevice;
use lsm_store::{At, Store};

/// Copies the value of a key into the room, and tells its length, also where the room is too short for it (ShortBuffer). Where the key
/// has no value that is NoValue. The snapshot is a number, or the last of 64 bits for the present map. Fails as `Store::get`.
#[unsafe(no_mangle)]
pub extern "C" fn corwaphi_store_get(
    handle: Handle,
    slot: &mut Slot,
    image: &[u8],
    snapshot: u64,
    key: &[u8],
    room: &mut [u8],
    size: &mut usize,
) -> u32
    ghost past: { List Disk }
    requires { IsShown handle.value.store image.now past }
    ensures { Makes (Answers (Get (at_of snapshot) key.now)
        (λ reply. IsValue reply result room.new size.new)) (no_journal past) handle.value.store
        (store_in slot.new.value) }
{
    let mut kept = handle.into_box();
    let answer = get(&mut kept, image, at(snapshot), key, room, size);
    slot.put(kept);
    answer
}

fn get(kept: &mut Kept, image: &[u8], at: At, key: &[u8], room: &mut [u8], size: &mut usize) -> u32
    ghost past: { List Disk }
    requires { IsShown kept.old.store image.now past }
    ensures { Makes (Answers (Get at key.now) (λ reply. IsValue reply result room.new size.new))
        (no_journal past) kept.old.store kept.new.store }
{
    let Some(parked) = kept.store.take() else {
        return code(Refusal::Stopped);
    };
    let mut device = MappedDevice::new(image, &mut [], parked.sectors());
    let mut store = lend(parked, &mut device);
    let answer = get_in(&mut store, at, key, room, size);
    kept.park(store, &mut device);
    answer
}

fn get_in<D: Device>(
    store: &mut Store<D>,
    at: At,
    key: &[u8],
    room: &mut [u8],
    size: &mut usize,
) -> u32
    ensures { Answers (Get at key.now) (λ reply. IsValue reply result room.new size.new) store.old
        store.new }
{
    match store.get(at, key) {
        Ok(Some(value)) => copy(&value, room, size),
        Ok(None) => NO_VALUE,
        Err(refusal) => code(refusal),
    }
}

/// Copies the first rows from a key on, up to another one where that is given, into the room, and tells of them. With ShortBuffer the
/// page doesn't fit the room: ask for fewer rows. Fails as `Store::scan`.
#[unsafe(no_mangle)]
pub extern "C" fn corwaphi_store_rows(
    handle: Handle,
    slot: &mut Slot,
    image: &[u8],
    snapshot: u64,
    from: &[u8],
    to: &[u8],
    has_to: bool,
    limit: u64,
    room: &mut [u8],
    told: &mut PageTold,
) -> u32
    ghost past: { List Disk }
    requires { IsShown handle.value.store image.now past }
    ensures { Makes (Answers (Scan (at_of snapshot) from.now (end_of has_to to.now) limit)
        (λ reply. IsRows reply result room.new told.new)) (no_journal past) handle.value.store
        (store_in slot.new.value) }
{
    let mut kept = handle.into_box();
    let to = end(to, has_to);
    let answer = rows(&mut kept, image, at(snapshot), from, to, limit, room, told);
    slot.put(kept);
    answer
}

// The end of a range, where there is one.
fn end(to: &[u8], has_to: bool) -> Option<&[u8]>
    ensures { option_map (λ to. to.now) result ≡ end_of has_to to.now }
{
    if has_to { Some(to) } else { None }
}

fn rows(
    kept: &mut Kept,
    image: &[u8],
    at: At,
    from: &[u8],
    to: Option<&[u8]>,
    limit: u64,
    room: &mut [u8],
    told: &mut PageTold,
) -> u32
    ghost past: { List Disk }
    requires { IsShown kept.old.store image.now past }
    ensures { Makes (Answers (Scan at from.now (option_map (λ to. to.now) to.entry) limit)
        (λ reply. IsRows reply result room.new told.new)) (no_journal past) kept.old.store
        kept.new.store }
{
    let Some(parked) = kept.store.take() else {
        return code(Refusal::Stopped);
    };
    let mut device = MappedDevice::new(image, &mut [], parked.sectors());
    let mut store = lend(parked, &mut device);
    let answer = rows_in(&mut store, at, from, to, limit, room, told);
    kept.park(store, &mut device);
    answer
}

fn rows_in<D: Device>(
    store: &mut Store<D>,
    at: At,
    from: &[u8],
    to: Option<&[u8]>,
    limit: u64,
    room: &mut [u8],
    told: &mut PageTold,
) -> u32
    ensures { Answers (Scan at from.now (option_map (λ to. to.now) to.entry) limit)
        (λ reply. IsRows reply result room.new told.new) store.old store.new }
{
    match store.scan(at, from, to, limit) {
        Ok(page) => put_page(&page, room, told),
        Err(refusal) => code(refusal),
    }
}

/// Takes a snapshot of the present map, and tells its number. Fails as `Store::snapshot`.
#[unsafe(no_mangle)]
pub extern "C" fn corwaphi_store_snapshot(handle: Handle, slot: &mut Slot, out: &mut u64) -> u32
    ensures { MakesParked (Answers Snapshot (λ reply. IsNumber reply result out.new))
        handle.value.store (store_in slot.new.value) }
{
    let mut kept = handle.into_box();
    let answer = take_snapshot(&mut kept, out);
    slot.put(kept);
    answer
}

fn take_snapshot(kept: &mut Kept, out: &mut u64) -> u32
    ensures { MakesParked (Answers Snapshot (λ reply. IsNumber reply result out.new)) kept.old.store
        kept.new.store }
{
    match &mut kept.store {
        Some(store) => number(store.snapshot(), out),
        None => code(Refusal::Stopped),
    }
}

/// Forgets a snapshot. Fails as `Store::release`.
#[unsafe(no_mangle)]
pub extern "C" fn corwaphi_store_release(handle: Handle, slot: &mut Slot, snapshot: u64) -> u32
    ensures { MakesParked (Answers (Release snapshot) (λ reply. IsDone reply result))
        handle.value.store (store_in slot.new.value) }
{
    let mut kept = handle.into_box();
    let answer = release(&mut kept, snapshot);
    slot.put(kept);
    answer
}

fn release(kept: &mut Kept, snapshot: u64) -> u32
    ensures { MakesParked (Answers (Release snapshot) (λ reply. IsDone reply result)) kept.old.store
        kept.new.store }
{
    match &mut kept.store {
        Some(store) => done(store.release(snapshot)),
        None => code(Refusal::Stopped),
    }
}
