//! A store is made, opened and closed.

ghost use Rattle.std.specs.Prelude.{◌≡◌, ◌≤◌, ◌<◌, [], List, length, MatchResult};
ghost use Rattle.lsm_device.specs.Disk.{Disk};
ghost use Rattle.lsm_mapped.specs.Devices.{medium_on};
ghost use Rattle.lsm_mapped.specs.Disks.{IsPast};
ghost use Rattle.corwaphi_c.specs.Calls.{store_in};
ghost use Rattle.corwaphi_c.specs.Making.{Formats, FormatsHere, IsKeptOpened, IsOpenedOn, IsRefusedOn, IsUnopened, Opens, OpensOn};

use crate::answers::{OK, code};
use crate::handle::{Handle, Slot};
use crate::kept::{JOURNAL_BYTES, Kept};
use crate::pieces::Upkeep;
use lsm_device::{Device, Refusal};
use lsm_mapped::MappedDevice;
use lsm_open::format;
use lsm_store::Store;
use lsm_upkeep::Goal;
use std::alloc::Global;

/// Makes an empty store of `sectors` sectors, which are zeros, with log regions of `log_sectors` sectors: all that it writes is in the
/// journal, which needs room for 132 sectors and three log regions, and a head of 8 bytes for each of those. Fails with BadGeometry,
/// NoMemory and Io, which is also for a journal without room.
#[unsafe(no_mangle)]
pub extern "C" fn corwaphi_store_format(
    alloc: Global,
    journal: &mut [u8],
    used: &mut usize,
    sectors: u32,
    log_sectors: u16,
) -> u32
    ghost past: { List Disk }
    requires { IsPast sectors [] past }
    ensures { FormatsHere sectors log_sectors result
        (record { past = past; used = used.new; journal = journal.new }) }
{
    // A format reads nothing.
    let mut device = MappedDevice::new(&[], journal, sectors);
    let answer = format_mapped(alloc, &mut device, log_sectors);
    *used = device.used();
    answer
}

// Makes the device of a call an empty store.
fn format_mapped(alloc: Global, device: &mut MappedDevice, log_sectors: u16) -> u32
    ensures { Formats log_sectors result (medium_on device.old) (medium_on device.new) }
{
    let (answer, mapped) = format_on(alloc, device.take(), log_sectors);
    *device = mapped;
    answer
}

// Makes a device an empty store.
fn format_on<D: Device>(alloc: Global, device: D, log_sectors: u16) -> (u32, D)
    ensures { Formats log_sectors result.0 (D.medium device) (D.medium result.1) }
{
    match format(alloc, device, log_sectors) {
        Ok(device) => (OK, device),
        Err((refusal, device)) => (code(refusal), device),
    }
}

/// Opens the store in an image, with a cache of `cache` blocks, and puts its handle into the slot. The journal is to be made also where
/// the opening fails. Then `corwaphi_store_work` finishes what waits, and opens a log where the open one has no room. Fails as
/// `Store::open`, and with BadLimit for a journal of less than 65,664 bytes; then the slot is left as it is.
#[unsafe(no_mangle)]
pub extern "C" fn corwaphi_store_open(
    alloc: Global,
    slot: &mut Slot,
    image: &[u8],
    journal: &mut [u8],
    used: &mut usize,
    sectors: u32,
    cache: u32,
) -> u32
    ghost past: { List Disk }
    requires { IsPast sectors image.now past }
    ensures opens { 65664 ≤ length journal.old
        → Opens sectors cache (record { past = past; used = used.new; journal = journal.new })
        result (store_in slot.new.value) }
    ensures short { length journal.old < 65664 → (result ≡ 28) × (used.new ≡ 0) }
    ensures refused { (result ≡ 0 → ⊥) → slot.new ≡ slot.old }
{
    *used = 0;
    if journal.len() < JOURNAL_BYTES {
        return code(Refusal::BadLimit);
    }
    match open_kept(alloc, image, journal, used, sectors, cache) {
        Ok(kept) => {
            slot.put(kept);
            OK
        }
        Err(answer) => answer,
    }
}

// The store in an image, to be kept, or why it can't be opened.
fn open_kept(
    alloc: Global,
    image: &[u8],
    journal: &mut [u8],
    used: &mut usize,
    sectors: u32,
    cache: u32,
) -> Result<Box<Kept>, u32>
    ghost past: { List Disk }
    requires { IsPast sectors image.now past }
    ensures { MatchResult result
        (λ kept. IsKeptOpened sectors cache
        (record { past = past; used = used.new; journal = journal.new }) kept.value.store)
        (λ answer. IsUnopened sectors cache
        (record { past = past; used = used.new; journal = journal.new }) answer) }
{
    *used = 0;
    let kept = Kept {
        store: None,
        upkeep: Upkeep::to(Goal::Opened),
    };
    let mut kept = match Box::new(alloc, kept) {
        Ok(kept) => kept,
        Err(_) => return Err(code(Refusal::NoMemory)),
    };
    let mut device = MappedDevice::new(image, journal, sectors);
    let opened = open_mapped(alloc, &mut kept, &mut device, cache);
    *used = device.used();
    match opened {
        Ok(()) => Ok(kept),
        Err(answer) => Err(answer),
    }
}

// Opens the store on the device of a call and keeps it, or tells why it can't.
fn open_mapped(
    alloc: Global,
    kept: &mut Kept,
    device: &mut MappedDevice,
    cache: u32,
) -> Result<(), u32>
    ensures { MatchResult result
        (λ _. OpensOn cache (medium_on device.old) (medium_on device.new) kept.new.store)
        (λ answer. IsRefusedOn cache answer (medium_on device.old) (medium_on device.new)) }
{
    match open_on(alloc, device.take(), cache) {
        Ok(store) => {
            kept.park(store, device);
            Ok(())
        }
        Err(told) => {
            let (answer, mapped) = told;
            *device = mapped;
            Err(answer)
        }
    }
}

// The store on a device, or why it can't be opened.
fn open_on<D: Device>(alloc: Global, device: D, cache: u32) -> Result<Store<D>, (u32, D)>
    ensures { MatchResult result (λ s. IsOpenedOn cache (D.medium device) s)
        (λ e. IsRefusedOn cache e.0 (D.medium device) (D.medium e.1)) }
{
    match Store::open(alloc, device, cache) {
        Ok(store) => Ok(store),
        Err((refusal, device)) => Err((code(refusal), device)),
    }
}

/// Closes a store, and frees its memory. It writes nothing: what was not synced may be lost in a crash.
#[unsafe(no_mangle)]
pub extern "C" fn corwaphi_store_close(handle: Handle) {
    drop(handle.into_box());
}
