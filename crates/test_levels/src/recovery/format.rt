//! Formats of devices in memory.

use crate::recovery::devices::{crash, put, sector, sector_of, zeros};
use linked_list_allocator::LocalHeap;
use lsm_device::{Device, MemDevice, Refusal};
use lsm_open::format;
use std::alloc::{Allocator, Global};
use std::process::Abort;

const ONES: [u8; 512] = [0xff; 512];

/// The superblock and the manifest of generation 1 on 8,192 sectors with log regions of 128.
const SUPERBLOCK: &str = "4c534d53000200000000000000010000200000800001";

const MANIFEST: &str = "4c534d4d00000000000000010000000000000000000000000000000100000000";

/// What a format answers. It tells the prover nothing.
fn format_of<A: Allocator + Clone>(
    alloc: A,
    device: MemDevice,
) -> Result<MemDevice, (Refusal, MemDevice)> {
    match format(alloc, device, 128) {
        Ok(device) => Ok(device),
        Err(refused) => Err(refused),
    }
}

/// A device with ones in each sector of superblocks, manifests and log regions, and in the first behind them. Two more writes
/// of ones pend.
fn worn<R: Abort>(rt: &R, alloc: Global) -> MemDevice {
    let mut device = zeros(rt, alloc);
    for at in 0..515u32 {
        put(rt, &mut device, at, &ONES);
    }
    device.sync().expect(rt, "a sync");
    put(rt, &mut device, 0, &ONES);
    put(rt, &mut device, 300, &ONES);
    device
}

/// Whether a format makes such a device an empty store, which stands: superblocks, manifests and log regions are those of one, and
/// the sector behind them is as it was.
fn is_emptied<R: Abort>(rt: &R, alloc: Global, device: MemDevice) -> bool {
    let Ok(made) = format_of(alloc, device) else {
        return false;
    };
    let mut device = crash(made, &[]);
    for at in 0..514u32 {
        let text = match at {
            1 => SUPERBLOCK,
            66 => MANIFEST,
            _ => "",
        };
        if sector(rt, &mut device, at) != sector_of(rt, text) {
            return false;
        }
    }
    sector(rt, &mut device, 514) == ONES
}

#[test]
fn a_worn_device(rt: HostRuntime) {
    assert!(rt; is_emptied(&rt, rt.alloc(), worn(&rt, rt.alloc())));
}

/// How many reads, writes and syncs a format makes.
fn calls_of_a_format<R: Abort>(rt: &R, alloc: Global) -> (u64, u64, u64) {
    match format_of(alloc, zeros(rt, alloc)) {
        Ok(device) => (device.reads(), device.writes(), device.syncs()),
        Err((refusal, _)) => rt.panic(refusal.name()),
    }
}

#[test]
fn a_format_makes_516_writes_and_3_syncs(rt: HostRuntime) {
    let calls = calls_of_a_format(&rt, rt.alloc());
    assert!(rt; calls == (0, 516, 3), "{calls:?}");
}

/// What a crash that keeps all leaves of a format that fails with Io behind so many writes and syncs.
fn failed<R: Abort>(rt: &R, alloc: Global, fuse: u64) -> MemDevice {
    let mut device = worn(rt, alloc);
    device.fuse(fuse);
    match format_of(alloc, device) {
        Err((Refusal::Io, device)) => crash(device, &[true; 600]),
        _ => rt.panic("Io"),
    }
}

#[test]
fn device_calls_that_fail(rt: HostRuntime) {
    const FUSES: &[u64] = &[0, 1, 513, 514, 515, 516, 517, 518];
    for &fuse in FUSES {
        let device = failed(&rt, rt.alloc(), fuse);
        assert!(rt; is_emptied(&rt, rt.alloc(), device), "{fuse}");
    }
}

/// Whether a format succeeds on a heap of this size. If it is refused no call of the device was made.
fn is_formatted_on<R: Abort>(rt: &R, alloc: Global, size: usize) -> bool {
    let heap = LocalHeap::new(alloc, size).expect(rt, "a heap");
    match format_of(&heap, zeros(rt, alloc)) {
        Ok(_) => true,
        Err((refusal, device)) => {
            let is_untouched = device.writes() == 0 && device.syncs() == 0;
            assert!(rt; refusal == Refusal::NoMemory && is_untouched);
            false
        }
    }
}

#[test]
fn memory_that_is_refused(rt: HostRuntime) {
    let mut refused = 0u32;
    for step in 1..32usize {
        if !is_formatted_on(&rt, rt.alloc(), step * 64) {
            refused = refused.wrapping_add(1);
        }
    }
    assert!(rt; refused > 0 && refused < 31, "{refused}");
}
