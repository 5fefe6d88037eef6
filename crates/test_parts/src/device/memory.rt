//! Tests of the device in memory.

use crate::device::sectors::{MASKS, are, byte_of, passing_writes, put, three_pend};
use linked_list_allocator::LocalHeap;
use lsm_device::{Device, Fault, MemDevice, Refusal};
use std::alloc::{Allocator, Global};
use std::process::Abort;

/// A device of so many sectors.
fn new<R: Abort>(rt: &R, alloc: Global, sectors: u32) -> MemDevice {
    MemDevice::new(alloc, sectors).expect(rt, "memory")
}

fn has_counts<A: Allocator>(device: &MemDevice<A>, reads: u64, writes: u64, syncs: u64) -> bool {
    device.reads() == reads && device.writes() == writes && device.syncs() == syncs
}

/// Whether a crash by the mask leaves such sectors, with nothing pending and new counts.
fn leaves<R: Abort>(rt: &R, alloc: Global, mask: &[bool], bytes: &[u8; 3]) -> bool {
    let mut device = new(rt, alloc, 3);
    let pends = three_pend(&mut device).is_ok() && has_counts(&device, 0, 5, 1);
    let mut left = device.crash(mask);
    let anew = has_counts(&left, 0, 0, 0) && are(&mut left, bytes);
    pends && anew && are(&mut left.crash(&[true; 8]), bytes)
}

#[test]
fn a_crash_keeps_what_the_mask_says(rt: HostRuntime) {
    for &(mask, bytes) in MASKS {
        assert!(rt; leaves(&rt, rt.alloc(), mask, &bytes));
    }
}

/// Whether a device answers Ok at just these calls, of which there are six: a write to sectors 0, 1 and 2, a sync, a write
/// to sector 3, a sync.
fn answers(device: &mut MemDevice, wanted: [bool; 6]) -> bool {
    let answers = [
        put(device, 0, 1).is_ok(),
        put(device, 1, 1).is_ok(),
        put(device, 2, 1).is_ok(),
        device.sync().is_ok(),
        put(device, 3, 1).is_ok(),
        device.sync().is_ok(),
    ];
    answers == wanted
}

/// A fuse, the call that fails, and whether its write is kept.
type Harm = (u64, u64, bool);

/// Whether a device that is harmed so answers so, and then its sectors are filled so, and after a crash that keeps nothing,
/// which takes fuse and failing call away, so.
fn is_harmed<R: Abort>(
    rt: &R,
    alloc: Global,
    (fuse, call, kept): Harm,
    wanted: [bool; 6],
    (seen, left): ([u8; 4], [u8; 4]),
) -> bool {
    let mut device = new(rt, alloc, 4);
    device.fuse(fuse);
    device.fail(call, kept);
    let harmed = answers(&mut device, wanted) && are(&mut device, &seen);
    device.fuse(0);
    device.fail(0, kept);
    let mut device = device.crash(&[]);
    harmed && are(&mut device, &left) && answers(&mut device, [true; 6])
}

#[test]
fn a_fuse_burns_and_one_call_fails(rt: HostRuntime) {
    let none = u64::MAX;
    let rows: [(Harm, [bool; 6], ([u8; 4], [u8; 4])); 13] = [
        // What a fuse faults on pends.
        ((0, none, false), [false; 6], ([1; 4], [0; 4])),
        (
            (1, none, false),
            [true, false, false, false, false, false],
            ([1; 4], [0; 4]),
        ),
        (
            (3, none, false),
            [true, true, true, false, false, false],
            ([1; 4], [0; 4]),
        ),
        (
            (4, none, false),
            [true, true, true, true, false, false],
            ([1; 4], [1, 1, 1, 0]),
        ),
        (
            (5, none, false),
            [true, true, true, true, true, false],
            ([1; 4], [1, 1, 1, 0]),
        ),
        ((6, none, false), [true; 6], ([1; 4], [1; 4])),
        // A write that fails is kept or not.
        (
            (none, 0, false),
            [false, true, true, true, true, true],
            ([0, 1, 1, 1], [0, 1, 1, 1]),
        ),
        (
            (none, 1, false),
            [true, false, true, true, true, true],
            ([1, 0, 1, 1], [1, 0, 1, 1]),
        ),
        (
            (none, 1, true),
            [true, false, true, true, true, true],
            ([1; 4], [1; 4]),
        ),
        (
            (none, 3, false),
            [true, true, true, false, true, true],
            ([1; 4], [1; 4]),
        ),
        (
            (none, 4, true),
            [true, true, true, true, false, true],
            ([1; 4], [1; 4]),
        ),
        // It decides beside a fuse, and counts for it. A sync that fails makes nothing stand.
        (
            (2, 1, false),
            [true, false, false, false, false, false],
            ([1, 0, 1, 1], [0; 4]),
        ),
        (
            (4, 3, true),
            [true, true, true, false, false, false],
            ([1; 4], [0; 4]),
        ),
    ];
    for (harm, wanted, sectors) in rows {
        assert!(rt;
            is_harmed(&rt, rt.alloc(), harm, wanted, sectors),
            "fuse {}, call {}",
            harm.0,
            harm.1
        );
    }
}

/// Whether of three reads the second fails, and the newest pending write is read. Each is a call.
fn one_read_fails<R: Abort>(rt: &R, alloc: Global) -> bool {
    let mut device = new(rt, alloc, 3);
    let pends = three_pend(&mut device).is_ok();
    device.fail(1, false);
    pends
        && byte_of(&mut device, 0) == Ok(4)
        && byte_of(&mut device, 0) == Err(Fault)
        && byte_of(&mut device, 0) == Ok(4)
        && has_counts(&device, 3, 5, 1)
}

#[test]
fn a_read_that_fails_is_one_call(rt: HostRuntime) {
    assert!(rt; one_read_fails(&rt, rt.alloc()));
}

/// How many of six writes a device on a heap of so many bytes takes, or none where there is no device. The others fault and
/// change nothing, a sync takes no memory, and a crash frees what it leaves.
fn writes_taken<R: Abort>(rt: &R, alloc: Global, bytes: usize) -> Option<u8> {
    let heap = LocalHeap::new(alloc, bytes).expect(rt, "a heap");
    let mut device = MemDevice::new(&heap, 4).ok()?;
    let taken = passing_writes(&mut device, 6);
    let refused = u64::from(6u8.wrapping_sub(taken));
    assert!(rt; device.sync().is_ok() && are(&mut device, &[taken, 0]));
    assert!(rt; device.refusals() == refused);
    assert!(rt; taken == 6 || put(&mut device, 1, 2) == Err(Fault));
    assert!(rt; taken == 6 || device.refusals() == refused.wrapping_add(1));
    let mut left = device.crash(&[true; 8]);
    assert!(rt; left.refusals() == 0);
    assert!(rt; are(&mut left, &[taken, 0]) && (taken == 0 || put(&mut left, 1, 2).is_ok()));
    Some(taken)
}

#[test]
fn each_growth_is_refused_in_turn(rt: HostRuntime) {
    let mut refused = 0u32;
    let mut partly = 0u32;
    let mut whole = 0u32;
    for step in 1..100usize {
        // A budget that grows from one that suffices for nothing.
        match writes_taken(&rt, rt.alloc(), step * 128) {
            None => refused = refused.wrapping_add(1),
            Some(6) => whole = whole.wrapping_add(1),
            Some(_) => partly = partly.wrapping_add(1),
        }
    }
    assert!(rt; refused > 0 && partly > 0 && whole > 0);
}

#[test]
fn refusals_have_numbers_and_names(rt: HostRuntime) {
    for (refusal, number, name) in [
        (Refusal::NoMemory, 1, "NoMemory"),
        (Refusal::LogFull, 4, "LogFull"),
        (Refusal::BadGeometry, 25, "BadGeometry"),
        (Refusal::TooManyClients, 29, "TooManyClients"),
        (Refusal::GuardFailed(2), 30, "GuardFailed"),
        (Refusal::TooManyGuards, 31, "TooManyGuards"),
    ] {
        assert!(rt;
            refusal.number() == number && refusal.name() == name,
            "{name}"
        );
    }
    let placed = Refusal::GuardFailed(2).place() == Some(2);
    assert!(rt; placed && Refusal::TooManyGuards.place().is_none());
}
