//! Tests of images, and of devices that begin on them.

use crate::device::sectors::{MASKS, are, passing_writes, put, three_pend};
use linked_list_allocator::LocalHeap;
use lsm_device::Device;
use lsm_image::{Image, ImageDevice};
use std::alloc::{AllocError, Allocator, Global};
use std::process::Abort;

/// Three sectors.
static ZEROS: [[u8; 512]; 3] = [[0; 512]; 3];

/// A device that begins on them, with a fuse or none.
fn begun<A: Allocator + Copy>(
    alloc: A,
    fuse: Option<u64>,
) -> Result<ImageDevice<'static, A>, AllocError> {
    Image::of(alloc, &ZEROS).device(alloc, fuse)
}

/// The same with ample memory.
fn device<R: Abort>(rt: &R, alloc: Global, fuse: Option<u64>) -> ImageDevice<'static> {
    begun(alloc, fuse).expect(rt, "memory")
}

/// The device that begins on what a crash by the mask leaves of one.
fn after<'a, R: Abort>(
    rt: &R,
    alloc: Global,
    device: &ImageDevice<'a>,
    mask: &[bool],
) -> ImageDevice<'a> {
    let left = device.left(alloc, mask).expect(rt, "memory");
    left.device(alloc, None).expect(rt, "memory")
}

/// Whether a crash by the mask leaves such sectors, where one that kept nothing was looked at before.
fn leaves<R: Abort>(rt: &R, alloc: Global, mask: &[bool], bytes: &[u8; 3]) -> bool {
    let mut device = device(rt, alloc, None);
    let pends = three_pend(&mut device).is_ok();
    drop(after(rt, alloc, &device, &[]));
    pends && are(&mut after(rt, alloc, &device, mask), bytes)
}

#[test]
fn each_mask_leaves_what_it_leaves_of_a_device_in_memory(rt: HostRuntime) {
    for &(mask, bytes) in MASKS {
        assert!(rt; leaves(&rt, rt.alloc(), mask, &bytes));
    }
}

/// Whether a write to sector 2 that is synced, and then one to sector 1, lie over what was left of a device.
fn writes_over<D: Device>(device: &mut D) -> bool {
    are(device, &[2, 1, 3])
        && put(device, 2, 5).is_ok()
        && device.sync().is_ok()
        && put(device, 1, 6).is_ok()
        && are(device, &[2, 6, 5])
}

/// Whether of three devices each begins on what another left, which stays as it is.
fn are_apart<R: Abort>(rt: &R, alloc: Global) -> bool {
    let mut first = device(rt, alloc, None);
    let pends = three_pend(&mut first).is_ok();
    let mut second = after(rt, alloc, &first, &[true, true]);
    let anew = second.pending() == 0;
    let written = writes_over(&mut second) && second.pending() == 1;
    let left = are(&mut after(rt, alloc, &second, &[]), &[2, 1, 5]);
    pends && anew && written && left && first.pending() == 3 && are(&mut first, &[4, 1, 3])
}

#[test]
fn a_device_begins_on_what_another_left(rt: HostRuntime) {
    assert!(rt; are_apart(&rt, rt.alloc()));
}

/// Whether with a fuse of two a write and a sync answer Ok, and behind them a write faults and pends, and a sync faults.
fn burns<R: Abort>(rt: &R, alloc: Global) -> bool {
    let mut device = device(rt, alloc, Some(2));
    let passed = put(&mut device, 0, 1).is_ok() && device.sync().is_ok();
    let faulted = put(&mut device, 1, 2).is_err() && device.sync().is_err();
    let reads = device.pending() == 1 && are(&mut device, &[1, 2, 0]);
    let calls = device.calls();
    passed && faulted && reads && calls.passed == 2 && calls.faults == 2
}

#[test]
fn a_fuse_burns(rt: HostRuntime) {
    assert!(rt; burns(&rt, rt.alloc()));
}

/// Whether writes on a heap with little memory answer Ok at first, and the others fault and change nothing.
fn fills_memory<R: Abort>(rt: &R, alloc: Global) -> bool {
    let heap = LocalHeap::new(alloc, 8_192).expect(rt, "a heap");
    let mut device = begun(&heap, None).expect(rt, "a device");
    let passed = passing_writes(&mut device, 32);
    0 < passed && passed < 32 && are(&mut device, &[passed, 0, 0])
}

#[test]
fn a_write_that_finds_no_memory_is_a_fault(rt: HostRuntime) {
    assert!(rt; fills_memory(&rt, rt.alloc()));
}
