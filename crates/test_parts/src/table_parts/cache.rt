//! Which blocks are read, with ample memory and with little, and where a read fails.

use crate::table_parts::blocks::{device, gives, reads_for};
use linked_list_allocator::LocalHeap;
use lsm_cache::Cache;
use lsm_device::MemDevice;
use std::alloc::{Allocator, Global};
use std::process::Abort;

/// Whether a cache of so many blocks gives each block by so many reads, and is refused no memory.
fn is_exact<R: Abort>(rt: &R, alloc: Global, capacity: u16, asks: &[(u8, u64)]) -> bool {
    let mut device = device(rt, alloc);
    let capacity = capacity.max(1).min(4_096);
    let mut cache = Cache::new(alloc, capacity).expect(rt, "memory");
    gives(&mut cache, &mut device, asks) && cache.refusals() == 0
}

#[test]
fn the_blocks_that_were_asked_for_last_are_kept(rt: HostRuntime) {
    for (capacity, asks) in [
        (1, [(1, 8), (1, 0), (2, 8), (1, 8), (1, 0)].as_slice()),
        (2, &[(1, 8), (2, 8), (3, 8), (1, 8)]),
        (2, &[(1, 8), (2, 8), (1, 0), (3, 8), (2, 8)]),
        (3, &[(1, 8), (2, 8), (3, 8), (1, 0)]),
        (4_096, &[(1, 8), (2, 8), (3, 8), (1, 0)]),
        // The last block that a table may have is kept as any other is.
        (2, &[(63, 8), (63, 0), (62, 8), (63, 0), (3, 8), (63, 0)]),
    ] {
        assert!(rt; is_exact(&rt, rt.alloc(), capacity, asks), "{capacity}");
    }
}

/// Whether the read with this number, counted from 0, ends the call and leaves a full list as it is.
fn ends_the_call<R: Abort>(rt: &R, alloc: Global, number: u8) -> bool {
    let mut device = device(rt, alloc);
    let mut cache = Cache::new(alloc, 2).expect(rt, "memory");
    let is_full = gives(&mut cache, &mut device, &[(1, 8), (2, 8)]);
    device.fail(number as u64, number % 2 == 0);
    let is_refused = reads_for(&mut cache, &mut device, 3).is_none();
    let has_read = device.reads() == 17 + number as u64;
    let asks = [(1, 0), (2, 0), (3, 8), (2, 0), (1, 8)];
    is_full && is_refused && has_read && gives(&mut cache, &mut device, &asks)
}

#[test]
fn each_read_faults_in_turn(rt: HostRuntime) {
    for number in 0..8 {
        assert!(rt; ends_the_call(&rt, rt.alloc(), number), "{number}");
    }
}

/// Whether six blocks are given, each by eight reads or out of the cache.
fn are_given<A: Allocator + Clone>(cache: &mut Cache<A>, device: &mut MemDevice) -> bool {
    const ASKS: &[u8] = &[1, 2, 1, 3, 2, 2];
    for &block in ASKS {
        if !matches!(reads_for(cache, device, block), Some(0 | 8)) {
            return false;
        }
    }
    true
}

/// How many blocks are not kept of six that are asked for, where a heap of so many bytes has memory for the cache.
fn refusals_in<R: Abort>(rt: &R, alloc: Global, bytes: usize) -> Option<u64> {
    let mut device = device(rt, alloc);
    let heap = LocalHeap::new(alloc, bytes).expect(rt, "a heap");
    let mut cache = Cache::new(&heap, 2).ok()?;
    assert!(rt; are_given(&mut cache, &mut device));
    Some(cache.refusals())
}

#[test]
fn each_growth_is_refused_in_turn(rt: HostRuntime) {
    let mut nothing = 0u32;
    let mut some = 0u32;
    let mut all = 0u32;
    // Each block is given, with memory for more of them in larger heaps.
    for step in 1..40usize {
        match refusals_in(&rt, rt.alloc(), step * 512) {
            None if some == 0 && all == 0 => nothing = nothing.wrapping_add(1),
            Some(0) => all = all.wrapping_add(1),
            Some(_) if all == 0 => some = some.wrapping_add(1),
            _ => (),
        }
    }
    assert!(rt; nothing.wrapping_add(some).wrapping_add(all) == 39);
    assert!(rt;
        nothing > 0 && some > 10 && all > 5,
        "{nothing} {some} {all}"
    );
}

/// Whether a cache with memory for one block keeps that one, and gives the others too.
fn keeps_one<R: Abort>(rt: &R, alloc: Global) -> bool {
    let mut device = device(rt, alloc);
    let heap = LocalHeap::new(alloc, 8_000).expect(rt, "a heap");
    let mut cache = Cache::new(&heap, 3).expect(rt, "memory");
    let asks = [(1, 8), (2, 8), (1, 0), (2, 8), (3, 8), (1, 0)];
    gives(&mut cache, &mut device, &asks) && cache.refusals() == 3
}

#[test]
fn a_block_without_memory_is_given(rt: HostRuntime) {
    assert!(rt; keeps_one(&rt, rt.alloc()));
}
