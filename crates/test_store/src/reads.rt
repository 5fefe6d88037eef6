//! How many sectors are read for a look-up, a page, and a guard. A block has eight.

use crate::subject::{CACHE, Subject, begun, begun_with};
use lsm_device::Refusal;
use lsm_store::At;
use std::alloc::Global;
use std::process::Abort;

/// A table of three data blocks, each of one key. Between two keys there is one that it lacks.
fn with_three_blocks<R: Abort>(rt: &R, alloc: Global, cache: u32) -> Subject {
    let mut store = begun_with(rt, alloc, 128, cache);
    for key in [0x61, 0x63, 0x65_u8] {
        store.put(rt, &[key], &[key; 2_048]).expect(rt, "a batch");
    }
    store.rotate(rt);
    store.settle();
    store
}

/// How many sectors are read for the values of these keys in turn, with a cache of so many blocks.
fn reads_of<R: Abort>(rt: &R, alloc: Global, cache: u32, keys: &[u8]) -> u64 {
    let mut store = with_three_blocks(rt, alloc, cache);
    let mut all = 0_u64;
    for key in keys {
        let (found, reads) = store.look_up(rt, At::Now, *key);
        assert!(rt; found == Some(*key));
        all = all.wrapping_add(reads);
    }
    all
}

#[test]
fn a_block_is_read_unless_the_cache_has_it(rt: HostRuntime) {
    const TURN: &[u8] = &[0x61, 0x63, 0x65, 0x61];
    const CASES: &[(u32, &[u8], u64)] = &[
        (2, TURN, 32),
        (3, TURN, 24),
        (4_096, TURN, 24),
        (2, &[0x65], 8),
    ];
    for &(cache, keys, wanted) in CASES {
        let reads = reads_of(&rt, rt.alloc(), cache, keys);
        assert!(rt; reads == wanted, "{cache}: {reads}");
    }
}

/// A table of 64 data blocks, each of one key: those below 64.
fn with_64_blocks<R: Abort>(rt: &R, alloc: Global) -> Subject {
    let mut store = begun_with(rt, alloc, 512, CACHE);
    for key in 0..64_u8 {
        store.put(rt, &[key], &[key; 2_048]).expect(rt, "a batch");
    }
    store.rotate(rt);
    store.settle();
    store
}

/// Whether each of these keys has its value, and so many sectors are read for it.
fn are_read<R: Abort>(rt: &R, store: &mut Subject, reads: u64) -> bool {
    for key in 0..64_u8 {
        if store.look_up(rt, At::Now, key) != (Some(key), reads) {
            return false;
        }
    }
    true
}

#[test]
fn each_of_64_blocks_is_read_once(rt: HostRuntime) {
    let mut store = with_64_blocks(&rt, rt.alloc());
    assert!(rt; store.shape() == [1, 0, 0, 0, 0]);
    assert!(rt; are_read(&rt, &mut store, 8) && are_read(&rt, &mut store, 0));
}

/// Where a page begins, how many rows it may have, how many it has, and how many sectors are read for it. The key of the row that it
/// leaves out may stand in the next block.
const PAGES: &[(&[u8], u64, (usize, u64))] = &[
    (&[], 64, (3, 24)),
    (&[0x62], 64, (2, 16)),
    (&[0x61], 1, (1, 16)),
    (&[0x65], 1, (1, 8)),
    (&[0x65, 0x00], 64, (0, 0)),
];

#[test]
fn a_page_reads_each_block_once(rt: HostRuntime) {
    for &(from, limit, wanted) in PAGES {
        let page = with_three_blocks(&rt, rt.alloc(), 1).page(&rt, from, limit);
        assert!(rt; page == wanted, "{from:?}: {page:?}");
    }
}

/// No sector is read for a key outside the table's range, nor for one that its filter denies.
const DENIED: [(u8, Option<u8>); 4] = [(0x60, None), (0x66, None), (0x62, None), (0x64, None)];

/// Nor for one that memory has, also where that is a delete.
const CHANGED: [(u8, Option<u8>); 2] = [(0x63, Some(0x33)), (0x65, None)];

/// Whether these keys have these values, and no sector is read for them.
fn are_spared<R: Abort>(rt: &R, store: &mut Subject, keys: &[(u8, Option<u8>)]) -> bool {
    for (key, value) in keys {
        if store.look_up(rt, At::Now, *key) != (*value, 0) {
            return false;
        }
    }
    true
}

#[test]
fn memory_and_filters_spare_reads(rt: HostRuntime) {
    let mut store = with_three_blocks(&rt, rt.alloc(), CACHE);
    let before = store.snapshot(&rt);
    let denied = are_spared(&rt, &mut store, &DENIED);
    store.put(&rt, &[0x63], &[0x33]).expect(&rt, "a batch");
    store.delete(&rt, &[0x65]).expect(&rt, "a batch");
    let present = are_spared(&rt, &mut store, &CHANGED);
    store.rotate(&rt);
    assert!(rt; denied && present && are_spared(&rt, &mut store, &CHANGED));
    // A snapshot from before asks the table.
    assert!(rt; store.look_up(&rt, before, 0x63) == (Some(0x63), 8));
}

/// A table of one block, with the keys 61 and 63.
fn with_a_table<R: Abort>(rt: &R, alloc: Global) -> Subject {
    let mut store = begun(rt, alloc);
    for key in [0x61, 0x63_u8] {
        store.put(rt, &[key], &[key ^ 0x50]).expect(rt, "a batch");
    }
    store.rotate(rt);
    store.settle();
    store
}

/// A put under a guard: the key, the value that it has to have, the new one, the answer, and how many sectors are read.
type Guarded = (u8, Option<u8>, u8, Result<u64, Refusal>, u64);

/// A block is read once, for a guard as for a look-up, and none of a key that the filter denies, or that memory has.
const GUARDED: &[Guarded] = &[
    (0x62, Some(0x32), 0x33, Err(Refusal::GuardFailed(0)), 0),
    (0x62, None, 0x32, Ok(3), 0),
    (0x61, Some(0x33), 0x34, Err(Refusal::GuardFailed(0)), 8),
    (0x61, None, 0x34, Err(Refusal::GuardFailed(0)), 0),
    (0x61, Some(0x31), 0x34, Ok(4), 0),
    (0x61, Some(0x34), 0x35, Ok(5), 0),
];

#[test]
fn a_guard_reads_as_a_look_up_does(rt: HostRuntime) {
    let mut store = with_a_table(&rt, rt.alloc());
    for &(key, wanted, value, answer, reads) in GUARDED {
        let found = store.put_if(&rt, key, wanted, value);
        assert!(rt; found == (answer, reads), "{key}: {found:?}");
    }
    assert!(rt; store.look_up(&rt, At::Now, 0x63) == (Some(0x33), 0));
}

/// The call of the device that fails, the value of 61 that a guard asks for, the one that is put, and the answer. A read of a guard
/// that fails changes nothing, the last of its block neither; a write that fails stops the store.
const FAILING: &[(u64, u8, u8, Result<u64, Refusal>)] = &[
    (0, 0x31, 0x34, Err(Refusal::Io)),
    (7, 0x31, 0x34, Err(Refusal::Io)),
    (u64::MAX, 0x31, 0x34, Ok(3)),
    (0, 0x34, 0x35, Err(Refusal::Io)),
    (u64::MAX, 0x34, 0x35, Err(Refusal::Stopped)),
];

#[test]
fn only_a_write_that_fails_stops_the_store(rt: HostRuntime) {
    let mut store = with_a_table(&rt, rt.alloc());
    for &(call, wanted, value, answer) in FAILING {
        store.fail(call, false);
        let (found, _) = store.put_if(&rt, 0x61, Some(wanted), value);
        assert!(rt; found == answer, "{call}: {found:?}");
    }
}
