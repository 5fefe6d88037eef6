//! Merges that are divided at keys.

use crate::budget::Budget;
use crate::cases::{
    EIGHT, NEWER, OLDER, ROW_A, ROW_B, ROW_C, ROW_D, ROW_E, ROW_F, ROW_G, ROW_H, Row, input,
};
use crate::input::key;
use crate::threads::{Lent, is_same_image, large};
use lsm_codec::Key;
use lsm_device::Refusal;
use lsm_merge::{Built, Input, build, build_divided, build_here};
use std::alloc::{Allocator, Global};
use std::process::Abort;
use std::sync::Arc;
use std::thread::Threads;

fn keys_of<R: Abort, A: Allocator + Copy>(rt: &R, alloc: A, keys: &[&[u8]]) -> Vec<Key<A>, A> {
    let mut all = Vec::new(alloc);
    for bytes in keys {
        let made = key(alloc, bytes).expect(rt, "memory");
        all.push(made.expect(rt, "a key")).expect(rt, "memory");
    }
    all
}

fn shared<R: Abort, A: Allocator + Copy>(rt: &R, alloc: A, input: Input<A>) -> Arc<Input<A>, A> {
    Arc::new(alloc, input).ok().expect(rt, "memory")
}

/// The tables of a run of these rows, which are not divided.
fn whole<R: Abort + Threads + Sync>(rt: &R, alloc: Global, rows: &[Row]) -> Built {
    let input = shared(rt, alloc, input(rt, alloc, &[rows], &[1], true));
    build(rt, alloc, input, 1).expect(rt, "memory")
}

/// Whether a merge gave just the tables of these parts, one after the other.
fn has_parts<R: Abort + Threads + Sync>(
    rt: &R,
    alloc: Global,
    built: &Built,
    parts: &[&[Row]],
) -> bool {
    let mut images = built.images().iter();
    for rows in parts {
        let part = whole(rt, alloc, rows);
        for image in part.images().iter() {
            if !images
                .next()
                .is_some_and(|other| is_same_image(image, other))
            {
                return false;
            }
        }
    }
    images.next().is_none()
}

fn has_divisions(built: &Built, keys: &[&[u8]]) -> bool {
    let mut wanted = keys.iter();
    built.divisions().len() == keys.len()
        && built.divisions().iter().all(|key| wanted
            .next()
            .is_some_and(|bytes| key.as_slice() == *bytes))
}

/// Whether the eight keys, divided at these, have the tables of these parts, however they are merged.
fn divides<R: Abort + Threads + Sync>(
    rt: &R,
    alloc: Global,
    keys: &[&[u8]],
    parts: &[&[Row]],
) -> bool {
    let input = shared(rt, alloc, input(rt, alloc, &[&EIGHT], &[1], true));
    const COUNTS: &[u8] = &[1, 3, 8];
    for &count in COUNTS {
        let shared = input.clone().expect(rt, "memory");
        let divisions = keys_of(rt, alloc, keys);
        let built = build_divided(rt, alloc, shared, count, divisions).expect(rt, "memory");
        if !has_parts(rt, alloc, &built, parts) || !has_divisions(&built, keys) {
            return false;
        }
    }
    let built = build_here(alloc, input, keys_of(rt, alloc, keys)).expect(rt, "memory");
    has_parts(rt, alloc, &built, parts) && has_divisions(&built, keys)
}

#[test]
fn each_part_has_tables_of_its_own(rt: HostRuntime) {
    const CASES: &[(&[&[u8]], &[&[Row]])] = &[
        (
            &[b"d"],
            &[&[ROW_A, ROW_B, ROW_C], &[ROW_D, ROW_E, ROW_F, ROW_G, ROW_H]],
        ),
        (&[], &[&EIGHT]),
        // Before the first key, at it, at the last and behind it.
        (&[b"0"], &[&EIGHT]),
        (&[b"a"], &[&EIGHT]),
        (
            &[b"h"],
            &[&[ROW_A, ROW_B, ROW_C, ROW_D, ROW_E, ROW_F, ROW_G], &[ROW_H]],
        ),
        (&[b"i"], &[&EIGHT]),
        // A key that is none of them.
        (
            &[b"c0"],
            &[&[ROW_A, ROW_B, ROW_C], &[ROW_D, ROW_E, ROW_F, ROW_G, ROW_H]],
        ),
        // Two keys that ascend, are equal, and descend.
        (
            &[b"c", b"f"],
            &[
                &[ROW_A, ROW_B],
                &[ROW_C, ROW_D, ROW_E],
                &[ROW_F, ROW_G, ROW_H],
            ],
        ),
        (
            &[b"c", b"c"],
            &[&[ROW_A, ROW_B], &[ROW_C, ROW_D, ROW_E, ROW_F, ROW_G, ROW_H]],
        ),
        (
            &[b"f", b"c"],
            &[&[ROW_A, ROW_B, ROW_C, ROW_D, ROW_E], &[ROW_F, ROW_G, ROW_H]],
        ),
        (
            &[b"f", b"c", b"g"],
            &[
                &[ROW_A, ROW_B, ROW_C, ROW_D, ROW_E],
                &[ROW_F],
                &[ROW_G, ROW_H],
            ],
        ),
    ];
    for &(keys, parts) in CASES {
        assert!(rt; divides(&rt, rt.alloc(), keys, parts), "{keys:?}");
    }
}

/// Whether the tables have just so many data blocks each.
fn has_blocks(built: &Built, blocks: &[usize]) -> bool {
    let mut wanted = blocks.iter();
    built.images().len() == blocks.len()
        && built.images().iter().all(|image| {
            wanted
                .next()
                .is_some_and(|count| image.data_blocks() == *count)
        })
}

#[test]
fn a_part_has_as_many_tables_as_it_needs(rt: HostRuntime) {
    // Each of 70 entries takes a data block, and a table has 64 at most.
    let alloc = rt.alloc();
    const CASES: &[(&[&[u8]], &[usize])] = &[
        (&[], &[64, 6]),
        (&[&[3]], &[3, 64, 3]),
        (&[&[6]], &[6, 64]),
        (&[&[35]], &[35, 35]),
    ];
    for &(keys, blocks) in CASES {
        let input = shared(&rt, alloc, large(&rt, alloc));
        let built = build_here(alloc, input, keys_of(&rt, alloc, keys)).expect(&rt, "memory");
        assert!(rt; has_blocks(&built, blocks), "{keys:?}");
    }
}

/// Whether both merges have just one image, the same.
fn have_one_image<A: Allocator>(built: &Built<A>, other: &Built<A>) -> bool {
    let (Some(image), Some(other)) = (built.images().first(), other.images().first()) else {
        return false;
    };
    built.images().len() == 1 && is_same_image(image, other)
}

/// Whether a merge by the caller, divided at a key, is built while so many blocks are allowed. Else it is refused for want of memory.
fn is_built<'h, R: Abort>(
    rt: &R,
    heap: Lent<'h>,
    input: &Arc<Input<Lent<'h>>, Lent<'h>>,
    whole: &Built<Lent<'h>>,
    blocks: u64,
) -> bool {
    let input = input.clone().expect(rt, "memory");
    let keys = keys_of(rt, heap, &[b"a"]);
    heap.allow(blocks);
    let built = build_here(heap, input, keys);
    heap.allow(1_000_000);
    match built {
        Ok(built) => {
            assert!(rt; have_one_image(whole, &built));
            true
        }
        Err(refusal) => {
            assert!(rt; refusal == Refusal::NoMemory);
            false
        }
    }
}

/// For how many of up to 100 blocks it is built.
fn count_built<R: Abort + Threads + Sync>(rt: &R, heap: Lent<'_>) -> u32 {
    let runs: [&[Row]; 2] = [&NEWER, &OLDER];
    let input = shared(rt, heap, input(rt, heap, &runs, &[4, 9], true));
    let first = input.clone().expect(rt, "memory");
    let whole = build(rt, heap, first, 1).expect(rt, "memory");
    let mut count = 0u32;
    for blocks in 0..100 {
        if is_built(rt, heap, &input, &whole, blocks) {
            count = count.wrapping_add(1);
        }
    }
    count
}

#[test]
fn each_growth_of_a_merge_by_the_caller_is_refused_in_turn(rt: HostRuntime) {
    let heap = Budget::new(rt.alloc(), 1_000_000);
    let count = count_built(&rt, &heap);
    assert!(rt; count > 10 && count < 90, "{count}");
}

#[test]
fn a_divided_merge_has_one_to_eight_parts(rt: HostRuntime) {
    let alloc = rt.alloc();
    const PARTS: &[u8] = &[0, 9, 255];
    for &parts in PARTS {
        let input = shared(&rt, alloc, input(&rt, alloc, &[&EIGHT], &[1], true));
        let keys = keys_of(&rt, alloc, &[b"d"]);
        let refusal = build_divided(&rt, alloc, input, parts, keys).err();
        assert!(rt; refusal == Some(Refusal::BadLimit), "{parts}");
    }
}
