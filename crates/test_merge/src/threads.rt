//! Merges on threads.

use crate::budget::Budget;
use crate::cases::{EIGHT, NEWER, OLDER, Row, input};
use crate::input::{entry, input_of};
use lsm_codec::Entry;
use lsm_device::Refusal;
use lsm_merge::{Built, Gate, Input, build, build_gated};
use lsm_table::Image;
use std::alloc::{Allocator, Global};
use std::process::Abort;
use std::sync::Arc;
use std::sync::atomic::{AtomicU64, Ordering};
use std::thread::Threads;

/// Puts of 2,048 bytes under 70 keys of one byte.
fn large_run<R: Abort, A: Allocator + Copy>(rt: &R, alloc: A, number: u64) -> Vec<Entry<A>, A> {
    let mut run = Vec::new(alloc);
    for key in 0..70u8 {
        let made = entry(alloc, &[key], number, Some(&[key; 2_048])).expect(rt, "memory");
        run.push(made.expect(rt, "an entry")).expect(rt, "memory");
    }
    run
}

/// Two such runs, of which two tables are kept.
pub(crate) fn large<R: Abort, A: Allocator + Copy>(rt: &R, alloc: A) -> Input<A> {
    let mut runs = Vec::new(alloc);
    runs.push(large_run(rt, alloc, 2)).expect(rt, "memory");
    runs.push(large_run(rt, alloc, 1)).expect(rt, "memory");
    let cuts = Vec::from_slice(alloc, &[2]).expect(rt, "memory");
    input_of(runs, cuts, false).expect(rt, "an input")
}

/// Whether both images have the same blocks under number 1.
pub(crate) fn is_same_image<A: Allocator>(image: &Image<A>, other: &Image<A>) -> bool {
    let blocks = image.extent_blocks();
    if other.extent_blocks() != blocks {
        return false;
    }
    for at in 0..blocks {
        if image.block(1, at) != other.block(1, at) {
            return false;
        }
    }
    true
}

/// Whether both merges gave the same images, this many.
fn have_same_images<A: Allocator>(built: &Built<A>, other: &Built<A>, count: usize) -> bool {
    let mut others = other.images().iter();
    built.images().len() == count
        && other.images().len() == count
        && built.images().iter().all(|image| {
            others
                .next()
                .is_some_and(|other| is_same_image(image, other))
        })
}

/// Whether 1 to 8 parts give the same images of an input, this many.
fn gives_the_same<R: Abort + Threads + Sync>(
    rt: &R,
    alloc: Global,
    input: Input,
    count: usize,
) -> bool {
    let input = Arc::new(alloc, input).ok().expect(rt, "memory");
    let whole = build(rt, alloc, input.clone().expect(rt, "memory"), 1).expect(rt, "memory");
    for parts in 2..=8 {
        let other = build(rt, alloc, input.clone().expect(rt, "memory"), parts);
        if !have_same_images(&whole, &other.expect(rt, "memory"), count) {
            return false;
        }
    }
    whole.input().is_same(&input)
}

#[test]
fn any_number_of_parts_gives_the_same_bytes(rt: HostRuntime) {
    let alloc = rt.alloc();
    let runs: [&[Row]; 2] = [&NEWER, &OLDER];
    const CASES: &[(&[u64], usize)] = &[(&[4, 9], 1), (&[9], 0)];
    for &(cuts, count) in CASES {
        assert!(rt; gives_the_same(&rt, alloc, input(&rt, alloc, &runs, cuts, true), count));
    }
    assert!(rt; gives_the_same(&rt, alloc, large(&rt, alloc), 2));
}

/// An allocator that each thread may use, which may refuse.
pub(crate) type Lent<'h> = &'h Budget<Global>;

/// Lets a part on once each of three was seen to come, or after a thousand million turns, and has memory given from then on.
#[derive(Drop)]
struct Meeting<'h> {
    heap: Lent<'h>,
    /// How many of the first, of the second and of the third have come, by a byte for each.
    come: AtomicU64,
    met: AtomicU64,
}

/// One of each.
const ALL: u64 = 0x01_01_01;

impl Gate for Meeting<'_> {
    fn enter(&self, range: u32) {
        let one = match range {
            0 => 0x01_00_00,
            1 => 0x01_00,
            2 => 1,
            _ => 0x01_00_00_00,
        };
        self.come.fetch_add(one, Ordering::SeqCst);
        for _ in 0..1_000_000_000 {
            if self.come.load(Ordering::SeqCst) == ALL {
                self.met.fetch_add(1, Ordering::SeqCst);
                self.heap.allow(1_000_000);
                return;
            }
        }
    }
}

/// Whether three parts are merged at the same time, and each is let on before it merges: a part of 46 entries takes a block of
/// memory for each, and until all have come 20 are given.
fn meets<R: Abort + Threads + Sync>(rt: &R, heap: Lent<'_>) -> bool {
    let input = Arc::new(heap, large(rt, heap)).ok().expect(rt, "memory");
    let gate = Meeting {
        heap,
        come: AtomicU64::new(0),
        met: AtomicU64::new(0),
    };
    heap.allow(20);
    let built = build_gated(rt, heap, input, 3, &gate);
    heap.allow(1_000_000);
    let met = gate.met.load(Ordering::SeqCst) == 3 && gate.come.load(Ordering::SeqCst) == ALL;
    met && built.expect(rt, "memory").images().len() == 2
}

#[test]
fn parts_are_merged_at_the_same_time(rt: HostRuntime) {
    let heap = Budget::new(rt.alloc(), 1_000_000);
    assert!(rt; meets(&rt, &heap));
}

/// Whether so many threads ask for memory at the same time while a merge is built in so many parts.
fn gathers<R: Abort + Threads + Sync>(rt: &R, heap: Lent<'_>, parts: u8) -> bool {
    let input = Arc::new(heap, large(rt, heap)).ok().expect(rt, "memory");
    heap.gather(u64::from(parts));
    let built = build(rt, heap, input, parts);
    heap.has_gathered() && built.expect(rt, "memory").images().len() == 2
}

#[test]
fn a_merge_is_built_by_a_thread_for_each_part(rt: HostRuntime) {
    let heap = Budget::new(rt.alloc(), 1_000_000);
    const PARTS: &[u8] = &[2, 3, 8];
    for &parts in PARTS {
        assert!(rt; gathers(&rt, &heap, parts), "{parts}");
    }
}

/// Whether a merge in so many parts for which so many blocks are allowed gives the images of the whole. Else it is refused for
/// want of memory.
fn is_built<'h, R: Abort + Threads + Sync>(
    rt: &R,
    heap: Lent<'h>,
    input: &Arc<Input<Lent<'h>>, Lent<'h>>,
    whole: &Built<Lent<'h>>,
    (parts, blocks): (u8, u64),
) -> bool {
    let input = input.clone().expect(rt, "memory");
    heap.allow(blocks);
    let built = build(rt, heap, input, parts);
    heap.allow(1_000_000);
    match built {
        Ok(built) => {
            assert!(rt; have_same_images(whole, &built, 1));
            true
        }
        Err(refusal) => {
            assert!(rt; refusal == Refusal::NoMemory);
            false
        }
    }
}

/// How many of 150 merges in so many parts, each with one block more, are built.
fn count_built<R: Abort + Threads + Sync>(rt: &R, heap: Lent<'_>, parts: u8) -> u32 {
    let runs = input(rt, heap, &[&EIGHT[..4], &EIGHT[4..]], &[1], true);
    let input = Arc::new(heap, runs).ok().expect(rt, "memory");
    let first = input.clone().expect(rt, "memory");
    let whole = build(rt, heap, first, 1).expect(rt, "memory");
    let mut count = 0u32;
    for blocks in 0..150 {
        if is_built(rt, heap, &input, &whole, (parts, blocks)) {
            count = count.wrapping_add(1);
        }
    }
    count
}

#[test]
fn each_growth_of_a_merge_on_threads_is_refused_in_turn(rt: HostRuntime) {
    let heap = Budget::new(rt.alloc(), 1_000_000);
    const PARTS: &[u8] = &[1, 2, 4];
    for &parts in PARTS {
        let count = count_built(&rt, &heap, parts);
        assert!(rt; count > 10 && count < 130, "{count}");
    }
}
