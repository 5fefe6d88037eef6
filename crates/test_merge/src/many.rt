//! A merge of many entries.

use crate::input::{entry, input_of};
use lsm_codec::Entry;
use lsm_merge::{Built, Input, build};
use lsm_table::{Entries, Image};
use std::alloc::Global;
use std::process::Abort;
use std::sync::Arc;
use std::thread::Threads;

/// How many entries each of the two runs has.
const HALF: u32 = 60_000;

/// The key of this number, which is greater where the number is.
fn key_of(number: u32) -> [u8; 3] {
    let (high, low) = (number / 256, number % 256);
    [(high / 256 % 256) as u8, (high % 256) as u8, low as u8]
}

/// The run of every second key, from this number on, in batch 1.
fn run_from<R: Abort>(rt: &R, alloc: Global, first: u32) -> Vec<Entry> {
    let mut run = Vec::new(alloc);
    let mut number = first;
    for _ in 0..HALF {
        let made = entry(alloc, &key_of(number), 1, Some(b"")).expect(rt, "memory");
        run.push(made.expect(rt, "an entry")).expect(rt, "memory");
        number = number.wrapping_add(2);
    }
    run
}

/// Two runs, whose keys stand in turn.
fn input<R: Abort>(rt: &R, alloc: Global) -> Input {
    let mut runs = Vec::new(alloc);
    runs.push(run_from(rt, alloc, 0)).expect(rt, "memory");
    runs.push(run_from(rt, alloc, 1)).expect(rt, "memory");
    let cuts = Vec::from_slice(alloc, &[1]).expect(rt, "memory");
    input_of(runs, cuts, true).expect(rt, "an input")
}

/// The number behind the last key of an image, where it has just the keys of the numbers from one on.
fn keys_of(image: &Image, first: u32) -> Option<u32> {
    let mut next = first;
    for at in 0..image.data_blocks() {
        for item in Entries::new(&image.block(1, at)) {
            if item.ok()?.key != key_of(next).as_slice() {
                return None;
            }
            next = next.wrapping_add(1);
        }
    }
    Some(next)
}

/// How many keys the tables have, where these are just the first ones.
fn count_keys(built: &Built) -> Option<u32> {
    let mut next = 0;
    for image in built.images().iter() {
        next = keys_of(image, next)?;
    }
    Some(next)
}

/// How many keys a merge in so many parts keeps, and in how many tables.
fn kept<R: Abort + Threads + Sync>(rt: &R, alloc: Global, parts: u8) -> (Option<u32>, usize) {
    let input = Arc::new(alloc, input(rt, alloc)).ok().expect(rt, "memory");
    let built = build(rt, alloc, input, parts).expect(rt, "memory");
    (count_keys(&built), built.images().len())
}

#[test]
fn a_merge_keeps_120000_keys(rt: HostRuntime) {
    // A table has 3,200 of them at most.
    const PARTS: &[u8] = &[1, 4];
    for &parts in PARTS {
        let kept = kept(&rt, rt.alloc(), parts);
        assert!(rt; kept == (Some(120_000), 38), "{parts}: {kept:?}");
    }
}
