//! The layer of merges: how many entries a second one takes, in one part and in several.

use crate::clock::{now, since};
use crate::told;
use anyhow::Result;
use lsm_codec::Entry;
use lsm_device::Refusal;
use lsm_merge::{Input, build};
use std::alloc::Global;
use std::rt::Clock;
use std::sync::Arc;
use std::thread::Threads;
use test_merge::input::{entry, input_of};

/// How many entries a run has.
const ENTRIES: u32 = 50_000;

/// A run of puts of 100 bytes: every second key, from the first or the second on. The keys of greater numbers are greater.
fn run_of(alloc: Global, number: u64, first: u32) -> Result<Vec<Entry>, Refusal> {
    let mut run = Vec::new(alloc);
    for n in 0..ENTRIES {
        let [a, b, c, d] = n.wrapping_mul(2).wrapping_add(first).to_be_bytes();
        let key = [b'k', b'e', b'y', b':', a, b, c, d];
        if let Some(entry) = entry(alloc, &key, number, Some(&[7; 100]))? {
            run.push(entry)?;
        }
    }
    Ok(run)
}

/// Four runs, in two of which every second key stands.
fn input(alloc: Global) -> Result<Input, Refusal> {
    let mut runs = Vec::new(alloc);
    const RUNS: &[(u64, u32)] = &[(4, 0), (3, 1), (2, 0), (1, 1)];
    for &(number, first) in RUNS {
        runs.push(run_of(alloc, number, first)?)?;
    }
    let cuts = Vec::from_slice(alloc, &[4])?;
    input_of(runs, cuts, true).ok_or(Refusal::BadTable)
}

/// The number of images of a merge in `parts` parts, and the nanoseconds.
fn merged<R: Threads + Clock + Sync>(
    rt: &R,
    alloc: Global,
    input: &Arc<Input, Global>,
    parts: u8,
) -> Result<(usize, u64), Refusal> {
    let start = now(rt);
    let built = build(rt, alloc, input.clone()?, parts)?;
    Ok((built.images().len(), since(rt, start)))
}

/// Merges in one part, in two and in four, and prints how fast.
pub(crate) fn time_merges<R: Threads + Clock + Print + Eprint + AllocGlobal + Sync>(
    rt: &R,
) -> Result<()> {
    let input = Arc::new(rt.alloc(), input(rt.alloc()).map_err(told)?)?;
    const PARTS: &[u8] = &[1, 2, 4];
    for &parts in PARTS {
        let (images, nanos) = merged(rt, rt.alloc(), &input, parts).map_err(told)?;
        let rate = u64::from(ENTRIES).wrapping_mul(4_000_000_000) / nanos.max(1);
        eprintln!(rt; "parts {parts}: {rate} entries a second, {images} images")?;
    }
    println!(rt; "merges: ok")?;
    Ok(())
}
