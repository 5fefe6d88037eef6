//! Inputs of merges, made of any entries that can be one.

ghost use Rattle.std.specs.Prelude.{◌≡◌, IsTrue};
ghost use Rattle.lsm_codec.specs.Versions.{entry_order, AreOrdered};
ghost use Rattle.lsm_merge.specs.Inputs.{AreRuns, IsCuts, items_of, is_below_first, is_ascending};
ghost use Rattle.lsm_mem.proofs.OrderTests.{is_before, is_in_order};

use lsm_codec::{Entry, Key, VersionRef};
use lsm_merge::Input;
use std::alloc::{AllocError, Allocator};
use std::cmp::Ordering;

fn compare<A: Allocator>(entry: &Entry<A>, other: &Entry<A>) -> Ordering
    ensures { result ≡ entry_order entry.now other.now }
{
    match entry.key().cmp(other.key()) {
        Ordering::Equal => other.number().cmp(&entry.number()),
        unequal => unequal,
    }
}

fn is_before<A: Allocator>(entry: &Entry<A>, later: &[Entry<A>]) -> bool
    ensures { result ≡ is_before entry.now later.now }
{
    match later.first() {
        Some(next) => compare(entry, next).is_lt(),
        None => true,
    }
}

/// Whether the entries are in order.
fn is_in_order<A: Allocator>(entries: &[Entry<A>]) -> bool
    ensures { result ≡ is_in_order entries.now }
{
    let mut rest = entries;
    while let Some((first, others)) = rest.split_first() {
        if !is_before(first, others) {
            return false;
        }
        rest = others;
    }
    true
}

fn is_run<A: Allocator>(entries: &[Entry<A>]) -> bool
    ensures { IsTrue result → AreOrdered entries.now }
{
    is_in_order(entries)
}

/// Whether each of them is a run.
fn are_runs<A: Allocator>(runs: &[Vec<Entry<A>, A>]) -> bool
    ensures { IsTrue result → AreRuns (items_of runs.now) }
{
    let Some((run, others)) = runs.split_first() else {
        return true;
    };
    is_run(run) && are_runs(others)
}

fn is_below_first(count: u64, later: &[u64]) -> bool
    ensures { result ≡ is_below_first count later.now }
{
    match later.first() {
        Some(next) => count < *next,
        None => true,
    }
}

fn is_ascending(counts: &[u64]) -> bool
    ensures { result ≡ is_ascending counts.now }
{
    let mut rest = counts;
    while let Some((first, others)) = rest.split_first() {
        if !is_below_first(*first, others) {
            return false;
        }
        rest = others;
    }
    true
}

fn are_cuts(counts: &[u64]) -> bool
    ensures { IsTrue result → IsCuts counts.now }
{
    1 <= counts.len() && counts.len() <= 33 && is_ascending(counts)
}

/// An input, or none where a run is not in order or there are not 1 to 33 ascending cuts.
pub fn input_of<A: Allocator>(
    runs: Vec<Vec<Entry<A>, A>, A>,
    cuts: Vec<u64, A>,
    bottom: bool,
) -> Option<Input<A>> {
    if are_runs(&runs) && are_cuts(&cuts) {
        return Some(Input::new(runs, cuts, bottom));
    }
    None
}

/// An entry, or none where it is outside the limits.
pub fn entry<A: Allocator + Clone>(
    alloc: A,
    key: &[u8],
    number: u64,
    value: Option<&[u8]>,
) -> Result<Option<Entry<A>>, AllocError> {
    let is_fitting = (1..=255).contains(&key.len())
        && (1..=1 << 63).contains(&number)
        && value.is_none_or(|value| value.len() <= 2_048);
    if !is_fitting {
        return Ok(None);
    }
    Ok(Some(Entry::from_ref(alloc, VersionRef { key, number, value })?))
}

/// A key, or none where it is empty or has more than 255 bytes.
pub fn key<A: Allocator>(alloc: A, bytes: &[u8]) -> Result<Option<Key<A>>, AllocError> {
    if !(1..=255).contains(&bytes.len()) {
        return Ok(None);
    }
    Ok(Some(Key::from_slice(alloc, bytes)?))
}
