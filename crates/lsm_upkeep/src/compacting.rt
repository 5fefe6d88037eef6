//! A store is compacted: its tables are merged into lower levels.

ghost use Rattle.std.specs.Prelude.{◌≡◌};
ghost use Rattle.lsm_store.specs.Backing.{machine_of};
ghost use Rattle.lsm_upkeep.specs.Compacting.{are_in_last, is_compacted, is_nil};
ghost use Rattle.lsm_upkeep.specs.Flushing.{FlushesFirst};
ghost use Rattle.lsm_upkeep.specs.Steps.{IsUpkept};

use crate::finishing::finish_step;
use crate::flushing::flush;
use crate::next_compaction::{NextCompaction, next_compaction};
use crate::pushing::join_all;
use crate::stepping::{Went, step_down, step_to_the_last};
use lsm_device::Device;
use lsm_levels::{Choice, Levels, Run};
use lsm_policy::Policy;
use lsm_progress::{Milestone, Progress, Silent};
use lsm_room::Step;
use lsm_store::Store;
use std::alloc::{Allocator, Global};

/// The most jobs that are finished at once.
pub(crate) const MOST_JOBS: u32 = 4_096;

/// The most steps that bring all tables into the last level: each of 1,024 tables goes down four levels, and may be cut before.
pub(crate) const MOST_STEPS: u32 = 16_384;

/// Finishes jobs, one after another, until there is no more to do, one can't be finished, or 4,096 are: a flush where one
/// waits, and else the merge that the policy chooses, or where that isn't sure to find room a step down. One that can't be finished is
/// given up.
///
/// Errors are skipped: the store goes on as it then is, and its map is the same.
pub fn compact<D: Device>(alloc: Global, store: &mut Store<D>, policy: &Policy)
    ensures upkept { IsUpkept store.old store.new }
    ensures flushes { FlushesFirst store.old store.new }
{
    for _ in 0..MOST_JOBS {
        if !flush(alloc, store) {
            return;
        }
        if !finish_wanted(alloc, store, policy) {
            return;
        }
    }
}

// Finishes what the policy wants next. Returns whether it did.
fn finish_wanted<D: Device>(alloc: Global, store: &mut Store<D>, policy: &Policy) -> bool
    ensures { IsUpkept store.old store.new }
{
    match next_compaction(policy, store) {
        NextCompaction::Nothing => false,
        NextCompaction::Step => matches!(step_down(alloc, store), Went::On),
        NextCompaction::Merge(choice) => finish_merge(alloc, store, choice),
    }
}

fn finish_merge<D: Device>(alloc: Global, store: &mut Store<D>, choice: Choice) -> bool
    ensures { IsUpkept store.old store.new }
{
    match Step::whole(&alloc, choice) {
        Ok(step) => finish_step(store, step),
        Err(_) => false,
    }
}

/// Brings all tables into the last level, where deletes have nothing more to delete and small tables are joined, by steps of which
/// each is sure to find room. Returns whether all tables are in the last level then. What is in memory stays there.
pub fn compact_all<D: Device>(alloc: Global, store: &mut Store<D>) -> bool
    ensures upkept { IsUpkept store.old store.new }
    ensures flushes { FlushesFirst store.old store.new }
    ensures compacted { result ≡ is_compacted (machine_of store.new) }
{
    compact_all_showing(alloc, store, &mut Silent)
}

/// Does as [`compact_all`], and tells `progress` of each step that it has finished.
pub fn compact_all_showing<D: Device, P: Progress>(
    alloc: Global,
    store: &mut Store<D>,
    progress: &mut P,
) -> bool
    ensures upkept { IsUpkept store.old store.new }
    ensures flushes { FlushesFirst store.old store.new }
    ensures compacted { result ≡ is_compacted (machine_of store.new) }
{
    take_down(alloc, store, progress);
    join_all(alloc, store);
    is_compacted(store)
}

fn take_down<D: Device, P: Progress>(alloc: Global, store: &mut Store<D>, progress: &mut P)
    ensures upkept { IsUpkept store.old store.new }
    ensures flushes { FlushesFirst store.old store.new }
{
    for jobs in 0..MOST_STEPS {
        progress.reached(Milestone::Compacted { jobs });
        if !flush(alloc, store) {
            return;
        }
        match step_to_the_last(alloc, store) {
            Went::On => {}
            Went::ToTheEnd | Went::Nowhere => return,
        }
    }
}

// Whether the store runs, no flush waits, and all tables are in the last level.
fn is_compacted<D: Device>(store: &Store<D>) -> bool
    ensures { result ≡ is_compacted (machine_of store.now) }
{
    match store.stat() {
        Ok(stat) => !stat.waiting && are_in_last(store.levels()),
        Err(_) => false,
    }
}

/// Whether no level but the last has a table.
pub(crate) fn are_in_last<A: Allocator>(levels: &Levels<A>) -> bool
    ensures { result ≡ are_in_last levels.now }
{
    let [level_1, level_2, level_3, _] = levels.deeper() else {
        return false;
    };
    levels.runs().is_empty() && (is_empty(level_1) && (is_empty(level_2) && is_empty(level_3)))
}

fn is_empty<A: Allocator>(run: &Run<A>) -> bool
    ensures { result ≡ is_nil run.now }
{
    run.tables().is_empty()
}
