//! What is to be done next.

use crate::stepping::{next_down, standing};
use lsm_device::Device;
use lsm_levels::Choice;
use lsm_policy::Policy;
use lsm_room::Step;
use lsm_store::Store;
use std::alloc::{AllocError, Global};

/// From this number of runs of level 0 on they go down in steps where what the policy chooses isn't sure to find room.
const SOME_RUNS: usize = 4;

/// From this number on they go down in steps where the policy chooses nothing.
const MANY_RUNS: usize = 8;

/// What is to be done next.
#[derive(Clone, Copy)]
pub(crate) enum NextCompaction {
    /// Nothing.
    Nothing,
    /// A step down.
    Step,
    /// The merge of a choice.
    Merge(Choice),
}

/// What the policy wants: the merge that it chooses, where that is sure to find room; or else a step down, where level 0 has some runs.
pub(crate) fn next_compaction<D: Device>(policy: &Policy, store: &Store<D>) -> NextCompaction {
    let Ok(stat) = store.stat() else {
        return NextCompaction::Nothing;
    };
    match policy.next_choice(store.levels(), stat.free_blocks, store.jobs()) {
        Some(choice) if standing(store).is_sure(choice, u64::MAX) => NextCompaction::Merge(choice),
        Some(_) if stat.runs >= SOME_RUNS => NextCompaction::Step,
        _ if stat.runs >= MANY_RUNS => NextCompaction::Step,
        _ => NextCompaction::Nothing,
    }
}

/// The step that the policy wants, if it wants one.
pub(crate) fn step_by<D: Device>(
    alloc: Global,
    store: &Store<D>,
    policy: &Policy,
) -> Result<Option<Step>, AllocError> {
    match next_compaction(policy, store) {
        NextCompaction::Nothing => Ok(None),
        NextCompaction::Step => next_down(alloc, store),
        NextCompaction::Merge(choice) => Ok(Some(Step::whole(&alloc, choice)?)),
    }
}
