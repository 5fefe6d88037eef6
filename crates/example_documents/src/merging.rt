//! Examples of merges: what to choose, and how its result is built.

use lsm_device::{Device, Refusal};
use lsm_merge::build;
use lsm_policy::Policy;
use lsm_store::Store;
use std::alloc::Global;
use std::thread::Threads;

/// The example of `lsm_merge`, of a job whose input was read.
pub fn build_a_result<D: Device, R: Threads + Sync>(
    rt: &R,
    alloc: Global,
    store: &mut Store<D>,
    job: u64,
) -> Result<(), Refusal> {
    let input = store.job_input(job)?;
    let built = build(rt, alloc, input, 1)?;
    store.job_accept(job, &built)
}

/// The example of `lsm_policy`.
pub fn take_what_is_advised<D: Device>(store: &mut Store<D>) -> Result<(), Refusal> {
    let policy = Policy::new();
    let free_blocks = store.stat()?.free_blocks;
    if let Some(choice) = policy.next_choice(store.levels(), free_blocks, store.jobs()) {
        let job = store.job_take_of(choice)?;
    }
    Ok(())
}
