//! Examples of threads that share a store.

use lsm_device::{Device, Refusal};
use lsm_merge::build;
use lsm_policy::Policy;
use lsm_shared::{Client, Shared, Turn, work};
use lsm_trail::SessionName;
use std::alloc::Global;
use std::sync::{Mutex, Wait};
use std::thread::{Threads, sleep};
use std::time::{Clock, Duration};

/// The example of `lsm_shared`. Returns whether there was something to do.
pub fn take_a_turn<D: Device, B: SessionName, R: Threads + Wait + Sync>(
    rt: &R,
    alloc: Global,
    shared: &Shared<D, Global, B>,
    me: &mut Client<Global, B>,
) -> Result<bool, Refusal> {
    match me.turn(rt, shared)? {
        Turn::Idle => Ok(false),
        Turn::Did(_) => Ok(true),
        Turn::Merge { job, result, input } => {
            let built = build(rt, alloc, input, 2)?;
            me.bring(rt, shared, job, result, &built)?;
            Ok(true)
        }
    }
}

/// The example of the workers of `lsm_shared`.
pub fn work_until_stopped<D: Device, B: SessionName, R: Threads + Wait + Clock + Sync>(
    rt: &R,
    alloc: Global,
    shared: &Shared<D, Global, B>,
    me: &mut Client<Global, B>,
    stopping: &Mutex<bool>,
) -> Result<(), Refusal> {
    let policy = Policy::new();
    for _ in rt.forever() {
        if *stopping.lock(rt) {
            break;
        }
        if work(rt, alloc, shared, me, &policy, 4, 1_000)? {
            sleep(rt, Duration::from_millis(10));
        }
    }
    Ok(())
}
