//! Examples of lives, which crash a device in memory.

use corwaphi_lives::{DbCall, DbLife, lives_of_db};
use lsm_device::{MemDevice, Refusal};
use lsm_explore::explore;
use lsm_lives::{Life, Reply, Step, lives};
use lsm_progress::Silent;
use std::alloc::Global;
use std::thread::Threads;

/// The example of `lsm_lives`. Returns the replies of the life.
pub fn lead_a_life<R: Threads + Sync>(
    rt: &R,
    alloc: Global,
    device: MemDevice,
    steps: Vec<Step>,
) -> Result<Vec<Vec<Reply>>, Refusal> {
    let life = Life {
        fuse: None,
        steps,
        mask: Vec::from_slice(alloc, &[true, false])?,
    };
    let (replies, device) = match lives(rt, alloc, device, &[life]) {
        Ok(answer) => answer,
        Err((refusal, _)) => return Err(refusal),
    };
    Ok(replies)
}

/// The example of `corwaphi_lives`. Returns the replies of the life.
pub fn lead_a_life_of_a_db<R: AllocGlobal>(
    rt: &R,
    calls: Vec<DbCall>,
) -> Result<Vec<Vec<Reply>>, Refusal> {
    let life = DbLife {
        fuse: None,
        calls,
        mask: Vec::from_slice(rt.alloc(), &[true, false])?,
    };
    let (replies, device) = lives_of_db(rt, 8_192, 128, &[life])?;
    Ok(replies)
}

/// The example of `lsm_explore`. Returns how many crashes showed what may not be.
pub fn explore_a_life<R: Threads + Sync>(
    rt: &R,
    alloc: Global,
    steps: Vec<Step>,
) -> Result<u64, Refusal> {
    let explored = explore(rt, alloc, 8_192, 128, &steps, true, &mut Silent)?;
    let wrong = explored.wrong; // 0, as its contract says
    Ok(wrong)
}
