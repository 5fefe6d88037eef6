//! Steps that a table tells.

use lsm_codec::{Batch, Op};
use lsm_device::Refusal;
use lsm_lives::{Call, Step, Work};
use lsm_store::{At, Choice};
use std::alloc::{Allocator, Global};
use std::process::Abort;

/// A step, or those of a whole job.
#[derive(Clone, Copy)]
pub enum ShortStep {
    /// A commit of one put of a key and a value of a byte each.
    Put(u8, u8),
    Delete(u8),
    Get(u8),
    Sync,
    Snapshot,
    Rotate,
    /// The job that comes next is taken.
    Take,
    /// A job of so many of the oldest runs is taken.
    TakeRuns(usize),
    /// A job that rewrites neighbouring tables is taken: from that of one number to that of another.
    Rewrite(u64, u64),
    /// A job's data blocks are read.
    Read(u64),
    /// The result of a job is built, accepted, written and installed, where it has the number of the job.
    End(u64),
}

/// A commit of one put.
pub fn put<A: Allocator + Copy>(alloc: A, key: &[u8], value: &[u8]) -> Result<Step<A>, Refusal> {
    let op = Op::put(alloc, key, value)?;
    Ok(Step::Call(Call::Commit(Batch::new(alloc, op)?)))
}

fn delete(alloc: Global, key: &[u8]) -> Result<Step, Refusal> {
    let op = Op::delete(alloc, key)?;
    Ok(Step::Call(Call::Commit(Batch::new(alloc, op)?)))
}

/// The look-up of a key.
pub fn get<A: Allocator>(alloc: A, key: &[u8]) -> Result<Step<A>, Refusal> {
    Ok(Step::Call(Call::Get(At::Now, Vec::from_slice(alloc, key)?)))
}

// What ends a job.
fn end(steps: &mut Vec<Step>, job: u64) -> Result<(), Refusal> {
    steps.push(Step::Work(Work::Build { job, parts: 1 }))?;
    steps.push(Step::Work(Work::Accept { job, result: job }))?;
    steps.push(Step::Work(Work::Write(job)))?;
    steps.push(Step::Work(Work::Install(job)))?;
    Ok(())
}

fn add(alloc: Global, steps: &mut Vec<Step>, short: ShortStep) -> Result<(), Refusal> {
    let step = match short {
        ShortStep::Put(key, value) => put(alloc, &[key], &[value])?,
        ShortStep::Delete(key) => delete(alloc, &[key])?,
        ShortStep::Get(key) => get(alloc, &[key])?,
        ShortStep::Sync => Step::Call(Call::Sync),
        ShortStep::Snapshot => Step::Call(Call::Snapshot),
        ShortStep::Rotate => Step::Call(Call::Rotate),
        ShortStep::Take => Step::Work(Work::Take),
        ShortStep::TakeRuns(count) => Step::Work(Work::TakeOf(Choice::OldestRuns { count })),
        ShortStep::Rewrite(first, last) => Step::Work(Work::TakeOf(Choice::Rewrite {
            first,
            last,
        })),
        ShortStep::Read(job) => Step::Work(Work::Read(job)),
        ShortStep::End(job) => return end(steps, job),
    };
    steps.push(step)?;
    Ok(())
}

/// The steps of a table.
pub fn steps_of<R: Abort>(rt: &R, alloc: Global, short_steps: &[ShortStep]) -> Vec<Step> {
    let mut steps = Vec::new(alloc);
    for short in short_steps {
        add(alloc, &mut steps, *short).expect(rt, "memory for a step");
    }
    steps
}
