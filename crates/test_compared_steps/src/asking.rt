//! Steps as values of a session or a replay, and what these reply.

use crate::plain::{Answer, Change, Condition, PARTS, Step};
use crate::subject::{batch_of, guards_of, told_page, told_taken, value_of};
use lsm_device::Refusal;
use lsm_lives::{Call, Reply, Step as Asked, Work};
use lsm_store::At;
use std::alloc::Allocator;

fn commit_of<A: Allocator + Clone>(alloc: &A, change: Change) -> Result<Call<A>, Refusal> {
    Ok(Call::Commit(batch_of(alloc, change)?))
}

fn commit_if_of<A: Allocator + Clone>(
    alloc: &A,
    (first, second): (Condition, Condition),
    change: Change,
) -> Result<Call<A>, Refusal> {
    let guards = guards_of(alloc, first, second)?;
    Ok(Call::CommitIf(guards, batch_of(alloc, change)?))
}

fn get_of<A: Allocator + Clone>(alloc: &A, at: At, key: u8) -> Result<Call<A>, Refusal> {
    let key = Vec::from_slice(alloc.clone()?, &[key])?;
    Ok(Call::Get(at, key))
}

fn scan_of<A: Allocator + Clone>(
    alloc: &A,
    at: At,
    from: u8,
    limit: u64,
) -> Result<Call<A>, Refusal> {
    let from = Vec::from_slice(alloc.clone()?, &[from])?;
    Ok(Call::Scan {
        at,
        from,
        to: None,
        limit,
    })
}

/// The call of a step. A step that is no call has none.
pub fn call_of<A: Allocator + Clone>(alloc: &A, step: Step) -> Result<Call<A>, Refusal> {
    match step {
        Step::Commit(change) => commit_of(alloc, change),
        Step::CommitIf(first, second, change) => commit_if_of(alloc, (first, second), change),
        Step::Sync => Ok(Call::Sync),
        Step::SyncTo(number) => Ok(Call::SyncTo(number)),
        Step::Get(at, key) => get_of(alloc, at, key),
        Step::Scan(at, from, limit) => scan_of(alloc, at, from, limit),
        Step::Snapshot => Ok(Call::Snapshot),
        Step::Release(number) => Ok(Call::Release(number)),
        Step::Rotate => Ok(Call::Rotate),
        Step::Room => Ok(Call::Room),
        _ => Err(Refusal::WrongState),
    }
}

/// The piece of work of a step, where it is one. An accept takes the result of a number.
fn work_of(step: Step, number: u64) -> Option<Work> {
    match step {
        Step::Take => Some(Work::Take),
        Step::TakeOf(choice) => Some(Work::TakeOf(choice)),
        Step::Read(job) => Some(Work::Read(job)),
        Step::Build(job, parts) => Some(Work::Build {
            job,
            parts: parts.into(),
        }),
        Step::Accept(job) => Some(Work::Accept {
            job,
            result: number,
        }),
        Step::Write(job) => Some(Work::Write(job)),
        Step::Install(job) => Some(Work::Install(job)),
        Step::Drop(job) => Some(Work::Drop(job)),
        _ => None,
    }
}

/// A step as a value. An accept takes the result of a number.
fn asked_of<A: Allocator + Clone>(alloc: &A, step: Step, number: u64) -> Result<Asked<A>, Refusal> {
    match work_of(step, number) {
        Some(work) => Ok(Asked::Work(work)),
        None => Ok(Asked::Call(call_of(alloc, step)?)),
    }
}

/// A step as a replay can make it, in which no result is divided at keys.
pub fn undivided(step: Step) -> Step {
    match step {
        Step::Divide(job, _) => Step::Build(job, PARTS),
        other => other,
    }
}

/// The steps of a replay: all but those that ask for the numbers of a store. An accept takes the result of the build before it.
pub fn asked_all<A: Allocator + Clone>(
    alloc: &A,
    steps: &[Step],
) -> Result<Vec<Asked<A>, A>, Refusal> {
    let mut asked = Vec::new(alloc.clone()?);
    let mut builds = 0_u64;
    for step in steps {
        if matches!(*step, Step::Build(_, _)) {
            builds = builds.wrapping_add(1);
        }
        if !matches!(*step, Step::Stat) {
            asked.push(asked_of(alloc, *step, builds)?)?;
        }
    }
    Ok(asked)
}

/// What a reply to a call says.
pub fn told_call<A: Allocator>(reply: &Reply<A>) -> Answer {
    match reply {
        Reply::Number(number) => Answer::Number(*number),
        Reply::Done => Answer::Done,
        Reply::Value(None) => Answer::Found(None),
        Reply::Value(Some(value)) => Answer::Found(Some(value_of(value))),
        Reply::Page(page) => told_page(page),
        Reply::Taken(taken) => told_taken(*taken),
        Reply::Built { tables, .. } => Answer::Built(*tables as usize),
        Reply::Refused(refusal) => Answer::Refused(*refusal),
    }
}

/// What a reply to a piece of work says: a number is one of blocks.
pub fn told_work<A: Allocator>(reply: &Reply<A>) -> Answer {
    match reply {
        Reply::Number(number) => Answer::Left(*number),
        _ => told_call(reply),
    }
}

/// What a reply to a step says.
pub fn told_step<A: Allocator>(reply: &Reply<A>, step: Step) -> Answer {
    if matches!(step, Step::Read(_) | Step::Write(_)) {
        return told_work(reply);
    }
    told_call(reply)
}
