//! Lists of steps.

use crate::draws::Draws;
use crate::plain::{Change, Division, Machine, Step};
use lsm_device::Refusal;
use lsm_store::{At, Choice};
use std::alloc::Global;

/// One or more steps, in a word.
#[derive(Clone, Copy)]
pub enum ListedStep {
    /// Puts a value of one byte, the key's.
    Put(u8),
    /// Puts a value of a number of bytes.
    Long(u8, u16),
    Delete(u8),
    Get(u8),
    /// Scans from a key on, for up to a number of rows.
    Scan(u8, u64),
    One(Step),
    /// All pieces of work on the job of a number, one after another.
    Job(u64),
    /// All pieces of work on the job of a choice and of a number, whose result is divided at keys.
    Chosen(Choice, u64, Division),
    /// Puts a value of one byte under a key, and flushes it as the job of a number.
    Flush(u8, u64),
}

/// All pieces of work on the job that comes next, in two parts.
fn push_job(steps: &mut Vec<Step>, job: u64) -> Result<(), Refusal> {
    let pieces = [
        Step::Take,
        Step::Read(job),
        Step::Build(job, 2),
        Step::Accept(job),
        Step::Write(job),
        Step::Install(job),
    ];
    steps.extend_from_slice(&pieces)?;
    Ok(())
}

/// All pieces of work on the job of a choice, whose outputs may want two writes.
fn push_chosen(
    steps: &mut Vec<Step>,
    choice: Choice,
    job: u64,
    division: Division,
) -> Result<(), Refusal> {
    let pieces = [
        Step::TakeOf(choice),
        Step::Read(job),
        Step::Divide(job, division),
        Step::Accept(job),
        Step::Write(job),
        Step::Write(job),
        Step::Install(job),
    ];
    steps.extend_from_slice(&pieces)?;
    Ok(())
}

/// The step that stands in a list, where it is one step.
pub fn step_of(listed: ListedStep) -> Option<Step> {
    match listed {
        ListedStep::Put(key) => Some(Step::Commit(Change::Put(key, key, 1))),
        ListedStep::Long(key, length) => Some(Step::Commit(Change::Put(key, key, length))),
        ListedStep::Delete(key) => Some(Step::Commit(Change::Delete(key))),
        ListedStep::Get(key) => Some(Step::Get(At::Now, key)),
        ListedStep::Scan(from, limit) => Some(Step::Scan(At::Now, from, limit)),
        ListedStep::One(step) => Some(step),
        ListedStep::Job(_) | ListedStep::Chosen(_, _, _) | ListedStep::Flush(_, _) => None,
    }
}

fn push(steps: &mut Vec<Step>, listed: ListedStep) -> Result<(), Refusal> {
    if let Some(step) = step_of(listed) {
        steps.push(step)?;
    }
    if let ListedStep::Flush(key, job) = listed {
        steps.push(Step::Commit(Change::Put(key, key, 1)))?;
        steps.push(Step::Rotate)?;
        return push_job(steps, job);
    }
    match listed {
        ListedStep::Job(job) => push_job(steps, job),
        ListedStep::Chosen(choice, job, division) => push_chosen(steps, choice, job, division),
        _ => Ok(()),
    }
}

/// The steps of a list.
pub fn steps_of(alloc: Global, list: &[ListedStep]) -> Result<Vec<Step>, Refusal> {
    let mut steps = Vec::new(alloc);
    for listed in list {
        push(&mut steps, *listed)?;
    }
    Ok(steps)
}

/// What a batch does: it deletes one in four keys, and of the lowest most.
fn change(draws: &mut Draws) -> Change {
    let key = draws.key();
    match draws.below(8) {
        0 | 1 => Change::Delete(key),
        4..=6 if key < 20 => Change::Delete(key),
        2 => Change::Both(key, draws.key()),
        3 => Change::Put(key, draws.byte(), 1_400),
        _ => Change::Put(key, draws.byte(), 3),
    }
}

/// A live snapshot of the machine, or a number that may be none.
fn snapshot(draws: &mut Draws, machine: &Machine) -> u64 {
    let place = draws.below(6);
    match machine.snapshot_at(place as usize) {
        Some(number) => number,
        None => place.into(),
    }
}

/// The present map, or that of a snapshot.
fn at(draws: &mut Draws, machine: &Machine) -> At {
    match draws.below(2) {
        0 => At::Snap(snapshot(draws, machine)),
        _ => At::Now,
    }
}

fn call(draws: &mut Draws, machine: &Machine) -> Step {
    match draws.below(20) {
        0 => Step::Sync,
        1 => Step::SyncTo(draws.below(12).into()),
        2 => Step::Snapshot,
        3 | 4 => Step::Release(snapshot(draws, machine)),
        5 => Step::Rotate,
        6 | 7 => Step::Get(at(draws, machine), draws.key()),
        8 => Step::Scan(
            at(draws, machine),
            draws.byte() % 64,
            draws.below(66).into(),
        ),
        9 => Step::Stat,
        _ => Step::Commit(change(draws)),
    }
}

/// Keys to divide a result at.
fn division(draws: &mut Draws) -> Division {
    Division {
        first: draws.byte() % 60,
        second: draws.byte() % 60,
    }
}

/// The number of a table at a place of a level, or one that may be none.
fn table(machine: &Machine, level: usize, place: usize) -> u64 {
    match machine.table_at(level, place) {
        Some(number) => number,
        None => place as u64,
    }
}

/// The numbers of two tables of a level from 1 on, the second of which is mostly the first or the last of the level.
fn tables(draws: &mut Draws, machine: &Machine) -> (u64, u64) {
    let level = draws.place(4).wrapping_add(1);
    let count = machine.tables_in(level);
    let first = draws.place(count);
    let last = match draws.below(8) {
        0 => draws.place(6),
        1..=4 => count.saturating_sub(1),
        _ => first,
    };
    (table(machine, level, first), table(machine, level, last))
}

/// Some of the oldest runs, or some tables, whether they can be taken or not.
fn choice(draws: &mut Draws, machine: &Machine) -> Choice {
    let (first, last) = tables(draws, machine);
    match draws.below(5) {
        0 => Choice::OldestRuns {
            count: draws.place(5),
        },
        1 | 2 => Choice::Tables { first, last },
        _ => Choice::Rewrite { first, last },
    }
}

/// A piece of work on one of the first jobs, whether there is one or not.
fn piece(draws: &mut Draws) -> Step {
    let job = u64::from(draws.below(6)) + 1;
    match draws.below(8) {
        0 => Step::Take,
        1 => Step::Divide(job, division(draws)),
        2 => Step::Read(job),
        3 => Step::Build(job, 1),
        4 => Step::Accept(job),
        5 => Step::Write(job),
        6 => Step::Install(job),
        _ => Step::Drop(job),
    }
}

/// A step that a machine may be asked for: a call, a piece of work that comes next, the job of a choice, or any other piece.
fn step(draws: &mut Draws, machine: &Machine) -> Step {
    match (draws.below(16), machine.turn_of(draws.below(4))) {
        (0, _) => piece(draws),
        (1, _) => Step::TakeOf(choice(draws, machine)),
        (2..=6, Some(Step::Build(job, _))) => match draws.below(5) {
            0 | 1 => Step::Accept(job),
            2 | 3 => Step::Divide(job, division(draws)),
            _ => Step::Build(job, 2),
        },
        (2..=6, Some(step)) => step,
        _ => call(draws, machine),
    }
}

/// `count` random steps of a machine, which it has made then.
pub fn drawn(
    alloc: Global,
    draws: &mut Draws,
    machine: Machine,
    count: u32,
) -> Result<Vec<Step>, Refusal> {
    let mut machine = machine;
    let mut steps = Vec::new(alloc);
    for _ in 0..count {
        let step = step(draws, &machine);
        let _answer = machine.answer(step);
        steps.push(step)?;
    }
    Ok(steps)
}
