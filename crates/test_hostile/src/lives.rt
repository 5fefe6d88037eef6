//! Random lives of a store, each of which ends with a crash.

use crate::checks::checked;
use crate::faults::{CallFault, make_all};
use crate::tally::Tally;
use lsm_check::Report;
use lsm_store::Stat;
use std::alloc::Global;
use std::thread::Threads;
use test_compared_steps::disk::{Disk, formatted};
use test_compared_steps::draws::Draws;
use test_compared_steps::lists::drawn;
use test_compared_steps::plain::{Answer, LOG_SECTORS, Machine, Step};
use test_compared_steps::playing::{has_map, is_unchanged, opened};
use test_compared_steps::subject::Subject;
use test_compared_steps::trouble::Trouble;

/// How many lives a store has, one after another.
const LIVES: u32 = 3;

/// The steps of a long life, and of a short one.
const LONG: u32 = 700;

const SHORT: u32 = 50;

/// A call that fails in two of three short lives, and none in a long one; and a crash.
fn fault(draws: &mut Draws, length: u32) -> CallFault {
    let n = if length == LONG || draws.below(3) == 0 {
        u64::MAX
    } else {
        draws.below(100).into()
    };
    CallFault {
        n,
        kept: draws.below(2) == 0,
        mask: draws.wide(),
    }
}

/// Whether a store has the numbers that a check found before it was opened. The opening is one generation more.
fn has_numbers(stat: Stat, report: Report) -> bool {
    stat.generation == report.generation.wrapping_add(1)
        && stat.batches == report.batches
        && stat.tables == report.tables
        && stat.free_blocks == report.free_blocks
}

/// Opens what a crash left. It has a map that the machine may leave, and a check before found it sound, with the same numbers.
fn found(alloc: Global, disk: Disk, machine: &Machine) -> Result<(Subject<Global>, Stat), Trouble> {
    let mut disk = disk;
    let report = checked(alloc, &mut disk)?;
    let mut subject = opened(&alloc, disk)?;
    has_map(&mut subject, machine)?;
    match (report, subject.answer_alone(Step::Stat)) {
        (Ok(report), Answer::Numbers(stat)) if has_numbers(stat, report) => { Ok((subject, stat)) }
        _ => Err(Trouble::Check),
    }
}

/// Makes steps, of which a call may fail, and lets a crash come. Returns whether a call failed.
fn live<R: Threads + Sync>(
    rt: &R,
    subject: Subject<Global>,
    machine: &mut Machine,
    steps: &[Step],
    fault: CallFault,
) -> Result<(Disk, bool), Trouble> {
    let mut subject = subject;
    let failed = make_all(rt, &mut subject, machine, fault, steps)?;
    Ok((subject.into_disk().crashed(fault.mask), failed))
}

/// Leads random lives of one store. They end before where a rotation or an install was lost at which a call failed.
fn lead<R: Threads + Sync>(
    rt: &R,
    alloc: Global,
    draws: &mut Draws,
    length: u32,
    tally: &mut Tally,
) -> Result<(), Trouble> {
    let mut machine = Machine::new(alloc);
    let mut subject = opened(&alloc, formatted(alloc, LOG_SECTORS)?)?;
    for _ in 0..LIVES {
        let steps = drawn(alloc, draws, machine.reopened()?, length)?;
        let fault = fault(draws, length);
        let (disk, failed) = live(rt, subject, &mut machine, &steps, fault)?;
        let (next, stat) = found(alloc, disk, &machine)?;
        subject = next;
        tally.count_case();
        tally.count_failed(failed);
        tally.count_opening();
        tally.count_tables(stat.tables);
        if machine.has_lost_root(stat.generation) {
            return Ok(());
        }
        machine = machine.left(stat.batches)?;
        is_unchanged(&mut subject, &mut machine)?;
    }
    Ok(())
}

/// Leads `stores` stores, of which each tenth has long lives.
pub(crate) fn sweep<R: Threads + Sync>(
    rt: &R,
    alloc: Global,
    stores: u64,
    tally: &mut Tally,
) -> Result<(), Trouble> {
    let mut draws = Draws::new(1);
    for store in 0..stores {
        let length = if store % 10 == 0 { LONG } else { SHORT };
        lead(rt, alloc, &mut draws, length, tally)?;
    }
    Ok(())
}
