//! Of the growths of memory one is refused, each in turn.

use crate::attacked::{Attacked, List, prepare};
use crate::sweeps::Extent;
use crate::tally::Tally;
use lsm_device::Refusal;
use std::alloc::Global;
use std::thread::Threads;
use test_compared_steps::beginnings::begun;
use test_compared_steps::disk::mask_of;
use test_compared_steps::draws::Draws;
use test_compared_steps::lists::drawn;
use test_compared_steps::plain::{Answer, Machine, Step};
use test_compared_steps::playing::{crash, is_left, is_unchanged};
use test_compared_steps::subject::Subject;
use test_compared_steps::trouble::{Trouble, agree, unrefused};
use test_merge::budget::Budget;

/// More growths than any list has.
const MOST: u64 = 100_000;

/// The steps of a random list.
const STEPS: u32 = 52;

/// An allocator of which one growth may be refused.
type Heap<'h> = &'h Budget<Global>;

/// A store whose memory, and that of whose device, is of such an allocator.
type Short<'h> = Subject<Heap<'h>, Heap<'h>>;

/// The growth that is refused, counted from 0, and whether the step that it refuses is made again.
#[derive(Clone, Copy)]
struct Growth {
    n: u64,
    again: bool,
}

/// A refused step has changed nothing, and answers when it is made again. The batch of a commit takes memory before a store is
/// asked, which may refuse it then.
fn make_again<R: Threads + Sync>(
    rt: &R,
    subject: &mut Short<'_>,
    machine: &mut Machine,
    (growth, step): (Growth, Step),
) -> Result<(), Trouble> {
    is_unchanged(subject, machine)?;
    if !growth.again {
        return Ok(());
    }
    let wanted = machine.answer(step);
    if !matches!(step, Step::Commit(_) | Step::CommitIf(_, _, _)) {
        unrefused(step, wanted)?;
    }
    agree(step, subject.answer(rt, step), wanted)
}

/// A step within which a growth was refused answers with NoMemory, or as if none was; or with Io, where the device could not
/// grow.
fn meet<R: Threads + Sync>(
    rt: &R,
    subject: &mut Short<'_>,
    machine: &mut Machine,
    (growth, step): (Growth, Step),
    found: Answer,
) -> Result<(), Trouble> {
    match found {
        Answer::Refused(Refusal::NoMemory) => make_again(rt, subject, machine, (growth, step)),
        Answer::Refused(Refusal::Io) if !step.is_read() => unrefused(step, machine.stop(step)),
        _ => agree(step, found, machine.answer(step)),
    }
}

/// Makes all steps.
fn make_all<R: Threads + Sync>(
    rt: &R,
    heap: Heap<'_>,
    subject: &mut Short<'_>,
    machine: &mut Machine,
    (growth, steps): (Growth, &[Step]),
) -> Result<(), Trouble> {
    for step in steps {
        let refused_before = heap.has_refused();
        let found = subject.answer(rt, *step);
        if heap.has_refused() && !refused_before {
            meet(rt, subject, machine, (growth, *step), found)?;
        } else {
            agree(*step, found, machine.answer(*step))?;
        }
    }
    Ok(())
}

/// Makes a list of steps in which a growth is refused, on a store of a heap, and lets a crash come. Returns whether the growth
/// was asked for.
fn attack_in<R: Threads + Sync>(
    rt: &R,
    heap: Heap<'_>,
    attacked: &Attacked,
    growth: Growth,
) -> Result<bool, Trouble> {
    let (mut subject, mut machine) = attacked.start(rt, &heap)?;
    heap.refuse_after(growth.n);
    make_all(
        rt,
        heap,
        &mut subject,
        &mut machine,
        (growth, &attacked.steps),
    )?;
    let met = heap.has_refused();
    heap.allow(u64::MAX);
    is_left(&mut subject, &mut machine)?;
    crash(&heap, subject, &machine, mask_of(growth.n))?;
    Ok(met)
}

fn attack<R: Threads + Sync>(
    rt: &R,
    alloc: Global,
    attacked: &Attacked,
    growth: Growth,
) -> Result<bool, Trouble> {
    let heap = Budget::new(alloc, u64::MAX);
    attack_in(rt, &heap, attacked, growth)
}

/// Whether a step is made again.
const AGAIN: &[bool] = &[false, true];

/// Refuses each growth of a list in turn; the step is made again, or not.
fn attack_all<R: Threads + Sync>(
    rt: &R,
    alloc: Global,
    attacked: &Attacked,
    extent: Extent,
    tally: &mut Tally,
) -> Result<(), Trouble> {
    for turn in 0..MOST {
        let n = turn.wrapping_mul(extent.every);
        let mut met = false;
        for &again in AGAIN {
            met = attack(rt, alloc, attacked, Growth { n, again })?;
            tally.count_case();
            tally.count_refused(met);
            tally.count_opening();
        }
        if !met {
            return Ok(());
        }
    }
    Err(Trouble::Refusal(Refusal::NoMemory))
}

/// Refuses each growth of a list in turn.
pub(crate) fn sweep<R: Threads + Sync>(
    rt: &R,
    alloc: Global,
    list: &List,
    extent: Extent,
    tally: &mut Tally,
) -> Result<(), Trouble> {
    let attacked = prepare(rt, alloc, list)?;
    attack_all(rt, alloc, &attacked, extent, tally)
}

/// Refuses each growth of a random list in turn.
pub(crate) fn sweep_drawn<R: Threads + Sync>(
    rt: &R,
    alloc: Global,
    seed: u64,
    extent: Extent,
    tally: &mut Tally,
) -> Result<(), Trouble> {
    let beginning = begun(rt, alloc, &[])?;
    let machine = beginning.machine.reopened()?;
    let attacked = Attacked {
        beginning,
        before: Vec::new(alloc),
        steps: drawn(alloc, &mut Draws::new(seed), machine, STEPS)?,
    };
    attack_all(rt, alloc, &attacked, extent, tally)
}
