//! Explorations of which a growth is refused, each in turn.

use crate::sweeps::Extent;
use crate::tally::Tally;
use lsm_device::Refusal;
use lsm_explore::{Explored, explore};
use lsm_lives::Step as Asked;
use lsm_progress::Silent;
use std::alloc::{Allocator, Global};
use std::thread::Threads;
use test_compared_steps::asking::asked_all;
use test_compared_steps::disk::SECTORS;
use test_compared_steps::lists::{ListedStep, steps_of};
use test_compared_steps::plain::{LOG_SECTORS, Step};
use test_compared_steps::trouble::Trouble;
use test_merge::budget::Budget;

/// More growths than any exploration has.
const MOST: u64 = 1_000_000;

/// A batch of one sector, and one of two.
const BATCHES: &[ListedStep] = &[ListedStep::Put(1), ListedStep::Long(2, 600)];

/// A batch that is synced.
const SYNCED: &[ListedStep] = &[ListedStep::Put(1), ListedStep::One(Step::Sync)];

/// What is explored: steps, whether the openings of what is left are explored too, and of how many growths one is refused: a
/// prime number, since all openings of an exploration ask for the same growths, and each of these is to be met.
#[derive(Clone, Copy)]
pub(crate) struct Tour {
    pub(crate) name: &'static str,
    list: &'static [ListedStep],
    twice: bool,
    every: u64,
}

/// The explorations.
pub(crate) const TOURS: &[Tour] = &[
    Tour {
        name: "an exploration of two batches",
        list: BATCHES,
        twice: false,
        every: 11,
    },
    Tour {
        name: "an exploration of a synced batch, and of the openings behind it",
        list: SYNCED,
        twice: true,
        every: 71,
    },
];

/// What an exploration counts, or why it is refused. It tells the prover nothing.
fn explored<R: Threads + Sync, A: Allocator + Clone + Send + Sync>(
    rt: &R,
    alloc: A,
    steps: &[Asked<A>],
    twice: bool,
) -> Result<Explored, Refusal> {
    explore(rt, alloc, SECTORS, LOG_SECTORS, steps, twice, &mut Silent)
}

/// What an exploration counts on a heap that refuses a growth, or why it is refused.
fn explored_in<R: Threads + Sync>(
    rt: &R,
    heap: &Budget<Global>,
    steps: &[Step],
    (twice, n): (bool, u64),
) -> Result<Explored, Refusal> {
    let asked = asked_all(&heap, steps)?;
    heap.refuse_after(n);
    explored(rt, heap, &asked, twice)
}

/// Refuses a growth of an exploration: it has no memory then, or finds nothing wrong. Returns whether the growth was asked for.
fn refuse<R: Threads + Sync>(
    rt: &R,
    alloc: Global,
    (steps, ample): (&[Step], Explored),
    case: (bool, u64),
) -> Result<bool, Trouble> {
    let heap = Budget::new(alloc, u64::MAX);
    let found = explored_in(rt, &heap, steps, case);
    let met = heap.has_refused();
    let is_right = match found {
        Ok(explored) if met => explored.wrong == 0,
        Ok(explored) => explored == ample,
        Err(refusal) => met && refusal == Refusal::NoMemory,
    };
    if is_right {
        return Ok(met);
    }
    Err(Trouble::Explored)
}

/// Refuses each growth of an exploration in turn, or one in a number of them.
pub(crate) fn sweep<R: Threads + Sync>(
    rt: &R,
    alloc: Global,
    tour: &Tour,
    extent: Extent,
    tally: &mut Tally,
) -> Result<(), Trouble> {
    let steps = steps_of(alloc, tour.list)?;
    let asked = asked_all(&alloc, &steps)?;
    let ample = explored(rt, alloc, &asked, tour.twice)?;
    let every = if extent.whole {
        tour.every
    } else {
        tour.every.wrapping_mul(5)
    };
    for turn in 0..MOST {
        let n = turn.wrapping_mul(every);
        let met = refuse(rt, alloc, (&steps, ample), (tour.twice, n))?;
        tally.count_case();
        tally.count_refused(met);
        if !met {
            return Ok(());
        }
    }
    Err(Trouble::Refusal(Refusal::NoMemory))
}
