//! Sessions of which a call of the device fails, or a growth is refused, each in turn.

use crate::sweeps::Extent;
use crate::tally::Tally;
use lsm_device::Refusal;
use std::alloc::Global;
use std::sync::Wait;
use std::thread::Threads;
use test_compared_sessions::deeds::Sitting;
use test_compared_sessions::judge::{Harm, Judge, Then};
use test_compared_sessions::sitting::lead;
use test_compared_steps::beginnings::{Beginning, begun};
use test_compared_steps::disk::{MASKS, Mask, mask_of};
use test_compared_steps::plain::Machine;
use test_compared_steps::playing::{crash, is_left, opened};
use test_compared_steps::trouble::Trouble;
use test_merge::budget::Budget;

/// More device calls, and more growths, than any session has.
const MOST: u64 = 10_000;

/// The call that fails, counted from 0, whether it is kept where it is a write, which crash follows, and what is done after it.
#[derive(Clone, Copy)]
struct SessionFault {
    n: u64,
    kept: bool,
    mask: Mask,
    then: Then,
}

/// Whether no call comes after the one that fails: a stopped store makes none, and neither does a session that ended with it.
fn is_last(machine: &Machine, then: Then) -> bool {
    machine.is_stopped() || then == Then::End
}

/// Whether `made` calls agree with what the clients were told of the one of number `n` that fails.
fn have_made((is_met, is_last): (bool, bool), n: u64, made: u64) -> Result<(), Trouble> {
    let is_right = match (is_met, is_last) {
        (true, true) => made == n.wrapping_add(1),
        (true, false) => made > n,
        (false, _) => made <= n,
    };
    if is_right {
        return Ok(());
    }
    Err(Trouble::Calls { step: None })
}

/// Leads a session of which one call fails, and lets a crash come. Returns whether the call was made.
fn fail<R: Threads + Wait + Sync>(
    rt: &R,
    alloc: Global,
    beginning: &Beginning,
    sitting: &Sitting,
    fault: SessionFault,
) -> Result<bool, Trouble> {
    let harm = Harm {
        heap: None,
        then: fault.then,
    };
    let machine = beginning.machine.reopened()?;
    let mut judge = Judge::new(alloc, machine, sitting.sizes.places, harm);
    let mut subject = opened(&alloc, beginning.image.disk(alloc)?)?;
    let start = subject.calls();
    subject.fail(fault.n, fault.kept);
    let mut subject = lead(rt, alloc, subject, &mut judge, sitting)?;
    let met = (judge.is_met, is_last(&judge.machine, fault.then));
    have_made(met, fault.n, subject.calls().wrapping_sub(start))?;
    subject.fail(u64::MAX, false);
    is_left(&mut subject, &mut judge.machine)?;
    crash(&alloc, subject, &judge.machine, fault.mask)?;
    Ok(judge.is_met)
}

/// Lets the call of a number fail, kept and not, before each of the crashes, or before one of them.
fn fail_at<R: Threads + Wait + Sync>(
    rt: &R,
    alloc: Global,
    (beginning, sitting): (&Beginning, &Sitting),
    (n, extent): (u64, Extent),
    tally: &mut Tally,
) -> Result<bool, Trouble> {
    const THEN: &[Then] = &[Then::Again, Then::Again, Then::End, Then::Again];
    const KEPT: &[bool] = &[false, true];
    let mut met = false;
    for (turn, (&mask, &then)) in MASKS.iter().zip(THEN).enumerate() {
        for &kept in KEPT {
            if extent.takes(n, turn as u64, 4) {
                let fault = SessionFault {
                    n,
                    kept,
                    mask,
                    then,
                };
                met = fail(rt, alloc, beginning, sitting, fault)?;
                tally.count_case();
                tally.count_failed(met);
                tally.count_opening();
            }
        }
    }
    Ok(met)
}

fn fail_each<R: Threads + Wait + Sync>(
    rt: &R,
    alloc: Global,
    of: (&Beginning, &Sitting),
    extent: Extent,
    tally: &mut Tally,
) -> Result<(), Trouble> {
    for turn in 0..MOST {
        let n = extent.call(turn);
        if !fail_at(rt, alloc, of, (n, extent), tally)? {
            return Ok(());
        }
    }
    Err(Trouble::Calls { step: None })
}

/// Leads a session of which one growth is refused, on a store of a heap, and lets a crash come. Returns whether the growth was
/// asked for.
fn refuse_in<R: Threads + Wait + Sync>(
    rt: &R,
    heap: &Budget<Global>,
    (alloc, beginning): (Global, &Beginning),
    sitting: &Sitting,
    (n, then): (u64, Then),
) -> Result<bool, Trouble> {
    let harm = Harm {
        heap: Some(heap),
        then,
    };
    let machine = beginning.machine.reopened()?;
    let mut judge = Judge::new(alloc, machine, sitting.sizes.places, harm);
    let subject = opened(&heap, beginning.image.disk(heap)?)?;
    heap.refuse_after(n);
    let mut subject = lead(rt, heap, subject, &mut judge, sitting)?;
    let met = heap.has_refused();
    heap.allow(u64::MAX);
    is_left(&mut subject, &mut judge.machine)?;
    crash(&heap, subject, &judge.machine, mask_of(n))?;
    Ok(met)
}

fn refuse<R: Threads + Wait + Sync>(
    rt: &R,
    alloc: Global,
    beginning: &Beginning,
    sitting: &Sitting,
    growth: (u64, Then),
) -> Result<bool, Trouble> {
    let heap = Budget::new(alloc, u64::MAX);
    refuse_in(rt, &heap, (alloc, beginning), sitting, growth)
}

/// What is done after a growth that is refused.
const AFTER: &[Then] = &[Then::Next, Then::Again];

fn refuse_each<R: Threads + Wait + Sync>(
    rt: &R,
    alloc: Global,
    (beginning, sitting): (&Beginning, &Sitting),
    extent: Extent,
    tally: &mut Tally,
) -> Result<(), Trouble> {
    for turn in 0..MOST {
        let n = extent.call(turn);
        let mut met = false;
        for &then in AFTER {
            met = refuse(rt, alloc, beginning, sitting, (n, then))?;
            tally.count_case();
            tally.count_refused(met);
            tally.count_opening();
        }
        if !met {
            return Ok(());
        }
    }
    Err(Trouble::Refusal(Refusal::NoMemory))
}

/// Lets each call of a session fail in turn, and refuses each growth of it.
pub(crate) fn sweep<R: Threads + Wait + Sync>(
    rt: &R,
    alloc: Global,
    sitting: &Sitting,
    extent: Extent,
    tally: &mut Tally,
) -> Result<(), Trouble> {
    let beginning = begun(rt, alloc, sitting.past)?;
    fail_each(rt, alloc, (&beginning, sitting), extent, tally)?;
    refuse_each(rt, alloc, (&beginning, sitting), extent, tally)
}
