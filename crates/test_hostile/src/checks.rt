//! Checks of which one call fails, or a growth is refused, each in turn.

use crate::openings::MOST;
use crate::sweeps::Extent;
use crate::tally::Tally;
use lsm_check::{Finding, Report, check};
use lsm_device::Refusal;
use std::alloc::{Allocator, Global};
use test_compared_steps::beginnings::Beginning;
use test_compared_steps::disk::Disk;
use test_compared_steps::trouble::Trouble;
use test_merge::budget::Budget;

/// What a check finds. It writes nothing.
pub(crate) fn checked<A: Allocator + Clone>(
    alloc: A,
    disk: &mut Disk,
) -> Result<Result<Report, Finding>, Trouble> {
    let before = disk.changes();
    let found = check(alloc, &mut disk.device);
    if disk.changes() == before {
        return Ok(found);
    }
    Err(Trouble::Written)
}

/// Lets a call of a check fail, which is its last and answered with Io. Returns whether the call was made.
fn fail(alloc: Global, disk: &mut Disk, ample: Report, n: u64) -> Result<bool, Trouble> {
    disk.fail(n, false);
    let start = disk.calls();
    let found = checked(alloc, disk)?;
    let made = disk.calls().wrapping_sub(start);
    match found {
        Ok(report) if report == ample && made <= n => Ok(false),
        Err(Finding::Refused(Refusal::Io)) if made == n.wrapping_add(1) => Ok(true),
        _ => Err(Trouble::Check),
    }
}

/// Refuses a growth of a check, which has no memory then. Returns whether the growth was asked for.
fn refuse(alloc: Global, disk: &mut Disk, ample: Report, n: u64) -> Result<bool, Trouble> {
    let heap = Budget::new(alloc, u64::MAX);
    heap.refuse_after(n);
    let found = checked(&heap, disk)?;
    match found {
        Ok(report) if report == ample && !heap.has_refused() => Ok(false),
        Err(Finding::Refused(Refusal::NoMemory)) if heap.has_refused() => Ok(true),
        _ => Err(Trouble::Check),
    }
}

/// Lets each call of a check fail in turn.
fn fail_each(
    alloc: Global,
    disk: &mut Disk,
    ample: Report,
    (extent, tally): (Extent, &mut Tally),
) -> Result<(), Trouble> {
    for turn in 0..MOST {
        let met = fail(alloc, disk, ample, turn.wrapping_mul(extent.every))?;
        tally.count_case();
        tally.count_failed(met);
        if !met {
            disk.fail(u64::MAX, false);
            return Ok(());
        }
    }
    Err(Trouble::Check)
}

/// Refuses each growth of a check in turn.
fn refuse_each(
    alloc: Global,
    disk: &mut Disk,
    ample: Report,
    (extent, tally): (Extent, &mut Tally),
) -> Result<(), Trouble> {
    for turn in 0..MOST {
        let met = refuse(alloc, disk, ample, turn.wrapping_mul(extent.every))?;
        tally.count_case();
        tally.count_refused(met);
        if !met {
            return Ok(());
        }
    }
    Err(Trouble::Check)
}

/// Lets each call of a check of an image fail in turn, and refuses each growth of it.
pub(crate) fn sweep(
    alloc: Global,
    beginning: &Beginning,
    extent: Extent,
    tally: &mut Tally,
) -> Result<(), Trouble> {
    let mut disk = beginning.image.disk(alloc)?;
    let Ok(ample) = checked(alloc, &mut disk)? else {
        return Err(Trouble::Check);
    };
    fail_each(alloc, &mut disk, ample, (extent, tally))?;
    refuse_each(alloc, &mut disk, ample, (extent, tally))
}
