//! Openings of which one call fails, or a growth is refused, each in turn.

use crate::attacked::List;
use crate::checks;
use crate::sweeps::Extent;
use crate::tally::Tally;
use lsm_device::Refusal;
use std::alloc::{Allocator, Global};
use std::thread::Threads;
use test_compared_steps::beginnings::{Beginning, begin};
use test_compared_steps::disk::{Disk, MASKS, Mask};
use test_compared_steps::plain::Machine;
use test_compared_steps::playing::{find, has_map};
use test_compared_steps::subject::{Subject, open};
use test_compared_steps::trouble::Trouble;
use test_merge::budget::Budget;

/// More device calls, and more growths, than an opening or a check has.
pub(crate) const MOST: u64 = 10_000;

/// Whether a device has had `calls` calls more.
fn had<B: Allocator>(disk: &Disk<B>, start: u64, calls: u64) -> Result<(), Trouble> {
    if disk.calls().wrapping_sub(start) == calls {
        return Ok(());
    }
    Err(Trouble::Calls { step: None })
}

/// Whether a store that was opened although a call was to fail had all its calls before that, and has its map. No call is to fail
/// then.
fn is_unfailed(
    subject: &mut Subject<Global>,
    machine: &Machine,
    (start, n): (u64, u64),
) -> Result<(), Trouble> {
    if subject.calls().wrapping_sub(start) > n {
        return Err(Trouble::Calls { step: None });
    }
    subject.fail(u64::MAX, false);
    has_map(subject, machine)
}

/// Opens a device of which one call fails, and takes it back, with no call that is still to fail. Returns whether the call was
/// made.
fn open_failing(
    alloc: Global,
    disk: Disk,
    machine: &Machine,
    (n, kept): (u64, bool),
) -> Result<(Disk, bool), Trouble> {
    let mut disk = disk;
    let start = disk.calls();
    disk.fail(n, kept);
    match open(alloc, alloc, disk) {
        Ok(mut subject) => {
            is_unfailed(&mut subject, machine, (start, n))?;
            Ok((subject.into_disk(), false))
        }
        Err((Refusal::Io, disk)) => {
            had(&disk, start, n.wrapping_add(1))?;
            Ok((disk, true))
        }
        Err((refusal, _)) => Err(Trouble::Refusal(refusal)),
    }
}

/// Lets a call of an opening fail, and opens what is left, at once or after a crash.
fn fail(
    alloc: Global,
    beginning: &Beginning,
    fault: (u64, bool),
    mask: Option<Mask>,
) -> Result<bool, Trouble> {
    let machine = beginning.machine.reopened()?;
    let disk = beginning.image.disk(alloc)?;
    let (disk, met) = open_failing(alloc, disk, &machine, fault)?;
    match mask {
        Some(mask) => find(&alloc, disk.crashed(mask), &machine)?,
        None => find(&alloc, disk, &machine)?,
    }
    Ok(met)
}

/// The mask before a place, if there is one.
fn mask_before(turn: usize) -> Option<Mask> {
    Some(*MASKS.get(turn.checked_sub(1)?)?)
}

/// Lets each call of an opening fail in turn.
fn fail_each(
    alloc: Global,
    beginning: &Beginning,
    extent: Extent,
    tally: &mut Tally,
) -> Result<(), Trouble> {
    const KEPT: &[bool] = &[false, true];
    for case in 0..MOST {
        let n = case.wrapping_mul(extent.every);
        let mut met = false;
        // Without a crash, and with one under each of the masks.
        for turn in 0..=MASKS.len() {
            if extent.takes(n, turn as u64, 5) {
                for &kept in KEPT {
                    met = fail(alloc, beginning, (n, kept), mask_before(turn))?;
                    tally.count_case();
                    tally.count_failed(met);
                    tally.count_opening();
                }
            }
        }
        if !met {
            return Ok(());
        }
    }
    Err(Trouble::Calls { step: None })
}

/// Opens a device on a heap that refuses one growth, and takes it back. The growths after it are not refused. Returns whether
/// the growth was asked for.
fn open_short<'h>(
    heap: &'h Budget<Global>,
    disk: Disk<&'h Budget<Global>>,
    machine: &Machine,
) -> Result<(Disk<&'h Budget<Global>>, bool), Trouble> {
    let before = disk.writes();
    let opened = open(heap, heap, disk);
    let met = heap.has_refused();
    heap.allow(u64::MAX);
    match opened {
        Ok(mut subject) => {
            has_map(&mut subject, machine)?;
            Ok((subject.into_disk(), met))
        }
        Err((Refusal::NoMemory, disk)) if disk.writes() != before => Err(Trouble::Written),
        Err((Refusal::NoMemory, disk)) => Ok((disk, met)),
        Err((Refusal::Io, disk)) => Ok((disk, met)),
        Err((refusal, _)) => Err(Trouble::Refusal(refusal)),
    }
}

/// Refuses a growth of an opening, and opens what is left.
fn refuse(alloc: Global, beginning: &Beginning, n: u64) -> Result<bool, Trouble> {
    let machine = beginning.machine.reopened()?;
    let heap = Budget::new(alloc, u64::MAX);
    let disk = beginning.image.disk(&heap)?;
    heap.refuse_after(n);
    let (disk, met) = open_short(&heap, disk, &machine)?;
    find(&&heap, disk, &machine)?;
    Ok(met)
}

/// Refuses each growth of an opening in turn.
fn refuse_each(
    alloc: Global,
    beginning: &Beginning,
    extent: Extent,
    tally: &mut Tally,
) -> Result<(), Trouble> {
    for turn in 0..MOST {
        let n = turn.wrapping_mul(extent.every);
        let met = refuse(alloc, beginning, n)?;
        tally.count_case();
        tally.count_refused(met);
        tally.count_opening();
        if !met {
            return Ok(());
        }
    }
    Err(Trouble::Refusal(Refusal::NoMemory))
}

/// Lets each call of an opening fail in turn, and refuses each growth of it, on the device that a list begins with; and of a check
/// likewise.
pub(crate) fn sweep<R: Threads + Sync>(
    rt: &R,
    alloc: Global,
    list: &List,
    extent: Extent,
    tally: &mut Tally,
) -> Result<(), Trouble> {
    let beginning = begin(rt, alloc, list.past, list.after)?;
    fail_each(alloc, &beginning, extent, tally)?;
    refuse_each(alloc, &beginning, extent, tally)?;
    checks::sweep(alloc, &beginning, extent, tally)
}
