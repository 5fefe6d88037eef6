//! Random images of version 1 of the format, whose first openings are stopped at each write and sync, and the next ones so too.

use crate::checks::checked;
use crate::tally::Tally;
use lsm_device::Refusal;
use std::alloc::Global;
use std::thread::Threads;
use test_compared_steps::beginnings::{Beginning, lived};
use test_compared_steps::disk::{Disk, MASKS, Mask};
use test_compared_steps::draws::Draws;
use test_compared_steps::image::PlainImage;
use test_compared_steps::layout::{make_old, numbers_in};
use test_compared_steps::playing::find;
use test_compared_steps::subject::open;
use test_compared_steps::trouble::Trouble;

/// More writes and syncs than an opening makes.
const MOST: u64 = 60;

/// The first sector after superblocks and manifests.
const LOGS: u32 = 130;

/// Opens a device that holds an image, and stops the opening after `fuse` writes and syncs. Returns what a crash leaves, and
/// whether the opening ended before.
fn stopped(
    alloc: Global,
    beginning: &Beginning,
    (fuse, mask): (u64, Mask),
) -> Result<(Disk, bool), Trouble> {
    let mut disk = beginning.image.disk(alloc)?;
    disk.fuse(fuse);
    match open(alloc, alloc, disk) {
        Ok(subject) => Ok((subject.into_disk().crashed(mask), true)),
        Err((Refusal::Io, disk)) => Ok((disk.crashed(mask), false)),
        Err((refusal, _)) => Err(Trouble::Refusal(refusal)),
    }
}

/// What a stopped opening of an image left. It wrote nothing after superblocks and manifests.
fn left(alloc: Global, beginning: &Beginning, disk: &mut Disk) -> Result<Beginning, Trouble> {
    let image = PlainImage::of(alloc, disk)?;
    if image.sum_from(LOGS) != beginning.image.sum_from(LOGS) {
        return Err(Trouble::Written);
    }
    let machine = beginning.machine.reopened()?;
    Ok(Beginning { image, machine })
}

/// Stops the opening of an image at each of its writes and syncs, with each crash. What is left has its map.
fn stop(alloc: Global, beginning: &Beginning, tally: &mut Tally) -> Result<(), Trouble> {
    for fuse in 0..MOST {
        let mut has_ended = false;
        for &mask in MASKS {
            let (disk, ended) = stopped(alloc, beginning, (fuse, mask))?;
            find(&alloc, disk, &beginning.machine)?;
            tally.count_case();
            tally.count_opening();
            has_ended = ended;
        }
        if has_ended {
            return Ok(());
        }
    }
    Err(Trouble::Calls { step: None })
}

/// Stops the opening of an image likewise. What is left is sound, and its opening is stopped so too.
fn stop_twice(alloc: Global, beginning: &Beginning, tally: &mut Tally) -> Result<(), Trouble> {
    for fuse in 0..MOST {
        let mut has_ended = false;
        for &mask in MASKS {
            let (mut disk, ended) = stopped(alloc, beginning, (fuse, mask))?;
            if checked(alloc, &mut disk)?.is_err() {
                return Err(Trouble::Check);
            }
            stop(alloc, &left(alloc, beginning, &mut disk)?, tally)?;
            has_ended = ended;
        }
        if has_ended {
            return Ok(());
        }
    }
    Err(Trouble::Calls { step: None })
}

/// A store that has been led through one to three lives, of which the first is the longest.
fn grown<R: Threads + Sync>(
    rt: &R,
    alloc: Global,
    draws: &mut Draws,
) -> Result<Beginning, Trouble> {
    let first = draws.below(200).wrapping_add(50);
    match draws.below(3) {
        0 => lived(rt, alloc, draws, &[first]),
        1 => lived(rt, alloc, draws, &[first, 15]),
        _ => lived(rt, alloc, draws, &[first, 15, 10]),
    }
}

/// Makes `images` images of version 1, and stops their openings. Returns whether there were some with many tables, some with
/// deletes in them, and some with more than one closed log.
pub(crate) fn sweep<R: Threads + Sync>(
    rt: &R,
    alloc: Global,
    images: u64,
    tally: &mut Tally,
) -> Result<bool, Trouble> {
    let mut draws = Draws::new(2);
    let (mut tables, mut deletes, mut logs) = (false, false, false);
    for _ in 0..images {
        let mut beginning = grown(rt, alloc, &mut draws)?;
        let numbers = numbers_in(&beginning.image);
        tables = tables || numbers.tables > 3;
        deletes = deletes || numbers.deletes > 0;
        logs = logs || numbers.logs > 1;
        make_old(&mut beginning.image);
        stop_twice(alloc, &beginning, tally)?;
    }
    Ok(tables && deletes && logs)
}
