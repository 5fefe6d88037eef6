//! Images that no store wrote: bytes of sound ones are changed.

use crate::checks::checked;
use crate::scripts::{CALLS, MANY_TABLES, ONE_KEY, WORK};
use crate::spots::{Spot, byte_at, drawn_lie, drawn_spots, has_sector, set};
use crate::tally::Tally;
use linked_list_allocator::LocalHeap;
use lsm_check::Finding;
use lsm_device::Refusal;
use std::alloc::{Allocator, Global};
use std::thread::Threads;
use test_compared_steps::beginnings::begun;
use test_compared_steps::disk::Disk;
use test_compared_steps::draws::Draws;
use test_compared_steps::image::{PlainImage, Sector};
use test_compared_steps::layout::manifest_of;
use test_compared_steps::lists::{ListedStep, steps_of};
use test_compared_steps::plain::{Answer, Step};
use test_compared_steps::subject::{Subject, open};
use test_compared_steps::trouble::Trouble;

/// The bytes of the heap of a store. No image makes a store want more.
const MEMORY: usize = 8 * 1_024 * 1_024;

/// The first sector of the table of the one key, and how many it has.
const TABLE: u32 = 514;

const TABLE_SECTORS: u32 = 32;

/// Changes a byte of a device.
fn change(disk: &mut Disk, spot: Spot) -> bool {
    let mut bytes = [0; 512];
    if !disk.read(spot.at, &mut bytes) {
        return false;
    }
    set(&mut bytes, spot);
    disk.write(spot.at, &bytes)
}

/// A device on which an image stands, with these changes.
fn changed(alloc: Global, image: &PlainImage, spots: &[Spot]) -> Result<Disk, Trouble> {
    let mut disk = image.disk(alloc)?;
    for spot in spots {
        if !change(&mut disk, *spot) {
            return Err(Trouble::Refusal(Refusal::Io));
        }
    }
    if disk.sync() {
        return Ok(disk);
    }
    Err(Trouble::Refusal(Refusal::Io))
}

/// Whether a sector has the bytes of an image with these changes.
fn is_as_it_was(disk: &mut Disk, sector: Sector, spots: &[Spot]) -> bool {
    let mut wanted = sector.bytes;
    for spot in spots {
        if spot.at == sector.at {
            set(&mut wanted, *spot);
        }
    }
    let mut bytes = [0; 512];
    disk.read(sector.at, &mut bytes) && bytes == wanted
}

/// Whether a device is as it was before an opening was refused: no write came, and the image stands.
fn is_untouched(
    disk: Disk,
    before: u64,
    image: &PlainImage,
    spots: &[Spot],
) -> Result<(), Trouble> {
    let mut disk = disk;
    let mut same = disk.writes() == before;
    for sector in image.sectors.iter() {
        same = same && is_as_it_was(&mut disk, *sector, spots);
    }
    if same {
        return Ok(());
    }
    Err(Trouble::Written)
}

/// Whether an opening may be refused so, with ample memory on a device that doesn't fail.
fn is_due_of_opening(refusal: Refusal) -> bool {
    matches!(
        refusal,
        Refusal::NotAStore
            | Refusal::BadSuper
            | Refusal::BadGeometry
            | Refusal::BadManifest
            | Refusal::BadTable
            | Refusal::Exhausted
    )
}

/// Whether a call may be refused so.
fn is_due_of_call(step: Step, refusal: Refusal) -> bool {
    match step {
        Step::Commit(_) => matches!(refusal, Refusal::Exhausted | Refusal::LogFull),
        Step::SyncTo(_) => refusal == Refusal::NoSuchBatch,
        Step::Get(_, _) => matches!(refusal, Refusal::NoSuchSnapshot | Refusal::BadTable),
        Step::Scan(_, _, _) => matches!(
            refusal,
            Refusal::BadLimit | Refusal::NoSuchSnapshot | Refusal::BadTable
        ),
        Step::Snapshot => matches!(refusal, Refusal::TooManySnapshots | Refusal::Exhausted),
        Step::Release(_) => refusal == Refusal::NoSuchSnapshot,
        Step::Rotate => matches!(
            refusal,
            Refusal::SealedWaiting | Refusal::NothingToRotate | Refusal::Exhausted
        ),
        Step::Sync | Step::Room | Step::Stat => false,
        _ => is_due_of_work(step, refusal),
    }
}

/// Whether a piece of work may be refused so.
fn is_due_of_work(step: Step, refusal: Refusal) -> bool {
    if matches!(step, Step::Take | Step::TakeOf(_)) {
        return refusal == Refusal::Exhausted;
    }
    if refusal == Refusal::NoSuchJob {
        return true;
    }
    match step {
        Step::Read(_) => matches!(refusal, Refusal::WrongState | Refusal::BadTable),
        Step::Build(_, _) | Step::Divide(_, _) | Step::Write(_) => {
            refusal == Refusal::WrongState
        }
        Step::Accept(_) => matches!(
            refusal,
            Refusal::WrongState | Refusal::ForeignResult | Refusal::Exhausted | Refusal::NoSpace
        ),
        Step::Install(_) => matches!(
            refusal,
            Refusal::WrongState
                | Refusal::TooManyRuns
                | Refusal::TooManyTables
                | Refusal::Exhausted
                | Refusal::BadTable
        ),
        _ => false,
    }
}

/// Whether a step may be answered so.
fn is_due(step: Step, answer: Answer) -> Result<(), Trouble> {
    match answer {
        Answer::Refused(refusal) if !is_due_of_call(step, refusal) => {
            Err(Trouble::Unasked { step })
        }
        _ => Ok(()),
    }
}

/// Checks a device, which is not written then.
fn checks<A: Allocator + Clone>(alloc: A, disk: &mut Disk) -> Result<(), Trouble> {
    match checked(alloc, disk)? {
        Err(Finding::Refused(refusal)) if !is_due_of_opening(refusal) => {
            Err(Trouble::Refusal(refusal))
        }
        _ => Ok(()),
    }
}

/// Makes calls, each of which answers, or is refused as it may be.
fn call_all<A: Allocator + Clone>(subject: &mut Subject<A>, steps: &[Step]) -> Result<(), Trouble> {
    for step in steps {
        is_due(*step, subject.answer_alone(*step))?;
    }
    Ok(())
}

/// The same with results that are built.
fn work_all<R: Threads + Sync>(
    rt: &R,
    subject: &mut Subject<Global>,
    steps: &[Step],
) -> Result<(), Trouble> {
    for step in steps {
        is_due(*step, subject.answer(rt, *step))?;
    }
    Ok(())
}

/// Images that are changed, and what is done with their stores.
struct Tried {
    image: PlainImage,
    calls: Vec<Step>,
    work: Vec<Step>,
}

impl Drop for Tried {
    fn drop(self) {
        let Tried {
            image: _,
            calls: _,
            work: _,
        } = self;
    }
}

/// Checks and opens a changed image on a heap, and makes the calls. Returns whether it was opened.
fn try_in(alloc: Global, heap: &LocalHeap, tried: &Tried, spots: &[Spot]) -> Result<bool, Trouble> {
    let mut disk = changed(alloc, &tried.image, spots)?;
    checks(heap, &mut disk)?;
    let before = disk.writes();
    match open(heap, heap, disk) {
        Ok(mut subject) => {
            call_all(&mut subject, &tried.calls)?;
            Ok(true)
        }
        Err((refusal, disk)) if is_due_of_opening(refusal) => {
            is_untouched(disk, before, &tried.image, spots)?;
            Ok(false)
        }
        Err((refusal, _)) => Err(Trouble::Refusal(refusal)),
    }
}

/// Opens a changed image, and does jobs.
fn try_work<R: Threads + Sync>(
    rt: &R,
    alloc: Global,
    tried: &Tried,
    spots: &[Spot],
) -> Result<(), Trouble> {
    match open(alloc, alloc, changed(alloc, &tried.image, spots)?) {
        Ok(mut subject) => work_all(rt, &mut subject, &tried.work),
        Err(_) => Ok(()),
    }
}

/// Tries a changed image. The heap has all its bytes again then.
fn try_image(
    alloc: Global,
    heap: &LocalHeap,
    tried: &Tried,
    spots: &[Spot],
    tally: &mut Tally,
) -> Result<bool, Trouble> {
    let used = heap.used();
    let opened = try_in(alloc, heap, tried, spots)?;
    tally.count_case();
    if opened {
        tally.count_opening();
    }
    if heap.used() != used {
        return Err(Trouble::Leak(heap.used()));
    }
    Ok(opened)
}

/// The other bytes that one is changed to.
fn others(byte: u8) -> [u8; 5] {
    [0, 255, byte.wrapping_add(1), byte.wrapping_sub(1), byte ^ 1]
}

/// Whether a byte is among the first `count`.
fn is_among(others: &[u8; 5], count: usize, byte: u8) -> bool {
    for place in 0..5_usize {
        if place < count && others[place] == byte {
            return true;
        }
    }
    false
}

/// How many bytes at the beginning of a sector are changed in each sweep.
const FIRST: usize = 64;

/// How much of a sweep is done: one in `every` cases, or also all of those of the first bytes of sectors that are not zero.
#[derive(Clone, Copy)]
struct Share {
    every: u64,
    next: u64,
    firsts: bool,
}

impl Share {
    /// Whether a case is done, which may be one of the first bytes.
    fn takes(&mut self, is_first: bool) -> bool {
        if is_first && self.firsts {
            return true;
        }
        self.next = self.next.wrapping_add(1);
        if self.next >= self.every {
            self.next = 0;
            return true;
        }
        false
    }
}

/// Changes a byte to each of the others.
fn try_byte(
    alloc: Global,
    heap: &LocalHeap,
    tried: &Tried,
    (at, place): (u32, usize),
    share: &mut Share,
    tally: &mut Tally,
) -> Result<(), Trouble> {
    let old = byte_at(&tried.image, at, place);
    let is_first = place < FIRST && has_sector(&tried.image, at);
    let others = others(old);
    for turn in 0..5_usize {
        let byte = others[turn];
        if byte != old && !is_among(&others, turn, byte) && share.takes(is_first) {
            let spot = Spot { at, place, byte };
            try_image(alloc, heap, tried, &[spot], tally)?;
        }
    }
    Ok(())
}

/// Changes each byte of a sector.
fn try_sector(
    alloc: Global,
    heap: &LocalHeap,
    tried: &Tried,
    at: u32,
    share: &mut Share,
    tally: &mut Tally,
) -> Result<(), Trouble> {
    for place in 0..512_usize {
        try_byte(alloc, heap, tried, (at, place), share, tally)?;
    }
    Ok(())
}

/// The image that some lines make, to be changed.
fn to_change<R: Threads + Sync>(
    rt: &R,
    alloc: Global,
    past: &[ListedStep],
) -> Result<Tried, Trouble> {
    let beginning = begun(rt, alloc, past)?;
    let image = PlainImage {
        sectors: Vec::from_slice(alloc, &beginning.image.sectors)?,
    };
    Ok(Tried {
        image,
        calls: steps_of(alloc, CALLS)?,
        work: steps_of(alloc, WORK)?,
    })
}

/// Changes one byte at a time of the superblocks, the manifest and the table of an image with one key: one in `every`; where
/// `firsts` is true also each of the first bytes of a sector.
pub(crate) fn sweep_bytes<R: Threads + Sync>(
    rt: &R,
    alloc: Global,
    (every, firsts): (u64, bool),
    tally: &mut Tally,
) -> Result<(), Trouble> {
    let tried = to_change(rt, alloc, ONE_KEY)?;
    let heap = LocalHeap::new(alloc, MEMORY)?;
    let mut share = Share {
        every,
        next: 0,
        firsts,
    };
    let manifest = manifest_of(&tried.image);
    try_sector(alloc, &heap, &tried, 0, &mut share, tally)?;
    try_sector(alloc, &heap, &tried, 1, &mut share, tally)?;
    try_sector(alloc, &heap, &tried, manifest, &mut share, tally)?;
    for sector in 0..TABLE_SECTORS {
        let at = TABLE.wrapping_add(sector);
        try_sector(alloc, &heap, &tried, at, &mut share, tally)?;
    }
    Ok(())
}

/// Tries an image with some changes, and its jobs where it is opened.
fn try_drawn<R: Threads + Sync>(
    rt: &R,
    alloc: Global,
    (heap, tried): (&LocalHeap, &Tried),
    spots: &[Spot],
    tally: &mut Tally,
) -> Result<(), Trouble> {
    if try_image(alloc, heap, tried, spots, tally)? {
        try_work(rt, alloc, tried, spots)?;
    }
    Ok(())
}

/// Tries `images` images with several changes, of a store with many tables, with their jobs; and a tenth as many that lie.
pub(crate) fn sweep_drawn<R: Threads + Sync>(
    rt: &R,
    alloc: Global,
    images: u64,
    tally: &mut Tally,
) -> Result<(), Trouble> {
    let tried = to_change(rt, alloc, MANY_TABLES)?;
    let heap = LocalHeap::new(alloc, MEMORY)?;
    let mut draws = Draws::new(0);
    for number in 0..images {
        let spots = drawn_spots(alloc, &mut draws, &tried.image)?;
        try_drawn(rt, alloc, (&heap, &tried), &spots, tally)?;
        if number % 10 == 0 {
            let spots = drawn_lie(alloc, &mut draws, &tried.image)?;
            try_drawn(rt, alloc, (&heap, &tried), &spots, tally)?;
        }
    }
    Ok(())
}
