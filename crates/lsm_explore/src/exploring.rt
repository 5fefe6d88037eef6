// Every crash of a life, and every crash of the opening after it.
ghost use Rattle.std.specs.Prelude.{◌≡◌, ◌⊎◌, ◌≤◌, ◌<◌, ◌+◌, ◌∷◌, ◌^◌, ℕ, List, [], None, Some, false, IfOk, IfErr, OnOk, All, Err, ◌↔◌, drop, map, length, if◌then◌else◌};
ghost use Rattle.std.specs.List.{list_any};
ghost use Rattle.lsm_codec.specs.Map.{Operation};
ghost use Rattle.lsm_device.specs.declared.refusal.Refusal.TheVariants.{NoMemory, BadGeometry};
ghost use Rattle.lsm_device.specs.Disk.{IsSector, image};
ghost use Rattle.lsm_device.specs.Medium.{Medium, disk};
ghost use Rattle.lsm_device.specs.Outcomes.{Leaves};
ghost use Rattle.lsm_image.specs.Media.{begun, medium_in};
ghost use Rattle.lsm_root.specs.CrashState.{formatted as empty_store};
ghost use Rattle.lsm_open.specs.Image.{StandFor};
ghost use Rattle.lsm_root.specs.Layout.{IsGeometry};
ghost use Rattle.lsm_lives.specs.Calls.{asked_of, told_of};
ghost use Rattle.lsm_explore.specs.Expected.{AreExpected, MayBeLeft, batches_in, least_in};
ghost use Rattle.lsm_explore.specs.Exploring.{AddsCrashes, AddsLife, AddsOpening, AddsOpenings, IsExplored, IsExploredFrom, IsWhole, is_wanting, tells_no_memory};
ghost use Rattle.lsm_lives.specs.Leading.{IsLed};
ghost use Rattle.lsm_explore.specs.Masks.{is_skipped, masks_for};

use crate::expected::{Expected, expected_of};
use crate::judging::is_expected;
use crate::masks::{is_skipped, masks_for};
use lsm_device::{MemDevice, Refusal};
use lsm_image::{Image, ImageDevice, sectors_of};
use lsm_lives::{Reply, Step, open_and_make};
use lsm_open::format;
use lsm_progress::{Milestone, Progress};
use lsm_root::is_geometry;
use std::alloc::{AllocError, Allocator, Global};
use std::thread::Threads;

/// There is no memory to explore more steps.
const MOST_STEPS: usize = 4_294_967_295;

/// What was explored.
#[derive(Clone, Copy, Debug, PartialEq, Eq)]
pub struct Explored {
    /// The crashes of the life: one for each fuse and each mask.
    pub first: u64,
    /// The crashes of the openings of what those left: one for each fuse and each mask again.
    pub second: u64,
    /// The moments at which more than 12 writes pended, so that three masks stood for all.
    pub skipped: u64,
    /// The last openings and scans that showed what the promise over crashes doesn't allow.
    pub wrong: u64,
}

// `count` + 1. At the last number the exploration ends.
fn one_more(count: u64) -> Result<u64, Refusal>
    ensures more { IfOk result (λ more. more ≡ count + 1) }
    ensures refused { IfErr result (λ e. e ≡ NoMemory) }
{
    match count.checked_add(1) {
        Some(more) => Ok(more),
        None => Err(Refusal::NoMemory),
    }
}

// The sectors of a device with an empty store.
fn formatted<A: Allocator + Clone>(
    alloc: &A,
    sectors: u32,
    log_sectors: u16,
) -> Result<Vec<[u8; 512], A>, Refusal>
    ensures formatted { IfOk result (λ made. StandFor log_sectors empty_store made.items) }
    ensures size { IfOk result (λ made. length made.items ≡ sectors) }
    ensures whole { IfOk result (λ made. All IsSector made.items) }
    ensures refused { IfErr result (λ e. e ≡ NoMemory) }
{
    let device = MemDevice::new(alloc.clone()?, sectors)?;
    match format(alloc.clone()?, device, log_sectors) {
        Ok(mut device) => match sectors_of(alloc.clone()?, &mut device) {
            Ok(sectors) => Ok(sectors),
            Err(_) => Err(Refusal::NoMemory),
        },
        Err(_) => Err(Refusal::NoMemory),
    }
}

// A life that was led until its crash: its replies, and the device.
#[derive(Drop)]
struct Led<'i, A: Allocator> {
    replies: Vec<Reply<A>, A>,
    device: ImageDevice<'i, A>,
}

// Leads a life on an image until its crash.
fn lead<'i, R: Threads + Sync, A: Allocator + Clone + Send + Sync>(
    rt: &R,
    alloc: &A,
    image: &Image<'i, A>,
    steps: &[Step<A>],
    fuse: Option<u64>,
) -> Result<Led<'i, A>, Refusal>
    ensures led { IfOk result
        (λ led. IsLed (begun image.now fuse) (map asked_of steps.now)
        (map told_of led.replies.items) (medium_in led.device)) }
    ensures refused { IfErr result (λ e. e ≡ NoMemory) }
{
    let Some(places) = steps.len().checked_add(1) else {
        return Err(Refusal::NoMemory);
    };
    let mut replies = Vec::with_capacity(alloc.clone()?, places)?;
    let mut results = Vec::with_capacity(alloc.clone()?, steps.len())?;
    let device = image.device(alloc.clone()?, fuse)?;
    let device = open_and_make(rt, alloc, device, steps, &mut results, &mut replies);
    Ok(Led { replies, device })
}

// Leads a life with a fuse on an image until its crash. Fails where memory was wanting in it: that was told, or not just as many
// writes and syncs answered Ok as the fuse says.
fn lead_fused<'i, R: Threads + Sync, A: Allocator + Clone + Send + Sync>(
    rt: &R,
    alloc: &A,
    image: &Image<'i, A>,
    steps: &[Step<A>],
    fuse: u64,
) -> Result<Led<'i, A>, Refusal>
    ensures led { IfOk result
        (λ led. IsLed (begun image.now (Some fuse)) (map asked_of steps.now)
        (map told_of led.replies.items) (medium_in led.device)) }
    ensures memory { IfOk result (λ led. is_wanting (map told_of led.replies.items) ≡ false) }
    ensures passed { IfOk result (λ led. (medium_in led.device).calls.passed ≡ fuse) }
    ensures refused { IfErr result (λ e. e ≡ NoMemory) }
{
    let led = lead(rt, alloc, image, steps, Some(fuse))?;
    if is_wanting(&led.replies) {
        return Err(Refusal::NoMemory);
    }
    let counts = led.device.calls();
    if counts.passed != fuse {
        return Err(Refusal::NoMemory);
    }
    Ok(led)
}

// Leads a life that makes no step on an image, with a fuse.
fn lead_opening<'i, R: Threads + Sync, A: Allocator + Clone + Send + Sync>(
    rt: &R,
    alloc: &A,
    image: &Image<'i, A>,
    fuse: u64,
) -> Result<Led<'i, A>, Refusal>
    ensures led { IfOk result
        (λ led. IsLed (begun image.now (Some fuse)) [] (map told_of led.replies.items)
        (medium_in led.device)) }
    ensures memory { IfOk result (λ led. is_wanting (map told_of led.replies.items) ≡ false) }
    ensures passed { IfOk result (λ led. (medium_in led.device).calls.passed ≡ fuse) }
    ensures refused { IfErr result (λ e. e ≡ NoMemory) }
{
    let steps: Vec<Step<A>, A> = Vec::new(alloc.clone()?);
    let led = lead_fused(rt, alloc, image, &steps, fuse)?;
    Ok(led)
}

// Whether a reply tells of want of memory.
fn tells_no_memory<A: Allocator>(reply: &Reply<A>) -> bool
    ensures { result ≡ tells_no_memory (told_of reply.now) }
{
    matches!(reply, Reply::Refused(Refusal::NoMemory))
}

// Whether one of the replies does.
fn one_tells_no_memory<A: Allocator>(replies: &[Reply<A>]) -> bool
    ensures { result ≡ list_any (λ reply. tells_no_memory (told_of reply)) replies.now }
{
    replies.iter().any(|reply| tells_no_memory(reply))
}

// Whether an opening or a step was refused for want of memory.
fn is_wanting<A: Allocator>(replies: &[Reply<A>]) -> bool
    ensures { result ≡ is_wanting (map told_of replies.now) }
{
    one_tells_no_memory(replies)
}

// How many fuses there are to try on a life: one for each number of writes and syncs that may be answered Ok before the others
// fault, up to as many as the life makes without a fuse.
fn fuses<R: Threads + Sync, A: Allocator + Clone + Send + Sync>(
    rt: &R,
    alloc: &A,
    image: &Image<'_, A>,
    steps: &[Step<A>],
) -> Result<u64, Refusal>
    ensures whole { IfOk result
        (λ count. (whole : Medium) × IsWhole image.now (map asked_of steps.now) whole
        × (count ≡ whole.calls.passed + 1)) }
    ensures refused { IfErr result (λ e. e ≡ NoMemory) }
{
    let led = lead(rt, alloc, image, steps, None)?;
    let counts = led.device.calls();
    if is_wanting(&led.replies) {
        return Err(Refusal::NoMemory);
    }
    if counts.faults != 0 {
        return Err(Refusal::NoMemory);
    }
    let count = one_more(counts.passed)?;
    Ok(count)
}

// Counts a moment at which not each subset of the pending writes is tried.
fn count_skipped(pending: usize, explored: &mut Explored) -> Result<(), Refusal>
    ensures skipped { OnOk result
        (explored.new.skipped ≡ explored.old.skipped + (if is_skipped pending then 1 else 0)) }
    ensures same { (explored.new.first ≡ explored.old.first)
        × (explored.new.second ≡ explored.old.second) × (explored.new.wrong ≡ explored.old.wrong) }
    ensures refused { IfErr result (λ e. e ≡ NoMemory) }
{
    if is_skipped(pending) {
        explored.skipped = one_more(explored.skipped)?;
    }
    Ok(())
}

// Judges what a crash left.
fn judge<A: Allocator + Clone>(
    alloc: &A,
    left: &Image<'_, A>,
    expected: &Expected<'_, A>,
    explored: &mut Explored,
) -> Result<(), Refusal>
    requires { (least : ℕ) × (batches : List (List Operation))
        × AreExpected least batches expected.now × MayBeLeft 0 least batches left.now }
    ensures same { OnOk result (explored.new ≡ explored.old) }
    ensures refused { IfErr result (λ e. e ≡ NoMemory) }
{
    if !is_expected(alloc, left, expected)? {
        explored.wrong = one_more(explored.wrong)?;
    }
    Ok(())
}

// Crashes the device of an opening by each of these masks, and judges what is left.
fn judge_each<A: Allocator + Clone>(
    alloc: &A,
    device: &ImageDevice<'_, A>,
    masks: &[Vec<bool, A>],
    expected: &Expected<'_, A>,
    explored: &mut Explored,
) -> Result<(), Refusal>
    requires may { (least : ℕ) × (batches : List (List Operation))
        × AreExpected least batches expected.now
        × Leaves (MayBeLeft 0 least batches) (disk (medium_in device.now)) }
    ensures second { OnOk result (explored.new.second ≡ explored.old.second + length masks.now) }
    ensures same { OnOk result
        ((explored.new.first ≡ explored.old.first) × (explored.new.skipped ≡ explored.old.skipped)
        × (explored.new.wrong ≡ explored.old.wrong)) }
    ensures refused { IfErr result (λ e. e ≡ NoMemory) }
{
    for mask in masks {
        explored.second = one_more(explored.second)?;
        let left = device.left(alloc.clone()?, mask)?;
        judge(alloc, &left, expected, explored)?;
    }
    Ok(())
}

// Opens what a crash left with a fuse, and crashes it by each mask.
fn reopen_one<R: Threads + Sync, A: Allocator + Clone + Send + Sync>(
    rt: &R,
    alloc: &A,
    left: &Image<'_, A>,
    fuse: u64,
    expected: &Expected<'_, A>,
    explored: &mut Explored,
) -> Result<(), Refusal>
    requires may { (least : ℕ) × (batches : List (List Operation))
        × AreExpected least batches expected.now × MayBeLeft 1 least batches left.now }
    ensures adds { OnOk result (AddsOpening left.now fuse explored.old explored.new) }
    ensures refused { IfErr result (λ e. e ≡ NoMemory) }
{
    let led = lead_opening(rt, alloc, left, fuse)?;
    let waiting = led.device.pending();
    count_skipped(waiting, explored)?;
    let masks = masks_for(alloc, waiting)?;
    judge_each(alloc, &led.device, &masks, expected, explored)?;
    Ok(())
}

// Opens what a crash left with each fuse, and crashes it by each mask.
fn reopen_each<R: Threads + Sync, A: Allocator + Clone + Send + Sync>(
    rt: &R,
    alloc: &A,
    left: &Image<'_, A>,
    expected: &Expected<'_, A>,
    explored: &mut Explored,
) -> Result<(), Refusal>
    requires may { (least : ℕ) × (batches : List (List Operation))
        × AreExpected least batches expected.now × MayBeLeft 1 least batches left.now }
    ensures adds { OnOk result (AddsOpenings left.now explored.old explored.new) }
    ensures refused { IfErr result (λ e. e ≡ NoMemory) }
{
    let steps: Vec<Step<A>, A> = Vec::new(alloc.clone()?);
    let count = fuses(rt, alloc, left, &steps)?;
    for fuse in 0..count {
        reopen_one(rt, alloc, left, fuse, expected, explored)?;
    }
    Ok(())
}

// Counts a crash of the life.
fn count_first(explored: &mut Explored) -> Result<(), Refusal>
    ensures first { OnOk result (explored.new.first ≡ explored.old.first + 1) }
    ensures same { (explored.new.second ≡ explored.old.second)
        × (explored.new.skipped ≡ explored.old.skipped)
        × (explored.new.wrong ≡ explored.old.wrong) }
    ensures refused { IfErr result (λ e. e ≡ NoMemory) }
{
    explored.first = one_more(explored.first)?;
    Ok(())
}

// Judges what one crash of a life left, or opens it and crashes it again.
fn crash_one<R: Threads + Sync, A: Allocator + Clone + Send + Sync>(
    rt: &R,
    alloc: &A,
    left: &Image<'_, A>,
    expected: &Expected<'_, A>,
    twice: bool,
    explored: &mut Explored,
) -> Result<(), Refusal>
    requires may { (least : ℕ) × (batches : List (List Operation))
        × AreExpected least batches expected.now × MayBeLeft 1 least batches left.now }
    ensures adds { OnOk result (AddsCrashes (left.now ∷ []) twice explored.old explored.new) }
    ensures refused { IfErr result (λ e. e ≡ NoMemory) }
{
    count_first(explored)?;
    if twice {
        reopen_each(rt, alloc, left, expected, explored)?;
        return Ok(());
    }
    judge(alloc, left, expected, explored)?;
    Ok(())
}

// Crashes the device of a life by each of these masks.
fn crash_each<R: Threads + Sync, A: Allocator + Clone + Send + Sync>(
    rt: &R,
    alloc: &A,
    device: &ImageDevice<'_, A>,
    masks: &[Vec<bool, A>],
    expected: &Expected<'_, A>,
    twice: bool,
    explored: &mut Explored,
) -> Result<(), Refusal>
    requires may { (least : ℕ) × (batches : List (List Operation))
        × AreExpected least batches expected.now
        × Leaves (MayBeLeft 1 least batches) (disk (medium_in device.now)) }
    ensures adds { OnOk result
        (AddsCrashes (map (λ mask. image mask.items (disk (medium_in device.now))) masks.now) twice
        explored.old explored.new) }
    ensures refused { IfErr result (λ e. e ≡ NoMemory) }
{
    for mask in masks {
        let left = device.left(alloc.clone()?, mask)?;
        crash_one(rt, alloc, &left, expected, twice, explored)?;
    }
    Ok(())
}

// What may be left of a life that was told so, where the first that was told is what its opening answered.
fn expected_behind<'s, A: Allocator + Clone>(
    alloc: &A,
    steps: &'s [Step<A>],
    replies: &[Reply<A>],
) -> Result<Expected<'s, A>, AllocError>
    requires { length replies.now ≡ length steps.now + 1 }
    ensures { IfOk result
        (AreExpected (least_in (map asked_of steps.now) (drop 1 (map told_of replies.now)))
        (batches_in (map asked_of steps.now) (drop 1 (map told_of replies.now)))) }
{
    let expected = expected_of(alloc, steps, &replies[1..])?;
    Ok(expected)
}

// Leads a life with a fuse, and crashes it by each mask.
fn explore_one<R: Threads + Sync, A: Allocator + Clone + Send + Sync>(
    rt: &R,
    alloc: &A,
    start: &Image<'_, A>,
    steps: &[Step<A>],
    fuse: u64,
    twice: bool,
    explored: &mut Explored,
) -> Result<(), Refusal>
    requires formatted { (log_sectors : ℕ) × StandFor log_sectors empty_store start.now }
    requires few { length steps.now < 2 ^ 32 }
    ensures adds { OnOk result
        (AddsLife start.now (map asked_of steps.now) fuse twice explored.old explored.new) }
    ensures refused { IfErr result (λ e. e ≡ NoMemory) }
{
    let led = lead_fused(rt, alloc, start, steps, fuse)?;
    let expected = expected_behind(alloc, steps, &led.replies)?;
    let waiting = led.device.pending();
    count_skipped(waiting, explored)?;
    let masks = masks_for(alloc, waiting)?;
    crash_each(rt, alloc, &led.device, &masks, &expected, twice, explored)?;
    Ok(())
}

// Explores a life of these steps on an image.
fn explore_from<R: Threads + Sync, A: Allocator + Clone + Send + Sync, P: Progress>(
    rt: &R,
    alloc: &A,
    start: &Image<'_, A>,
    steps: &[Step<A>],
    twice: bool,
    progress: &mut P,
) -> Result<Explored, Refusal>
    requires formatted { (log_sectors : ℕ) × StandFor log_sectors empty_store start.now }
    requires few { length steps.now < 2 ^ 32 }
    ensures right { IfOk result (λ explored. explored.wrong ≡ 0) }
    ensures lives { IfOk result
        (λ explored. IsExploredFrom start.now (map asked_of steps.now) twice explored) }
    ensures refused { IfErr result (λ e. e ≡ NoMemory) }
{
    let mut explored = Explored {
        first: 0,
        second: 0,
        skipped: 0,
        wrong: 0,
    };
    let count = fuses(rt, alloc, start, steps)?;
    for fuse in 0..count {
        progress.reached(Milestone::Explored {
            states: explored.first.saturating_add(explored.second),
            fuse,
            fuses: count,
        });
        explore_one(rt, alloc, start, steps, fuse, twice, &mut explored)?;
    }
    Ok(explored)
}

/// Explores a life of these steps on a freshly formatted device: it stops it by each fuse from 0 to the number of its writes
/// and syncs, its opening included, and crashes it by each mask of the writes that pend then. What is left is opened without
/// a fuse, and its whole map scanned. With `twice` the opening of what is left is first stopped and crashed in the same way.
/// Where more than 12 writes pend only three masks are tried: none, all, and every second one from the first on. It tells
/// `progress` of each fuse before it tries it.
///
/// Fails with `BadGeometry` where the device wouldn't have 8,192 to 1,048,576 sectors, or a log region 128 to 2,048,
/// and with `NoMemory`, also where memory was wanting in one of the lives that it leads.
pub fn explore<R: Threads + Sync, A: Allocator + Clone + Send + Sync, P: Progress>(
    rt: &R,
    alloc: A,
    sectors: u32,
    log_sectors: u16,
    steps: &[Step<A>],
    twice: bool,
    progress: &mut P,
) -> Result<Explored, Refusal>
    // Whatever the steps and the fuses, the masks and the faults: each store that is opened at last has one of the maps that the
    // promise over crashes allows.
    ensures right { IfOk result (λ explored. explored.wrong ≡ 0) }

    // Just the crashes are counted of lives that were led so.
    ensures explored { IfOk result
        (λ explored. IsExplored sectors log_sectors (map asked_of steps.now) twice explored) }
    ensures geometry { (result ≡ Err BadGeometry) ↔ (IsGeometry sectors log_sectors → ⊥) }
    ensures refused { IfErr result (λ e. (e ≡ NoMemory) ⊎ (e ≡ BadGeometry)) }
{
    if !is_geometry(sectors, log_sectors) {
        return Err(Refusal::BadGeometry);
    }
    if steps.len() > MOST_STEPS {
        return Err(Refusal::NoMemory);
    }
    let made = formatted(&alloc, sectors, log_sectors)?;
    let start = Image::of(alloc.clone()?, &made);
    let explored = explore_from(rt, &alloc, &start, steps, twice, progress)?;
    Ok(explored)
}
