// Lives of a store on a device, each from an opening to a crash.
ghost use Rattle.std.specs.Prelude.{◌≡◌, ◌≢◌, ◌≤◌, ◌+◌, ◌++◌, ℕ, List, [], map, length, IfErr, IfOk, MatchResult, IsSome, IsTrue, None, vec_capacity, vec_len};
ghost use Rattle.std.specs.List.{AllByRecursion};
ghost use Rattle.lsm_codec.specs.Map.{Operation};
ghost use Rattle.lsm_device.specs.Medium.{disk, crashed};
ghost use Rattle.lsm_device.specs.Memory.{medium_in, fuse_in, failure_in};
ghost use Rattle.lsm_device.specs.Outcomes.{Leaves};
ghost use Rattle.lsm_lives.specs.Asked.{told_stopped};
ghost use Rattle.lsm_lives.specs.Calls.{asked_of, told_of};
ghost use Rattle.lsm_lives.specs.Leading.{life_of, BeginsOn, FailsOn, IsLed, LeadsTo, AreLed, with_fuse};
ghost use Rattle.lsm_lives.specs.Living.{asked_by, told_by, KeepPromise, HavePlaces};
ghost use Rattle.lsm_root.specs.CrashState.{CrashState};
ghost use Rattle.lsm_open.specs.Image.{StandFor};
ghost use Rattle.lsm_machine.specs.Lives.{IsAfter};

use crate::calls::{Reply, Step};
use crate::replaying::make_each;
use lsm_device::{Device, MemDevice, Refusal};
use lsm_merge::Built;
use lsm_store::Store;
use std::alloc::{AllocError, Allocator, Global};
use std::thread::Threads;

/// How many blocks of tables an opened store may keep in memory: in a life, and wherever else the program opens one.
pub const CACHE_BLOCKS: u32 = 256;

/// A life of a store on a device, from an opening to a crash.
#[derive(Drop)]
pub struct Life<A: Allocator = Global> {
    /// How many writes and syncs answer Ok before each later one faults. With none the device is taken as it is.
    pub fuse: Option<u64>,
    /// What is done with the store.
    pub steps: Vec<Step<A>, A>,
    /// Which of the pending writes the crash keeps. A place that is missing is false.
    pub mask: Vec<bool, A>,
}

/// Lives one after another on a device, each on what the crash before it left. A life sets the fuse, opens the store,
/// makes the steps and crashes. Its replies are first the number of batches that its opening found, or the refusal of
/// that, and then those of the steps; where the opening was refused, each of these is `Stopped`.
///
/// Fails only with `NoMemory`, where there is no place for all replies and results, before anything is done. It gives
/// the device back, as the last crash left it.
pub fn lives<R: Threads + Sync, A: Allocator + Clone + Send + Sync, B: Allocator>(
    rt: &R,
    alloc: A,
    device: MemDevice<B>,
    lives: &[Life<A>],
) -> Result<(Vec<Vec<Reply<A>, A>, A>, MemDevice<B>), (Refusal, MemDevice<B>)>
    ensures refused { IfErr result (λ e. e ≡ (Refusal.NoMemory, device)) }

    // Whatever the device holds, life by life it is the same device: the fuse is set, the store is opened, makes the
    // steps and replies, and the device crashes by the mask. Without a life it comes back as it came.
    ensures led { IfOk result
        (λ given. AreLed (map life_of lives.now) (medium_in device) (told_by given.0.items)
        (medium_in given.1)) }
    ensures no_life { lives.now ≡ [] → IfOk result (λ given. given.1 ≡ device) }
    ensures disarmed { lives.now ≢ []
        → IfOk result (λ given. (fuse_in given.1 ≡ None) × (failure_in given.1 ≡ None)) }

    // The promise over crashes: on a device that holds the map after some batches, as it does after a format and after
    // other lives, each life keeps a beginning of the batches, with every acknowledged one.
    ensures promise { (log_sectors : ℕ) (before : List (List Operation)) (opened : CrashState)
        → IsAfter before opened → Leaves (StandFor log_sectors opened) (disk (medium_in device))
        → IfOk result (λ given. KeepPromise log_sectors before opened (asked_by lives.now)
        (told_by given.0.items) (disk (medium_in given.1))) }
{
    let mut replies = match places(&alloc, lives) {
        Ok(replies) => replies,
        Err(_) => return Err((Refusal::NoMemory, device)),
    };
    let mut results = match result_places(&alloc, lives) {
        Ok(results) => results,
        Err(_) => return Err((Refusal::NoMemory, device)),
    };
    let device = live_each(rt, &alloc, device, lives, &mut results, &mut replies);
    Ok((replies, device))
}

// Makes a place for each reply of each life.
fn places<A: Allocator + Clone>(
    alloc: &A,
    lives: &[Life<A>],
) -> Result<Vec<Vec<Reply<A>, A>, A>, AllocError>
    ensures { IfOk result (λ places. HavePlaces lives.now places.items) }
{
    let mut places = Vec::with_capacity(alloc.clone()?, lives.len())?;
    for life in lives {
        let count = life.steps.len() + 1;
        places.push(Vec::with_capacity(alloc.clone()?, count)?)?;
    }
    Ok(places)
}

// Makes places for the results that a life may build: one for each step of the longest.
fn result_places<A: Allocator + Clone>(
    alloc: &A,
    lives: &[Life<A>],
) -> Result<Vec<Built<A>, A>, AllocError>
    ensures { IfOk result (λ results. (results.items ≡ [])
        × AllByRecursion (λ life. vec_len life.steps ≤ vec_capacity results) lives.now) }
{
    let most = most_steps(lives);
    let results = Vec::with_capacity(alloc.clone()?, most)?;
    Ok(results)
}

// The number of steps of the longest life.
fn most_steps<A: Allocator>(lives: &[Life<A>]) -> usize
    ensures { AllByRecursion (λ life. vec_len life.steps ≤ result) lives.now }
{
    let mut most = 0;
    for life in lives {
        most = larger(most, life.steps.len());
    }
    most
}

fn larger(a: usize, b: usize) -> usize
    ensures { (a ≤ result) × (b ≤ result) }
{
    if a < b { b } else { a }
}

// Leads the lives one after another, and puts their replies into the places.
fn live_each<R: Threads + Sync, A: Allocator + Clone + Send + Sync, B: Allocator>(
    rt: &R,
    alloc: &A,
    device: MemDevice<B>,
    lives: &[Life<A>],
    results: &mut Vec<Built<A>, A>,
    places: &mut Vec<Vec<Reply<A>, A>, A>,
) -> MemDevice<B>
    requires places { HavePlaces lives.now places.old.items }
    requires results { (results.old.items ≡ [])
        × AllByRecursion (λ life. vec_len life.steps ≤ vec_capacity results.old) lives.now }
    ensures led { AreLed (map life_of lives.now) (medium_in device) (told_by places.new.items)
        (medium_in result) }
    ensures no_life { lives.now ≡ [] → result ≡ device }
    ensures disarmed { lives.now ≢ [] → (fuse_in result ≡ None) × (failure_in result ≡ None) }
{
    let mut device = device;
    for (index, life) in lives.iter().enumerate() {
        device = live(rt, alloc, device, life, results, &mut places[index]);
    }
    device
}

// Leads one life.
fn live<R: Threads + Sync, A: Allocator + Clone + Send + Sync, B: Allocator>(
    rt: &R,
    alloc: &A,
    device: MemDevice<B>,
    life: &Life<A>,
    results: &mut Vec<Built<A>, A>,
    replies: &mut Vec<Reply<A>, A>,
) -> MemDevice<B>
    requires none_yet { replies.old.items ≡ [] }
    requires none_built { results.old.items ≡ [] }
    requires places { vec_len life.now.steps ≤ vec_capacity results.old }
    requires room { vec_len life.now.steps + 1 ≤ vec_capacity replies.old }
    ensures led { LeadsTo (life_of life.now) (medium_in device) (map told_of replies.new.items)
        (medium_in result) }
    ensures let_go { (results.new.items ≡ [])
        × (vec_capacity results.new ≡ vec_capacity results.old) }
    ensures disarmed { (fuse_in result ≡ None) × (failure_in result ≡ None) }
{
    let mut device = device;
    set_fuse(&mut device, life.fuse);
    let device = open_and_make(rt, alloc, device, &life.steps, results, replies);
    results.clear();
    crash(device, &life.mask)
}

// Sets the fuse, where there is one.
fn set_fuse<B: Allocator>(device: &mut MemDevice<B>, fuse: Option<u64>)
    ensures fuse { IsSome fuse → fuse_in device.new ≡ fuse }
    ensures medium { medium_in device.new ≡ with_fuse fuse (medium_in device.old) }
{
    if let Some(n) = fuse {
        device.fuse(n);
    }
}

// Crashes the device: of the pending writes those are kept that the mask says.
fn crash<B: Allocator>(device: MemDevice<B>, mask: &[bool]) -> MemDevice<B>
    ensures left { medium_in result ≡ crashed mask.now (medium_in device) }
    ensures disarmed { (fuse_in result ≡ None) × (failure_in result ≡ None) }
{
    device.crash(mask)
}

/// A life until its crash, on a device that tells what it holds: opens the store and makes the steps. The replies stand as
/// [`lives`] gives them, in the places that there are; of the results of builds there are those that were built.
pub fn open_and_make<R: Threads + Sync, A: Allocator + Clone + Send + Sync, D: Device>(
    rt: &R,
    alloc: &A,
    device: D,
    steps: &[Step<A>],
    results: &mut Vec<Built<A>, A>,
    replies: &mut Vec<Reply<A>, A>,
) -> D
    requires tells { IsTrue (D.medium device).lasting.tells }
    requires none_yet { replies.old.items ≡ [] }
    requires none_built { results.old.items ≡ [] }
    requires places { length steps.now ≤ vec_capacity results.old }
    requires room { length steps.now + 1 ≤ vec_capacity replies.old }
    ensures led { IsLed (D.medium device) (map asked_of steps.now) (map told_of replies.new.items)
        (D.medium result) }
    ensures same_places { vec_capacity results.new ≡ vec_capacity results.old }
{
    match open(alloc, device) {
        Ok(mut store) => {
            replies.push_reserved(Reply::Number(store.batch_count()));
            make_each(rt, alloc, &mut store, steps, results, replies);
            store.into_device()
        }
        Err((refusal, device)) => {
            replies.push_reserved(Reply::Refused(refusal));
            refuse_each(steps, replies);
            device
        }
    }
}

/// Opens the store of a device that tells what it holds, with a cache of [`CACHE_BLOCKS`]. Fails as that does, and with
/// `NoMemory`; it hands the device back then.
pub fn open<D: Device, A: Allocator + Clone>(
    alloc: &A,
    device: D,
) -> Result<Store<D, A>, (Refusal, D)>
    requires tells { IsTrue (D.medium device).lasting.tells }
    ensures { MatchResult result (λ s. BeginsOn (D.medium device) s)
        (λ e. FailsOn (D.medium device) e.0 (D.medium e.1)) }
{
    match alloc.clone() {
        Ok(alloc) => Store::open(alloc, device, CACHE_BLOCKS),
        Err(_) => Err((Refusal::NoMemory, device)),
    }
}

// Each step is answered that the store is stopped.
fn refuse_each<A: Allocator>(steps: &[Step<A>], replies: &mut Vec<Reply<A>, A>)
    requires room { vec_len replies.old + length steps.now ≤ vec_capacity replies.old }
    ensures { map told_of replies.new.items ≡ map told_of replies.old.items
        ++ told_stopped (map asked_of steps.now) }
{
    for _step in steps {
        replies.push_reserved(Reply::Refused(Refusal::Stopped));
    }
}
