// What may be left of a life, by its steps and replies: the maps after which beginnings of its batches.
ghost use Rattle.std.specs.Prelude.{◌≡◌, ◌≤◌, ◌++◌, ◌∷◌, ℕ, [], map, length, option_map, IfOk, OnOk, if◌then◌else◌};
ghost use Rattle.std.specs.FinMap as finite;
ghost use Rattle.lsm_codec.specs.Map.{Map, apply_all};
ghost use Rattle.lsm_machine.specs.Promise.{accepted_by, acknowledged_by, maps_after};
ghost use Rattle.lsm_lives.specs.Asked.{step_in};
ghost use Rattle.lsm_lives.specs.Calls.{asked_of, told_of};
ghost use Rattle.lsm_explore.specs.Expected.{AreExpected, as_list, batches_in, last_of, flies_by, least_in, maps_from, reply_in};
ghost use Rattle.lsm_explore.specs.Plain.{AreRows, rows_of};

use crate::plain::applied;
use lsm_codec::Batch;
use lsm_device::Refusal;
use lsm_lives::{Call, Reply, Step, Work};
use lsm_store::RowRef;
use std::alloc::{AllocError, Allocator};

/// The batches of a life that a crash may keep, in order: those that were accepted, and then the one in flight. And how many
/// of them it keeps at least, since they were acknowledged as synced.
#[derive(Drop)]
pub(crate) struct Batches<'s, A: Allocator> {
    pub(crate) all: Vec<&'s Batch<A>, A>,
    pub(crate) least: usize,
}

/// The maps of which a crash may leave one, the first after `least` batches, and each other one after one batch more.
#[derive(Drop)]
pub(crate) struct Expected<'s, A: Allocator> {
    pub(crate) least: usize,
    pub(crate) maps: Vec<Vec<RowRef<'s>, A>, A>,
}

// The batch that a step commits, if its reply is that it was accepted.
fn accepted_by<'s, A: Allocator>(step: &'s Step<A>, reply: &Reply<A>) -> Option<&'s Batch<A>>
    ensures { as_list (option_map (λ batch. batch.now) result)
        ≡ accepted_by (step_in [] (asked_of step.now)) (reply_in (told_of reply.now)) }
{
    match (step, reply) {
        (Step::Call(Call::Commit(batch)), Reply::Number(_)) => Some(batch),
        (Step::Call(Call::CommitIf(_, batch)), Reply::Number(_)) => Some(batch),
        _ => None,
    }
}

// The batch that a step commits, if it is told of a fault: it may have been written.
fn flies_by<'s, A: Allocator>(step: &'s Step<A>, reply: &Reply<A>) -> Option<&'s Batch<A>>
    ensures { as_list (option_map (λ batch. batch.now) result)
        ≡ flies_by (step_in [] (asked_of step.now)) (reply_in (told_of reply.now)) }
{
    match (step, reply) {
        (Step::Call(Call::Commit(batch)), Reply::Refused(Refusal::Io)) => Some(batch),
        (Step::Call(Call::CommitIf(_, batch)), Reply::Refused(Refusal::Io)) => Some(batch),
        _ => None,
    }
}

// Whether a reply acknowledges all batches that were accepted before it, where `known` already were acknowledged.
fn acknowledges<A: Allocator>(step: &Step<A>, reply: &Reply<A>, known: usize) -> bool
    ensures { (done : ℕ) → (if result then done else known)
        ≡ acknowledged_by 0 done known (step_in [] (asked_of step.now))
        (reply_in (told_of reply.now)) }
{
    match (step, reply) {
        (Step::Call(Call::Sync), Reply::Done) => true,
        (Step::Call(Call::Rotate), Reply::Done) => true,
        (Step::Call(Call::SyncTo(number)), Reply::Done) => *number > known as u64,
        (Step::Work(Work::Install(_)), Reply::Done) => true,
        _ => false,
    }
}

// How many of the accepted batches are acknowledged after a step, where `accepted` were accepted before it and `known`
// acknowledged.
fn acknowledged<A: Allocator>(
    step: &Step<A>,
    reply: &Reply<A>,
    accepted: usize,
    known: usize,
) -> usize
    ensures { result ≡ acknowledged_by 0 accepted known (step_in [] (asked_of step.now))
        (reply_in (told_of reply.now)) }
{
    if acknowledges(step, reply, known) {
        accepted
    } else {
        known
    }
}

// Adds the batch that a step commits, if its reply is that it was accepted.
fn add_accepted<'s, A: Allocator>(
    accepted: &mut Vec<&'s Batch<A>, A>,
    step: &'s Step<A>,
    reply: &Reply<A>,
) -> Result<(), AllocError>
    ensures { OnOk result (map (λ batch. batch.now) accepted.new.items
        ≡ map (λ batch. batch.now) accepted.old.items
        ++ accepted_by (step_in [] (asked_of step.now)) (reply_in (told_of reply.now))) }
{
    push_some(accepted, accepted_by(step, reply))
}

// Adds a batch, if there is one.
fn push_some<'s, A: Allocator>(
    batches: &mut Vec<&'s Batch<A>, A>,
    batch: Option<&'s Batch<A>>,
) -> Result<(), AllocError>
    ensures { OnOk result (map (λ batch. batch.now) batches.new.items
        ≡ map (λ batch. batch.now) batches.old.items
        ++ as_list (option_map (λ batch. batch.now) batch.entry)) }
{
    if let Some(batch) = batch {
        batches.push(batch)?;
    }
    Ok(())
}

// The batch that may be in flight after a step: that of the last commit that was told of a fault.
fn flying<'s, A: Allocator>(
    before: Option<&'s Batch<A>>,
    step: &'s Step<A>,
    reply: &Reply<A>,
) -> Option<&'s Batch<A>>
    ensures { as_list (option_map (λ batch. batch.now) result)
        ≡ last_of (as_list (option_map (λ batch. batch.now) before.entry))
        (flies_by (step_in [] (asked_of step.now)) (reply_in (told_of reply.now))) }
{
    match flies_by(step, reply) {
        Some(batch) => Some(batch),
        None => before,
    }
}

// The batches of a life that began with the empty map.
fn batches_of<'s, A: Allocator + Clone>(
    alloc: &A,
    steps: &'s [Step<A>],
    replies: &[Reply<A>],
) -> Result<Batches<'s, A>, AllocError>
    requires { length replies.now ≡ length steps.now }
    ensures batches { IfOk result
        (λ b. map (λ batch. batch.now) b.all.items
        ≡ batches_in (map asked_of steps.now) (map told_of replies.now)) }
    ensures least { IfOk result
        (λ b. b.least ≡ least_in (map asked_of steps.now) (map told_of replies.now)) }
    ensures within { IfOk result (λ b. b.least ≤ length b.all.items) }
{
    let mut accepted = Vec::new(alloc.clone()?);
    let mut in_flight = None;
    let mut least = 0;
    for (i, step) in steps.iter().enumerate() {
        let reply = &replies[i];
        least = acknowledged(step, reply, accepted.len(), least);
        add_accepted(&mut accepted, step, reply)?;
        in_flight = flying(in_flight, step, reply);
    }
    push_some(&mut accepted, in_flight)?;
    Ok(Batches {
        all: accepted,
        least,
    })
}

/// What may be left of a life that began with the empty map, by what its steps were replied.
pub(crate) fn expected_of<'s, A: Allocator + Clone>(
    alloc: &A,
    steps: &'s [Step<A>],
    replies: &[Reply<A>],
) -> Result<Expected<'s, A>, AllocError>
    requires { length replies.now ≡ length steps.now }
    ensures { IfOk result
        (AreExpected (least_in (map asked_of steps.now) (map told_of replies.now))
        (batches_in (map asked_of steps.now) (map told_of replies.now))) }
{
    let batches = batches_of(alloc, steps, replies)?;
    let maps = maps_from(alloc, &batches.all, batches.least)?;
    Ok(Expected {
        least: batches.least,
        maps,
    })
}

// The maps after each beginning of the batches that holds at least `least`.
fn maps_from<'s, A: Allocator + Clone>(
    alloc: &A,
    batches: &[&'s Batch<A>],
    least: usize,
) -> Result<Vec<Vec<RowRef<'s>, A>, A>, AllocError>
    requires { least ≤ length batches.now }
    ensures { IfOk result (λ maps. map (λ rows. rows_of rows.items) maps.items
        ≡ map finite.entries (maps_from least (map (λ batch. batch.now) batches.now))) }
{
    let (first, later) = batches.split_at(least);
    let rows = map_after(alloc, first)?;
    let maps = maps_after(alloc, rows, later)?;
    Ok(maps)
}

// The map after these batches.
fn map_after<'s, A: Allocator + Clone>(
    alloc: &A,
    batches: &[&'s Batch<A>],
) -> Result<Vec<RowRef<'s>, A>, AllocError>
    ensures { IfOk result
        (λ rows. AreRows rows.items
        (apply_all finite.empty (map (λ batch. batch.now) batches.now))) }
{
    let mut rows = Vec::new(alloc.clone()?);
    for batch in batches {
        rows = applied(alloc, &rows, batch.operations())?;
    }
    Ok(rows)
}

// A map, and the maps after it and each of these batches.
fn maps_after<'s, A: Allocator + Clone>(
    alloc: &A,
    first: Vec<RowRef<'s>, A>,
    batches: &[&'s Batch<A>],
) -> Result<Vec<Vec<RowRef<'s>, A>, A>, AllocError>
    ensures { IfOk result (λ maps. (m : Map) → AreRows first.entry.items m
        → map (λ rows. rows_of rows.items) maps.items
        ≡ map finite.entries (m ∷ maps_after m (map (λ batch. batch.now) batches.now))) }
{
    let mut maps = Vec::new(alloc.clone()?);
    let mut rows = first;
    for batch in batches {
        let next = applied(alloc, &rows, batch.operations())?;
        maps.push(rows)?;
        rows = next;
    }
    maps.push(rows)?;
    Ok(maps)
}
