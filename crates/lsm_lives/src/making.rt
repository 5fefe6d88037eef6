// A store makes a step that is a value.
ghost use Rattle.std.specs.Prelude.{◌≡◌, ◌≢◌, ◌<◌, ◌≤◌, ◌+◌, Some, None, Result, option_map, IfOk, IfErr, OnErr, vec_len, vec_capacity};
ghost use Rattle.lsm_device.specs.declared.refusal.Refusal.TheVariants.{NoMemory, ForeignResult};
ghost use Rattle.lsm_lives.specs.Asked.{Build, Replied, result_of};
ghost use Rattle.lsm_lives.specs.Calls.{asked_of, asked_of_work, told_of, reply_of};
ghost use Rattle.lsm_lives.specs.Replaying.{IsLent, Makes};
ghost use Rattle.lsm_machine.specs.Calls.{Number, Done, Refused, reply_of as reply_by, taken_reply};
ghost use Rattle.lsm_machine.specs.Work.{Accept};
ghost use Rattle.lsm_store.specs.Working.{Works};

use crate::calls::{Reply, Step, Work};
use crate::serving::{done, serve};
use lsm_device::{Device, Refusal};
use lsm_merge::Built;
use lsm_store::{Store, TakenJob};
use std::alloc::{Allocator, Global};
use std::thread::Threads;

/// Makes a step of the store, where these results were built before it. What is refused is a reply. A build adds its result.
pub(crate) fn make<R: Threads + Sync, D: Device, A: Allocator + Clone + Send + Sync>(
    rt: &R,
    alloc: &A,
    store: &mut Store<D, A>,
    results: &mut Vec<Built<A>, A>,
    step: &Step<A>,
) -> Reply<A>
    requires room { vec_len results.old < vec_capacity results.old }
    ensures makes { Makes results.old.items store.old (asked_of step.now)
        (told_of result) results.new.items store.new }
    ensures places { (vec_capacity results.new ≡ vec_capacity results.old)
        × (vec_len results.new ≤ vec_len results.old + 1) }
{
    match step {
        Step::Call(call) => serve(store, call),
        Step::Work(work) => make_work(rt, alloc, store, results, work),
    }
}

fn make_work<R: Threads + Sync, D: Device, A: Allocator + Clone + Send + Sync>(
    rt: &R,
    alloc: &A,
    store: &mut Store<D, A>,
    results: &mut Vec<Built<A>, A>,
    work: &Work,
) -> Reply<A>
    requires room { vec_len results.old < vec_capacity results.old }
    ensures makes { Makes results.old.items store.old (asked_of_work work.now)
        (told_of result) results.new.items store.new }
    ensures places { (vec_capacity results.new ≡ vec_capacity results.old)
        × (vec_len results.new ≤ vec_len results.old + 1) }
{
    match work {
        Work::Take => taken(store.job_take()),
        Work::TakeOf(choice) => taken(store.job_take_of(*choice)),
        Work::Read(job) => read(store.job_read(*job)),
        Work::Build { job, parts } => build(rt, alloc, store, results, *job, *parts),
        Work::Accept { job, result } => done(accept(store, results, *job, *result)),
        Work::Write(job) => written(store.job_write(*job)),
        Work::Install(job) => done(store.job_install(*job)),
        Work::Drop(job) => done(store.job_drop(*job)),
    }
}

// Builds the result of a job's merge, and adds it.
fn build<R: Threads + Sync, D: Device, A: Allocator + Clone + Send + Sync>(
    rt: &R,
    alloc: &A,
    store: &Store<D, A>,
    results: &mut Vec<Built<A>, A>,
    job: u64,
    parts: u64,
) -> Reply<A>
    requires room { vec_len results.old < vec_capacity results.old }
    ensures makes { Makes results.old.items store.now (Build job parts)
        (told_of result) results.new.items store.now }
    ensures places { (vec_capacity results.new ≡ vec_capacity results.old)
        × (vec_len results.new ≤ vec_len results.old + 1) }
{
    match built(rt, alloc, store, job, parts) {
        Ok(built) => {
            let tables = built.images().len() as u64;
            results.push_reserved(built);
            Reply::Built {
                result: results.len() as u64,
                tables,
            }
        }
        Err(refusal) => Reply::Refused(refusal),
    }
}

// The result of a job's merge: the store lends the input, and needs no hand in the rest.
fn built<R: Threads + Sync, D: Device, A: Allocator + Clone + Send + Sync>(
    rt: &R,
    alloc: &A,
    store: &Store<D, A>,
    job: u64,
    parts: u64,
) -> Result<Built<A>, Refusal>
    ensures { IsLent store.now job parts result }
{
    let input = store.job_input(job)?;
    match u8::try_from(parts) {
        Ok(parts) => lsm_merge::build(rt, alloc.clone()?, input, parts),
        Err(_) => Err(Refusal::BadLimit),
    }
}

// Accepts the result of a number, or refuses one that was not built.
fn accept<D: Device, A: Allocator + Clone>(
    store: &mut Store<D, A>,
    results: &[Built<A>],
    job: u64,
    number: u64,
) -> Result<(), Refusal>
    ensures { Works store.old (Accept job (result_of number results.now))
        (reply_by (λ _. Done) result) store.new }
{
    match numbered(results, number) {
        Some(built) => store.job_accept(job, built),
        None => Err(foreign(store, job)),
    }
}

// The result of a number, of which the first is 1.
fn numbered<A: Allocator>(results: &[Built<A>], number: u64) -> Option<&Built<A>>
    ensures { option_map (λ built. built.now) result ≡ result_of number results.now }
{
    if number == 0 {
        return None;
    }
    results.get((number - 1) as usize)
}

// Why a result that was not built is refused.
fn foreign<D: Device, A: Allocator + Clone>(store: &Store<D, A>, job: u64) -> Refusal
    ensures { Works store.now (Accept job None) (Refused result) store.now }
{
    match store.job_input(job) {
        Ok(_input) => Refusal::ForeignResult,
        Err(refusal) => foreign_unless(refusal),
    }
}

// Where memory is wanting for a handle of the input, nothing else refuses it.
fn foreign_unless(refusal: Refusal) -> Refusal
    ensures wanting { refusal ≡ NoMemory → result ≡ ForeignResult }
    ensures other { refusal ≢ NoMemory → result ≡ refusal }
{
    match refusal {
        Refusal::NoMemory => Refusal::ForeignResult,
        other => other,
    }
}

fn taken<A: Allocator>(answered: Result<Option<TakenJob>, Refusal>) -> Reply<A>
    ensures { told_of result ≡ Replied (reply_by taken_reply answered) }
{
    match answered {
        Ok(job) => Reply::Taken(job),
        Err(refusal) => Reply::Refused(refusal),
    }
}

fn read<A: Allocator>(answered: Result<usize, Refusal>) -> Reply<A>
    ensures { told_of result ≡ Replied (reply_by Number answered) }
{
    match answered {
        Ok(left) => Reply::Number(left as u64),
        Err(refusal) => Reply::Refused(refusal),
    }
}

fn written<A: Allocator>(answered: Result<u32, Refusal>) -> Reply<A>
    ensures { told_of result ≡ Replied (reply_by Number answered) }
{
    match answered {
        Ok(left) => Reply::Number(u64::from(left)),
        Err(refusal) => Reply::Refused(refusal),
    }
}
