// A store makes steps one after another.
ghost use Rattle.std.specs.Prelude.{◌≡◌, ◌≤◌, ◌+◌, ◌++◌, [], length, map, IfErr, OnErr, IfOk, vec_capacity, vec_len};
ghost use Rattle.lsm_device.specs.declared.refusal.Refusal.TheVariants.{NoMemory};
ghost use Rattle.lsm_lives.specs.Calls.{asked_of, told_of};
ghost use Rattle.lsm_lives.specs.Replaying.{AddsReplies, MakesEach};

use crate::calls::{Reply, Step};
use crate::making::make;
use lsm_device::{Device, Refusal};
use lsm_merge::Built;
use lsm_store::Store;
use std::alloc::{Allocator, Global};
use std::thread::Threads;

/// Makes the steps of a store, one after another, and returns their replies. A refusal is a reply, and the steps go on.
/// Results of builds are numbered from 1 on, and are let go at the end.
///
/// Fails only with `NoMemory`, where there is no place for all replies and results, before anything is done.
pub fn replay<R: Threads + Sync, D: Device, A: Allocator + Clone + Send + Sync>(
    rt: &R,
    alloc: A,
    store: &mut Store<D, A>,
    steps: &[Step<A>],
) -> Result<Vec<Reply<A>, A>, Refusal>
    ensures replays { IfOk result
        (λ replies. MakesEach [] store.old (map asked_of steps.now) (map told_of replies.items)
        store.new) }
    ensures refused { IfErr result (λ refusal. refusal ≡ NoMemory) }
    ensures nothing_done { OnErr result (store.new ≡ store.old) }
{
    let mut replies = Vec::with_capacity(alloc.clone()?, steps.len())?;
    let mut results = Vec::with_capacity(alloc.clone()?, steps.len())?;
    make_each(rt, &alloc, store, steps, &mut results, &mut replies);
    Ok(replies)
}

/// Makes the steps of a store, and adds their replies. The results of builds have these places.
pub(crate) fn make_each<R: Threads + Sync, D: Device, A: Allocator + Clone + Send + Sync>(
    rt: &R,
    alloc: &A,
    store: &mut Store<D, A>,
    steps: &[Step<A>],
    results: &mut Vec<Built<A>, A>,
    replies: &mut Vec<Reply<A>, A>,
)
    requires none_built { results.old.items ≡ [] }
    requires places { length steps.now ≤ vec_capacity results.old }
    requires room { vec_len replies.old + length steps.now ≤ vec_capacity replies.old }
    ensures same_places { vec_capacity results.new ≡ vec_capacity results.old }
    ensures adds { AddsReplies store.old (map asked_of steps.now) (map told_of replies.old.items)
        (map told_of replies.new.items) store.new }
{
    for step in steps {
        let reply = make(rt, alloc, store, results, step);
        replies.push_reserved(reply);
    }
}
