//! Clients that share a store, each in a thread of its own.

ghost use Rattle.std.specs.Prelude.{◌≡◌};

use crate::clock::{now, since};
use crate::keys::{batch_of, key_of};
use crate::workers::{Filled, Filling, fill};
use lsm_device::{Device, Refusal};
use lsm_lives::{Call, Reply};
use lsm_shared::{Client, Shared, prepare};
use lsm_store::{At, Store};
use lsm_trail::{Opened, SessionName};
use std::alloc::Global;
use std::marker::Brand;
use std::rt::Clock;
use std::sync::{Mutex, Wait};
use std::thread::{Threads, for_each_mut};
use std::time::Instant;

/// The most threads: one for each client.
const MOST_THREADS: usize = 64;

/// What clients do: each makes `commits` commits of one put, of numbers of its own, in a round, and syncs each or not. Before each it
/// gets the value of its key `gets` times. The trail has `places` places, and a client that finds it full returns. Or it is a filling
/// by the first.
#[derive(Clone, Copy)]
pub(crate) struct Task {
    pub(crate) clients: u32,
    pub(crate) commits: u32,
    pub(crate) gets: u32,
    pub(crate) places: u32,
    pub(crate) synced: bool,
    pub(crate) round: u8,
    pub(crate) filling: Option<Filling>,
}

/// The nanoseconds of a session's work, the most of a put of a filling, those of its beginning and its end, and how many entries it had.
#[derive(Clone, Copy)]
pub(crate) struct Times {
    pub(crate) nanos: u64,
    pub(crate) longest: u64,
    pub(crate) change: u64,
    pub(crate) entries: u32,
}

/// Makes a call. Returns the number that is the reply, or 0 for another; and `None` where the call fails.
fn ask<D: Device, B: SessionName, R: Wait>(
    rt: &R,
    shared: &Shared<D, Global, B>,
    me: &mut Client<Global, B>,
    call: Call,
) -> Option<u64> {
    match me.call(rt, shared, call) {
        Ok(Reply::Refused(_)) | Err(_) => None,
        Ok(Reply::Number(number)) => Some(number),
        Ok(_) => Some(0),
    }
}

/// Gets the value of a number's key `task.gets` times, commits its put, and syncs it where `task.synced`.
fn put<D: Device, B: SessionName, R: Wait>(
    rt: &R,
    alloc: Global,
    shared: &Shared<D, Global, B>,
    me: &mut Client<Global, B>,
    number: u32,
    task: Task,
) -> Option<u64> {
    for _ in 0..task.gets {
        let key = Vec::from_slice(alloc, &key_of(number)).ok()?;
        ask(rt, shared, me, Call::Get(At::Now, key))?;
    }
    let batch = batch_of(alloc, number, 1, task.round).ok()?;
    let committed = ask(rt, shared, me, Call::Commit(batch))?;
    if task.synced {
        return ask(rt, shared, me, Call::SyncTo(committed));
    }
    Some(committed)
}

/// What one client does, until a call is refused.
fn take_part<D: Device, B: SessionName, R: Threads + Wait + Clock + Sync>(
    rt: &R,
    alloc: Global,
    shared: &Shared<D, Global, B>,
    me: &mut Client<Global, B>,
    task: Task,
    filled: &Mutex<Filled>,
) {
    if let Some(filling) = task.filling {
        fill(rt, alloc, shared, me, filling, filled);
        return;
    }
    let first = me.number().wrapping_mul(task.commits);
    for place in 0..task.commits {
        if put(rt, alloc, shared, me, first.wrapping_add(place), task).is_none() {
            return;
        }
    }
}

/// All clients do their part at the same time. Returns the nanoseconds, and the most of a put of a filling.
fn timed<D: Device + Send, B: SessionName + Send + Sync, R: Threads + Wait + Clock + Sync>(
    rt: &R,
    alloc: Global,
    shared: &Shared<D, Global, B>,
    clients: &mut [Client<Global, B>],
    task: Task,
) -> (u64, u64) {
    let filled = Mutex::new(Filled::NOTHING);
    let start = now(rt);
    for_each_mut(
        rt,
        clients,
        MOST_THREADS,
        &|_, me| { take_part(rt, alloc, shared, me, task, &filled) },
    );
    let nanos = since(rt, start);
    (nanos, filled.into_inner().longest)
}

/// Ends a session, and lets its trail go. Returns the store, and how many entries there were.
fn ended<D: Device + Drop, B: SessionName>(
    shared: Shared<D, Global, B>,
    clients: Vec<Client<Global, B>>,
) -> Result<(Store<D>, u32), Refusal> {
    match shared.finish(clients) {
        Ok((store, trail)) => {
            let entries = u32::try_from(trail.len()).unwrap_or(0);
            Ok((store, entries))
        }
        Err((refusal, _, _)) => Err(refusal),
    }
}

/// Begins a session, lets its clients do their part, and ends it. The beginning counts from a moment on.
fn run<D: Device + Drop + Send, B: SessionName + Send + Sync, R: Threads + Wait + Clock + Sync>(
    rt: &R,
    alloc: Global,
    opened: Opened<D>,
    task: Task,
    start: Option<Instant>,
) -> Result<(Store<D>, Times), Refusal>
    requires { opened ≡ B.id }
{
    let (shared, mut clients) = match Shared::<D, Global, B>::begin(alloc, opened) {
        Ok(begun) => begun,
        Err((refusal, _)) => return Err(refusal),
    };
    let begin = since(rt, start);
    let (nanos, longest) = timed(rt, alloc, &shared, &mut clients, task);
    let end = now(rt);
    let (store, entries) = ended(shared, clients)?;
    let change = begin.saturating_add(since(rt, end));
    let times = Times {
        nanos,
        longest,
        change,
        entries,
    };
    Ok((store, times))
}

/// A store, after clients have shared it, with what was measured.
pub(crate) fn shared_by<D: Device + Drop + Send, R: Threads + Wait + Clock + Sync>(
    rt: &R,
    alloc: Global,
    store: Store<D>,
    task: Task,
) -> Result<(Store<D>, Times), Refusal> {
    let start = now(rt);
    match prepare(alloc, store, task.clients, task.places) {
        Ok(opened) => run::<D, Brand, R>(rt, alloc, opened, task, start),
        Err((refusal, _)) => Err(refusal),
    }
}
