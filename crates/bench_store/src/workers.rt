//! A client that puts many keys, alone or with a worker. Alone it does the flushes and merges itself, after each of its rotations.

use crate::clients::Task;
use crate::clock::{now, since};
use crate::keys::batch_of;
use crate::sizes::Sizes;
use lsm_device::{Device, Refusal};
use lsm_lives::{Call, Reply};
use lsm_policy::Policy;
use lsm_shared::{Client, Shared, take_turn, work};
use lsm_trail::SessionName;
use std::alloc::Global;
use std::rt::Clock;
use std::sync::{Mutex, Wait};
use std::thread::{Threads, sleep};
use std::time::Duration;

/// The most puts of a session: its trail has places for flushes and merges too.
const MOST_PUTS: u32 = 40_000;

/// More turns than a fill has.
const MOST_TURNS: u32 = 1_000_000;

/// In how many parts results are built.
const PARTS: u8 = 1;

/// How many microseconds a worker sleeps that found nothing to do.
const NAP: u64 = 100;

/// `puts` puts of the numbers from 0 on, in a round. A log takes `in_log` of them.
#[derive(Clone, Copy)]
pub(crate) struct Filling {
    pub(crate) puts: u32,
    in_log: u32,
    pub(crate) round: u8,
    pub(crate) has_worker: bool,
}

impl Filling {
    /// Of all keys, if the trail has places for their puts and for flushes and merges.
    pub(crate) fn of(sizes: Sizes, round: u8, has_worker: bool) -> Filling {
        Filling {
            puts: sizes.keys.min(MOST_PUTS),
            in_log: sizes.logged,
            round,
            has_worker,
        }
    }

    /// It as what the clients of a session do, with all places that a trail may have.
    pub(crate) fn task(self) -> Task {
        Task {
            clients: 1 + u32::from(self.has_worker),
            commits: 0,
            gets: 0,
            places: 65_536,
            synced: false,
            round: self.round,
            filling: Some(self),
        }
    }
}

/// How far a fill is: the most nanoseconds that a put took, and whether all are made.
#[derive(Clone, Copy)]
pub(crate) struct Filled {
    pub(crate) longest: u64,
    pub(crate) is_over: bool,
}

impl Filled {
    pub(crate) const NOTHING: Filled = Filled {
        longest: 0,
        is_over: false,
    };
}

/// Opens an empty log. While the flush of the one before waits, the client does pieces of it.
fn rotate<D: Device, B: SessionName, R: Threads + Wait + Sync>(
    rt: &R,
    alloc: Global,
    shared: &Shared<D, Global, B>,
    me: &mut Client<Global, B>,
) -> Option<()> {
    for _ in 0..MOST_TURNS {
        match me.call(rt, shared, Call::Rotate).ok()? {
            Reply::Done => return Some(()),
            Reply::Refused(Refusal::SealedWaiting) => {}
            _ => return None,
        }
        take_turn(rt, alloc, shared, me, &Policy::new(), PARTS).ok()?;
    }
    None
}

/// Opens an empty log. Where there is no worker, the client does the flush and the merges that follow from it.
fn change_log<D: Device, B: SessionName, R: Threads + Wait + Sync>(
    rt: &R,
    alloc: Global,
    shared: &Shared<D, Global, B>,
    me: &mut Client<Global, B>,
    has_worker: bool,
) -> Option<()> {
    rotate(rt, alloc, shared, me)?;
    if !has_worker {
        work(rt, alloc, shared, me, &Policy::new(), PARTS, MOST_TURNS).ok()?;
    }
    Some(())
}

/// Commits the put of a number, into an empty log where that of the one before is full.
fn put<D: Device, B: SessionName, R: Threads + Wait + Sync>(
    rt: &R,
    alloc: Global,
    shared: &Shared<D, Global, B>,
    me: &mut Client<Global, B>,
    number: u32,
    filling: Filling,
) -> Option<()> {
    if number > 0 && number % filling.in_log.max(1) == 0 {
        change_log(rt, alloc, shared, me, filling.has_worker)?;
    }
    let batch = batch_of(alloc, number, 1, filling.round).ok()?;
    match me.call(rt, shared, Call::Commit(batch)).ok()? {
        Reply::Number(_) => Some(()),
        _ => None,
    }
}

/// Makes all puts, until one is refused, and empties the last log. Returns the most nanoseconds that one took.
fn put_all<D: Device, B: SessionName, R: Threads + Wait + Clock + Sync>(
    rt: &R,
    alloc: Global,
    shared: &Shared<D, Global, B>,
    me: &mut Client<Global, B>,
    filling: Filling,
) -> u64 {
    let mut longest = 0;
    for number in 0..filling.puts {
        let start = now(rt);
        if put(rt, alloc, shared, me, number, filling).is_none() {
            return longest;
        }
        longest = since(rt, start).max(longest);
    }
    let _changed = change_log(rt, alloc, shared, me, filling.has_worker);
    longest
}

/// Takes turns until the fill is over and nothing is left to do.
fn work_beside<D: Device, B: SessionName, R: Threads + Wait + Clock + Sync>(
    rt: &R,
    alloc: Global,
    shared: &Shared<D, Global, B>,
    me: &mut Client<Global, B>,
    filled: &Mutex<Filled>,
) {
    for _ in 0..MOST_TURNS {
        let is_over = filled.lock(rt).is_over;
        match take_turn(rt, alloc, shared, me, &Policy::new(), PARTS) {
            Ok(true) => {}
            Ok(false) if is_over => return,
            Ok(false) => sleep(rt, Duration::from_micros(NAP)),
            Err(_) => return,
        }
    }
}

/// What a client does in a filling: the first puts, and the second is the worker.
pub(crate) fn fill<D: Device, B: SessionName, R: Threads + Wait + Clock + Sync>(
    rt: &R,
    alloc: Global,
    shared: &Shared<D, Global, B>,
    me: &mut Client<Global, B>,
    filling: Filling,
    filled: &Mutex<Filled>,
) {
    if me.number() > 0 {
        work_beside(rt, alloc, shared, me, filled);
        return;
    }
    let longest = put_all(rt, alloc, shared, me, filling);
    *filled.lock(rt) = Filled {
        longest,
        is_over: true,
    };
}
