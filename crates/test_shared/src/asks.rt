//! What clients of a session do one after another, in a table, each with what it must be told.

use crate::setup::put;
use lsm_device::{MemDevice, Refusal};
use lsm_lives::{Call, Reply};
use lsm_policy::Policy;
use lsm_shared::{Client, Shared, Turn, work};
use lsm_store::Choice;
use lsm_trail::SessionName;
use std::alloc::Global;
use std::process::Abort;
use std::sync::Wait;
use std::thread::Threads;

/// What a client asks.
#[derive(Clone, Copy)]
pub enum Ask {
    /// A commit of one put, of a key of one byte.
    Put(u8),
    Sync,
    Rotate,
    /// A release of the snapshot of a number.
    Release(u64),
    /// The next piece of work.
    Turn,
    /// The next piece that is due.
    Due,
    /// Turns of a worker, until nothing is left to do.
    Work,
    /// The job of so many of the oldest runs of level 0.
    Take(usize),
    /// The numbers of the history, without the lock.
    Watch,
}

/// What it is told.
#[derive(Clone, Copy, PartialEq, Eq)]
pub enum Outcome {
    Number(u64),
    Done,
    /// Its turn did a piece of work.
    Did,
    /// Its turn handed out the input of a job.
    Lent(u64),
    /// There is no work for it.
    Idle,
    /// There is no such job.
    NoJob,
    /// Calls, batches, and synced batches.
    Numbers(u64, u64, u64),
    /// A call was not made.
    Refused(Refusal),
    /// Anything else.
    Other,
}

/// The number of a client, what it asks, and what it must be told.
pub type Exchange = (usize, Ask, Outcome);

/// What a client is told of a call.
pub fn call<B: SessionName, R: Wait>(
    rt: &R,
    shared: &Shared<MemDevice, Global, B>,
    me: &mut Client<Global, B>,
    call: Call,
) -> Outcome {
    match me.call(rt, shared, call) {
        Ok(Reply::Number(number)) => Outcome::Number(number),
        Ok(Reply::Done) => Outcome::Done,
        Ok(_) => Outcome::Other,
        Err(refusal) => Outcome::Refused(refusal),
    }
}

// What it is told of a turn.
fn turn<B: SessionName, R: Wait>(
    rt: &R,
    shared: &Shared<MemDevice, Global, B>,
    me: &mut Client<Global, B>,
) -> Outcome {
    match me.turn(rt, shared) {
        Ok(Turn::Idle) => Outcome::Idle,
        Ok(Turn::Did(_)) => Outcome::Did,
        _ => Outcome::Other,
    }
}

// What it is told of a turn over the slots that are due.
fn turn_due<B: SessionName, R: Wait>(
    rt: &R,
    shared: &Shared<MemDevice, Global, B>,
    me: &mut Client<Global, B>,
) -> Outcome {
    match me.turn_due(rt, shared) {
        Ok(Turn::Idle) => Outcome::Idle,
        Ok(Turn::Did(_)) => Outcome::Did,
        Ok(Turn::Merge { job, .. }) => Outcome::Lent(job),
        Err(refusal) => Outcome::Refused(refusal),
    }
}

// What it is told of turns of a worker.
fn work_on<B: SessionName, R: Threads + Wait + Sync>(
    rt: &R,
    alloc: Global,
    shared: &Shared<MemDevice, Global, B>,
    me: &mut Client<Global, B>,
) -> Outcome {
    match work(rt, alloc, shared, me, &Policy::new(), 2, 100) {
        Ok(true) => Outcome::Idle,
        _ => Outcome::Other,
    }
}

// What it is told of the taking of a job of so many runs.
fn take<B: SessionName, R: Wait>(
    rt: &R,
    shared: &Shared<MemDevice, Global, B>,
    me: &mut Client<Global, B>,
    count: usize,
) -> Outcome {
    match me.take(rt, shared, Choice::OldestRuns { count }) {
        Ok(None) => Outcome::NoJob,
        Ok(Some(Reply::Taken(Some(_)))) => Outcome::Did,
        Ok(Some(_)) => Outcome::Other,
        Err(refusal) => Outcome::Refused(refusal),
    }
}

// What it reads of the history.
fn watch<B: SessionName>(
    shared: &Shared<MemDevice, Global, B>,
    me: &mut Client<Global, B>,
) -> Outcome {
    let numbers = me.watch(shared);
    Outcome::Numbers(numbers.calls, numbers.batches, numbers.synced)
}

/// Has clients do what a table says.
pub fn ask_all<B: SessionName, R: Threads + Wait + Abort + Sync>(
    rt: &R,
    alloc: Global,
    shared: &Shared<MemDevice, Global, B>,
    clients: &mut [Client<Global, B>],
    table: &[Exchange],
) {
    for (client, ask, wanted) in table {
        let me = clients.get_mut(*client).expect(rt, "a client");
        let told = match *ask {
            Ask::Put(key) => {
                let batch = put(alloc, &[key], b"\x31").expect(rt, "a batch");
                call(rt, shared, me, Call::Commit(batch))
            }
            Ask::Sync => call(rt, shared, me, Call::Sync),
            Ask::Rotate => call(rt, shared, me, Call::Rotate),
            Ask::Release(number) => call(rt, shared, me, Call::Release(number)),
            Ask::Turn => turn(rt, shared, me),
            Ask::Due => turn_due(rt, shared, me),
            Ask::Work => work_on(rt, alloc, shared, me),
            Ask::Take(count) => take(rt, shared, me, count),
            Ask::Watch => watch(shared, me),
        };
        assert!(rt; told == *wanted, "another answer");
    }
}
