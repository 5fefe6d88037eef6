//! What clients of a session do at the same time, each in a thread of its own.

use crate::asks::{Outcome, call};
use crate::setup::put;
use example_shared::raise;
use lsm_device::MemDevice;
use lsm_lives::Call;
use lsm_policy::Policy;
use lsm_shared::{Client, Shared, take_turn};
use lsm_trail::{Numbers, SessionName};
use std::alloc::Global;
use std::process::Abort;
use std::sync::Wait;
use std::thread::{Threads, for_each_mut};

/// How many clients commit.
pub const COMMITTERS: u32 = 4;

/// How many commits each of them makes.
pub const COMMITS: u32 = 50;

// How many turns a client takes that works.
const TURNS: u32 = 60;

/// How often each client raises the counter.
pub const RAISES: u32 = 30;

/// The part of each client.
#[derive(Clone, Copy)]
pub enum Part {
    /// The first four commit, and rotate in their midst where they are to. The others work on jobs.
    CommitOrWork { rotates: bool },
    /// Clients 0 and 4, whose turns begin at the same slot, work on jobs.
    WorkAtOneSlot,
    /// Each raises the counter under the key `count`.
    Raise,
}

/// The key of a client's commit: its number among those of all clients, one client after another.
pub fn key_of(client: u32, commit: u32) -> [u8; 4] {
    client
        .wrapping_mul(COMMITS)
        .wrapping_add(commit)
        .to_be_bytes()
}

/// Commits one put as a client, which has its key for its value.
pub fn commit<B: SessionName, R: Wait + Abort>(
    rt: &R,
    alloc: Global,
    shared: &Shared<MemDevice, Global, B>,
    me: &mut Client<Global, B>,
    number: u32,
) {
    let key = key_of(me.number(), number);
    let batch = put(alloc, &key, &key).expect(rt, "a batch");
    assert!(rt;
        matches!(
            call(rt, shared, me, Call::Commit(batch)),
            Outcome::Number(_)
        )
    );
}

// The numbers of the history, which never fall behind those that a client read before.
fn watch<B: SessionName, R: Abort>(
    rt: &R,
    shared: &Shared<MemDevice, Global, B>,
    me: &mut Client<Global, B>,
    before: Numbers,
) -> Numbers {
    let now = me.watch(shared);
    assert!(rt;
        before.calls <= now.calls && before.batches <= now.batches && before.synced <= now.synced
    );
    now
}

const NOTHING: Numbers = Numbers {
    calls: 0,
    batches: 0,
    synced: 0,
};

// Makes a client's commits, and rotates in their midst where it is to, whatever comes of that.
fn commit_all<B: SessionName, R: Wait + Abort>(
    rt: &R,
    alloc: Global,
    shared: &Shared<MemDevice, Global, B>,
    me: &mut Client<Global, B>,
    rotates: bool,
) {
    let mut numbers = NOTHING;
    for number in 0..COMMITS {
        commit(rt, alloc, shared, me, number);
        if rotates && number == COMMITS / 2 {
            let _told = call(rt, shared, me, Call::Rotate);
        }
        numbers = watch(rt, shared, me, numbers);
    }
}

// Takes turns, and builds in four parts what is handed out.
fn work_all<B: SessionName, R: Threads + Wait + Abort + Sync>(
    rt: &R,
    alloc: Global,
    shared: &Shared<MemDevice, Global, B>,
    me: &mut Client<Global, B>,
) {
    let mut numbers = NOTHING;
    for _ in 0..TURNS {
        let _busy = take_turn(rt, alloc, shared, me, &Policy::new(), 4).expect(rt, "a turn");
        numbers = watch(rt, shared, me, numbers);
    }
}

fn raise_all<B: SessionName, R: Wait + Abort>(
    rt: &R,
    alloc: Global,
    shared: &Shared<MemDevice, Global, B>,
    me: &mut Client<Global, B>,
) {
    for _ in 0..RAISES {
        let raised = raise(rt, alloc, shared, me, b"count", 100).expect(rt, "an answer");
        assert!(rt; raised.is_some());
    }
}

fn take_part<B: SessionName, R: Threads + Wait + Abort + Sync>(
    rt: &R,
    alloc: Global,
    shared: &Shared<MemDevice, Global, B>,
    me: &mut Client<Global, B>,
    part: Part,
) {
    match part {
        Part::CommitOrWork { rotates } if me.number() < COMMITTERS => {
            commit_all(rt, alloc, shared, me, rotates);
        }
        Part::CommitOrWork { .. } => work_all(rt, alloc, shared, me),
        Part::WorkAtOneSlot if me.number() % 4 == 0 => work_all(rt, alloc, shared, me),
        Part::WorkAtOneSlot => {}
        Part::Raise => raise_all(rt, alloc, shared, me),
    }
}

/// Lets all clients do their part at the same time, seven of them at most.
pub fn at_once<B: SessionName + Send + Sync, R: Threads + Wait + Abort + Sync>(
    rt: &R,
    alloc: Global,
    shared: &Shared<MemDevice, Global, B>,
    clients: &mut [Client<Global, B>],
    part: Part,
) {
    for_each_mut(
        rt,
        clients,
        7,
        &|_, me| take_part(rt, alloc, shared, me, part),
    );
}
