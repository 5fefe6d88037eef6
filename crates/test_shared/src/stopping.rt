//! Sessions over a device that stops.

use crate::sessions::{Deeds, lead};
use crate::setup::{empty, opened, put};
use lsm_device::{MemDevice, Refusal};
use lsm_lives::{Call, Reply};
use lsm_shared::{Client, Shared};
use lsm_store::{At, Store};
use lsm_trail::{SessionName, Trail, TrailEntry};
use std::alloc::Global;
use std::process::Abort;
use std::sync::Wait;
use std::thread::{Threads, for_each_mut};

const CLIENTS: u32 = 4;

const COMMITS: u32 = 100;

// How many writes and syncs the device makes. A commit of these makes one write.
const FUSE: u64 = 50;

// The key of a client's commit.
fn key_of(client: u32, commit: u32) -> [u8; 4] {
    client
        .wrapping_mul(COMMITS)
        .wrapping_add(commit)
        .to_be_bytes()
}

// Makes a client's commits, whatever it is told.
fn commit_all<B: SessionName, R: Wait + Abort>(
    rt: &R,
    alloc: Global,
    shared: &Shared<MemDevice, Global, B>,
    me: &mut Client<Global, B>,
) {
    for number in 0..COMMITS {
        let key = key_of(me.number(), number);
        let batch = put(alloc, &key, &key).expect(rt, "a batch");
        let _reply = me
            .call(rt, shared, Call::Commit(batch))
            .expect(rt, "a reply");
    }
}

/// All clients make their commits at the same time.
pub fn commit_on<B: SessionName + Send + Sync, R: Threads + Wait + Abort + Sync>(
    rt: &R,
    alloc: Global,
    shared: &Shared<MemDevice, Global, B>,
    clients: &mut [Client<Global, B>],
) {
    for_each_mut(rt, clients, 4, &|_, me| commit_all(rt, alloc, shared, me));
}

// Whether the entry at a place of the trail, counted from 0, is answered as it must be.
fn is_answered(entry: &TrailEntry, place: u64) -> bool {
    match entry.reply() {
        Reply::Number(number) => place < FUSE && *number == place + 1,
        Reply::Refused(Refusal::Io) => place == FUSE,
        Reply::Refused(Refusal::Stopped) => place > FUSE,
        _ => false,
    }
}

// Whether a trail is all commits, of which one was in flight when the device stopped.
fn is_of_a_stop(trail: &Trail) -> bool {
    let mut all = trail.len() == 400;
    for (entry, place) in trail.entries().iter().zip(0u64..400) {
        all = all && is_answered(entry, place);
    }
    all
}

// Whether a store has a key.
fn has(store: &mut Store<MemDevice>, key: &[u8; 4]) -> bool {
    matches!(store.get(At::Now, key), Ok(Some(_)))
}

// Whether a store has the keys of so many first commits of a trail, and no other row.
fn has_just(store: &mut Store<MemDevice>, trail: &Trail, count: usize) -> Option<bool> {
    let mut made = [0u32; 4];
    let mut all =
        matches!(store.scan(At::Now, b"", None, 64), Ok(page) if page.rows().len() == count);
    for (entry, _) in trail.entries().iter().zip(0..count) {
        let next = made.get_mut(entry.client() as usize)?;
        all = all && has(store, &key_of(entry.client(), *next));
        *next = next.wrapping_add(1);
    }
    Some(all)
}

// Whether a session over a device that stops leaves so many commits behind a crash that keeps these of the pending writes.
fn leaves<R: Threads + Wait + Abort + Sync>(
    rt: &R,
    alloc: Global,
    keep: &[bool],
    count: usize,
) -> bool {
    let mut store = empty(rt, alloc, 65_536, 2_048);
    store.fuse(FUSE);
    let left = lead(rt, alloc, store, (CLIENTS, 65_536), Deeds::CommitOn);
    let (store, trail) = left.into_parts();
    let mut store = opened(rt, alloc, store.into_device().crash(keep));
    is_of_a_stop(&trail) && has_just(&mut store, &trail, count) == Some(true)
}

#[test]
fn a_device_that_stops_leaves_a_beginning(rt: HostRuntime) {
    let mut every_second = [true; 64];
    for place in 0..32_usize {
        every_second[2 * place + 1] = false;
    }
    assert!(rt; leaves(&rt, rt.alloc(), &[], 0));
    assert!(rt; leaves(&rt, rt.alloc(), &[true; 64], 51));
    assert!(rt; leaves(&rt, rt.alloc(), &every_second, 1));
}
