//! Sessions whose clients commit and work at the same time, each in a thread of its own.

use crate::parts::{COMMITS, COMMITTERS, Part, RAISES, key_of};
use crate::sessions::{Deeds, lead};
use crate::setup::{Left, empty, opened, small};
use byteorder::{BigEndian, ByteOrder};
use lsm_device::MemDevice;
use lsm_lives::{Call, Reply, Step};
use lsm_store::{At, Store};
use lsm_trail::Trail;
use std::alloc::Global;
use std::process::Abort;
use std::sync::Wait;
use std::thread::Threads;

// What is left of a session of a large store with so many clients. Those who commit rotate where others work.
fn left_of<R: Threads + Wait + Abort + Sync>(rt: &R, alloc: Global, clients: u32) -> Left {
    let part = Part::CommitOrWork {
        rotates: clients > COMMITTERS,
    };
    let store = empty(rt, alloc, 65_536, 2_048);
    lead(
        rt,
        alloc,
        store,
        (clients, 65_536),
        Deeds::AtOnce(&[], part),
    )
}

// Whether a trail is 200 commits, numbered from 1 on.
fn is_of_commits(trail: &Trail) -> bool {
    let mut all = trail.len() == 200;
    for (entry, number) in trail.entries().iter().zip(1u64..) {
        all = all
            && matches!(entry.step(), Step::Call(Call::Commit(_)))
            && matches!(entry.reply(), Reply::Number(n) if *n == number);
    }
    all
}

// Whether a store has a key.
fn has(store: &mut Store<MemDevice>, key: &[u8; 4]) -> bool {
    matches!(store.get(At::Now, key), Ok(Some(_)))
}

// How many of the trail's commits a store holds, if it holds a beginning of them.
fn held(store: &mut Store<MemDevice>, trail: &Trail) -> Option<u32> {
    let mut made = [0u32; 4];
    let mut count = 0u32;
    let mut ended = false;
    for entry in trail.entries() {
        let next = made.get_mut(entry.client() as usize)?;
        let stands = has(store, &key_of(entry.client(), *next));
        *next = next.wrapping_add(1);
        if ended && stands {
            return None;
        }
        ended = !stands;
        count = count.wrapping_add(u32::from(stands));
    }
    Some(count)
}

// The store after a crash that keeps the first hundred sectors, loses one, and keeps the others.
fn crashed<R: Abort>(rt: &R, alloc: Global, store: Store<MemDevice>) -> Store<MemDevice> {
    let mut keep = [true; 200];
    keep[100] = false;
    opened(rt, alloc, store.into_device().crash(&keep))
}

#[test]
fn four_threads_make_one_history(rt: HostRuntime) {
    let (store, trail) = left_of(&rt, rt.alloc(), COMMITTERS).into_parts();
    assert!(rt; is_of_commits(&trail));
    let mut store = crashed(&rt, rt.alloc(), store);
    assert!(rt; held(&mut store, &trail) == Some(100));
}

// Whether a store has all keys of the commits.
fn has_all(store: &mut Store<MemDevice>) -> bool {
    let mut all = true;
    for client in 0..COMMITTERS {
        for number in 0..COMMITS {
            all = all && has(store, &key_of(client, number));
        }
    }
    all
}

#[test]
fn four_clients_commit_and_three_work(rt: HostRuntime) {
    let mut left = left_of(&rt, rt.alloc(), COMMITTERS + 3);
    assert!(rt; has_all(&mut left.store) && left.store.batch_count() == 200);
    // The store goes on.
    assert!(rt; left.store.sync().is_ok() && left.store.synced_count() == 200);
}

// The number that a key of a store spells.
fn number_in(store: &mut Store<MemDevice>, key: &[u8]) -> Option<u64> {
    match store.get(At::Now, key) {
        Ok(Some(value)) if value.len() == 8 => Some(BigEndian::read_u64(&value)),
        _ => None,
    }
}

#[test]
fn each_raise_of_a_counter_counts(rt: HostRuntime) {
    let store = small(&rt, rt.alloc());
    let deeds = Deeds::AtOnce(&[], Part::Raise);
    let mut left = lead(&rt, rt.alloc(), store, (3, 65_536), deeds);
    let all = u64::from(3 * RAISES);
    assert!(rt; number_in(&mut left.store, b"count") == Some(all));
    assert!(rt; left.store.batch_count() == all);
}
