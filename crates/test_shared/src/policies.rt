//! Workers that go by a policy.

use crate::asks::{Ask, Exchange, Outcome, ask_all};
use crate::sessions::{Deeds, lead};
use crate::setup::small;
use lsm_device::MemDevice;
use lsm_lives::Reply;
use lsm_policy::Policy;
use lsm_shared::{Client, Shared, take_turn, work};
use lsm_store::{Piece, Store};
use lsm_trail::SessionName;
use std::alloc::Global;
use std::process::Abort;
use std::sync::Wait;
use std::thread::Threads;

// A policy by which each run goes down, levels 1 to 3 hold so many blocks, and no tables go together.
fn eager(limit: u64) -> Policy {
    Policy {
        runs: 1,
        limits: [limit; 3],
        most_blocks: 0,
        ..Policy::new()
    }
}

// Whether a client, working by a policy, comes to its end.
fn works<B: SessionName, R: Threads + Wait + Sync>(
    rt: &R,
    alloc: Global,
    shared: &Shared<MemDevice, Global, B>,
    me: &mut Client<Global, B>,
) -> bool {
    matches!(
        work(rt, alloc, shared, me, &eager(1_000), 2, 1_000),
        Ok(true)
    )
}

// Whether a client takes a job that a policy advises, by which no level may hold a block.
fn takes<B: SessionName, R: Wait + Abort>(
    rt: &R,
    shared: &Shared<MemDevice, Global, B>,
    me: &mut Client<Global, B>,
) -> bool {
    match me.take_next(rt, shared, &eager(0)).expect(rt, "a reply") {
        Some(Reply::Taken(Some(_))) => true,
        Some(_) => rt.panic("nothing was taken"),
        None => false,
    }
}

// Brings each of three keys into a table of level 1 of its own.
fn fill<B: SessionName, R: Threads + Wait + Abort + Sync>(
    rt: &R,
    alloc: Global,
    shared: &Shared<MemDevice, Global, B>,
    clients: &mut [Client<Global, B>],
) {
    const PUTS: &[(u8, u64)] = &[(0x61, 1), (0x62, 2), (0x63, 3)];
    for &(key, number) in PUTS {
        let table = [
            (0, Ask::Put(key), Outcome::Number(number)),
            (0, Ask::Rotate, Outcome::Done),
        ];
        ask_all(rt, alloc, shared, clients, &table);
        let me = clients.first_mut().expect(rt, "a client");
        assert!(rt; works(rt, alloc, shared, me));
    }
}

const FOURTH: &[Exchange] = &[
    (1, Ask::Put(0x64), Outcome::Number(4)),
    (1, Ask::Rotate, Outcome::Done),
];

/// Each of three tables of level 1 may go down, and one does, in slot 0. Client 0, whose turns begin there, takes one turn more once a
/// flush waits.
pub fn go_by_policies<B: SessionName, R: Threads + Wait + Abort + Sync>(
    rt: &R,
    alloc: Global,
    shared: &Shared<MemDevice, Global, B>,
    clients: &mut [Client<Global, B>],
) {
    fill(rt, alloc, shared, clients);
    let me = clients.first_mut().expect(rt, "a client");
    for merge in 0..3u32 {
        assert!(rt; takes(rt, shared, me) == (merge == 0));
    }
    ask_all(rt, alloc, shared, clients, FOURTH);
    let me = clients.first_mut().expect(rt, "a client");
    assert!(rt; !takes(rt, shared, me));
    assert!(rt; matches!(take_turn(rt, alloc, shared, me, &eager(0), 2), Ok(true)));
}

// Whether a merge in slot 0 is to be read and a flush in slot 1 to be built, and no other slot is held.
fn flushes_beside_a_merge(store: &Store<MemDevice>) -> bool {
    matches!(store.piece_at(0), Some(Piece::Read(_)))
        && matches!(store.piece_at(1), Some(Piece::Build(_)))
        && store.piece_at(2).is_none()
        && store.piece_at(3).is_none()
}

#[test]
fn a_worker_takes_one_merge_and_each_flush_first(rt: HostRuntime) {
    let store = small(&rt, rt.alloc());
    let left = lead(&rt, rt.alloc(), store, (2, 65_536), Deeds::ByPolicies);
    assert!(rt; matches!(left.store.stat(), Ok(stat) if stat.tables == 3 && stat.runs == 0));
    assert!(rt; flushes_beside_a_merge(&left.store));
}
