//! The whole callers of the library `example_shared`.

use crate::asks::{Ask, Exchange, Outcome};
use crate::sessions::{Deeds, lead};
use crate::setup::{put, small};
use example_shared::{in_three_threads, put_in_rounds, share, share_beside_a_worker};
use lsm_device::{MemDevice, Refusal};
use lsm_shared::prepare;
use lsm_store::Store;
use std::alloc::Global;
use std::marker::Brand;
use std::process::Abort;
use std::sync::Wait;
use std::thread::Threads;

// What two look-ups of the values `1` and `2` find.
type Found = Result<(Option<Vec<u8>>, Option<Vec<u8>>), Refusal>;

fn has_both<R: Abort>(rt: &R, found: Found) -> bool {
    let (one, two) = found.expect(rt, "both values");
    one.as_deref() == Some(b"1".as_slice()) && two.as_deref() == Some(b"2".as_slice())
}

#[test]
fn two_clients_find_both_values(rt: HostRuntime) {
    let alloc = rt.alloc();
    let device = MemDevice::new(alloc, 8_192).expect(&rt, "a device");
    let keep = [false, true];
    let found = share(&rt, alloc, device, b"one", b"1", b"two", b"2", &keep);
    assert!(rt; has_both(&rt, found));
    let device = MemDevice::new(alloc, 8_192).expect(&rt, "a device");
    let found = share_beside_a_worker(&rt, alloc, device, b"one", b"1", b"two", b"2", &keep);
    assert!(rt; has_both(&rt, found));
}

// A sealed memory table, which waits for its flush.
const WAITING: &[Exchange] = &[
    (0, Ask::Put(0x61), Outcome::Number(1)),
    (0, Ask::Rotate, Outcome::Done),
];

// What is left of a small store with such a table once two clients and a worker shared it.
fn shared_with_a_worker<R: Threads + Wait + Abort + Sync>(
    rt: &R,
    alloc: Global,
) -> Store<MemDevice> {
    let one = put(alloc, b"one", b"1").expect(rt, "a batch");
    let two = put(alloc, b"two", b"2").expect(rt, "a batch");
    let left = lead(rt, alloc, small(rt, alloc), (1, 2), Deeds::Asks(WAITING));
    let (store, _) = left.into_parts();
    let opened = match prepare(alloc, store, 3, 64) {
        Ok(opened) => opened,
        Err((refusal, _)) => rt.panic(refusal.name()),
    };
    match in_three_threads::<Brand, _>(rt, alloc, opened, one, two) {
        Ok((store, _)) => store,
        Err(refusal) => rt.panic(refusal.name()),
    }
}

#[test]
fn a_worker_flushes_beside_two_clients(rt: HostRuntime) {
    let store = shared_with_a_worker(&rt, rt.alloc());
    // All three batches are synced, and the first one stands in a table.
    assert!(rt; store.synced_count() == 3);
    assert!(rt; matches!(store.stat(), Ok(stat) if stat.tables == 1 && !stat.waiting));
}

// Two clients with 150 keys each. A trail of 40 entries takes 300 puts in eight rounds, and a few more where turns of both fall into
// one.
#[test]
fn a_service_goes_on_by_rounds(rt: HostRuntime) {
    let played = put_in_rounds(&rt, rt.alloc(), small(&rt, rt.alloc()), 150, 40);
    let (store, rounds) = played.expect(&rt, "rounds");
    assert!(rt; store.batch_count() == 300);
    assert!(rt; rounds >= 8 && rounds <= 300);
}
