//! Stores that are settled, compacted and kept up.

use crate::subject::{CACHE, Subject, begun, begun_with};
use lsm_device::Refusal;
use lsm_policy::Policy;
use std::alloc::Global;
use std::process::Abort;

#[test]
fn a_settled_store_has_room_in_its_log(rt: HostRuntime) {
    let mut store = begun(&rt, rt.alloc());
    for _ in 0..128_u64 {
        store.put(&rt, &[0x61], &[0x31]).expect(&rt, "a batch");
    }
    let full = store.put(&rt, &[0x61], &[0x31]);
    store.settle();
    let next = store.put(&rt, &[0x61], &[0x31]);
    assert!(rt; full == Err(Refusal::LogFull) && next == Ok(129));
}

/// More than any level has.
const MOST: u64 = 1_000_000;

/// A put, and the limits of the levels that it then goes down, as a run of its own.
const DOWN: [(u8, [u64; 3]); 3] = [
    (0x61, [0, 0, MOST]),
    (0x62, [0, MOST, MOST]),
    (0x63, [MOST, MOST, MOST]),
];

/// A table in each of levels 3, 2 and 1, a run of level 0, and a put that waits for its flush.
pub(crate) fn with_four_levels<R: Abort>(rt: &R, alloc: Global) -> Subject {
    let mut store = begun(rt, alloc);
    for (key, limits) in DOWN {
        // Each run goes down, and of levels 1 to 3 those tables that are over these limits.
        let policy = Policy {
            runs: 1,
            limits,
            ..Policy::new()
        };
        store.put_and_rotate(rt, key);
        store.compact(&policy);
    }
    store.put_and_rotate(rt, 0x64);
    store.settle();
    store.put_and_rotate(rt, 0x65);
    store
}

#[test]
fn compaction_does_what_the_policy_advises(rt: HostRuntime) {
    let mut store = with_four_levels(&rt, rt.alloc());
    assert!(rt; store.shape() == [1, 1, 1, 1, 0] && store.has_just(&rt, 5));
    // Two runs, and a put that waits: its flush comes first, then all three runs go, and become one table.
    store.settle();
    store.put_and_rotate(&rt, 0x66);
    store.compact(&Policy::new());
    assert!(rt; store.shape() == [0, 2, 1, 1, 0] && store.has_just(&rt, 6));
}

/// Whether the last level has so many tables, and no other level has one, with the keys of so many batches.
fn are_last<R: Abort>(rt: &R, store: &mut Subject, tables: usize, batches: u8) -> bool {
    store.shape() == [0, 0, 0, 0, tables] && store.has_just(rt, batches)
}

#[test]
fn all_tables_come_into_the_last_level(rt: HostRuntime) {
    let mut store = with_four_levels(&rt, rt.alloc());
    // The deepest goes first, so each goes alone, but the two runs go together. None meets another.
    assert!(rt; store.compact_all() && are_last(&rt, &mut store, 4, 5));
    // One table would do for all of them. Two more than twice as many may stand, and with a fifth they are joined.
    store.put_and_rotate(&rt, 0x66);
    assert!(rt; store.compact_all() && are_last(&rt, &mut store, 1, 6));
    let mut again = store.crashed(&rt, &[]);
    assert!(rt; are_last(&rt, &mut again, 1, 6));
}

/// A store with two runs, and a put of a long value under each of so many keys, which waits for its flush. Its logs have 2,048
/// sectors each, so that its data area has 239 blocks.
fn with_long_values<R: Abort>(rt: &R, alloc: Global, count: u8) -> Subject {
    let mut store = begun_with(rt, alloc, 2_048, CACHE);
    for key in [0x61, 0x62_u8] {
        store.put_and_rotate(rt, key);
        store.settle();
    }
    for key in 0..count {
        store.put(rt, &[key], &[key; 2_048]).expect(rt, "a batch");
    }
    store.rotate(rt);
    store
}

/// How many runs are left of three once such a store was kept up, by a policy of so many tables at most.
fn runs_left<R: Abort>(rt: &R, alloc: Global, count: u8, most_tables: usize) -> usize {
    let mut store = with_long_values(rt, alloc, count);
    let policy = Policy {
        most_tables,
        ..Policy::new()
    };
    store.keep_up(&policy);
    let [runs, ..] = store.shape();
    runs
}

#[test]
fn a_store_is_compacted_where_room_is_scarce(rt: HostRuntime) {
    // Two small tables have four blocks each. Of long values a block holds one, and two tables beside have a filter, an index and a
    // footer each: so all take 119 blocks or 120, and as many are free, or one fewer. Then the two small ones go, as all three find
    // no room. Three tables are at most three; of more than so many all go.
    const CASES: &[(u8, usize, usize)] = &[(105, 768, 3), (106, 768, 1), (1, 3, 3), (1, 2, 0)];
    for &(count, most_tables, wanted) in CASES {
        let runs = runs_left(&rt, rt.alloc(), count, most_tables);
        assert!(rt; runs == wanted, "{count} {most_tables}: {runs}");
    }
}
