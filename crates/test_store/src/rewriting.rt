//! Tables that are written anew in their own place.

use crate::subject::Subject;
use crate::upkeep::with_four_levels;
use lsm_policy::Policy;
use std::process::Abort;

/// Whether all tables of a level are rewritten, divided at these keys, and become as many as there are parts, with later numbers. The
/// other levels have as many tables as before, and the keys are those of so many batches still.
fn is_rewritten<R: Abort>(
    rt: &R,
    store: &mut Subject,
    level: usize,
    keys: &[u8],
    batches: u8,
) -> bool {
    let mut wanted = store.shape();
    for count in wanted.iter_mut().skip(level).take(1) {
        *count = keys.len().wrapping_add(1);
    }
    let (first, last) = store.ends(rt, level);
    let above = store.rewrite(rt, first, last, keys);
    let (number, _) = store.ends(rt, level);
    let is_moved = above == Some(level.wrapping_sub(1)) && number > last;
    is_moved && store.shape() == wanted && store.has_just(rt, batches)
}

#[test]
fn a_table_is_rewritten_in_its_level(rt: HostRuntime) {
    let mut store = with_four_levels(&rt, rt.alloc());
    for level in 1..4_usize {
        assert!(rt;
            is_rewritten(&rt, &mut store, level, &[], 5),
            "level {level}"
        );
    }
    assert!(rt; store.compact_all() && is_rewritten(&rt, &mut store, 4, &[], 5));
    let mut again = store.crashed(&rt, &[]);
    assert!(rt; again.shape() == [0, 0, 0, 0, 1] && again.has_just(&rt, 5));
}

#[test]
fn neighbours_become_one_table_and_it_becomes_two(rt: HostRuntime) {
    let mut store = with_four_levels(&rt, rt.alloc());
    store.settle();
    store.put_and_rotate(&rt, 0x66);
    store.compact(&Policy::new());
    assert!(rt; store.shape() == [0, 2, 1, 1, 0] && store.tables(&rt) == 4);
    assert!(rt; is_rewritten(&rt, &mut store, 1, &[], 6) && store.tables(&rt) == 3);
    // Level 1 has the keys from 63 on.
    assert!(rt; is_rewritten(&rt, &mut store, 1, &[0x64], 6) && store.tables(&rt) == 4);
    let mut again = store.crashed(&rt, &[]);
    assert!(rt; again.shape() == [0, 2, 1, 1, 0] && again.has_just(&rt, 6));
}

#[test]
fn what_is_not_there_is_not_rewritten(rt: HostRuntime) {
    let mut store = with_four_levels(&rt, rt.alloc());
    let (number, _) = store.ends(&rt, 1);
    for (first, last) in [(number, u64::MAX), (u64::MAX, number)] {
        assert!(rt; store.rewrite(&rt, first, last, &[]).is_none());
    }
    assert!(rt; store.shape() == [1, 1, 1, 1, 0] && store.has_just(&rt, 5));
}
