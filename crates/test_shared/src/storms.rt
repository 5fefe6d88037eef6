//! What workers of a storm do.

use lsm_language::Load;
use lsm_storm::{Counts, storm};
use std::alloc::Global;
use std::process::Abort;
use std::sync::Wait;
use std::thread::Threads;

// What comes of four clients with a hundred commits each, and so many workers.
fn stormed<R: Threads + Wait + Abort + Sync>(rt: &R, alloc: Global, workers: u64) -> Counts {
    let load = Load::new(4, 100, workers).expect(rt, "clients and workers within the limits");
    storm(rt, alloc, load).expect(rt, "memory for a storm")
}

// The first rotation leaves a flush, which is taken, built, accepted, written and installed before all workers are idle.
#[test]
fn workers_of_a_storm_do_what_rotations_leave(rt: HostRuntime) {
    let alone = stormed(&rt, rt.alloc(), 0);
    assert!(rt; alone.commits == 400 && alone.pieces == 0);
    let worked = stormed(&rt, rt.alloc(), 2);
    assert!(rt; worked.commits == 400 && worked.pieces >= 5);
}
