// How far clients count.

use lsm_language::Load;
use lsm_storm::{Tallied, tally};
use std::alloc::Global;
use std::process::Abort;
use std::sync::Wait;
use std::thread::Threads;

// What comes of so many clients, which try so many times each.
fn tallied<R: Threads + Wait + Abort + Sync>(
    rt: &R,
    alloc: Global,
    clients: u64,
    tries: u64,
) -> Tallied {
    let load = Load::new(clients, tries, 0).expect(rt, "clients and tries within the limits");
    tally(rt, alloc, load).expect(rt, "memory for a tally")
}

// Nobody comes between what one client gets and what it commits. A commit that is accepted makes the guard of at most one try of each
// other client false. So of four clients one try in four is accepted at least, in every schedule.
#[test]
fn one_try_of_each_client_is_accepted(rt: HostRuntime) {
    let one = tallied(&rt, rt.alloc(), 1, 10);
    assert!(rt; one.count == 10 && one.accepted == 10);
    let four = tallied(&rt, rt.alloc(), 4, 100);
    assert!(rt; four.count == four.accepted && (100..=400).contains(&four.count));
}
