//! Jobs that clients choose.

use crate::asks::{Ask, Exchange, Outcome};
use crate::sessions::{Deeds, lead};
use crate::setup::small;
use lsm_device::Refusal;
use std::alloc::Global;
use std::process::Abort;
use std::sync::Wait;
use std::thread::Threads;

// One run of level 0, by seven entries. A choice without a job is none, also where it finds no place.
const SEVEN: &[Exchange] = &[
    (0, Ask::Take(1), Outcome::NoJob),
    (0, Ask::Put(0x61), Outcome::Number(1)),
    (0, Ask::Rotate, Outcome::Done),
    (0, Ask::Work, Outcome::Idle),
    (0, Ask::Take(2), Outcome::NoJob),
    (0, Ask::Take(1), Outcome::Refused(Refusal::TrailFull)),
    (0, Ask::Take(0), Outcome::NoJob),
];

// The same, and its job is taken. Beside it there is no other of level 0.
const EIGHT: &[Exchange] = &[
    (0, Ask::Put(0x61), Outcome::Number(1)),
    (0, Ask::Rotate, Outcome::Done),
    (0, Ask::Work, Outcome::Idle),
    (0, Ask::Take(1), Outcome::Did),
    (0, Ask::Take(1), Outcome::NoJob),
];

// How many entries a session leaves of one client, which asks this, and whether a job is left in a slot.
fn left_of<R: Threads + Wait + Abort + Sync>(
    rt: &R,
    alloc: Global,
    places: u32,
    exchanges: &[Exchange],
) -> (usize, bool) {
    let store = small(rt, alloc);
    let left = lead(rt, alloc, store, (1, places), Deeds::Asks(exchanges));
    (left.trail.len(), left.store.jobs().turn_at(0).is_some())
}

#[test]
fn a_choice_without_a_job_is_no_entry(rt: HostRuntime) {
    assert!(rt; left_of(&rt, rt.alloc(), 7, SEVEN) == (7, false));
    assert!(rt; left_of(&rt, rt.alloc(), 8, EIGHT) == (8, true));
}
