//! How many clients a session may have, and how many places its trail.

use crate::asks::{Ask, Exchange, Outcome};
use crate::sessions::{Deeds, lead};
use crate::setup::small;
use lsm_device::Refusal;
use lsm_shared::prepare;
use std::alloc::Global;
use std::process::Abort;

// How no session of so many clients and places is prepared, if none is. The store comes back then.
fn refusal_of<R: Abort>(rt: &R, alloc: Global, clients: u32, places: u32) -> Option<Refusal> {
    match prepare(alloc, small(rt, alloc), clients, places) {
        Ok(opened) => {
            assert!(rt; opened.clients() == clients && opened.limit() == places);
            None
        }
        Err((refusal, store)) => {
            assert!(rt; store.log_room() == Ok(128));
            Some(refusal)
        }
    }
}

#[test]
fn a_session_has_1_to_64_clients_and_1_to_65536_places(rt: HostRuntime) {
    const CASES: &[(u32, u32, Option<Refusal>)] = &[
        (0, 1, Some(Refusal::TooManyClients)),
        (65, 1, Some(Refusal::TooManyClients)),
        (1, 0, Some(Refusal::BadLimit)),
        (1, 65_537, Some(Refusal::BadLimit)),
        (64, 1, None),
        (1, 65_536, None),
    ];
    for &(clients, places, wanted) in CASES {
        let refusal = refusal_of(&rt, rt.alloc(), clients, places);
        assert!(rt; refusal == wanted, "{clients} {places}");
    }
}

// An idle turn takes no place, and a call that finds none changes no number.
const TWO_PLACES: &[Exchange] = &[
    (0, Ask::Turn, Outcome::Idle),
    (0, Ask::Watch, Outcome::Numbers(0, 0, 0)),
    (0, Ask::Put(0x61), Outcome::Number(1)),
    (0, Ask::Watch, Outcome::Numbers(1, 1, 0)),
    (0, Ask::Sync, Outcome::Done),
    (0, Ask::Watch, Outcome::Numbers(2, 1, 1)),
    (0, Ask::Put(0x62), Outcome::Refused(Refusal::TrailFull)),
    (0, Ask::Watch, Outcome::Numbers(2, 1, 1)),
];

// Client 1 makes no call.
const WITH_ANOTHER: &[Exchange] = &[
    (0, Ask::Put(0x61), Outcome::Number(1)),
    (1, Ask::Watch, Outcome::Numbers(1, 1, 0)),
];

// The base has the number 1.
const ONE_PLACE: &[Exchange] = &[
    (0, Ask::Release(1), Outcome::Refused(Refusal::NotYours)),
    (0, Ask::Put(0x61), Outcome::Number(1)),
    (0, Ask::Sync, Outcome::Refused(Refusal::TrailFull)),
    (0, Ask::Release(1), Outcome::Refused(Refusal::TrailFull)),
];

#[test]
fn a_trail_of_two_places_takes_two_calls(rt: HostRuntime) {
    let left = lead(
        &rt,
        rt.alloc(),
        small(&rt, rt.alloc()),
        (1, 2),
        Deeds::Asks(TWO_PLACES),
    );
    assert!(rt; left.trail.len() == 2 && left.store.synced_count() == 1);
    let left = lead(
        &rt,
        rt.alloc(),
        small(&rt, rt.alloc()),
        (2, 2),
        Deeds::Asks(WITH_ANOTHER),
    );
    assert!(rt; left.trail.len() == 1);
}

#[test]
fn a_trail_of_one_place_takes_one_call(rt: HostRuntime) {
    let store = small(&rt, rt.alloc());
    let left = lead(&rt, rt.alloc(), store, (1, 1), Deeds::Asks(ONE_PLACE));
    assert!(rt; left.trail.len() == 1 && left.store.synced_count() == 0);
}
