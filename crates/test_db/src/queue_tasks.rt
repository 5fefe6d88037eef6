//! Each call once.

use crate::queue::begun;
use corwaphi::Refusal;

#[test]
fn tasks_are_claimed_in_their_order(rt: HostRuntime) {
    let mut queue = begun(&rt);
    let first = queue.add(b"sweep");
    let second = queue.add(b"wash");
    assert!(rt; first == Ok(1) && second == Ok(2) && queue.claims(&rt, 1, b"sweep"));
    assert!(rt; queue.claims(&rt, 2, b"wash") && queue.claims_none(&rt));
}

#[test]
fn a_task_is_finished_once(rt: HostRuntime) {
    let mut queue = begun(&rt);
    let added = queue.add(b"sweep");
    let early = queue.finishes(&rt, 1);
    let claimed = queue.claims(&rt, 1, b"sweep");
    assert!(rt; added == Ok(1) && !early && claimed);
    assert!(rt; queue.finishes(&rt, 1) && !queue.finishes(&rt, 1));
}

#[test]
fn tasks_have_a_limit(rt: HostRuntime) {
    let mut queue = begun(&rt);
    let long = queue.add(&[7; 2_049]);
    let empty = queue.add(b"");
    let longest = queue.add(&[7; 2_048]);
    assert!(rt; long == Err(Refusal::BadValue) && empty == Ok(1) && longest == Ok(2));
    assert!(rt; queue.claims(&rt, 1, b"") && queue.claims(&rt, 2, &[7; 2_048]));
}

#[test]
fn the_order_is_that_of_numbers(rt: HostRuntime) {
    let mut queue = begun(&rt);
    let mut right = true;
    for number in 1..301_u64 {
        right = queue.add(b"sweep") == Ok(number) && right;
    }
    for number in 1..301_u64 {
        right = queue.claims(&rt, number, b"sweep") && right;
    }
    assert!(rt; right);
}
