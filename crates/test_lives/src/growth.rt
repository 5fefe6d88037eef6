//! Growths that memory refuses.

use crate::setup::{PlainReply, are, formatted, led};
use crate::steps::{get, put};
use lsm_device::Refusal;
use lsm_lives::{Call, Life, Step};
use std::alloc::{Allocator, Global};
use std::process::Abort;
use std::thread::Threads;
use test_merge::budget::Budget;

// A life with three steps.
fn life<A: Allocator + Copy>(heap: A) -> Result<Life<A>, Refusal> {
    let mut steps = Vec::with_capacity(heap, 3)?;
    steps.push_reserved(put(heap, b"\x61", b"\x31")?);
    steps.push_reserved(Step::Call(Call::Sync));
    steps.push_reserved(get(heap, b"\x61")?);
    Ok(Life {
        fuse: None,
        steps,
        mask: Vec::new(heap),
    })
}

const AMPLE: &[PlainReply] = &[
    PlainReply::Number(0),
    PlainReply::Number(1),
    PlainReply::Done,
    PlainReply::Byte(0x31),
];

// How far a life comes on a heap.
#[derive(Clone, Copy, PartialEq, Eq)]
enum Reach {
    /// There is no place for its replies, and nothing is done.
    Refused,
    /// It is led, and some steps are refused.
    Led,
    /// Each step is served.
    Served,
}

// How far it comes where so many growths are allowed. The device has a heap of its own, so that its record can grow.
fn reached<R: Threads + Sync + Abort>(rt: &R, alloc: Global, growths: u64) -> Reach {
    let heap = Budget::new(alloc, u64::MAX);
    let given = [life(&heap).expect(rt, "a life")];
    let device = formatted(rt, alloc);
    let writes = device.writes();
    heap.allow(growths);
    match led(rt, &heap, device, &given) {
        Ok((replies, device)) => {
            assert!(rt; replies.len() == 1 && device.writes() == 0);
            if are(&replies, &[AMPLE]) {
                return Reach::Served;
            }
            Reach::Led
        }
        Err((refusal, device)) => {
            assert!(rt; refusal == Refusal::NoMemory && device.writes() == writes);
            Reach::Refused
        }
    }
}

#[test]
fn without_a_place_for_the_replies_nothing_is_done(rt: HostRuntime) {
    let mut reaches = [0u32; 3];
    for growths in 0..200u64 {
        match reached(&rt, rt.alloc(), growths) {
            Reach::Refused => reaches[0] = reaches[0].wrapping_add(1),
            Reach::Led => reaches[1] = reaches[1].wrapping_add(1),
            Reach::Served => reaches[2] = reaches[2].wrapping_add(1),
        }
    }
    assert!(rt; reaches[0] > 0 && reaches[1] > 0 && reaches[2] > 0);
}
