//! Lives on a device that was not crashed.

use crate::setup::{PlainReply, formatted, left_by};
use crate::steps::{ShortStep, steps_of};
use lsm_device::{MemDevice, Refusal};
use lsm_lives::{Life, replay};
use lsm_store::Store;
use std::alloc::Global;
use std::process::Abort;
use std::thread::Threads;

// A device that is taken back of a store with a batch that is synced and one that is not.
fn taken_back<R: Threads + Sync + Abort>(rt: &R, alloc: Global) -> MemDevice {
    let steps = steps_of(
        rt,
        alloc,
        &[
            ShortStep::Put(0x61, 0x31),
            ShortStep::Sync,
            ShortStep::Put(0x62, 0x32),
        ],
    );
    match Store::open(alloc, formatted(rt, alloc), 256) {
        Ok(mut store) => {
            let _replies = replay(rt, alloc, &mut store, &steps).expect(rt, "replies");
            store.into_device()
        }
        Err((refusal, _)) => rt.panic(refusal.name()),
    }
}

// A life that looks up both keys, with a fuse or none, and a crash.
fn looking<R: Abort>(rt: &R, alloc: Global, fuse: Option<u64>, mask: &[bool]) -> Life {
    Life {
        fuse,
        steps: steps_of(rt, alloc, &[ShortStep::Get(0x61), ShortStep::Get(0x62)]),
        mask: Vec::from_slice(alloc, mask).expect(rt, "a mask"),
    }
}

const BOTH: &[PlainReply] = &[
    PlainReply::Number(2),
    PlainReply::Byte(0x31),
    PlainReply::Byte(0x32),
];

const FIRST: &[PlainReply] = &[
    PlainReply::Number(1),
    PlainReply::Byte(0x31),
    PlainReply::Other,
];

// What two looks find where the opening failed.
const STOPPED: &[PlainReply] = &[
    PlainReply::Refused(Refusal::Io),
    PlainReply::Refused(Refusal::Stopped),
    PlainReply::Refused(Refusal::Stopped),
];

#[test]
fn a_device_with_pending_writes_is_opened_as_it_reads(rt: HostRuntime) {
    // Without a life the device comes back as it came.
    let device = left_by(&rt, rt.alloc(), taken_back(&rt, rt.alloc()), &[], &[]);
    assert!(rt; device.writes() > 0);
    let given = [
        looking(&rt, rt.alloc(), None, &[]),
        looking(&rt, rt.alloc(), None, &[]),
    ];
    let device = left_by(&rt, rt.alloc(), device, &given, &[BOTH, BOTH]);
    assert!(rt; (device.reads(), device.writes(), device.syncs()) == (0, 0, 0));
}

#[test]
fn until_the_first_sync_what_pended_may_be_dropped(rt: HostRuntime) {
    const CASES: &[(bool, &[PlainReply])] = &[(false, FIRST), (true, BOTH)];
    for &(keeps, found) in CASES {
        let given = [
            looking(&rt, rt.alloc(), Some(0), &[keeps]),
            looking(&rt, rt.alloc(), None, &[]),
        ];
        let device = taken_back(&rt, rt.alloc());
        let _device = left_by(&rt, rt.alloc(), device, &given, &[STOPPED, found]);
    }
}
