//! Lives with ample memory.

use crate::lives::{ShortCall, ShortReply, are_told, life};
use corwaphi::Refusal;

// A batch that is synced and one that is not.
const PUTS: &[ShortCall] = &[
    ShortCall::Put(0x61, 0x31),
    ShortCall::Sync,
    ShortCall::Put(0x62, 0x32),
];

const ADDED: &[ShortReply] = &[
    ShortReply::Number(0),
    ShortReply::Number(1),
    ShortReply::Done,
    ShortReply::Number(2),
];

const LOOKS: &[ShortCall] = &[ShortCall::Get(0x61), ShortCall::Get(0x62)];

#[test]
fn what_is_synced_is_found_and_what_is_not_if_the_crash_keeps_it(rt: HostRuntime) {
    const CASES: &[(bool, &[ShortReply])] = &[
        (
            false,
            &[
                ShortReply::Number(1),
                ShortReply::Byte(0x31),
                ShortReply::Nothing,
            ],
        ),
        (
            true,
            &[
                ShortReply::Number(2),
                ShortReply::Byte(0x31),
                ShortReply::Byte(0x32),
            ],
        ),
    ];
    for &(kept, found) in CASES {
        let given = [life(&rt, None, PUTS, &[kept]), life(&rt, None, LOOKS, &[])];
        assert!(rt; are_told(&rt, &given, &[ADDED, found]));
    }
}

// The first call of an opening is a sync.
#[test]
fn a_fuse_stops_an_opening_and_nothing_is_lost(rt: HostRuntime) {
    let stopped = ShortReply::Refused(Refusal::Stopped);
    let given = [
        life(&rt, None, PUTS, &[]),
        life(&rt, Some(0), LOOKS, &[]),
        life(&rt, None, LOOKS, &[]),
    ];
    let refused = [ShortReply::Refused(Refusal::Io), stopped, stopped];
    let found = [
        ShortReply::Number(1),
        ShortReply::Byte(0x31),
        ShortReply::Nothing,
    ];
    assert!(rt; are_told(&rt, &given, &[ADDED, &refused, &found]));
}

#[test]
fn each_call_is_answered(rt: HostRuntime) {
    let calls = [
        ShortCall::Put(0x61, 0x31),
        ShortCall::Snapshot,
        ShortCall::PutNew(0x61, 0x33),
        ShortCall::PutNew(0x62, 0x32),
        ShortCall::Delete(0x61),
        ShortCall::Rows,
        ShortCall::GetAt(1, 0x61),
        ShortCall::Release(1),
        ShortCall::SyncTo(2),
        ShortCall::Compact,
    ];
    let replies = [
        ShortReply::Number(0),
        ShortReply::Number(1),
        ShortReply::Number(1),
        ShortReply::Refused(Refusal::GuardFailed(0)),
        ShortReply::Number(2),
        ShortReply::Number(3),
        ShortReply::Rows(1),
        ShortReply::Byte(0x31),
        ShortReply::Done,
        ShortReply::Done,
        ShortReply::Done,
    ];
    assert!(rt; are_told(&rt, &[life(&rt, None, &calls, &[])], &[&replies]));
}
