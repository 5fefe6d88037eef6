//! Openings of an image of version 1 of the format, whose manifest doesn't tell how many deletes a table has.

use crate::recovery::devices::{crash, put, sector, sector_of, zeros};
use crate::recovery::openings::{opened, opening};
use lsm_device::{Device, MemDevice, Refusal};
use std::alloc::Global;
use std::process::Abort;

/// The sectors of an image of generation 4, in which the batch that puts 61 = 31 is flushed as table 1: both superblocks, the
/// manifest, whose only log is that of region 1, the batch in its log, and index and footer of the table.
const IMAGE: &[(u32, &str)] = &[
    (0, "4c534d53000100000000000000040000200000800001"),
    (1, "4c534d53000100000000000000030000200000800001"),
    (
        2,
        "4c534d4d0000000000000004000000000000000100000000000000020101000101\
00000000000000030000000000000002000000000000000100000000000001010001",
    ),
    (
        130,
        "4c534d4c000000000000000200000000000000010000000100080000000000000001010161000131",
    ),
    (530, "01610000000000000001"),
    (538, "4c534d5400000000000000010001000000010000000a0161"),
];

/// The bytes of the filter, which has the key 61: their sectors, and their places there.
const FILTER: &[(u32, usize, u8)] = &[
    (528, 401, 0x10),
    (526, 283, 0x02),
    (524, 164, 0x40),
    (522, 46, 0x08),
    (527, 440, 0x01),
    (525, 321, 0x20),
    (523, 203, 0x04),
];

/// The data block of the table, and one that it could have, which deletes 61.
const PUT: &str = "00010161000000000000000101000131";

const DELETE: &str = "000101610000000000000001020000";

/// What the first opening makes of superblock and manifest, in sectors 1 and 66: the next generation in version 2, in which
/// region 0 is the log. The record of the table has its deletes at the end.
const SUPERBLOCK: &str = "4c534d53000200000000000000050000200000800001";

const MANIFEST: &str = "4c534d4d0000000000000005000000000000000100000000000000020101000100\
000000000000000500000000000000020000000000000001000000000000010100010000";

/// Batch 2 in the log of the first opening. It puts 62 = 32.
const BATCH: &str =
    "4c534d4c000000000000000500000000000000020000000100080000000000000001010162000132";

/// The image with this data block. Nothing pends.
fn old_image<R: Abort>(rt: &R, alloc: Global, block: &str) -> MemDevice {
    let mut device = zeros(rt, alloc);
    for &(at, text) in IMAGE {
        put(rt, &mut device, at, &sector_of(rt, text));
    }
    for &(at, place, byte) in FILTER {
        assert!(rt; place < 512);
        let mut bytes = [0; 512];
        bytes[place] = byte;
        put(rt, &mut device, at, &bytes);
    }
    put(rt, &mut device, 514, &sector_of(rt, block));
    device.sync().expect(rt, "a sync");
    crash(device, &[])
}

/// Whether the key 61 is absent where the filter lacks the bit of this sector.
fn is_hidden<R: Abort>(rt: &R, alloc: Global, sector: u32) -> bool {
    let mut device = old_image(rt, alloc, PUT);
    put(rt, &mut device, sector, &[0; 512]);
    finds(rt, alloc, device, None, None)
}

#[test]
fn a_key_of_which_the_filter_lacks_a_bit_is_absent(rt: HostRuntime) {
    for &(sector, _, _) in FILTER {
        assert!(rt; is_hidden(&rt, rt.alloc(), sector), "{sector}");
    }
}

/// What a crash that keeps these pending writes leaves of a first opening that fails behind so many writes and syncs.
fn stopped<R: Abort>(rt: &R, alloc: Global, fuse: u64, keep: &[bool]) -> MemDevice {
    let mut device = old_image(rt, alloc, PUT);
    device.fuse(fuse);
    match opening(alloc, device) {
        Err((Refusal::Io, device)) => crash(device, keep),
        _ => rt.panic("Io"),
    }
}

/// Whether the keys 61 and 62 have these values on a device.
fn finds<R: Abort>(
    rt: &R,
    alloc: Global,
    device: MemDevice,
    first: Option<u8>,
    second: Option<u8>,
) -> bool {
    let mut store = opened(rt, alloc, device);
    store.get(alloc, b"\x61") == Ok(first) && store.get(alloc, b"\x62") == Ok(second)
}

#[test]
fn a_first_opening_that_is_stopped(rt: HostRuntime) {
    const MASKS: &[[bool; 2]] = &[[false, false], [true, false], [false, true], [true, true]];
    for fuse in 0..5u64 {
        for keep in MASKS {
            let device = stopped(&rt, rt.alloc(), fuse, keep);
            let is_found = finds(&rt, rt.alloc(), device, Some(0x31), None);
            assert!(rt; is_found, "{fuse} {keep:?}");
        }
    }
}

/// Reads, writes and syncs.
type Calls = (u64, u64, u64);

/// What a crash that drops all that pends leaves of a device that was opened, and the calls that it had since the last one.
fn reopened<R: Abort>(rt: &R, alloc: Global, device: MemDevice) -> (Calls, MemDevice) {
    let device = opened(rt, alloc, device).into_device();
    let calls = (device.reads(), device.writes(), device.syncs());
    (calls, crash(device, &[]))
}

/// Whether superblock and manifest are those of the first opening, where the table has so many deletes.
fn is_counted<R: Abort>(rt: &R, device: &mut MemDevice, deletes: u8) -> bool {
    let mut manifest = sector_of(rt, MANIFEST);
    manifest[68] = deletes;
    sector(rt, device, 1) == sector_of(rt, SUPERBLOCK) && sector(rt, device, 66) == manifest
}

/// The calls of two openings of the image with this data block. The first has no more than its writes and syncs, counts the deletes
/// and lets its root stand. A batch pends at the second, which finds it, and lets it stand.
fn calls_of_two<R: Abort>(
    rt: &R,
    alloc: Global,
    block: &str,
    (deletes, found): (u8, Option<u8>),
) -> [Calls; 2] {
    let mut device = old_image(rt, alloc, block);
    device.fuse(5);
    let (first, device) = reopened(rt, alloc, device);
    let mut device = device;
    let is_counted = is_counted(rt, &mut device, deletes);
    let mut device = crash(device, &[]);
    put(rt, &mut device, 130, &sector_of(rt, BATCH));
    let (second, device) = reopened(rt, alloc, device);
    assert!(rt; is_counted && finds(rt, alloc, device, found, Some(0x32)));
    [first, second]
}

#[test]
fn data_blocks_are_counted_once(rt: HostRuntime) {
    const CASES: &[(&str, (u8, Option<u8>))] = &[(PUT, (0, Some(0x31))), (DELETE, (1, None))];
    for &(block, told) in CASES {
        let calls = calls_of_two(&rt, rt.alloc(), block, told);
        // Two superblocks and a sector of manifest, filter, index and footer, and at first the data block and the first sector of an
        // empty log. Then the log has a sector, which the test has put, and the one behind it is read too.
        let first = (2 + 1 + 4 * 8 + 1, 2, 3);
        let second = (2 + 1 + 3 * 8 + 2, 1 + 2, 3);
        assert!(rt; calls == [first, second], "{calls:?}");
    }
}
