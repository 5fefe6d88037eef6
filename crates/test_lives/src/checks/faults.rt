//! Reads that fail.

use crate::setup::{LOG_SECTORS, SECTORS};
use crate::steps::{ShortStep, steps_of};
use lsm_check::{Finding, Report, check};
use lsm_device::{Device, MemDevice, Refusal};
use lsm_lives::{Life, lives_from_format};
use std::alloc::Global;
use std::process::Abort;
use std::thread::Threads;

/// The numbers of the image that `left` answers.
const NUMBERS: Report = Report {
    generation: 4,
    batches: 2,
    tables: 1,
    entries: 1,
    free_blocks: 955,
};

/// The reads of a check of the image: two superblocks and a sector of the manifest; footer, index and filter of the table; the
/// batch in the log and the sector behind it; each sector of the three logs; and the data block.
const READS: u64 = 3 + 3 * 8 + 2 + 3 * 128 + 8;

/// The device that a life leaves in which a batch is flushed, and another stays in the log.
fn left<R: Threads + Sync + Abort>(rt: &R, alloc: Global) -> MemDevice {
    let short_steps = [
        ShortStep::Put(0x61, 0x31),
        ShortStep::Rotate,
        ShortStep::Take,
        ShortStep::End(1),
        ShortStep::Put(0x62, 0x32),
        ShortStep::Sync,
    ];
    let life = Life {
        fuse: None,
        steps: steps_of(rt, alloc, &short_steps),
        mask: Vec::new(alloc),
    };
    let (_replies, device) = lives_from_format(rt, alloc, SECTORS, LOG_SECTORS, &[life]).expect(
        rt, "a life",
    );
    device
}

/// The device with both superblocks in version 1 of the format. The manifest is the same, since its only table has no delete.
fn in_version_1<R: Abort>(rt: &R, device: MemDevice) -> MemDevice {
    let mut device = device;
    for at in 0..2u32 {
        let mut sector = [0; 512];
        assert!(rt; at < device.sectors());
        device.read(at, &mut sector).expect(rt, "a superblock");
        sector[5] = 1;
        device.write(at, &sector).expect(rt, "a superblock");
    }
    device.sync().expect(rt, "a sync");
    device.crash(&[])
}

/// How many reads of a check can fail, one in each check, until none does and it finds the image sound. Else it tells that a read
/// failed. It only reads.
fn failing_reads<R: Abort>(rt: &R, alloc: Global, device: &mut MemDevice) -> u64 {
    for read in 0..1_000u64 {
        device.fail(read, false);
        let found = check(alloc, device);
        assert!(rt; device.writes() == 0 && device.syncs() == 0);
        match found {
            Ok(report) if report == NUMBERS => return read,
            Err(Finding::Refused(Refusal::Io)) => {}
            _ => rt.panic("neither a sound image nor a read that failed"),
        }
    }
    rt.panic("a read fails in each check")
}

#[test]
fn a_check_tells_each_read_that_fails(rt: HostRuntime) {
    let mut device = left(&rt, rt.alloc());
    assert!(rt; failing_reads(&rt, rt.alloc(), &mut device) == READS);
    // In version 1 the data block is read once more, to count its deletes.
    let mut old = in_version_1(&rt, left(&rt, rt.alloc()));
    assert!(rt; failing_reads(&rt, rt.alloc(), &mut old) == READS + 8);
}
