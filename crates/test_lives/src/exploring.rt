//! Explorations of which the openings behind a crash are not explored in turn.

use crate::setup::{LOG_SECTORS, SECTORS, formatted, led};
use crate::steps::{ShortStep, steps_of};
use lsm_explore::{Explored, explore};
use lsm_lives::{Life, Reply};
use lsm_progress::{Milestone, Progress};
use std::alloc::Global;
use std::process::Abort;
use std::thread::Threads;

// The fuses that were told, each behind the one before, and how many there are.
#[derive(Drop)]
struct Fuses {
    told: u64,
    all: u64,
}

impl Progress for Fuses {
    fn reached(&mut self, milestone: Milestone) {
        if let Milestone::Explored { fuse, fuses, .. } = milestone
            && fuse == self.told
        {
            self.told = fuse.saturating_add(1);
            self.all = fuses;
        }
    }
}

// What an exploration of steps counts, which finds nothing wrong and tells of each fuse.
fn explored<R: Threads + Sync + Abort>(
    rt: &R,
    alloc: Global,
    short_steps: &[ShortStep],
) -> Explored {
    let steps = steps_of(rt, alloc, short_steps);
    let mut fuses = Fuses { told: 0, all: 0 };
    let once = explore(rt, alloc, SECTORS, LOG_SECTORS, &steps, false, &mut fuses).expect(
        rt,
        "an exploration",
    );
    assert!(rt;
        fuses.told > 1 && fuses.told == fuses.all,
        "a fuse is not told"
    );
    assert!(rt; once.wrong == 0 && once.second == 0);
    once
}

// As many crashes as the program counts of it, which explores the openings behind them too.
const A_BATCH: &[ShortStep] = &[ShortStep::Put(0x61, 0x31), ShortStep::Sync];

// Two batches, a flush of them, and two snapshots with a batch behind each.
const SNAPSHOTS: &[ShortStep] = &[
    ShortStep::Put(0x61, 0x31),
    ShortStep::Put(0x61, 0x32),
    ShortStep::Rotate,
    ShortStep::Take,
    ShortStep::Snapshot,
    ShortStep::Put(0x61, 0x33),
    ShortStep::Snapshot,
    ShortStep::Put(0x61, 0x34),
    ShortStep::End(1),
];

#[test]
fn a_flush_beside_snapshots_is_explored(rt: HostRuntime) {
    let batch = explored(&rt, rt.alloc(), A_BATCH);
    let flush = explored(&rt, rt.alloc(), SNAPSHOTS);
    assert!(rt; batch.first == 14 && batch.skipped == 0);
    assert!(rt; flush.first > 8_191 && flush.skipped > 0);
}

// Five flushes, and two merges: of a delete over the put of its key, and then of what is left of them into nothing.
const MERGES: &[ShortStep] = &[
    ShortStep::Put(0x61, 0x31),
    ShortStep::Rotate,
    ShortStep::Take,
    ShortStep::End(1),
    ShortStep::Delete(0x61),
    ShortStep::Rotate,
    ShortStep::Take,
    ShortStep::End(2),
    ShortStep::Put(0x62, 0x31),
    ShortStep::Rotate,
    ShortStep::Take,
    ShortStep::End(3),
    ShortStep::Put(0x63, 0x31),
    ShortStep::Rotate,
    ShortStep::Take,
    ShortStep::End(4),
    ShortStep::Take,
    ShortStep::Read(5),
    ShortStep::End(5),
    ShortStep::Put(0x64, 0x31),
    ShortStep::Rotate,
    ShortStep::Take,
    ShortStep::End(6),
    ShortStep::Take,
    ShortStep::Read(7),
    ShortStep::End(7),
];

#[test]
fn flushes_and_merges_are_explored(rt: HostRuntime) {
    let once = explored(&rt, rt.alloc(), MERGES);
    assert!(rt; once.first > 40_000 && once.skipped > 0);
}

// Three flushes, of a put, of its delete and of another put, and a merge of all three runs.
const THREE_RUNS: &[ShortStep] = &[
    ShortStep::Put(0x61, 0x31),
    ShortStep::Rotate,
    ShortStep::Take,
    ShortStep::End(1),
    ShortStep::Delete(0x61),
    ShortStep::Rotate,
    ShortStep::Take,
    ShortStep::End(2),
    ShortStep::Put(0x62, 0x31),
    ShortStep::Rotate,
    ShortStep::Take,
    ShortStep::End(3),
    ShortStep::TakeRuns(3),
    ShortStep::Read(4),
    ShortStep::End(4),
];

#[test]
fn a_merge_of_three_runs_is_explored(rt: HostRuntime) {
    let once = explored(&rt, rt.alloc(), THREE_RUNS);
    assert!(rt; once.first > 10_000 && once.skipped > 0);
}

// Two flushes, each of which goes down and becomes a table of level 1, 2 and 4. The second is rewritten, and then both, which become
// one, beside a flush.
const REWRITES: &[ShortStep] = &[
    ShortStep::Put(0x61, 0x31),
    ShortStep::Rotate,
    ShortStep::Take,
    ShortStep::End(1),
    ShortStep::TakeRuns(1),
    ShortStep::Read(2),
    ShortStep::End(2),
    ShortStep::Put(0x62, 0x32),
    ShortStep::Rotate,
    ShortStep::Take,
    ShortStep::End(3),
    ShortStep::TakeRuns(1),
    ShortStep::Read(4),
    ShortStep::End(4),
    ShortStep::Rewrite(4, 4),
    ShortStep::Read(5),
    ShortStep::End(5),
    ShortStep::Put(0x61, 0x33),
    ShortStep::Rotate,
    ShortStep::Rewrite(2, 5),
    ShortStep::Take,
    ShortStep::Read(6),
    ShortStep::End(6),
    ShortStep::End(7),
];

// Whether no step is refused, so that each job that is ended was taken.
fn are_served<R: Threads + Sync + Abort>(rt: &R, alloc: Global, short_steps: &[ShortStep]) -> bool {
    let life = Life {
        fuse: None,
        steps: steps_of(rt, alloc, short_steps),
        mask: Vec::new(alloc),
    };
    match led(rt, alloc, formatted(rt, alloc), &[life]) {
        Ok((lives, _device)) => {
            let mut served = true;
            for replies in lives.iter() {
                for reply in replies.iter() {
                    served = served && !matches!(reply, Reply::Refused(_));
                }
            }
            served
        }
        Err((refusal, _)) => rt.panic(refusal.name()),
    }
}

#[test]
fn rewrites_are_explored(rt: HostRuntime) {
    assert!(rt; are_served(&rt, rt.alloc(), REWRITES));
    let once = explored(&rt, rt.alloc(), REWRITES);
    assert!(rt; once.first > 10_000 && once.skipped > 0);
}
