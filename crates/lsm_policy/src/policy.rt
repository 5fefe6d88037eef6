//! What to merge next.

ghost use Rattle.std.specs.Prelude.{◌≡◌, ◌*◌, ◌<◌, ◌||◌, ◌&&◌, ltb, nat_le, true, IfSome};
ghost use Rattle.lsm_levels.specs.Moving.{table_count};
ghost use Rattle.lsm_policy.specs.Room.{fits, taken_blocks};

use crate::neighbours::{Bounds, best, blocks_of};
use crate::room::{fits, has_at_most, takes_at_most};
use lsm_levels::{Choice, HeldJobs, Levels, Run};
use std::alloc::Allocator;

/// The limits of levels 1 to 3 are at most these parts of all blocks: an eighth, a half, and all. So a small store needs fewer levels.
const PARTS: [u64; 3] = [8, 2, 1];

/// But each is at least this number of blocks.
const LEAST_LIMIT: u64 = 16;

/// The runs of level 0 from which on they go down where they have at least [`LARGE_PART`] of the blocks of level 1.
const FEW_RUNS: usize = 3;

/// See [`FEW_RUNS`].
const LARGE_PART: u64 = 4;

/// The numbers by which merges are chosen. [`Policy::new`] has good ones.
#[derive(Clone, Copy, Debug)]
pub struct Policy {
    /// From this number of runs on the runs of level 0 are merged down, as many at once as take in no more blocks than are free; from
    /// three on if they have a quarter of the blocks of level 1, so that small runs wait until level 1 is worth being written anew. A
    /// higher number writes less, and leaves more places for a look-up or a scan to ask. From four runs on the store's `job_take` takes
    /// the oldest alone, so a caller that uses it too sets fewer.
    pub runs: usize,
    /// The limits of levels 1 to 3, in blocks. In a small store they are lower: an eighth of all blocks for level 1, and half of them for
    /// level 2.
    pub limits: [u64; 3],
    /// The most blocks that a merge of several neighbours, or several runs, takes in.
    pub most_blocks: u64,
    /// Room is scarce with more tables than this, or with less than half of the blocks free. With more tables there is no room for
    /// more entries either.
    pub most_tables: usize,
    /// There is room for more while tables take at most this number of blocks for each free one.
    pub taken_for_each_free: u32,
}

impl Default for Policy {
    ghost use Rattle.std.specs.Prelude.{◌≡◌};

    ghost is_default = { λ p. (p.most_tables ≡ 768) × (p.taken_for_each_free ≡ 2) };

    /// Those of [`Policy::new`].
    fn default() -> Self {
        Policy::new()
    }
}

impl Policy {
    /// Eight runs; limits of 448, 2,800 and 8,192 blocks; 1,024 blocks; 768 tables; two blocks for each that is free.
    ///
    /// The store's `job_take` has rules of its own, by which smaller levels go down: from 256 and 2,048 blocks on. So a caller that uses
    /// both merges more than by one of them.
    pub fn new() -> Policy
        ensures tables { result.most_tables ≡ 768 }
        ensures room { result.taken_for_each_free ≡ 2 }
    {
        Policy {
            runs: 8,
            limits: [448, 2_800, 8_192],
            most_blocks: 1_024,
            most_tables: 768,
            taken_for_each_free: 2,
        }
    }

    /// Whether room is scarce with `free_blocks` blocks free: less than half of them, or there are too many tables.
    pub fn is_scarce<A: Allocator>(&self, levels: &Levels<A>, free_blocks: u32) -> bool
        ensures { result
            ≡ (ltb free_blocks (taken_blocks levels.now)
            || ltb self.now.most_tables (table_count levels.now)) }
    {
        !takes_at_most(levels, u64::from(free_blocks)) || !has_at_most(levels, self.most_tables)
    }

    /// Whether there is room for more entries with `free_blocks` blocks free: at most two taken for each free one, so that a third is
    /// free; and no more tables than [`most_tables`](Policy::most_tables). Refusing puts at this point keeps space for deletes, which
    /// need a table first. No clause says that it is enough: `lsm_room` reckons more closely.
    pub fn has_room<A: Allocator>(&self, levels: &Levels<A>, free_blocks: u32) -> bool
        ensures { result
            ≡ (nat_le (taken_blocks levels.now) (self.now.taken_for_each_free * free_blocks)
            && nat_le (table_count levels.now) self.now.most_tables) }
    {
        let most_blocks = u64::from(self.taken_for_each_free) * u64::from(free_blocks);
        takes_at_most(levels, most_blocks) && has_at_most(levels, self.most_tables)
    }

    /// The merge to choose next, with `free_blocks` blocks free and the slots held by these jobs: the first of these that exists,
    /// may be taken, and takes in no more blocks than are free.
    ///
    /// 1. From [`runs`](Policy::runs) on, or from three on if they have a quarter of the blocks of level 1, all runs of level 0; or the
    ///    most of the oldest ones that take in no more blocks than are free, nor, if they are several, than
    ///    [`most_blocks`](Policy::most_blocks).
    /// 2. Of the least level from 1 to 3 that is over its limit: the neighbours that go down for the fewest blocks of the next level
    ///    a block of their own. If room is scarce those with the oldest table. Of equal ones the widest. Several tables go only where
    ///    no other merge is held.
    ///
    /// It takes no memory, and time linear in the number of tables by that of the neighbours which may go at once.
    pub fn next_choice<H: HeldJobs, A: Allocator>(
        &self,
        levels: &Levels<A>,
        free_blocks: u32,
        held: &H,
    ) -> Option<Choice>
        ensures { IfSome result
            (λ choice. fits levels.now (H.jobs held.now) free_blocks choice ≡ true) }
    {
        let bounds = Bounds {
            joins: !held.has_merge(),
            most_blocks: self.most_blocks,
            is_scarce: self.is_scarce(levels, free_blocks),
            room: u64::from(free_blocks),
        };
        let choice = self.first_of(levels, bounds, held)?;
        if !fits(levels, choice, u64::from(free_blocks), held) {
            return None;
        }
        Some(choice)
    }

    /// The first of these choices that there is.
    fn first_of<H: HeldJobs, A: Allocator>(
        &self,
        levels: &Levels<A>,
        bounds: Bounds,
        held: &H,
    ) -> Option<Choice> {
        if let Some(choice) = runs_of(levels, self.least_runs(levels), bounds, held) {
            return Some(choice);
        }
        let area = area_of(levels, bounds.room);
        let [level_1, level_2, level_3, level_4] = levels.deeper() else {
            return None;
        };
        let [limit_1, limit_2, limit_3] = self.limits;
        let [part_1, part_2, part_3] = PARTS;
        let limit_1 = limit_1.min(part_of(area, part_1));
        if let Some(choice) = tables_of(level_1, level_2, limit_1, bounds, held) {
            return Some(choice);
        }
        let limit_2 = limit_2.min(part_of(area, part_2));
        if let Some(choice) = tables_of(level_2, level_3, limit_2, bounds, held) {
            return Some(choice);
        }
        let limit_3 = limit_3.min(part_of(area, part_3));
        tables_of(level_3, level_4, limit_3, bounds, held)
    }

    /// From how many runs on those of level 0 go down.
    fn least_runs<A: Allocator>(&self, levels: &Levels<A>) -> usize {
        let level_1 = match levels.deeper().first() {
            Some(run) => blocks_of(run.tables()),
            None => 0,
        };
        if blocks_of_runs(levels.runs()) >= level_1 / LARGE_PART {
            return self.runs.min(FEW_RUNS);
        }
        self.runs
    }
}

/// A part of an area, or the least limit.
fn part_of(area: u64, part: u64) -> u64
    requires { 0 < part }
{
    (area / part).max(LEAST_LIMIT)
}

/// The blocks of the tables of runs.
fn blocks_of_runs<A: Allocator>(runs: &[Run<A>]) -> u64 {
    let mut blocks: u64 = 0;
    for run in runs {
        blocks = blocks.saturating_add(blocks_of(run.tables()));
    }
    blocks
}

/// The blocks of all tables, with those that are free.
fn area_of<A: Allocator>(levels: &Levels<A>, room: u64) -> u64 {
    room.saturating_add(blocks_of_runs(levels.runs()))
        .saturating_add(blocks_of_runs(levels.deeper()))
}

/// The most of the oldest runs of level 0 that may go down and find room, where there are at least `least` runs.
fn runs_of<H: HeldJobs, A: Allocator>(
    levels: &Levels<A>,
    least: usize,
    bounds: Bounds,
    held: &H,
) -> Option<Choice> {
    let all = levels.runs().len();
    if all < least {
        return None;
    }
    for newer in 0..all {
        let choice = Choice::OldestRuns { count: all - newer };
        if fits(levels, choice, bounds.room_of(all - newer), held) {
            return Some(choice);
        }
    }
    None
}

/// The best neighbours of a level that is over its limit.
fn tables_of<H: HeldJobs, A: Allocator>(
    tables: &Run<A>,
    below: &Run<A>,
    limit: u64,
    bounds: Bounds,
    held: &H,
) -> Option<Choice> {
    if blocks_of(tables.tables()) <= limit {
        return None;
    }
    match best(tables.tables(), below.tables(), bounds, held) {
        Some(found) => Some(Choice::Tables {
            first: found.first,
            last: found.last,
        }),
        None => None,
    }
}
