//! The state of a store on which a choice is made.

ghost use Rattle.std.specs.Prelude.{◌≡◌, ◌+◌, ◌≤◌, ◌<◌, ◌&&◌, nat_lt, [], true, false, length, is_some, Some, IfSome};
ghost use Prim.Native.Nat.{min};
ghost use Rattle.lsm_extent.specs.Area.{free_count};
ghost use Rattle.lsm_extent.specs.Gaps.{SurelyFit, has_sure_room};
ghost use Rattle.lsm_levels.specs.Levels.{all_tables};
ghost use Rattle.lsm_levels.specs.Moving.{table_count};
ghost use Rattle.lsm_policy.specs.Room.{taken_blocks, blocks_of as blocks_in};
ghost use Rattle.lsm_levels.specs.Choices.{chosen};
ghost use Rattle.lsm_levels.specs.Held.{IsHeld};
ghost use Rattle.lsm_levels.specs.Pick.{Job, is_bottom, is_flush};
ghost use Rattle.lsm_levels.specs.Picks.{job_of};
ghost use Rattle.lsm_room.specs.Outputs.{FindsRoom, MakesAtMost};
ghost use Rattle.lsm_room.specs.declared.bounds.Outputs.{Outputs};
ghost use Rattle.lsm_room.specs.Taking.{may_take};

use crate::bounds::{Outputs, blocks_with_those, count_in, outputs_of, taken_in};
use crate::divided::outputs_at;
use lsm_codec::Key;
use lsm_extent::Extents;
use lsm_levels::{Choice, HeldJobs, Levels, Pick, Run};
use std::alloc::{Allocator, Global};

/// A merge of several tables takes in at most this many blocks.
pub(crate) const MOST_BLOCKS: u64 = 512;

/// The tables that a store has at most.
pub(crate) const MOST_TABLES: u64 = 1_024;

/// The last level of a store of at most this many blocks is level 2, and of more level 3.
const SMALL_AREA: u64 = 2_048;

/// The last level of a store of more than this many blocks is level 4.
const LARGE_AREA: u64 = 16_384;

/// What is in a store: the tables, which blocks are free, the jobs that hold slots, and whether a snapshot is live.
#[derive(Drop)]
pub struct Standing<'a, H: HeldJobs, A: Allocator = Global> {
    pub levels: &'a Levels<A>,
    pub extents: &'a Extents<A>,
    pub held: &'a H,
    /// Whether a snapshot is live, so that no delete may be dropped.
    pub live: bool,
}

impl<'a, H: HeldJobs, A: Allocator> Standing<'a, H, A> {
    /// The blocks of the data area.
    pub(crate) fn area(&self) -> u64
        ensures { result ≤ taken_blocks self.now.levels.now + free_count self.now.extents.now }
    {
        self.taken().saturating_add(self.free())
    }

    /// The blocks that are free.
    pub(crate) fn free(&self) -> u64
        ensures count { result ≡ free_count self.now.extents.now }
        ensures few { result < 4294967296 }
    {
        u64::from(self.extents.free_blocks())
    }

    /// The blocks of all tables.
    pub(crate) fn taken(&self) -> u64
        ensures { result ≡ min (taken_blocks self.now.levels.now) 18446744073709551615 }
    {
        blocks_of_runs(blocks_of_runs(0, self.levels.runs()), self.levels.deeper())
    }

    /// The number of all tables.
    pub(crate) fn tables(&self) -> u64
        ensures { result ≡ min (table_count self.now.levels.now) 18446744073709551615 }
    {
        count_with(count_with(0, self.levels.runs()), self.levels.deeper())
    }

    /// The level that all tables are merged into: the deepest that has some, or by the size of the area a deeper one.
    pub(crate) fn last_level(&self) -> usize {
        self.last_level_of(self.area())
    }

    /// That of an area of `area` blocks.
    pub(crate) fn last_level_of(&self, area: u64) -> usize {
        let least = if area <= SMALL_AREA {
            2
        } else if area <= LARGE_AREA {
            3
        } else {
            4
        };
        self.deepest(5).max(least)
    }

    /// The deepest level from 1 on, but above this one, that has tables; 0 where none has.
    pub(crate) fn deepest(&self, below: usize) -> usize {
        let mut found = 0;
        for (place, run) in self.levels.deeper().iter().enumerate() {
            let level = place.saturating_add(1);
            if level < below && !run.tables().is_empty() {
                found = level;
            }
        }
        found
    }

    /// Whether outputs are sure to find room, in blocks and among the tables, of which `gone` are removed.
    pub(crate) fn places(&self, outputs: Outputs, gone: u64) -> bool
        ensures room { result ≡ true
            → SurelyFit self.now.extents.now outputs.blocks outputs.largest }
        ensures number { result ≡ true → 0 < outputs.blocks
            → table_count self.now.levels.now + outputs.tables ≤ gone + 1024 }
        ensures few { result ≡ true → outputs.blocks < 4294967296 }
    {
        outputs.blocks == 0 || (self.has_tables(outputs, gone) && self.has_room(outputs))
    }

    // Whether there are not too many tables with the outputs, where `gone` are removed.
    fn has_tables(&self, outputs: Outputs, gone: u64) -> bool
        ensures { result ≡ true → table_count self.now.levels.now + outputs.tables ≤ gone + 1024 }
    {
        let all = self.tables();
        all < u64::MAX && all.saturating_sub(gone).saturating_add(outputs.tables) <= MOST_TABLES
    }

    /// Whether outputs are sure to find room in blocks, however many tables there are. None has more blocks than all of them.
    pub fn has_room(&self, outputs: Outputs) -> bool
        ensures test { result
            ≡ (nat_lt outputs.blocks 4294967296
            && has_sure_room self.now.extents.now outputs.blocks
            (min outputs.largest outputs.blocks)) }
        ensures room { result ≡ true
            → SurelyFit self.now.extents.now outputs.blocks outputs.largest }
        ensures few { result ≡ true → outputs.blocks < 4294967296 }
    {
        if outputs.blocks > u64::from(u32::MAX) {
            return false;
        }
        match u32::try_from(outputs.largest.min(outputs.blocks)) {
            Ok(largest) => self.extents.surely_places(outputs.blocks, largest),
            Err(_) => false,
        }
    }

    /// Whether a choice may be taken.
    pub(crate) fn may_take(&self, choice: Choice) -> bool
        ensures { result ≡ may_take self.now.levels.now (H.jobs self.now.held.now) choice }
    {
        self.levels.choose(choice, self.held).is_some()
    }

    /// What the outputs of a choice take at most, undivided, where it may be taken.
    pub fn outputs(&self, choice: Choice) -> Option<Outputs>
        ensures may { is_some result
            ≡ may_take self.now.levels.now (H.jobs self.now.held.now) choice }
        ensures takes { IfSome result
            (λ o. o.blocks < 4294967296 → (job : Job)
            → chosen self.now.levels.now (H.jobs self.now.held.now) choice ≡ Some job
            → MakesAtMost self.now.levels.now self.now.live job [] o.blocks o.largest) }
    {
        let _runs = self.levels.runs();
        match self.levels.choose(choice, self.held) {
            Some(job) => Some(outputs_of(self.levels, &job, self.live)),
            None => None,
        }
    }

    /// Whether a choice may be taken, and its outputs, undivided, are sure to find room, and it takes in at most `most_blocks` blocks.
    pub fn is_sure(&self, choice: Choice, most_blocks: u64) -> bool
        ensures may { result ≡ true
            → may_take self.now.levels.now (H.jobs self.now.held.now) choice ≡ true }
        ensures room { result ≡ true → (job : Job)
            → chosen self.now.levels.now (H.jobs self.now.held.now) choice ≡ Some job
            → FindsRoom self.now.extents.now self.now.levels.now self.now.live job [] }
    {
        let _runs = self.levels.runs();
        match self.levels.choose(choice, self.held) {
            Some(job) => {
                taken_in(&job) <= most_blocks
                    && self.places(outputs_of(self.levels, &job, self.live), count_in(&job))
            }
            None => false,
        }
    }

    /// Whether a choice may be taken, and its outputs, divided at these keys, are sure to find room. How much they take is known of those
    /// that aren't divided, and of those of one table that is cut at one key; others are never sure.
    pub fn is_sure_at(&self, choice: Choice, divisions: &[Key<A>]) -> bool
        ensures may { result ≡ true
            → may_take self.now.levels.now (H.jobs self.now.held.now) choice ≡ true }
        ensures room { result ≡ true → (job : Job)
            → chosen self.now.levels.now (H.jobs self.now.held.now) choice ≡ Some job
            → FindsRoom self.now.extents.now self.now.levels.now self.now.live job divisions.now }
    {
        let _runs = self.levels.runs();
        if let Some(job) = self.levels.choose(choice, self.held) {
            return self.places_job(&job, divisions);
        }
        false
    }

    // Whether the outputs of a job, divided at these keys, are sure to find room.
    fn places_job(&self, job: &Pick<'_, A>, divisions: &[Key<A>]) -> bool
        ensures { result ≡ true → (o : Outputs) × (o.blocks < 4294967296)
            × SurelyFit self.now.extents.now o.blocks o.largest
            × (o.blocks < 4294967296
            → IsHeld self.now.levels.now (is_bottom self.now.levels.now (job_of job.now))
            (job_of job.now) → is_flush (job_of job.now) ≡ false
            → MakesAtMost self.now.levels.now self.now.live (job_of job.now) divisions.now
            o.blocks o.largest) }
    {
        if let Some(outputs) = outputs_at(self.levels, job, divisions, self.live) {
            return self.places(outputs, count_in(job));
        }
        false
    }
}

/// `before` blocks and those of the tables of runs.
fn blocks_of_runs<A: Allocator>(before: u64, runs: &[Run<A>]) -> u64
    ensures { result ≡ min (before + blocks_in (all_tables runs.now)) 18446744073709551615 }
{
    let mut blocks = before;
    for run in runs {
        blocks = blocks_with_those(blocks, run.tables());
    }
    blocks
}

/// `before` tables and those of runs.
fn count_with<A: Allocator>(before: u64, runs: &[Run<A>]) -> u64
    ensures { result ≡ min (before + length (all_tables runs.now)) 18446744073709551615 }
{
    let mut count = before;
    for run in runs {
        count = count.saturating_add(run.tables().len() as u64);
    }
    count
}
