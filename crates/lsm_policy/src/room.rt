//! How much of the data area tables take.

ghost use Rattle.std.specs.Prelude.{◌≡◌, ◌∷◌, ◌++◌, nat_le, length};
ghost use Rattle.lsm_levels.specs.Levels.{all_tables};
ghost use Rattle.lsm_levels.specs.Moving.{table_count};
ghost use Rattle.lsm_levels.specs.Pick.{inputs};
ghost use Rattle.lsm_levels.specs.Picks.{job_of};
ghost use Rattle.lsm_policy.specs.Room.{blocks_of, fits, taken_blocks, left_of};

use lsm_levels::{Choice, HeldJobs, Levels, Pick, PlacedTable, Run};
use std::alloc::Allocator;

/// `limit` less the blocks of tables; `None` where these have more.
fn without_tables<A: Allocator>(limit: u64, tables: &[PlacedTable<A>]) -> Option<u64>
    ensures { result ≡ left_of limit (blocks_of tables.now) }
{
    let mut left = limit;
    for table in tables {
        match left.checked_sub(u64::from(table.blocks())) {
            Some(rest) => left = rest,
            None => return None,
        }
    }
    Some(left)
}

/// `limit` less the blocks of runs; `None` where these have more.
fn without_runs<A: Allocator>(limit: u64, runs: &[Run<A>]) -> Option<u64>
    ensures { result ≡ left_of limit (blocks_of (all_tables runs.now)) }
{
    let mut left = limit;
    for run in runs {
        match without_tables(left, run.tables()) {
            Some(rest) => left = rest,
            None => return None,
        }
    }
    Some(left)
}

/// Whether all tables of the levels take at most `limit` blocks.
pub(crate) fn takes_at_most<A: Allocator>(levels: &Levels<A>, limit: u64) -> bool
    ensures { result ≡ nat_le (taken_blocks levels.now) limit }
{
    match without_runs(limit, levels.runs()) {
        Some(left) => without_runs(left, levels.deeper()).is_some(),
        None => false,
    }
}

/// What is left of a number without that of the tables of runs; none where there are more.
fn without_number<A: Allocator>(limit: usize, runs: &[Run<A>]) -> Option<usize>
    ensures { result ≡ left_of limit (length (all_tables runs.now)) }
{
    let mut left = limit;
    for run in runs {
        match left.checked_sub(run.tables().len()) {
            Some(rest) => left = rest,
            None => return None,
        }
    }
    Some(left)
}

/// Whether there are at most `limit` tables.
pub(crate) fn has_at_most<A: Allocator>(levels: &Levels<A>, limit: usize) -> bool
    ensures { result ≡ nat_le (table_count levels.now) limit }
{
    match without_number(limit, levels.runs()) {
        Some(left) => without_number(left, levels.deeper()).is_some(),
        None => false,
    }
}

/// Whether a choice may be taken, and takes in at most `most` blocks.
pub fn fits<H: HeldJobs, A: Allocator>(
    levels: &Levels<A>,
    choice: Choice,
    most: u64,
    held: &H,
) -> bool
    ensures { result ≡ fits levels.now (H.jobs held.now) most choice }
{
    match levels.choose(choice, held) {
        Some(job) => takes_in_at_most(&job, most),
        None => false,
    }
}

/// Whether the tables that a job takes in have at most `blocks` blocks, so that its outputs find room in as many.
fn takes_in_at_most<A: Allocator>(job: &Pick<'_, A>, blocks: u64) -> bool
    ensures { result ≡ nat_le (blocks_of (inputs (job_of job.now))) blocks }
{
    match job {
        Pick::Flush => true,
        Pick::OldestRuns { runs, lower } => runs_have_at_most(runs, lower, blocks),
        Pick::Neighbours { upper, lower, .. } => have_at_most(upper, lower, blocks),
        Pick::OneTable { upper, lower, .. } => has_at_most_with(upper, lower, blocks),
        Pick::Rewrite { tables, .. } => without_tables(blocks, tables).is_some(),
    }
}

fn runs_have_at_most<A: Allocator>(runs: &[Run<A>], lower: &[PlacedTable<A>], blocks: u64) -> bool
    ensures { result ≡ nat_le (blocks_of (all_tables runs.now ++ lower.now)) blocks }
{
    match without_runs(blocks, runs) {
        Some(left) => without_tables(left, lower).is_some(),
        None => false,
    }
}

fn have_at_most<A: Allocator>(
    upper: &[PlacedTable<A>],
    lower: &[PlacedTable<A>],
    blocks: u64,
) -> bool
    ensures { result ≡ nat_le (blocks_of (upper.now ++ lower.now)) blocks }
{
    match without_tables(blocks, upper) {
        Some(left) => without_tables(left, lower).is_some(),
        None => false,
    }
}

fn has_at_most_with<A: Allocator>(
    upper: &PlacedTable<A>,
    lower: &[PlacedTable<A>],
    blocks: u64,
) -> bool
    ensures { result ≡ nat_le (blocks_of (upper.now ∷ lower.now)) blocks }
{
    match blocks.checked_sub(u64::from(upper.blocks())) {
        Some(left) => without_tables(left, lower).is_some(),
        None => false,
    }
}
