//! Which jobs a caller may choose other than the next one.

ghost use Rattle.std.specs.Prelude.{◌≡◌, ◌==◌, ◌&&◌, option_map};
ghost use Rattle.std.specs.List.{find, list_all};
ghost use Rattle.std.specs.Option.{option_copied};
ghost use Rattle.lsm_levels.specs.Tables.{IsRun};
ghost use Rattle.lsm_levels.specs.Pick.{is_free};
ghost use Rattle.lsm_levels.specs.Choices.{neighbours, may_stand, rewrite_job, run_job, tables_job};
ghost use Rattle.lsm_levels.specs.Picks.{job_of};

use crate::picking::{HeldJobs, Pick, are_all_free, are_free, lower_of, lower_of_runs, oldest};
use crate::run::Run;
use crate::table::PlacedTable;
use std::alloc::Allocator;

/// What a job takes in.
#[derive(Clone, Copy, Debug, PartialEq, Eq)]
pub enum Choice {
    /// The `count` oldest runs of level 0, with the tables of level 1 that meet their hull.
    OldestRuns { count: usize },
    /// Neighbouring tables of a level from 1 to 3, from the table of one number to that of another, which may be the same; with the
    /// tables of the next level that meet their hull.
    Tables { first: u64, last: u64 },
    /// Neighbouring tables of a level from 1 to 4, from the table of one number to that of another, which may be the same. They are
    /// written anew in their own place, and no other level changes.
    Rewrite { first: u64, last: u64 },
}

/// The table of a number.
fn table_of<A: Allocator>(tables: &[PlacedTable<A>], number: u64) -> Option<&PlacedTable<A>>
    ensures { option_copied result ≡ find (λ t. t.number == number) tables.now }
{
    for table in tables {
        if table.number() == number {
            return Some(table);
        }
    }
    None
}

/// The tables of a run from one to another, by their numbers; empty where either isn't in it.
fn neighbours<A: Allocator>(tables: &Run<A>, first: u64, last: u64) -> &[PlacedTable<A>]
    ensures same { result.now ≡ neighbours first last tables.now }
    ensures run { IsRun result.now }
{
    let Some(first) = table_of(tables.tables(), first) else {
        return &[];
    };
    let Some(last) = table_of(tables.tables(), last) else {
        return &[];
    };
    tables.meeting(first.first(), last.last())
}

/// Whether a merge of these tables of a level may run along with the held merges: not if either is a rewrite or takes several
/// tables.
fn may_stand<H: HeldJobs, A: Allocator>(held: &H, level: usize, upper: &[PlacedTable<A>]) -> bool
    ensures { result ≡ may_stand (H.jobs held.now) level upper.now }
{
    let are_several = upper.is_empty() || (level > 0 && upper.len() > 1);
    !held.has_several() && (!are_several || !held.has_merge())
}

/// Whether a merge of these tables of a level from 1 to 3 may run along with the held merges, and all of its inputs are free.
fn is_free_merge<H: HeldJobs, A: Allocator>(
    held: &H,
    level: usize,
    upper: &[PlacedTable<A>],
    lower: &[PlacedTable<A>],
) -> bool
    ensures { result
        ≡ (may_stand (H.jobs held.now) level upper.now
        && (list_all (is_free (H.jobs held.now)) upper.now
        && list_all (is_free (H.jobs held.now)) lower.now)) }
{
    may_stand(held, level, upper) && (are_free(held, upper) && are_free(held, lower))
}

/// The tables of a level from one to another with those of the next level that meet their hull, if all of them are free.
pub(crate) fn tables_job<'a, H: HeldJobs, A: Allocator>(
    first: u64,
    last: u64,
    level: usize,
    tables: &'a Run<A>,
    below: &'a Run<A>,
    held: &H,
) -> Option<Pick<'a, A>>
    ensures { option_map job_of result
        ≡ tables_job first last level tables.now below.now (H.jobs held.now) }
{
    let upper = neighbours(tables, first, last);
    if upper.is_empty() {
        return None;
    }
    let lower = lower_of(upper, below);
    if is_free_merge(held, level, upper, lower) {
        return Some(Pick::Neighbours {
            level,
            upper,
            lower,
        });
    }
    None
}

/// The rewrite of the tables from one to another, if no merge holds a slot. `above` is the level above theirs.
pub(crate) fn rewrite_job<'a, H: HeldJobs, A: Allocator>(
    first: u64,
    last: u64,
    above: usize,
    tables: &'a Run<A>,
    held: &H,
) -> Option<Pick<'a, A>>
    ensures { option_map job_of result ≡ rewrite_job first last above tables.now (H.jobs held.now) }
{
    let tables = neighbours(tables, first, last);
    if tables.is_empty() || held.has_merge() {
        return None;
    }
    Some(Pick::Rewrite { above, tables })
}

/// The `count` oldest runs of level 0 with the tables of level 1 that meet their hull, if there are that many runs, all of these
/// tables are free, and no job is of level 0.
pub(crate) fn run_job<'a, H: HeldJobs, A: Allocator>(
    count: usize,
    runs: &'a [Run<A>],
    below: &'a Run<A>,
    held: &H,
) -> Option<Pick<'a, A>>
    ensures { option_map job_of result ≡ run_job count runs.now below.now (H.jobs held.now) }
{
    if count == 0 || runs.len() < count || held.has_level_0() {
        return None;
    }
    let runs = oldest(runs, count);
    let lower = lower_of_runs(runs, below);
    if !held.has_several() && (are_all_free(held, runs) && are_free(held, lower)) {
        return Some(Pick::OldestRuns { runs, lower });
    }
    None
}
