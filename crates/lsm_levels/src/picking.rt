//! Which job comes next.

ghost use Rattle.std.specs.Prelude.{◌≡◌, ◌≤◌, ◌∷◌, ◌&&◌, [], true, if◌then◌else◌, Some, ltb, ℕ, List, length, sum_by, filter, option_map};
ghost use Rattle.std.specs.List.{AllByRecursion, list_any, list_all};
ghost use Rattle.std.specs.Option.{option_copied};
ghost use Rattle.lsm_levels.specs.Tables.{IsRun, at_most};
ghost use Rattle.lsm_levels.specs.Levels.{all_tables, oldest_runs};
ghost use Rattle.lsm_levels.specs.Pick.{Job, is_flush, is_merge, is_several, is_of_level_0, is_input, is_free, can_merge, lower_of, least_numbered, level_0_job, least_job, limit_of};
ghost use Rattle.lsm_levels.specs.Picks.{job_of, is_wanted, rule_job, is_less};

use crate::hulls::hull_of_runs;
use crate::run::Run;
use crate::slices::ends;
use crate::sweep::{begun_by, ending_on};
use crate::table::PlacedTable;
use std::alloc::{Allocator, Global};

/// The jobs that hold slots.
pub trait HeldJobs {
    // the jobs
    ghost jobs: { Self → List Job };

    /// Whether a flush is among them.
    fn has_flush(&self) -> bool
        ensures { result ≡ list_any is_flush (jobs self.now) };

    /// Whether a job of level 0 is among them.
    fn has_level_0(&self) -> bool
        ensures { result ≡ list_any is_of_level_0 (jobs self.now) };

    /// Whether a merge is among them.
    fn has_merge(&self) -> bool
        ensures { result ≡ list_any is_merge (jobs self.now) };

    /// Whether a rewrite, or a merge of several tables of a level from 1 to 3, is among them.
    fn has_several(&self) -> bool
        ensures { result ≡ list_any is_several (jobs self.now) };

    /// Whether one of them takes in the table of this number. It is to find the number without a walk over all inputs, as in
    /// a sorted list: a choice asks of each table, and of each that meets it.
    fn takes_in(&self, number: u64) -> bool
        ensures { result ≡ is_input (jobs self.now) number };
}

/// The job that comes next, with the tables that it takes in.
#[derive(Drop)]
pub enum Pick<'a, A: Allocator = Global> {
    /// A flush of the sealed versions.
    Flush,
    /// The oldest runs of level 0, of these the newest first, with the tables of level 1 that meet their hull.
    OldestRuns {
        runs: &'a [Run<A>],
        lower: &'a [PlacedTable<A>],
    },
    /// A table of a level from 1 to 3, with the tables of the next level that meet it.
    OneTable {
        level: usize,
        upper: &'a PlacedTable<A>,
        lower: &'a [PlacedTable<A>],
    },
    /// Neighbours of a level from 1 to 3, with the tables of the next level that meet their hull.
    Neighbours {
        level: usize,
        upper: &'a [PlacedTable<A>],
        lower: &'a [PlacedTable<A>],
    },
    /// Neighbours of a level from 1 to 4, which are written anew in their own place. `above` is the level above theirs.
    Rewrite {
        above: usize,
        tables: &'a [PlacedTable<A>],
    },
}

pub(crate) fn are_free<H: HeldJobs, A: Allocator>(held: &H, tables: &[PlacedTable<A>]) -> bool
    ensures { result ≡ list_all (is_free (H.jobs held.now)) tables.now }
{
    tables.iter().all(|table| !held.takes_in(table.number()))
}

/// Whether all tables of these runs are free.
pub(crate) fn are_all_free<H: HeldJobs, A: Allocator>(held: &H, runs: &[Run<A>]) -> bool
    ensures { result ≡ list_all (is_free (H.jobs held.now)) (all_tables runs.now) }
{
    for run in runs {
        if !are_free(held, run.tables()) {
            return false;
        }
    }
    true
}

/// The tables of a run that meet the hull of these.
pub(crate) fn lower_of<'a, A: Allocator>(
    upper: &[PlacedTable<A>],
    below: &'a Run<A>,
) -> &'a [PlacedTable<A>]
    requires { IsRun upper.now }
    ensures { result.now ≡ lower_of upper.now below.now }
{
    match ends(upper) {
        Some((first, last)) => below.meeting(first, last),
        None => &[],
    }
}

/// The tables of a run that meet the hull of these runs.
pub(crate) fn lower_of_runs<'a, A: Allocator>(
    runs: &[Run<A>],
    below: &'a Run<A>,
) -> &'a [PlacedTable<A>]
    ensures { result.now ≡ lower_of (all_tables runs.now) below.now }
{
    match hull_of_runs(runs, None) {
        Some(hull) => below.meeting(hull.first, hull.last),
        None => &[],
    }
}

/// Whether a table, and those of the next level that meet it, are all free. Of the next level it takes those that don't end
/// before the table.
fn can_merge<H: HeldJobs, A: Allocator>(
    held: &H,
    table: &PlacedTable<A>,
    rest: &[PlacedTable<A>],
) -> bool
    requires run { IsRun rest.now }
    requires behind { AllByRecursion (λ t. at_most table.now.first t.last ≡ true) rest.now }
    ensures { result ≡ can_merge (H.jobs held.now) (table.now ∷ []) rest.now }
{
    !held.takes_in(table.number()) && are_free(held, begun_by(rest, table.last()))
}

/// Which tables of a level a choice wants.
#[derive(Clone, Copy)]
enum Wanted {
    EachTable,
    /// Those of which half the entries or more are deletes.
    MostlyDeletes,
}

/// Whether a choice wants a table.
fn is_wanted<A: Allocator>(wanted: Wanted, table: &PlacedTable<A>) -> bool
    ensures { result ≡ is_wanted wanted table.now }
{
    match wanted {
        Wanted::EachTable => true,
        Wanted::MostlyDeletes => table.is_mostly_deletes(),
    }
}

/// Whether tables have more blocks than the limit.
fn is_over<A: Allocator>(tables: &[PlacedTable<A>], limit: u32) -> bool
    ensures { result ≡ ltb limit (sum_by (λ t. t.blocks) tables.now) }
{
    let mut left = limit;
    for table in tables {
        match left.checked_sub(table.blocks()) {
            Some(rest) => left = rest,
            None => return true,
        }
    }
    false
}

/// The lesser of a table and what was found so far, where the table is wanted, and it and those of the next level that meet it
/// are free; else what was found.
fn lesser<'a, H: HeldJobs, A: Allocator>(
    held: &H,
    wanted: Wanted,
    found: Option<&'a PlacedTable<A>>,
    table: &'a PlacedTable<A>,
    rest: &[PlacedTable<A>],
) -> Option<&'a PlacedTable<A>>
    requires run { IsRun rest.now }
    requires behind { AllByRecursion (λ t. at_most table.now.first t.last ≡ true) rest.now }
    ensures { option_copied result
        ≡ (if is_less table.now (option_copied found.entry)
        && (is_wanted wanted table.now && can_merge (H.jobs held.now) (table.now ∷ []) rest.now)
        then Some table.now else option_copied found.entry) }
{
    if is_less(table, found) && (is_wanted(wanted, table) && can_merge(held, table, rest)) {
        return Some(table);
    }
    found
}

/// The least-numbered table that is wanted and free, as are all those of the next level that meet it. It goes once through both levels
/// at the same time: tables of the next level that end before a table end before the later ones too. As the tables of a level lie
/// apart, fewer pairs of tables meet than both levels have tables, so its time is linear in these.
fn least_to_merge<'a, H: HeldJobs, A: Allocator>(
    held: &H,
    wanted: Wanted,
    tables: &'a [PlacedTable<A>],
    below: &[PlacedTable<A>],
) -> Option<&'a PlacedTable<A>>
    requires tables { IsRun tables.now }
    requires below { IsRun below.now }
    ensures { option_copied result
        ≡ least_numbered
        (filter (λ t. is_wanted wanted t && can_merge (H.jobs held.now) (t ∷ []) below.now)
        tables.now) }
{
    let mut least: Option<&PlacedTable<A>> = None;
    let mut rest = below;
    for table in tables {
        rest = ending_on(rest, table.first());
        least = lesser(held, wanted, least, table, rest);
    }
    least
}

/// Whether a table is numbered below another, if there is one.
fn is_less<A: Allocator>(table: &PlacedTable<A>, other: Option<&PlacedTable<A>>) -> bool
    ensures { result ≡ is_less table.now (option_copied other.entry) }
{
    match other {
        Some(other) => table.number() < other.number(),
        None => true,
    }
}

/// The `count` oldest runs of level 0.
pub(crate) fn oldest<A: Allocator>(runs: &[Run<A>], count: usize) -> &[Run<A>]
    requires { count ≤ length runs.now }
    ensures { result.now ≡ oldest_runs count runs.now }
{
    &runs[runs.len() - count..]
}

/// The oldest run of level 0 with the tables of level 1 that meet its hull, where there are 4 or more runs and no job of
/// level 0, and all of them are free.
pub(crate) fn level_0_job<'a, H: HeldJobs, A: Allocator>(
    runs: &'a [Run<A>],
    below: &'a Run<A>,
    held: &H,
) -> Option<Pick<'a, A>>
    ensures { option_map job_of result ≡ level_0_job runs.now below.now (H.jobs held.now) }
{
    if runs.len() < 4 || held.has_level_0() {
        return None;
    }
    let runs = oldest(runs, 1);
    let lower = lower_of_runs(runs, below);
    if are_all_free(held, runs) && are_free(held, lower) {
        return Some(Pick::OldestRuns { runs, lower });
    }
    None
}

/// Of a level the least-numbered table that is wanted and free, as are all tables of the next level that meet it, with these.
fn least_job<'a, H: HeldJobs, A: Allocator>(
    wanted: Wanted,
    level: usize,
    tables: &'a Run<A>,
    below: &'a Run<A>,
    held: &H,
) -> Option<Pick<'a, A>>
    ensures { option_map job_of result
        ≡ least_job (is_wanted wanted) tables.now below.now (H.jobs held.now) level }
{
    match least_to_merge(held, wanted, tables.tables(), below.tables()) {
        Some(upper) => {
            let lower = below.meeting(upper.first(), upper.last());
            Some(Pick::OneTable {
                level,
                upper,
                lower,
            })
        }
        None => None,
    }
}

/// A rule on the tables of a level from 1 to 3.
#[derive(Clone, Copy)]
pub(crate) enum Rule {
    /// One of which half the entries or more are deletes.
    ManyDeletes,
    /// Any, where the level has more blocks than its limit.
    OverLimit,
}

/// The limit of a level from 1 to 3, in blocks.
fn limit_of(level: usize) -> u32
    ensures { result ≡ limit_of level }
{
    match level {
        1 => 256,
        2 => 2_048,
        _ => 16_384,
    }
}

/// The job of a rule, of the tables of a level: the least-numbered table that the rule allows and that is free, as are all
/// tables of the next level that meet it, with these.
pub(crate) fn rule_job<'a, H: HeldJobs, A: Allocator>(
    rule: Rule,
    level: usize,
    tables: &'a Run<A>,
    below: &'a Run<A>,
    held: &H,
) -> Option<Pick<'a, A>>
    ensures { option_map job_of result
        ≡ rule_job rule tables.now below.now (H.jobs held.now) level }
{
    match rule {
        Rule::ManyDeletes => least_job(Wanted::MostlyDeletes, level, tables, below, held),
        Rule::OverLimit => {
            if !is_over(tables.tables(), limit_of(level)) {
                return None;
            }
            least_job(Wanted::EachTable, level, tables, below, held)
        }
    }
}
