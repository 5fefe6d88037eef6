//! The levels of tables.

ghost use Rattle.std.specs.Prelude.{◌≡◌, ◌≤◌, ◌<◌, ◌-◌, [], take, true, slice_set, suc, Bool, length, is_ok, is_some, if◌then◌else◌, IfOk, IfErr, IfSome, OnOk, OnErr, option_map};
ghost use Rattle.lsm_levels.specs.Tables.{IsRun, at_most, put_at};
ghost use Rattle.lsm_levels.specs.Levels.{level as level_of, newer_runs, no_tables, flushed, merged, reach};
ghost use Rattle.lsm_levels.specs.Pick.{Merge, below_output, is_bottom, meets_none, of_least_level, next_merge, pick};
ghost use Rattle.lsm_levels.specs.Choices.{chosen};
ghost use Rattle.lsm_levels.specs.Picks.{job_of, rule_job};
ghost use Rattle.lsm_levels.specs.Hulls.{range_shown};
ghost use Rattle.lsm_levels.specs.Held.{AreRuns, HasItsTables, AreOutputs};
ghost use Rattle.lsm_levels.specs.declared.choosing.Choice.TheVariants.{OldestRuns, Rewrite, Tables};

use crate::choosing::{Choice, rewrite_job, run_job, tables_job};
use crate::hulls::{KeyRange, hull_of, hull_of_runs, hull_onto, is_met, reach, spanned};
use crate::picking::{HeldJobs, Pick, Rule, level_0_job, rule_job};
use crate::run::Run;
use crate::table::PlacedTable;
use std::alloc::{AllocError, AllocFailed, Allocator, Global};
use std::marker::Model;

/// The runs of level 0, the newest first, and levels 1 to 4, each one run. Contracts see the tables of each run.
#[derive(Drop)]
pub struct Levels<A: Allocator = Global> {
    runs: Vec<Run<A>, A>,
    deeper: Vec<Run<A>, A>,
}

impl<A: Allocator> Model for Levels<A> {
    ghost use Rattle.lsm_levels.specs.Levels.{Levels};
    ghost use Rattle.lsm_levels.specs.Held.{AreRuns};

    ghost Value = { Levels };

    ghost view = { λ l. record { runs = l.runs.items; deeper = l.deeper.items } };

    ghost invariant = { λ l. AreRuns (record { runs = l.runs.items; deeper = l.deeper.items }) };
}

/// How many runs are left without the oldest ones, which together hold `tables` tables.
fn count_newer<A: Allocator>(runs: &[Run<A>], tables: usize) -> usize
    ensures { take result runs.now ≡ newer_runs tables runs.now }
{
    let mut kept = runs.len();
    let mut left = tables;
    for run in runs.iter().rev() {
        match left.checked_sub(run.tables().len()) {
            Some(rest) => left = rest,
            None => return kept,
        }
        kept -= 1;
    }
    kept
}

/// Drops the oldest runs of level 0, which together hold `tables` tables. It takes no memory.
fn drop_oldest<A: Allocator>(runs: &mut Vec<Run<A>, A>, tables: usize)
    ensures { runs.new.items ≡ newer_runs tables runs.old.items }
{
    let kept = count_newer(runs, tables);
    runs.truncate(kept);
}

impl<A: Allocator> Levels<A> {
    /// Levels without a table.
    pub fn new(alloc: A) -> Result<Self, AllocError>
    where
        A: Clone,
        ensures { IfOk result (λ l. l ≡ no_tables) }
    {
        let mut deeper = Vec::with_capacity(alloc.clone()?, 4)?;
        for _level in 0..4_usize {
            deeper.push(Run::new(alloc.clone()?))?;
        }
        Ok(Levels {
            runs: Vec::new(alloc),
            deeper,
        })
    }

    /// The runs of level 0, the newest first. Each has a table at least.
    pub fn runs(&self) -> &[Run<A>]
        ensures same { result.now ≡ self.now.runs }
        ensures runs { AreRuns self.now }
    {
        &self.runs
    }

    /// Levels 1 to 4.
    pub fn deeper(&self) -> &[Run<A>]
        ensures same { result.now ≡ self.now.deeper }
        ensures four { length result.now ≡ 4 }
    {
        &self.deeper
    }

    /// Puts a run in the place of a level from 1 to 4. It takes no memory.
    pub fn set_level(&mut self, level: usize, run: Run<A>)
        requires low { 1 ≤ level }
        requires high { level ≤ 4 }
        ensures { self.new ≡ record
            { runs = self.old.runs; deeper = slice_set self.old.deeper (level - 1) run } }
    {
        let _tables = run.tables();
        self.deeper[level - 1] = run;
    }

    /// Adds a run of a flush's tables as the newest of level 0. Where memory is refused, it is handed back and nothing has
    /// changed.
    pub fn add_run(&mut self, run: Run<A>) -> Result<(), AllocFailed<Run<A>>>
        requires some { 0 < length run }
        ensures added { OnOk result (self.new ≡ flushed run self.old) }
        ensures unchanged { OnErr result (self.new ≡ self.old) }
        ensures handed_back { IfErr result (λ refused. refused.value ≡ run) }
    {
        let _tables = run.tables();
        self.runs.insert(0, run)
    }

    /// Puts a merge's outputs in the place of its inputs, one level below its upper tables. Where memory is refused, levels
    /// and outputs are as they were.
    fn put(
        &mut self,
        level: usize,
        upper: &[PlacedTable<A>],
        lower: &[PlacedTable<A>],
        outputs: &mut Vec<PlacedTable<A>, A>,
    ) -> Result<(), AllocError>
        requires level { level ≤ 3 }
        requires range { IfSome (reach upper.now lower.now)
            (λ range. at_most range.first range.last ≡ true) }
        requires some { is_some (reach upper.now lower.now) ≡ true }
        requires fits { IfSome (reach upper.now lower.now)
            (λ range. IsRun (put_at range outputs.old.items (level_of self.old (suc level)))) }
        ensures replaced { self.new
            ≡ (if is_ok result then merged level upper.now lower.now outputs.old.items self.old
            else self.old) }
        ensures moved { outputs.new.items ≡ (if is_ok result then [] else outputs.old.items) }
    {
        let Some(range) = reach(upper, lower) else {
            return Ok(());
        };
        self.deeper[level].replace(range.first, range.last, outputs)?;
        if upper.is_empty() {
            return Ok(());
        }
        if level == 0 {
            drop_oldest(&mut self.runs, upper.len());
        } else {
            self.deeper[level - 1].remove(range.first, range.last);
        }
        Ok(())
    }

    /// Replaces the inputs of a merge by its outputs: the upper tables of the level, from 0 to 3, and those of the next level
    /// that they meet go, and the outputs come into the next level in their place. Of level 0 the upper tables are those of the
    /// oldest runs, and these runs go. Of a rewrite, which has no upper tables, those of the next level alone go. Where memory is
    /// refused, levels and outputs are as they were.
    pub fn replace(
        &mut self,
        level: usize,
        upper: &[PlacedTable<A>],
        lower: &[PlacedTable<A>],
        outputs: &mut Vec<PlacedTable<A>, A>,
    ) -> Result<(), AllocError>
        // Levels have the inputs of the merge, and its outputs lie within them.
        requires merge { (bottom : Bool) × HasItsTables self.old bottom level upper.now lower.now
            × AreOutputs (Merge level upper.now lower.now) outputs.old.items }
        ensures replaced { self.new
            ≡ (if is_ok result then merged level upper.now lower.now outputs.old.items self.old
            else self.old) }
        ensures moved { outputs.new.items ≡ (if is_ok result then [] else outputs.old.items) }
    {
        let _runs = self.runs();
        let put = self.put(level, upper, lower, outputs);
        put
    }

    /// The job of a rule, of the least level from 1 to 3 that has one.
    fn rule_job<H: HeldJobs>(&self, rule: Rule, held: &H) -> Option<Pick<'_, A>>
        ensures { option_map job_of result
            ≡ of_least_level
            (λ i. rule_job rule (level_of self.now i) (level_of self.now (suc i))
            (H.jobs held.now) i) }
    {
        let [level_1, level_2, level_3, level_4] = self.deeper() else {
            return None;
        };
        if let Some(job) = rule_job(rule, 1, level_1, level_2, held) {
            return Some(job);
        }
        if let Some(job) = rule_job(rule, 2, level_2, level_3, held) {
            return Some(job);
        }
        rule_job(rule, 3, level_3, level_4, held)
    }

    /// The job that comes next, where sealed versions wait or not, and slots are held by these jobs: the first of these that
    /// there is.
    ///
    /// 1. A flush, where sealed versions wait and no flush holds a slot. While a rewrite or a merge of several tables of a level
    ///    from 1 to 3 is held, nothing else comes.
    /// 2. With 4 or more runs of level 0 and no job of it: the oldest run with the tables of level 1 that meet its hull, if
    ///    all of them are free. A table is free where no job has it as input.
    /// 3. Of the least level from 1 to 3 that has such a table: the least-numbered table of which half the entries or more are
    ///    deletes, and that is free, as are all tables of the next level that meet it, with these.
    /// 4. Of the least level from 1 to 3 that has more blocks than its limit, 256, 2,048 and 16,384, and such a table: the
    ///    least-numbered table that is free, as are all tables of the next level that meet it, with these.
    ///
    /// It takes no memory.
    pub fn pick<H: HeldJobs>(&self, waiting: bool, held: &H) -> Option<Pick<'_, A>>
        ensures { option_map job_of result ≡ pick waiting self.now (H.jobs held.now) }
    {
        if waiting && !held.has_flush() {
            return Some(Pick::Flush);
        }
        if held.has_several() {
            return None;
        }
        self.next_merge(held)
    }

    /// The first of the merges that there is.
    fn next_merge<H: HeldJobs>(&self, held: &H) -> Option<Pick<'_, A>>
        ensures { option_map job_of result ≡ next_merge self.now (H.jobs held.now) }
    {
        let [level_1, ..] = self.deeper() else {
            return None;
        };
        if let Some(job) = level_0_job(&self.runs, level_1, held) {
            return Some(job);
        }
        if let Some(job) = self.rule_job(Rule::ManyDeletes, held) {
            return Some(job);
        }
        self.rule_job(Rule::OverLimit, held)
    }

    /// The job of the tables from one to another, of a level from 1 to 3.
    fn choose_tables<H: HeldJobs>(&self, first: u64, last: u64, held: &H) -> Option<Pick<'_, A>>
        ensures { option_map job_of result ≡ chosen self.now (H.jobs held.now) (Tables first last) }
    {
        let [level_1, level_2, level_3, level_4] = self.deeper() else {
            return None;
        };
        if let Some(job) = tables_job(first, last, 1, level_1, level_2, held) {
            return Some(job);
        }
        if let Some(job) = tables_job(first, last, 2, level_2, level_3, held) {
            return Some(job);
        }
        tables_job(first, last, 3, level_3, level_4, held)
    }

    /// The rewrite of the tables from one to another, of a level from 1 to 4.
    fn choose_rewrite<H: HeldJobs>(&self, first: u64, last: u64, held: &H) -> Option<Pick<'_, A>>
        ensures { option_map job_of result
            ≡ chosen self.now (H.jobs held.now) (Rewrite first last) }
    {
        let [level_1, level_2, level_3, level_4] = self.deeper() else {
            return None;
        };
        if let Some(job) = rewrite_job(first, last, 0, level_1, held) {
            return Some(job);
        }
        if let Some(job) = rewrite_job(first, last, 1, level_2, held) {
            return Some(job);
        }
        if let Some(job) = rewrite_job(first, last, 2, level_3, held) {
            return Some(job);
        }
        rewrite_job(first, last, 3, level_4, held)
    }

    /// The merge of the `count` oldest runs of level 0.
    fn choose_runs<H: HeldJobs>(&self, count: usize, held: &H) -> Option<Pick<'_, A>>
        ensures { option_map job_of result ≡ chosen self.now (H.jobs held.now) (OldestRuns count) }
    {
        let [level_1, ..] = self.deeper() else {
            return None;
        };
        run_job(count, &self.runs, level_1, held)
    }

    /// The job of a caller's choice, where slots are held by these jobs: the tables that are chosen, with those of the next
    /// level that meet their hull unless they are rewritten. None where there are no such tables or no runs are asked for, where one
    /// of all these is not free, where a job of level 0 holds a slot and runs of it are chosen, or where it or a job that holds a
    /// slot is a rewrite or a merge of several tables of a level from 1 to 3, and the other a merge. Whether a level is over its
    /// limit doesn't matter.
    ///
    /// It takes no memory.
    pub fn choose<H: HeldJobs>(&self, choice: Choice, held: &H) -> Option<Pick<'_, A>>
        ensures { option_map job_of result ≡ chosen self.now (H.jobs held.now) choice }
    {
        match choice {
            Choice::OldestRuns { count } => self.choose_runs(count, held),
            Choice::Tables { first, last } => self.choose_tables(first, last, held),
            Choice::Rewrite { first, last } => self.choose_rewrite(first, last, held),
        }
    }

    /// Whether no table below the level of a merge's outputs meets the hull of its inputs.
    fn meets_none_below(&self, level: usize, inputs: Option<KeyRange<'_>>) -> bool
        ensures { result ≡ meets_none (option_map range_shown inputs.entry)
            (below_output self.now level) }
    {
        let Some(range) = inputs else {
            return true;
        };
        if level >= 3 {
            return true;
        }
        !is_met(&self.deeper()[level + 1..], range)
    }

    /// The bottom flag of a job: whether it is a merge, and no table below the level of its outputs meets the hull of its
    /// inputs. It takes no memory.
    pub fn is_bottom(&self, job: &Pick<'_, A>) -> bool
        ensures { result ≡ is_bottom self.now (job_of job.now) }
    {
        match job {
            Pick::Flush => false,
            Pick::OldestRuns { runs, lower } => {
                self.meets_none_below(0, hull_of_runs(runs, hull_onto(lower, None)))
            }
            Pick::OneTable {
                level,
                upper,
                lower,
            } => self.meets_none_below(*level, Some(spanned(upper, hull_onto(lower, None)))),
            Pick::Neighbours {
                level,
                upper,
                lower,
            } => self.meets_none_below(*level, hull_onto(upper, hull_onto(lower, None))),
            Pick::Rewrite { above, tables } => self.meets_none_below(*above, hull_of(tables)),
        }
    }
}
