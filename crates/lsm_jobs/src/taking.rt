//! How a job is taken.

ghost use Rattle.std.specs.Prelude.{◌≡◌, ◌<◌, ◌≤◌, ◌+◌, ◌^◌, ◌⊎◌, ◌↔◌, ◌∷◌, [], true, false, Some, Err, is_some, option_map, IfOk, IfErr, IfSome, OnOk, OnErr};
ghost use Rattle.std.specs.List.{AllByRecursion};
ghost use Rattle.lsm_codec.specs.Versions.{IsEntry};
ghost use Rattle.lsm_merge.specs.Inputs.{IsCuts};
ghost use Rattle.lsm_levels.specs.Pick.{Flush, Merge, is_flush};
ghost use Rattle.lsm_levels.specs.Levels.{all_tables};
ghost use Rattle.lsm_levels.specs.Picks.{job_of};
ghost use Rattle.lsm_device.specs.declared.refusal.Refusal.TheVariants.{NoMemory, Exhausted};
ghost use Rattle.lsm_jobs.specs.Taking.{asked_job, given_job, level_of, told_of, slot_with, slot_for, with_taken};
ghost use Rattle.lsm_mem.specs.Versions.{sealed_versions};
ghost use Rattle.lsm_jobs.specs.Slots.{Frozen, held_jobs, with_slot};
ghost use Rattle.lsm_jobs.specs.Holding.{free_from};

use crate::gathering::Gathering;
use crate::held::{HeldJob, Work};
use crate::merge::{MergeTables, add_handles};
use crate::slots::{Slots, free_place};
use lsm_codec::LAST_NUMBER;
use lsm_device::Refusal;
use lsm_levels::{Choice, Levels, Pick, PlacedTable, Run, share_all};
use lsm_mem::Sealed;
use lsm_merge::Input;
use std::alloc::{AllocError, Allocator};
use std::sync::Arc;

/// What is told of a job that was taken: its number, and the level above that of its outputs, none of a flush. Where a merge has
/// upper tables, these are of that level.
#[derive(Clone, Copy, Debug, PartialEq, Eq)]
pub struct TakenJob {
    pub number: u64,
    pub level: Option<usize>,
}

/// The level above that of a job's outputs, none of a flush.
fn level_of<A: Allocator>(job: &Pick<'_, A>) -> Option<usize>
    ensures { result ≡ level_of (job_of job.now) }
{
    match job {
        Pick::Flush => None,
        Pick::OldestRuns { runs: _, lower: _ } => Some(0),
        Pick::OneTable {
            level,
            upper: _,
            lower: _,
        } => Some(*level),
        Pick::Neighbours {
            level,
            upper: _,
            lower: _,
        } => Some(*level),
        Pick::Rewrite { above, tables: _ } => Some(*above),
    }
}

/// A flush of sealed versions.
fn flush_of<A: Allocator + Clone>(
    alloc: &A,
    number: u64,
    sealed: &Sealed<A>,
    cuts: Vec<u64, A>,
) -> Result<HeldJob<A>, AllocError>
    requires entries { AllByRecursion IsEntry sealed.now }
    requires cuts { IsCuts cuts.items }
    ensures { IfOk result (λ held. held ≡ slot_with number sealed.now cuts.items false Flush) }
{
    let entries = sealed.entries(alloc.clone()?)?;
    let mut runs = Vec::new(alloc.clone()?);
    runs.push(entries)?;
    let input = Arc::new(alloc.clone()?, Input::new(runs, cuts, false))?;
    Ok(HeldJob {
        number,
        tables: None,
        work: Work::Frozen(input),
    })
}

/// A handle of a table alone.
fn one_handle<A: Allocator>(
    alloc: A,
    table: &PlacedTable<A>,
) -> Result<Vec<PlacedTable<A>, A>, AllocError>
    ensures { IfOk result (λ handles. handles.items ≡ table.now ∷ []) }
{
    let mut handles = Vec::new(alloc);
    handles.push(table.share()?)?;
    Ok(handles)
}

/// Handles of the tables of runs, one run after the other.
fn run_handles<A: Allocator>(
    alloc: A,
    runs: &[Run<A>],
) -> Result<Vec<PlacedTable<A>, A>, AllocError>
    ensures { IfOk result (λ handles. handles.items ≡ all_tables runs.now) }
{
    let mut handles = Vec::new(alloc);
    for run in runs {
        add_handles(&mut handles, run.tables())?;
    }
    Ok(handles)
}

/// A merge of these tables of a level with those of the next one, whose data blocks have to be read.
fn merge_of<A: Allocator + Clone>(
    alloc: &A,
    number: u64,
    level: usize,
    upper: Vec<PlacedTable<A>, A>,
    lower: &[PlacedTable<A>],
    cuts: Vec<u64, A>,
    bottom: bool,
) -> Result<HeldJob<A>, AllocError>
    requires { IsCuts cuts.items }
    ensures { IfOk result (λ held. held
        ≡ slot_with number [] cuts.items bottom (Merge level upper.items lower.now)) }
{
    let tables = MergeTables::new(alloc, level, upper, lower)?;
    let gathering = Gathering::new(alloc, tables.tables(), cuts, bottom)?;
    Ok(HeldJob {
        number,
        tables: Some(tables),
        work: Work::Reading(gathering),
    })
}

/// The job that comes next, under this number.
fn job_for<A: Allocator + Clone>(
    alloc: &A,
    number: u64,
    levels: &Levels<A>,
    job: &Pick<'_, A>,
    sealed: Option<&Sealed<A>>,
    cuts: Vec<u64, A>,
) -> Result<HeldJob<A>, AllocError>
    requires entries { IfSome sealed (λ s. AllByRecursion IsEntry s.now) }
    requires cuts { IsCuts cuts.items }
    requires waits { is_flush (job_of job.now) ≡ true → is_some sealed ≡ true }
    ensures { IfOk result (λ held. held
        ≡ slot_for number (sealed_versions (option_map (λ s. s.now) sealed.entry)) cuts.items
        levels.now (job_of job.now)) }
{
    let bottom = levels.is_bottom(job);
    match job {
        Pick::Flush => {
            let sealed = sealed.unwrap();
            flush_of(alloc, number, sealed, cuts)
        }
        Pick::OldestRuns { runs, lower } => {
            let upper = run_handles(alloc.clone()?, runs)?;
            merge_of(alloc, number, 0, upper, lower, cuts, bottom)
        }
        Pick::OneTable {
            level,
            upper,
            lower,
        } => {
            let upper = one_handle(alloc.clone()?, upper)?;
            merge_of(alloc, number, *level, upper, lower, cuts, bottom)
        }
        Pick::Neighbours {
            level,
            upper,
            lower,
        } => {
            let upper = share_all(alloc.clone()?, upper)?;
            merge_of(alloc, number, *level, upper, lower, cuts, bottom)
        }
        Pick::Rewrite { above, tables } => {
            let none = Vec::new(alloc.clone()?);
            merge_of(alloc, number, *above, none, tables, cuts, bottom)
        }
    }
}

impl<A: Allocator> Slots<A> {
    /// The job that is asked for: the one that is chosen, or where none is the one that comes next.
    fn asked_job<'l>(
        &self,
        levels: &'l Levels<A>,
        asked: Option<Choice>,
        waiting: bool,
    ) -> Option<Pick<'l, A>>
        ensures { option_map job_of result
            ≡ asked_job waiting asked levels.now (held_jobs self.now.slots) }
    {
        match asked {
            Some(choice) => levels.choose(choice, self),
            None => levels.pick(waiting, self),
        }
    }

    /// The job that is asked for, and the least free slot for it.
    fn next_job<'l>(
        &self,
        levels: &'l Levels<A>,
        asked: Option<Choice>,
        waiting: bool,
    ) -> Option<(usize, Pick<'l, A>)>
        ensures given { option_map (λ n. job_of n.1) result
            ≡ given_job waiting asked levels.now self.now.slots }
        ensures place { IfSome result (λ n. free_from 0 self.now.slots ≡ Some n.0) }
        ensures waits { IfSome result (λ n. is_flush (job_of n.1) ≡ true → waiting ≡ true) }
    {
        let Some(place) = free_place(&self.slots) else {
            return None;
        };
        match self.asked_job(levels, asked, waiting) {
            Some(job) => Some((place, job)),
            None => None,
        }
    }

    /// Puts a job into the least free slot, under the next number.
    fn put(&mut self, place: usize, job: HeldJob<A>) -> u64
        requires place { free_from 0 self.old.slots ≡ Some place }
        requires number { self.old.next ≤ 2 ^ 63 }
        ensures number { result ≡ self.old.next }
        ensures held { self.new
            ≡ record { next = self.old.next + 1; slots = with_slot job self.old.slots } }
    {
        let number = self.next;
        self.slots[place] = Some(job);
        self.next = number + 1;
        number
    }

    /// Whether there is a job as it is asked for, and a slot is free for it: the one that is chosen, or where none is the one
    /// that comes next. Fails with `Exhausted` exactly where that is so and the number 2^63 was given out, as
    /// [`take`](Slots::take) then is. It takes no memory.
    pub fn has_next(
        &self,
        levels: &Levels<A>,
        asked: Option<Choice>,
        waiting: bool,
    ) -> Result<bool, Refusal>
        ensures given { IfOk result
            (λ given. given ≡ is_some (given_job waiting asked levels.now self.now.slots)) }
        ensures exhausted { (result ≡ Err Exhausted)
            ↔ ((is_some (given_job waiting asked levels.now self.now.slots) ≡ true)
            × (2 ^ 63 < self.now.next)) }
        ensures refusals { IfErr result (λ refusal. refusal ≡ Exhausted) }
    {
        let has_next = self.next_job(levels, asked, waiting).is_some();
        if has_next && self.next > LAST_NUMBER {
            return Err(Refusal::Exhausted);
        }
        Ok(has_next)
    }

    /// Takes the job that is chosen, or where none is the one that comes next: it goes into the least free slot, with these
    /// cuts and under a number of its own. Returns that number, and the level above that of the job's outputs. None where all
    /// slots are held or there is no such job. Fails with `Exhausted` exactly where there is such a job and the number
    /// 2^63 was given out, or else with `NoMemory`; then nothing has changed.
    pub fn take(
        &mut self,
        alloc: &A,
        levels: &Levels<A>,
        asked: Option<Choice>,
        sealed: Option<&Sealed<A>>,
        cuts: Vec<u64, A>,
    ) -> Result<Option<TakenJob>, Refusal>
    where
        A: Clone,
        requires entries { IfSome sealed (λ s. AllByRecursion IsEntry s.now) }
        requires cuts { IsCuts cuts.items }
        ensures given { IfOk result
            (λ taken. taken ≡ option_map (told_of self.old.next)
            (given_job (is_some sealed.entry) asked levels.now self.old.slots)) }
        ensures taken { OnOk result
            (self.new ≡ with_taken (sealed_versions (option_map (λ s. s.now) sealed.entry))
            cuts.items levels.now
            (given_job (is_some sealed.entry) asked levels.now self.old.slots) self.old) }
        ensures exhausted { (result ≡ Err Exhausted)
            ↔ ((is_some (given_job (is_some sealed.entry) asked levels.now self.old.slots) ≡ true)
            × (2 ^ 63 < self.old.next)) }
        ensures refusals { IfErr result (λ refusal. (refusal ≡ Exhausted) ⊎ (refusal ≡ NoMemory)) }
        ensures unchanged { OnErr result (self.new ≡ self.old) }
    {
        let Some((place, job)) = self.next_job(levels, asked, sealed.is_some()) else {
            return Ok(None);
        };
        if self.next > LAST_NUMBER {
            return Err(Refusal::Exhausted);
        }
        let held = job_for(alloc, self.next, levels, &job, sealed, cuts)?;
        let level = level_of(&job);
        let number = self.put(place, held);
        Ok(Some(TakenJob { number, level }))
    }
}
