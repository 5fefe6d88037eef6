//! The next step down, where room is scarce.

ghost use Rattle.std.specs.Prelude.{◌≡◌, [], true, false, IfOk, IfSome};
ghost use Rattle.lsm_room.specs.Taking.{may_take, goes_down, AdvisesRoom, IsPlaced, MayFollow};

use crate::bounds::{Outputs, data_of};
use crate::cutting::{cut_at, cuts_behind, parts_at, pieces_of};
use crate::joining::join_of;
use crate::moving::move_of;
use crate::standing::{MOST_BLOCKS, Standing};
use crate::sure::{cheapest, met};
use lsm_codec::Key;
use lsm_levels::{Choice, HeldJobs, PlacedTable};
use std::alloc::{AllocError, Allocator, Global};

/// A merge to take, and the keys at which its result is divided.
#[derive(Drop)]
pub struct Step<A: Allocator = Global> {
    pub choice: Choice,
    pub divisions: Vec<Key<A>, A>,
}

/// What is to be done next.
#[derive(Drop)]
pub enum Advice<A: Allocator = Global> {
    /// Nothing: all tables are in the last level.
    Nothing,
    /// A step, whose outputs are sure to find room.
    Take(Step<A>),
    /// A step that rewrites tables in their own level. Its outputs probably find room, but aren't sure to.
    Try(Step<A>),
    /// No step is sure to find room, not even one that makes room: `choice` comes first, and needs `wanted`. Or a job that holds a slot
    /// is in the way of the step; then `wanted` is nothing.
    Lacks { choice: Choice, wanted: Outputs },
}

impl<A: Allocator + Clone> Step<A> {
    /// A merge with its result in one division.
    pub fn whole(alloc: &A, choice: Choice) -> Result<Step<A>, AllocError>
        ensures choice { IfOk result (λ step. step.choice ≡ choice) }
        ensures whole { IfOk result (λ step. step.divisions.items ≡ []) }
    {
        let divisions = Vec::new(alloc.clone()?);
        Ok(Step { choice, divisions })
    }
}

impl<'a, H: HeldJobs, A: Allocator + Clone> Standing<'a, H, A> {
    /// The next step of those that merge all tables into the last level, the deepest ones first.
    ///
    /// It is a merge that is sure to find room, if there is one. Else, of the table that meets the fewest of the next level, it is one of
    /// these that is: the table is cut at one of those it meets; or the larger of the two is halved. Else a table is moved so that free
    /// blocks become adjacent.
    pub fn step_down(&self, alloc: &A) -> Result<Advice<A>, AllocError>
        ensures may { IfOk result
            (λ advice. MayFollow self.now.levels.now (H.jobs self.now.held.now) advice) }
        ensures room { IfOk result
            (λ advice. AdvisesRoom self.now.extents.now self.now.levels.now self.now.live
            (H.jobs self.now.held.now) advice) }
    {
        let last = self.last_level();
        Ok(self.step_down_to(alloc, last)?)
    }

    /// The next step of those that merge all tables into a level.
    pub fn step_down_to(&self, alloc: &A, last: usize) -> Result<Advice<A>, AllocError>
        ensures may { IfOk result
            (λ advice. MayFollow self.now.levels.now (H.jobs self.now.held.now) advice) }
        ensures room { IfOk result
            (λ advice. AdvisesRoom self.now.extents.now self.now.levels.now self.now.live
            (H.jobs self.now.held.now) advice) }
    {
        let advice = self.next_step(alloc, last)?;
        Ok(self.unless_held(advice))
    }

    // A step, where no job that holds a slot is in its way.
    fn if_free(&self, step: Step<A>) -> Option<Step<A>>
        ensures same { IfSome result (λ s. s ≡ step) }
        ensures may { IfSome result
            (λ s. may_take self.now.levels.now (H.jobs self.now.held.now) s.choice ≡ true) }
    {
        if self.may_take(step.choice) {
            return Some(step);
        }
        None
    }

    // The advice, where no job that holds a slot is in its way.
    fn unless_held(&self, advice: Advice<A>) -> Advice<A>
        ensures may { MayFollow self.now.levels.now (H.jobs self.now.held.now) result }
        ensures room { AdvisesRoom self.now.extents.now self.now.levels.now self.now.live
            (H.jobs self.now.held.now) advice
            → AdvisesRoom self.now.extents.now self.now.levels.now self.now.live
            (H.jobs self.now.held.now) result }
    {
        match advice {
            Advice::Take(step) => self.take_if_free(step),
            Advice::Try(step) => self.try_if_free(step),
            Advice::Nothing => Advice::Nothing,
            Advice::Lacks { choice, wanted } => Advice::Lacks { choice, wanted },
        }
    }

    fn take_if_free(&self, step: Step<A>) -> Advice<A>
        ensures may { MayFollow self.now.levels.now (H.jobs self.now.held.now) result }
        ensures room { IsPlaced self.now.extents.now self.now.levels.now self.now.live
            (H.jobs self.now.held.now) step
            → AdvisesRoom self.now.extents.now self.now.levels.now self.now.live
            (H.jobs self.now.held.now) result }
    {
        let choice = step.choice;
        let wanted = Outputs::none();
        match self.if_free(step) {
            Some(step) => Advice::Take(step),
            None => Advice::Lacks { choice, wanted },
        }
    }

    fn try_if_free(&self, step: Step<A>) -> Advice<A>
        ensures may { MayFollow self.now.levels.now (H.jobs self.now.held.now) result }
        ensures room { goes_down step.choice ≡ false
            → AdvisesRoom self.now.extents.now self.now.levels.now self.now.live
            (H.jobs self.now.held.now) result }
    {
        let choice = step.choice;
        let wanted = Outputs::none();
        match self.if_free(step) {
            Some(step) => Advice::Try(step),
            None => Advice::Lacks { choice, wanted },
        }
    }

    // A step that rewrites tables: it is to be taken if it is sure to find room, and to be tried if not.
    fn rewriting(&self, step: Step<A>) -> Advice<A>
        ensures { goes_down step.choice ≡ false
            → AdvisesRoom self.now.extents.now self.now.levels.now self.now.live
            (H.jobs self.now.held.now) result }
    {
        if self.is_sure_at(step.choice, &step.divisions) {
            return Advice::Take(step);
        }
        Advice::Try(step)
    }

    // The next step, whatever holds slots.
    fn next_step(&self, alloc: &A, last: usize) -> Result<Advice<A>, AllocError>
        ensures { IfOk result
            (λ advice. AdvisesRoom self.now.extents.now self.now.levels.now self.now.live
            (H.jobs self.now.held.now) advice) }
    {
        match self.deepest(last) {
            0 => self.step_of_runs(alloc),
            level => self.step_of_level(alloc, level, last),
        }
    }

    // A merge, undivided, if it is sure to find room.
    fn if_sure(&self, alloc: &A, choice: Choice, most: u64) -> Result<Option<Advice<A>>, AllocError>
        ensures { IfOk result
            (λ advice. IfSome advice
            (AdvisesRoom self.now.extents.now self.now.levels.now self.now.live
            (H.jobs self.now.held.now))) }
    {
        if !self.is_sure(choice, most) {
            return Ok(None);
        }
        let step = Step::whole(alloc, choice)?;
        Ok(Some(Advice::Take(step)))
    }

    // The oldest runs, as many as are sure to find room.
    fn step_of_runs(&self, alloc: &A) -> Result<Advice<A>, AllocError>
        ensures { IfOk result
            (λ advice. AdvisesRoom self.now.extents.now self.now.levels.now self.now.live
            (H.jobs self.now.held.now) advice) }
    {
        let all = self.levels.runs().len();
        for newer in 0..all {
            let count = all - newer;
            let choice = Choice::OldestRuns { count };
            let most = if count > 1 { MOST_BLOCKS } else { u64::MAX };
            if let Some(advice) = self.if_sure(alloc, choice, most)? {
                return Ok(advice);
            }
        }
        let oldest = Choice::OldestRuns { count: 1 };
        match self.outputs(oldest) {
            Some(wanted) => self.make_room(alloc, oldest, wanted),
            None => Ok(Advice::Nothing),
        }
    }

    // A step of the tables of a level from 1 to 3.
    fn step_of_level(&self, alloc: &A, level: usize, last: usize) -> Result<Advice<A>, AllocError>
        ensures { IfOk result
            (λ advice. AdvisesRoom self.now.extents.now self.now.levels.now self.now.live
            (H.jobs self.now.held.now) advice) }
    {
        let deeper = self.levels.deeper();
        let (Some(run), Some(next)) = (deeper.get(level.saturating_sub(1)), deeper.get(level))
        else {
            return Ok(Advice::Nothing);
        };
        let drops = !self.live && level.saturating_add(1) >= last;
        if let Some(choice) = cheapest(self, run.tables(), next.tables(), drops) {
            if let Some(advice) = self.if_sure(alloc, choice, u64::MAX)? {
                return Ok(advice);
            }
        }
        match fewest_met(run.tables(), next.tables()) {
            Some(table) => self.step_of_table(alloc, table, met(next.tables(), table)),
            None => Ok(Advice::Nothing),
        }
    }

    // A step towards merging a table down into these that it meets.
    fn step_of_table(
        &self,
        alloc: &A,
        table: &PlacedTable<A>,
        below: &[PlacedTable<A>],
    ) -> Result<Advice<A>, AllocError>
        ensures { IfOk result
            (λ advice. AdvisesRoom self.now.extents.now self.now.levels.now self.now.live
            (H.jobs self.now.held.now) advice) }
    {
        let (cut, divisions, parts) = match below {
            [lower] if data_of(lower) >= data_of(table) => halved(alloc, lower)?,
            [] | [_] => halved(alloc, table)?,
            several => {
                let key = middle_of(several);
                (table, cut_at(alloc, key)?, parts_at(table, key))
            }
        };
        if !divisions.is_empty() && self.places(parts, 1) {
            let choice = rewrite_of(cut);
            return Ok(self.rewriting(Step { choice, divisions }));
        }
        let choice = Choice::Tables {
            first: table.number(),
            last: table.number(),
        };
        self.make_room(alloc, choice, parts)
    }

    // A step that makes room for a choice, which needs `wanted`.
    fn make_room(&self, alloc: &A, choice: Choice, wanted: Outputs) -> Result<Advice<A>, AllocError>
        ensures { IfOk result
            (λ advice. AdvisesRoom self.now.extents.now self.now.levels.now self.now.live
            (H.jobs self.now.held.now) advice) }
    {
        match move_of(self, alloc)? {
            Some(step) => Ok(self.rewriting(step)),
            None => Ok(Advice::Lacks { choice, wanted }),
        }
    }

    /// The next step that makes free blocks adjacent, if there is one.
    pub fn step_aside(&self, alloc: &A) -> Result<Advice<A>, AllocError>
        ensures may { IfOk result
            (λ advice. MayFollow self.now.levels.now (H.jobs self.now.held.now) advice) }
        ensures room { IfOk result
            (λ advice. AdvisesRoom self.now.extents.now self.now.levels.now self.now.live
            (H.jobs self.now.held.now) advice) }
    {
        match move_of(self, alloc)? {
            Some(step) => Ok(self.rewriting_if_free(step)),
            None => Ok(Advice::Nothing),
        }
    }

    /// The next step that joins neighbours, of a level that has more than twice the tables that its entries need.
    pub fn step_together(&self, alloc: &A) -> Result<Advice<A>, AllocError>
        ensures may { IfOk result
            (λ advice. MayFollow self.now.levels.now (H.jobs self.now.held.now) advice) }
        ensures room { IfOk result
            (λ advice. AdvisesRoom self.now.extents.now self.now.levels.now self.now.live
            (H.jobs self.now.held.now) advice) }
    {
        match join_of(self) {
            Some(choice) => Ok(self.rewriting_if_free(Step::whole(alloc, choice)?)),
            None => Ok(Advice::Nothing),
        }
    }

    // A step that rewrites tables, where no job that holds a slot is in its way.
    fn rewriting_if_free(&self, step: Step<A>) -> Advice<A>
        ensures may { MayFollow self.now.levels.now (H.jobs self.now.held.now) result }
        ensures room { goes_down step.choice ≡ false
            → AdvisesRoom self.now.extents.now self.now.levels.now self.now.live
            (H.jobs self.now.held.now) result }
    {
        let advice = self.rewriting(step);
        self.unless_held(advice)
    }
}

/// The rewriting of a table.
pub(crate) fn rewrite_of<A: Allocator>(table: &PlacedTable<A>) -> Choice
    ensures { goes_down result ≡ false }
{
    Choice::Rewrite {
        first: table.number(),
        last: table.number(),
    }
}

// A table, the cut in its middle, and its halves.
fn halved<'t, A: Allocator + Clone>(
    alloc: &A,
    table: &'t PlacedTable<A>,
) -> Result<(&'t PlacedTable<A>, Vec<Key<A>, A>, Outputs), AllocError> {
    let half = table.table().data_blocks().div_ceil(2);
    Ok((
        table,
        cuts_behind(alloc, table, half)?,
        pieces_of(table, half),
    ))
}

// The first key of the middle one of these tables.
fn middle_of<A: Allocator>(tables: &[PlacedTable<A>]) -> &[u8] {
    match tables.get(tables.len() / 2) {
        Some(table) => table.first(),
        None => &[],
    }
}

// Of the tables of a level the one that meets the fewest of the next level, and of these the one with the fewest data blocks.
fn fewest_met<'t, A: Allocator>(
    tables: &'t [PlacedTable<A>],
    below: &[PlacedTable<A>],
) -> Option<&'t PlacedTable<A>> {
    let mut found: Option<(&PlacedTable<A>, usize)> = None;
    for table in tables {
        let count = met(below, table).len();
        let is_fewer = match found {
            Some((other, least)) => {
                count < least || (count == least && data_of(table) < data_of(other))
            }
            None => true,
        };
        if is_fewer {
            found = Some((table, count));
        }
    }
    match found {
        Some((table, _)) => Some(table),
        None => None,
    }
}
