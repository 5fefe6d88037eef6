//! A merge that holds a slot.

ghost use Rattle.std.specs.Prelude.{◌≡◌, ◌==◌, ◌++◌, List, IfOk, OnOk};
ghost use Rattle.std.specs.List.{list_any};
ghost use Rattle.lsm_levels.specs.Tables.{Table};
ghost use Rattle.lsm_levels.specs.Pick.{inputs, is_of_level_0, is_several};
ghost use Rattle.lsm_jobs.specs.Numbers.{AreNumbersOf, merge_of};
ghost use Rattle.lsm_jobs.specs.Installing.{job_told, outputs_told};

use crate::installing::Written;
use lsm_levels::PlacedTable;
use std::alloc::{AllocError, Allocator};
use std::collections::BTreeSet;
use std::marker::Model;

/// Handles to the input tables of a merge, the `uppers` upper ones first, and the set of their numbers.
#[derive(Drop)]
pub(crate) struct MergeTables<A: Allocator> {
    level: usize,
    uppers: usize,
    tables: Vec<PlacedTable<A>, A>,
    numbers: BTreeSet<u64, A>,
}

impl<A: Allocator> Model for MergeTables<A> {
    ghost use Rattle.std.specs.Prelude.{◌≤◌, length, take, drop};
    ghost use Rattle.lsm_jobs.specs.Numbers.{AreNumbersOf, Inputs};

    ghost Value = { Inputs };

    ghost view = { λ m. record { level = m.level; upper = take m.uppers m.tables.items; lower = drop m.uppers m.tables.items } };

    ghost invariant = { λ m. (m.uppers ≤ length m.tables.items) × AreNumbersOf m.numbers m.tables.items };
}

/// Adds handles of tables.
pub(crate) fn add_handles<A: Allocator>(
    handles: &mut Vec<PlacedTable<A>, A>,
    tables: &[PlacedTable<A>],
) -> Result<(), AllocError>
    ensures { OnOk result (handles.new.items ≡ handles.old.items ++ tables.now) }
{
    for table in tables {
        handles.push(table.share()?)?;
    }
    Ok(())
}

/// Adds the numbers of tables to a set.
fn add_numbers<A: Allocator + Clone>(
    numbers: &mut BTreeSet<u64, A>,
    tables: &[PlacedTable<A>],
) -> Result<(), AllocError>
    ensures { OnOk result ((others : List Table) → AreNumbersOf numbers.old others
        → AreNumbersOf numbers.new (others ++ tables.now)) }
{
    for table in tables {
        numbers.insert(table.number())?;
    }
    Ok(())
}

impl<A: Allocator + Clone> MergeTables<A> {
    /// The merge of these tables of a level with those of the next one.
    pub(crate) fn new(
        alloc: &A,
        level: usize,
        upper: Vec<PlacedTable<A>, A>,
        lower: &[PlacedTable<A>],
    ) -> Result<MergeTables<A>, AllocError>
        ensures { IfOk result (λ m. m
            ≡ record { level = level; upper = upper.items; lower = lower.now }) }
    {
        let uppers = upper.len();
        let mut tables = upper;
        add_handles(&mut tables, lower)?;
        let mut numbers = BTreeSet::new(alloc.clone()?);
        add_numbers(&mut numbers, &tables)?;
        Ok(MergeTables {
            level,
            uppers,
            tables,
            numbers,
        })
    }
}

impl<A: Allocator> MergeTables<A> {
    /// All of them, the upper tables first.
    pub(crate) fn tables(&self) -> &[PlacedTable<A>]
        ensures { result.now ≡ inputs (merge_of self.now) }
    {
        &self.tables
    }

    /// These tables, with the outputs that take their place.
    pub(crate) fn written<'a>(&'a self, outputs: &'a [PlacedTable<A>]) -> Written<'a, A>
        ensures job { job_told result ≡ merge_of self.now }
        ensures outputs { outputs_told result ≡ outputs.now }
    {
        let (upper, lower) = self.tables.split_at(self.uppers);
        Written::Merge {
            level: self.level,
            upper,
            lower,
            outputs,
        }
    }

    /// Whether it is of level 0.
    pub(crate) fn is_of_level_0(&self) -> bool
        ensures { result ≡ is_of_level_0 (merge_of self.now) }
    {
        self.level == 0
    }

    /// Whether it is a rewrite, or takes several tables of a level from 1 to 3.
    pub(crate) fn is_several(&self) -> bool
        ensures { result ≡ is_several (merge_of self.now) }
    {
        self.uppers == 0 || (self.level > 0 && self.uppers > 1)
    }

    /// Whether it takes in the table of this number.
    pub(crate) fn takes_in(&self, number: u64) -> bool
        ensures { result ≡ list_any (λ t. t.number == number) (inputs (merge_of self.now)) }
    {
        self.numbers.contains(&number)
    }
}
