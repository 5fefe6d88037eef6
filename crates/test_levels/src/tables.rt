//! Levels of small tables.

use lsm_levels::{Levels, PlacedTable, Run, is_run};
use std::alloc::Global;
use std::process::Abort;
use test_table::input::images_of_puts;

/// What a table is made of.
pub trait Puts {
    /// The table of puts, which has four blocks: data, filter, index and footer. Its extent begins at the block of its number.
    fn table<R: Abort>(&self, rt: &R, alloc: Global) -> PlacedTable;
}

/// The number of a table, and the one byte of its key.
pub type Put = (u32, u8);

/// The number of a table, and its keys.
pub type PutKeys = (u32, &'static [&'static [u8]]);

impl Puts for Put {
    fn table<R: Abort>(&self, rt: &R, alloc: Global) -> PlacedTable {
        table_of(rt, alloc, self.0, &[&[self.1]])
    }
}

impl Puts for PutKeys {
    fn table<R: Abort>(&self, rt: &R, alloc: Global) -> PlacedTable {
        table_of(rt, alloc, self.0, self.1)
    }
}

/// The table of puts under these keys.
fn table_of<R: Abort>(rt: &R, alloc: Global, number: u32, keys: &[&[u8]]) -> PlacedTable {
    let images = images_of_puts(alloc, keys, b"1").expect(rt, "an image");
    let image = images.first().expect(rt, "an image");
    PlacedTable::of_image(alloc, image, number as u64, number).expect(rt, "a table")
}

/// The run of these tables.
fn run_of<R: Abort, P: Puts>(rt: &R, alloc: Global, puts: &[P]) -> Run {
    let mut tables = Vec::new(alloc);
    for put in puts {
        tables.push(put.table(rt, alloc)).expect(rt, "memory");
    }
    assert!(rt; is_run(&tables));
    Run::from_tables(tables)
}

/// Adds a run as the newest of level 0.
pub fn add_run<R: Abort>(rt: &R, levels: &mut Levels, run: Run) {
    assert!(rt; !run.tables().is_empty());
    assert!(rt; levels.add_run(run).is_ok());
}

/// Levels without a table.
pub fn no_tables<R: Abort>(rt: &R, alloc: Global) -> Levels {
    Levels::new(alloc).expect(rt, "levels")
}

/// Levels with these runs of level 0, the oldest first, and these in levels from 1 on.
pub fn levels_of<R: Abort, P: Puts>(
    rt: &R,
    alloc: Global,
    runs: &[&[P]],
    deeper: &[&[P]],
) -> Levels {
    let mut levels = no_tables(rt, alloc);
    for puts in runs {
        add_run(rt, &mut levels, run_of(rt, alloc, puts));
    }
    for (i, puts) in deeper.iter().enumerate() {
        assert!(rt; i < 4);
        levels.set_level(i + 1, run_of(rt, alloc, puts));
    }
    levels
}

/// Whether tables have these numbers.
pub fn have_numbers(tables: &[PlacedTable], numbers: &[u64]) -> bool {
    let mut all = tables.len() == numbers.len();
    for (table, number) in tables.iter().zip(numbers) {
        all = all && table.number() == *number;
    }
    all
}

/// Whether the tables of runs have these numbers.
pub fn runs_have_numbers(runs: &[Run], numbers: &[u64]) -> bool {
    let mut left = numbers;
    for run in runs {
        let tables = run.tables();
        if left.len() < tables.len() {
            return false;
        }
        let (mine, rest) = left.split_at(tables.len());
        if !have_numbers(tables, mine) {
            return false;
        }
        left = rest;
    }
    left.is_empty()
}
