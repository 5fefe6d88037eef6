//! What is told of the tables of a store.

use crate::plain::{TableTold, TablesTold};
use lsm_levels::{Levels, PlacedTable, Run};
use std::alloc::Allocator;

/// The only byte, or 0.
fn only(bytes: &[u8]) -> u8 {
    match bytes {
        [byte] => *byte,
        _ => 0,
    }
}

fn told_table<A: Allocator>(level: usize, table: &PlacedTable<A>) -> TableTold {
    TableTold {
        number: table.number(),
        level,
        first: only(table.first()),
        last: only(table.last()),
        blocks: table.blocks().into(),
    }
}

/// With the tables of a run of a level.
fn and_run<A: Allocator>(told: TablesTold, level: usize, run: &Run<A>) -> TablesTold {
    let mut told = told;
    for table in run.tables() {
        told = told.and(told_table(level, table));
    }
    told
}

/// The tables of all levels, level by level.
pub(crate) fn told_tables<A: Allocator>(levels: &Levels<A>) -> TablesTold {
    let mut told = TablesTold::NONE;
    for run in levels.runs() {
        told = and_run(told, 0, run);
    }
    let mut level = 0_usize;
    for run in levels.deeper() {
        level = level.wrapping_add(1);
        told = and_run(told, level, run);
    }
    told
}
