// What the manifest of the next generation names: the regions after a rotation, and the tables of levels.
ghost use Rattle.std.specs.Prelude.{◌≡◌, ◌≤◌, ◌<◌, ◌^◌, ◌++◌, [], length, map, IfOk, OnOk};
ghost use Rattle.lsm_levels.specs.Tables.{record_of};
ghost use Rattle.lsm_open.specs.Layout.{layout_of};
ghost use Rattle.lsm_open.specs.Switching.{IsRotated};
ghost use Rattle.lsm_open.specs.ToldTables.{records_of, records_of_runs, records_of_levels};

use crate::regions::Regions;
use crate::reopened::open_least_free;
use lsm_codec::TableRecord;
use lsm_levels::{Levels, PlacedTable, Run};
use std::alloc::{AllocError, Allocator};

impl<A: Allocator + Clone> Regions<A> {
    /// The regions after a rotation at `count` batches, in the next generation: the open log's is closed, if one is open, and
    /// a new log is open in the least free one. None was closed before.
    pub fn rotated(&self, alloc: A, count: u64) -> Result<Regions<A>, AllocError>
        requires none_closed { self.now.closed.items ≡ [] }
        requires log_high { self.now.log_sectors ≤ 2048 }
        requires generation_high { self.now.generation < 2 ^ 63 }
        requires count_high { count ≤ 2 ^ 63 }
        ensures { IfOk result (λ next. IsRotated (layout_of self.now) count (layout_of next)) }
    {
        let closed = self.log_records(alloc, true)?;
        let generation = self.generation + 1;
        let open_region = open_least_free(self.log_sectors, &closed, generation, count);
        Ok(Regions {
            log_sectors: self.log_sectors,
            generation,
            base: self.base,
            next_table: self.next_table,
            closed,
            open_region,
        })
    }
}

// Adds the records of the tables of a run, in a level and under a run's number.
fn add_records<A: Allocator>(
    records: &mut Vec<TableRecord, A>,
    level: u8,
    run: u8,
    tables: &[PlacedTable<A>],
) -> Result<(), AllocError>
    ensures { OnOk result (records.new.items
        ≡ records.old.items ++ map (record_of level run) tables.now) }
{
    for table in tables {
        records.push(table.table_record(level, run))?;
    }
    Ok(())
}

// Adds those of the runs of level 0.
fn add_runs<A: Allocator>(
    records: &mut Vec<TableRecord, A>,
    runs: &[Run<A>],
) -> Result<(), AllocError>
    requires few { length runs.now ≤ 12 }
    ensures { OnOk result (records.new.items ≡ records.old.items ++ records_of_runs 0 runs.now) }
{
    for (run, tables) in runs.iter().enumerate() {
        add_records(records, 0, run as u8, tables.tables())?;
    }
    Ok(())
}

// Adds those of levels 1 to 4.
fn add_levels<A: Allocator>(
    records: &mut Vec<TableRecord, A>,
    levels: &[Run<A>],
) -> Result<(), AllocError>
    requires four { length levels.now ≡ 4 }
    ensures { OnOk result (records.new.items
        ≡ records.old.items ++ records_of_levels 1 levels.now) }
{
    for (below, tables) in levels.iter().enumerate() {
        add_records(records, below as u8 + 1, 0, tables.tables())?;
    }
    Ok(())
}

/// The records of the tables of levels with at most 12 runs of level 0, as a manifest names them, the newer places first.
pub fn table_records<A: Allocator>(
    alloc: A,
    levels: &Levels<A>,
) -> Result<Vec<TableRecord, A>, AllocError>
    requires few { length levels.now.runs ≤ 12 }
    ensures { IfOk result (λ records. records.items ≡ records_of levels.now) }
{
    let mut records = Vec::new(alloc);
    add_runs(&mut records, levels.runs())?;
    add_levels(&mut records, levels.deeper())?;
    Ok(records)
}
