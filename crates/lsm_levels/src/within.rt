//! Whether tables lie within a device.

ghost use Rattle.std.specs.Prelude.{◌≡◌};
ghost use Rattle.std.specs.List.{list_all};
ghost use Rattle.lsm_levels.specs.Stored.{is_within};

use crate::run::Run;
use crate::table::PlacedTable;
use std::alloc::Allocator;

fn is_within<A: Allocator>(table: &PlacedTable<A>, sectors: u32, area: u32) -> bool
    ensures { result ≡ is_within sectors area table.now }
{
    let blocks = table.table().data_blocks();
    area as u64 + 8 * (table.first_block() as u64 + blocks as u64) <= sectors as u64
}

fn is_run_within<A: Allocator>(run: &Run<A>, sectors: u32, area: u32) -> bool
    ensures { result ≡ list_all (is_within sectors area) run.now }
{
    run.tables()
        .iter()
        .all(|table| is_within(table, sectors, area))
}

/// Whether the data blocks of all tables lie within the first `sectors` sectors.
pub(crate) fn are_within<A: Allocator>(runs: &[Run<A>], sectors: u32, area: u32) -> bool
    ensures { result ≡ list_all (list_all (is_within sectors area)) runs.now }
{
    runs.iter().all(|run| is_run_within(run, sectors, area))
}
