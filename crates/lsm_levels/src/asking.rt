//! The block of a run that is asked for.

ghost use Rattle.std.specs.Prelude.{◌≡◌, ◌^◌};
ghost use Rattle.std.specs.List.{AllByRecursion};
ghost use Rattle.lsm_filter.specs.Probes.{fnv_hash};
ghost use Rattle.lsm_levels.specs.Asking.{asked_of_table, asked_of_run};
ghost use Rattle.lsm_levels.specs.Stored.{LiesWithin};

use crate::covered::covering;
use crate::placed::PlacedBlock;
use crate::run::Run;
use crate::table::PlacedTable;
use lsm_cache::BlockName;
use lsm_filter::KeyHash;
use std::alloc::Allocator;

/// What is looked for: the newest version of a key that is numbered at most `at`, in tables whose blocks begin at the
/// sector `area`. It has the hash of the key, which is made once for the filters of all runs.
#[derive(Clone, Copy)]
pub(crate) struct Query<'k> {
    pub area: u32,
    pub key: &'k [u8],
    pub hash: KeyHash,
    pub at: u64,
    ghost hashed: { hash ≡ fnv_hash key.now },
}

/// The block of a table that may have a version that is looked for: none where the filter or the index tell that it has
/// none.
fn asked_of_table<A: Allocator>(table: &PlacedTable<A>, query: &Query<'_>) -> Option<PlacedBlock>
    requires { LiesWithin (2 ^ 32) query.now.area table.now }
    ensures { result ≡ asked_of_table query.now.area query.now.key.now query.now.at table.now }
{
    let told = table.table();
    if !told.perhaps_hashed(query.hash) {
        return None;
    }
    let place = told.place(query.key, query.at)?;
    let _blocks = told.data_blocks();
    let name = BlockName {
        table: table.number(),
        block: place as u8,
    };
    Some(PlacedBlock {
        name,
        sector: query.area + 8 * (table.first_block() + place as u32),
    })
}

/// The block of a run that may have a version that is looked for: that of the one table whose range has the key.
pub(crate) fn asked_of_run<A: Allocator>(run: &Run<A>, query: &Query<'_>) -> Option<PlacedBlock>
    requires { AllByRecursion (LiesWithin (2 ^ 32) query.now.area) run.now }
    ensures { result ≡ asked_of_run query.now.area query.now.key.now query.now.at run.now }
{
    let table = covering(run, query.key)?;
    asked_of_table(table, query)
}
