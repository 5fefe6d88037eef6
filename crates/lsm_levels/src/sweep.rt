//! Parts of a run, found from its beginning.

ghost use Rattle.std.specs.Prelude.{◌≡◌, filter};
ghost use Rattle.lsm_levels.specs.Tables.{IsRun, at_most};

use crate::table::PlacedTable;
use std::alloc::Allocator;

/// The tables of a run that end at a key or after it. It looks at those before them, and at one more.
pub(crate) fn ending_on<'a, A: Allocator>(
    run: &'a [PlacedTable<A>],
    key: &[u8],
) -> &'a [PlacedTable<A>]
    requires { IsRun run.now }
    ensures { result.now ≡ filter (λ t. at_most key.now t.last) run.now }
{
    for (i, table) in run.iter().enumerate() {
        if !table.ends_before(key) {
            return &run[i..];
        }
    }
    &[]
}

/// The tables of a run that begin at a key or before it. It looks at these, and at one more.
pub(crate) fn begun_by<'a, A: Allocator>(
    run: &'a [PlacedTable<A>],
    key: &[u8],
) -> &'a [PlacedTable<A>]
    requires { IsRun run.now }
    ensures { result.now ≡ filter (λ t. at_most t.first key.now) run.now }
{
    for (i, table) in run.iter().enumerate() {
        if !table.begins_by(key) {
            return &run[..i];
        }
    }
    run
}
