//! The table of a run whose range has a key.

ghost use Rattle.std.specs.Prelude.{◌≡◌};
ghost use Rattle.std.specs.Option.{option_copied};
ghost use Rattle.lsm_levels.specs.Asking.{covering};

use crate::run::Run;
use crate::table::PlacedTable;
use std::alloc::Allocator;

/// The table of a run whose range has the key, found by a binary search.
pub(crate) fn covering<'a, A: Allocator>(run: &'a Run<A>, key: &[u8]) -> Option<&'a PlacedTable<A>>
    ensures { option_copied result ≡ covering key.now run.now }
{
    let table = run.ending_from(key).first()?;
    if table.begins_by(key) {
        Some(table)
    } else {
        None
    }
}
