//! The hull of tables: from the least first key to the greatest last key.

ghost use Rattle.std.specs.Prelude.{◌≡◌, Option, option_map};
ghost use Rattle.std.specs.List.{list_any};
ghost use Rattle.lsm_levels.specs.Tables.{IsRun, least, greatest, spanned, hull, meets};
ghost use Rattle.lsm_levels.specs.Levels.{all_tables, reach};
ghost use Rattle.lsm_levels.specs.Hulls.{range_shown, hull_onto};

use crate::run::Run;
use crate::slices::ends;
use crate::table::PlacedTable;
use std::alloc::Allocator;

/// A range of keys, both ends inside.
#[derive(Clone, Copy)]
pub(crate) struct KeyRange<'a> {
    pub(crate) first: &'a [u8],
    pub(crate) last: &'a [u8],
}

fn least<'a>(a: &'a [u8], b: &'a [u8]) -> &'a [u8]
    ensures { result.now ≡ least a.now b.now }
{
    if a.cmp(b).is_le() { a } else { b }
}

fn greatest<'a>(a: &'a [u8], b: &'a [u8]) -> &'a [u8]
    ensures { result.now ≡ greatest a.now b.now }
{
    if a.cmp(b).is_le() { b } else { a }
}

/// The hull of a table's range and another's.
pub(crate) fn spanned<'a, A: Allocator>(
    table: &'a PlacedTable<A>,
    rest: Option<KeyRange<'a>>,
) -> KeyRange<'a>
    ensures { range_shown result ≡ spanned table.now (option_map range_shown rest.entry) }
{
    match rest {
        Some(rest) => KeyRange {
            first: least(table.first(), rest.first),
            last: greatest(table.last(), rest.last),
        },
        None => KeyRange {
            first: table.first(),
            last: table.last(),
        },
    }
}

/// The hull of tables and of a range.
pub(crate) fn hull_onto<'a, A: Allocator>(
    tables: &'a [PlacedTable<A>],
    rest: Option<KeyRange<'a>>,
) -> Option<KeyRange<'a>>
    ensures { option_map range_shown result
        ≡ hull_onto tables.now (option_map range_shown rest.entry) }
{
    let mut hull = rest;
    for table in tables.iter().rev() {
        hull = Some(spanned(table, hull));
    }
    hull
}

/// The hull of tables.
pub(crate) fn hull_of<A: Allocator>(tables: &[PlacedTable<A>]) -> Option<KeyRange<'_>>
    ensures { option_map range_shown result ≡ hull tables.now }
{
    hull_onto(tables, None)
}

/// The keys in which a merge replaces tables: the hull of the upper tables, or of the lower ones where there is no upper table.
pub(crate) fn reach<'a, A: Allocator>(
    upper: &'a [PlacedTable<A>],
    lower: &'a [PlacedTable<A>],
) -> Option<KeyRange<'a>>
    ensures { option_map range_shown result ≡ reach upper.now lower.now }
{
    match upper {
        [] => hull_of(lower),
        [_, ..] => hull_of(upper),
    }
}

/// The hull of the tables of a run and of a range, by the run's ends.
fn run_hull_onto<'a, A: Allocator>(
    run: &'a [PlacedTable<A>],
    rest: Option<KeyRange<'a>>,
) -> Option<KeyRange<'a>>
    requires { IsRun run.now }
    ensures { option_map range_shown result
        ≡ hull_onto run.now (option_map range_shown rest.entry) }
{
    let Some((first, last)) = ends(run) else {
        return rest;
    };
    match rest {
        Some(rest) => Some(KeyRange {
            first: least(first, rest.first),
            last: greatest(last, rest.last),
        }),
        None => Some(KeyRange { first, last }),
    }
}

/// The hull of the tables of runs and of a range.
pub(crate) fn hull_of_runs<'a, A: Allocator>(
    runs: &'a [Run<A>],
    rest: Option<KeyRange<'a>>,
) -> Option<KeyRange<'a>>
    ensures { option_map range_shown result
        ≡ hull_onto (all_tables runs.now) (option_map range_shown rest.entry) }
{
    let mut hull = rest;
    for run in runs.iter().rev() {
        hull = run_hull_onto(run.tables(), hull);
    }
    hull
}

/// Whether a table of these runs meets a range.
pub(crate) fn is_met<A: Allocator>(runs: &[Run<A>], range: KeyRange<'_>) -> bool
    ensures { result ≡ list_any (meets (range_shown range.entry)) (all_tables runs.now) }
{
    for run in runs {
        if is_met_in(run.tables(), range) {
            return true;
        }
    }
    false
}

/// Whether one of these tables meets a range.
fn is_met_in<A: Allocator>(tables: &[PlacedTable<A>], range: KeyRange<'_>) -> bool
    ensures { result ≡ list_any (meets (range_shown range.entry)) tables.now }
{
    tables
        .iter()
        .any(|table| table.meets(range.first, range.last))
}
