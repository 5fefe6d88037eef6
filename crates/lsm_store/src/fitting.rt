// Whether the outputs of a job may take the place of what it took in.
ghost use Rattle.std.specs.Prelude.{◌≡◌, ◌↔◌, ◌&&◌, ◌++◌, IsTrue};
ghost use Rattle.std.specs.List.{AllByRecursion, list_any};
ghost use Rattle.lsm_jobs.specs.Installing.{job_told, outputs_told};
ghost use Rattle.lsm_levels.specs.Held.{AreOutputs, IsWithin};
ghost use Rattle.lsm_levels.specs.Tables.{IsRun, at_most};

use lsm_jobs::Written;
use lsm_levels::PlacedTable;
use std::alloc::Allocator;

// Whether one of these tables begins at a key or before it.
fn some_begins_by<A: Allocator>(tables: &[PlacedTable<A>], key: &[u8]) -> bool
    ensures { result ≡ list_any (λ t. at_most t.first key.now) tables.now }
{
    tables.iter().any(|table| table.first().cmp(key).is_le())
}

// Whether one of them ends at a key or after it.
fn some_ends_from<A: Allocator>(tables: &[PlacedTable<A>], key: &[u8]) -> bool
    ensures { result ≡ list_any (λ t. at_most key.now t.last) tables.now }
{
    tables.iter().any(|table| key.cmp(table.last()).is_le())
}

// Whether a range lies within the hull of a merge's inputs.
fn spans<A: Allocator>(
    upper: &[PlacedTable<A>],
    lower: &[PlacedTable<A>],
    first: &[u8],
    last: &[u8],
) -> bool
    ensures { result
        ≡ (list_any (λ t. at_most t.first first.now) (upper.now ++ lower.now)
        && list_any (λ t. at_most last.now t.last) (upper.now ++ lower.now)) }
{
    let begins = some_begins_by(upper, first) || some_begins_by(lower, first);
    let ends = some_ends_from(upper, last) || some_ends_from(lower, last);
    begins && ends
}

// Whether a run of outputs lies within a merge's inputs: then its first table's first key does, and its last one's last.
fn are_within<A: Allocator>(
    upper: &[PlacedTable<A>],
    lower: &[PlacedTable<A>],
    outputs: &[PlacedTable<A>],
) -> bool
    requires { IsRun outputs.now }
    ensures { IsTrue result ↔ AllByRecursion (IsWithin (upper.now ++ lower.now)) outputs.now }
{
    match outputs {
        [] => true,
        [table] => spans(upper, lower, table.first(), table.last()),
        [least, .., greatest] => spans(upper, lower, least.first(), greatest.last()),
    }
}

/// Whether the outputs of a job may be put in.
pub(crate) fn fit<A: Allocator>(written: &Written<'_, A>) -> bool
    requires { IsRun (outputs_told written.now) }
    ensures { IsTrue result ↔ AreOutputs (job_told written.now) (outputs_told written.now) }
{
    match written {
        Written::Flush { outputs } => !outputs.is_empty(),
        Written::Merge {
            upper,
            lower,
            outputs,
            ..
        } => are_within(upper, lower, outputs),
    }
}
