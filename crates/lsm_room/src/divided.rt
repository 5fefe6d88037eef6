//! How many blocks the outputs of a job take at most whose result is divided at keys.

ghost use Rattle.std.specs.Prelude.{◌≡◌, ◌<◌, ◌∷◌, [], ℕ, false, IfSome};
ghost use Rattle.lsm_levels.specs.Held.{IsHeld};
ghost use Rattle.lsm_levels.specs.Levels.{Levels as Contents};
ghost use Rattle.lsm_levels.specs.Pick.{Merge, is_bottom, is_flush};
ghost use Rattle.lsm_levels.specs.Picks.{job_of};
ghost use Rattle.lsm_room.specs.Outputs.{MakesAtMost};
ghost use Rattle.lsm_room.specs.Measuring.{AreEnoughAt};

use crate::bounds::{Outputs, data_of, outputs_for, outputs_of};
use lsm_codec::Key;
use lsm_levels::{Levels, Pick, PlacedTable};
use std::alloc::Allocator;

/// What the two parts of a table that is cut at a key take at most, where a snapshot is live or none is. The block with the key
/// counts for both.
pub(crate) fn parts_of<A: Allocator>(table: &PlacedTable<A>, key: &[u8], live: bool) -> Outputs
    ensures { AreEnoughAt live key.now table.now result }
{
    let before = table.table().blocks_before(key) as u64;
    let entries = u64::from(table.table().entries());
    let front = outputs_for(before.saturating_add(1), entries, live);
    let behind = data_of(table).saturating_sub(before).max(1);
    front.beside(outputs_for(behind, entries, live))
}

/// The outputs of a job whose result is divided at these keys, as far as they are known: of one that isn't divided, and of one table that
/// is cut at one key.
pub(crate) fn outputs_at<A: Allocator>(
    levels: &Levels<A>,
    job: &Pick<'_, A>,
    divisions: &[Key<A>],
    live: bool,
) -> Option<Outputs>
    ensures { IfSome result (λ o. o.blocks < 4294967296
        → IsHeld levels.now (is_bottom levels.now (job_of job.now)) (job_of job.now)
        → is_flush (job_of job.now) ≡ false
        → MakesAtMost levels.now live (job_of job.now) divisions.now o.blocks o.largest) }
{
    match divisions {
        [] => Some(outputs_of(levels, job, live)),
        [key] => cut_outputs(job, key, live),
        _ => None,
    }
}

// Those of a job that rewrites one table, cut at a key.
fn cut_outputs<A: Allocator>(job: &Pick<'_, A>, key: &Key<A>, live: bool) -> Option<Outputs>
    ensures { IfSome result (λ o. o.blocks < 4294967296 → (levels : Contents)
        → MakesAtMost levels live (job_of job.now) (key.now ∷ []) o.blocks o.largest) }
{
    let table = rewritten(job)?;
    Some(parts_of(table, key.as_slice(), live))
}

// The table that a job rewrites, if it is one alone.
fn rewritten<'t, A: Allocator>(job: &Pick<'t, A>) -> Option<&'t PlacedTable<A>>
    ensures { IfSome result (λ t. (i : ℕ) × (job_of job.now ≡ Merge i [] (t.now ∷ []))) }
{
    match job {
        Pick::Rewrite { tables, .. } => match tables {
            [table] => Some(table),
            _ => None,
        },
        _ => None,
    }
}
