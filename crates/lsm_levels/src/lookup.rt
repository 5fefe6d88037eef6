//! Look-ups in runs, from newer to older ones.

ghost use Rattle.std.specs.Prelude.{◌≡◌, option_map};
ghost use Rattle.std.specs.List.{AllByRecursion};
ghost use Rattle.lsm_table.specs.Spans.{spanned};
ghost use Rattle.lsm_levels.specs.Asking.{Says, asked_of_run};
ghost use Rattle.lsm_levels.specs.Levels.{places};
ghost use Rattle.lsm_levels.specs.Lookups.{LooksUp, answer_of, value_of};
ghost use Rattle.lsm_levels.specs.Stored.{LiesWithin, AreWithin};
ghost use Rattle.lsm_levels.specs.Founds.{CopiesOfRuns, TestsRuns, spanned_in};

use crate::asking::{Query, asked_of_run};
use crate::found::copied;
use crate::levels::Levels;
use crate::reading::find_in_block;
use crate::run::Run;
use lsm_cache::{BlockBytes, Cache};
use lsm_codec::Guard;
use lsm_device::{Device, Refusal};
use lsm_table::EntrySpan;
use std::alloc::Allocator;

/// Where a version lies in the one block of a run that may have one. The bytes of the block come to `bytes`.
fn find_in_run<D: Device, A: Allocator + Clone>(
    run: &Run<A>,
    query: &Query<'_>,
    bytes: &mut BlockBytes<A>,
    cache: &mut Cache<A>,
    device: &mut D,
) -> Result<Option<EntrySpan>, Refusal>
    requires { AllByRecursion (LiesWithin (D.medium device.old).size query.now.area) run.now }
    ensures { Says query.now.key.now query.now.at
        (asked_of_run query.now.area query.now.key.now query.now.at run.now)
        (spanned_in bytes.new result)
        (record { cache = cache.old; medium = D.medium device.old })
        (record { cache = cache.new; medium = D.medium device.new }) }
{
    let Some(block) = asked_of_run(run, query) else {
        return Ok(None);
    };
    cache.ask(block.name, block.sector, device, bytes)?;
    Ok(find_in_block(bytes.as_array(), query.key, query.at)?)
}

fn find_in_runs<D: Device, A: Allocator + Clone>(
    runs: &[Run<A>],
    query: &Query<'_>,
    bytes: &mut BlockBytes<A>,
    cache: &mut Cache<A>,
    device: &mut D,
) -> Result<Option<EntrySpan>, Refusal>
    requires { AreWithin (D.medium device.old).size query.now.area runs.now }
    ensures { LooksUp query.now.area query.now.key.now query.now.at runs.now
        (spanned_in bytes.new result)
        (record { cache = cache.old; medium = D.medium device.old })
        (record { cache = cache.new; medium = D.medium device.new }) }
{
    for run in runs {
        if let Some(span) = find_in_run(run, query, bytes, cache, device)? {
            return Ok(Some(span));
        }
    }
    Ok(None)
}

/// Where a version lies that the runs of the levels have, the newer asked first. The bytes of its block come to `bytes`.
fn find_in_levels<D: Device, A: Allocator + Clone>(
    levels: &Levels<A>,
    query: &Query<'_>,
    bytes: &mut BlockBytes<A>,
    cache: &mut Cache<A>,
    device: &mut D,
) -> Result<Option<EntrySpan>, Refusal>
    requires { AreWithin (D.medium device.old).size query.now.area (places levels.now) }
    ensures { LooksUp query.now.area query.now.key.now query.now.at (places levels.now)
        (spanned_in bytes.new result)
        (record { cache = cache.old; medium = D.medium device.old })
        (record { cache = cache.new; medium = D.medium device.new }) }
{
    if let Some(span) = find_in_runs(levels.runs(), query, bytes, cache, device)? {
        return Ok(Some(span));
    }
    Ok(find_in_runs(levels.deeper(), query, bytes, cache, device)?)
}

// The value of a version where it lies, none where there is no version or it deletes its key.
fn value_at(block: &[u8; 4_096], found: Option<EntrySpan>) -> Option<&[u8]>
    ensures { option_map (λ v. v.now) result
        ≡ value_of (option_map (λ s. spanned s block.now) found) }
{
    found?.entry(block).value
}

/// What the runs of the levels say of a key, the newer asked first, with the value copied.
pub(crate) fn copy_from_levels<D: Device, A: Allocator + Clone>(
    levels: &Levels<A>,
    query: &Query<'_>,
    alloc: &A,
    cache: &mut Cache<A>,
    device: &mut D,
) -> Result<Option<Vec<u8, A>>, Refusal>
    requires { AreWithin (D.medium device.old).size query.now.area (places levels.now) }
    ensures { CopiesOfRuns query.now.area query.now.key.now query.now.at (places levels.now)
        (answer_of result)
        (record { cache = cache.old; medium = D.medium device.old })
        (record { cache = cache.new; medium = D.medium device.new }) }
{
    let mut bytes = BlockBytes::new();
    let found = find_in_levels(levels, query, &mut bytes, cache, device)?;
    copied(alloc, value_at(bytes.as_array(), found))
}

/// Whether what the runs of the levels say of a key meets a guard, compared where it lies.
pub(crate) fn test_in_levels<D: Device, A: Allocator + Clone>(
    levels: &Levels<A>,
    query: &Query<'_>,
    guard: &Guard<A>,
    cache: &mut Cache<A>,
    device: &mut D,
) -> Result<bool, Refusal>
    requires { AreWithin (D.medium device.old).size query.now.area (places levels.now) }
    ensures { TestsRuns query.now.area query.now.key.now query.now.at (places levels.now) guard.now
        result
        (record { cache = cache.old; medium = D.medium device.old })
        (record { cache = cache.new; medium = D.medium device.new }) }
{
    let mut bytes = BlockBytes::new();
    let found = find_in_levels(levels, query, &mut bytes, cache, device)?;
    Ok(guard.is_met_by(value_at(bytes.as_array(), found)))
}
