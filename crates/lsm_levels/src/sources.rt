//! The sources of a scan.

ghost use Rattle.std.specs.Prelude.{◌≡◌, ◌⊎◌, ◌++◌, ◌∷◌, [], ℕ, List, Option, map, IfErr, OnOk, MatchResult};
ghost use Rattle.std.specs.List.{AllByRecursion};
ghost use Rattle.lsm_device.specs.declared.refusal.Refusal.TheVariants.{Io, BadTable, NoMemory};
ghost use Rattle.lsm_codec.specs.Versions.{Version};
ghost use Rattle.lsm_mem.specs.Gathering.{Gathering};
ghost use Rattle.lsm_mem.specs.Ranges.{from_key};
ghost use Rattle.lsm_cache.specs.declared.name.BlockName.{BlockName as Name};
ghost use Rattle.lsm_levels.specs.Tables.{IsRun, Table, versions_of};
ghost use Rattle.lsm_levels.specs.Stored.{AreWithin, AreStored, ArePlaced, LiesWithin, IsStored, IsPlaced};
ghost use Rattle.lsm_levels.specs.Cursors.{Shows, blocks_from_key, refusal_of};
ghost use Rattle.lsm_levels.specs.Pages.{GathersRuns, GoesOver};
ghost use Rattle.lsm_levels.specs.Scans.{AllGive, AreReady, AsksOn, blocks_of_runs, blocks_to_come};
ghost use Rattle.lsm_levels.specs.declared.placed.PlacedBlock.{PlacedBlock};

use crate::cursor::RunCursor;
use crate::run::Run;
use crate::source::SourceCursor;
use lsm_cache::Cache;
use lsm_device::{Device, Refusal};
use std::alloc::Allocator;

/// Adds to the sources a cursor over a run, at the first version whose key isn't below `from`.
fn seek_run<'a, D: Device, A: Allocator + Clone>(
    sources: &mut Vec<SourceCursor<'a, A>, A>,
    run: &'a Run<A>,
    alloc: &A,
    area: u32,
    from: &[u8],
    cache: &mut Cache<A>,
    device: &mut D,
) -> Result<(), Refusal>
    requires within { AllByRecursion (LiesWithin (D.medium device.old).size area) run.now }
    requires ready { AreReady (D.medium device.old).size sources.old.items }
    ensures gathers { (g : Gathering) (behind : List (List Table))
        → GoesOver (GathersRuns g area from.now (run.now ∷ behind) sources.old.items)
        (GathersRuns g area from.now behind sources.new.items) (refusal_of result)
        (record { cache = cache.old; medium = D.medium device.old })
        (record { cache = cache.new; medium = D.medium device.new }) }
    ensures asks { (behind : List (List PlacedBlock))
        → AsksOn (blocks_to_come sources.old.items ++ blocks_from_key area from.now run.now
        ∷ behind) (blocks_to_come sources.new.items ++ behind) (refusal_of result)
        (record { cache = cache.old; medium = D.medium device.old })
        (record { cache = cache.new; medium = D.medium device.new }) }
    ensures gives { (place : Name → Option ℕ) (sectors : List (List ℕ))
        (lefts : List (List Version)) → IsRun run.now
        → AllByRecursion (IsStored sectors area) run.now
        → AllByRecursion (IsPlaced place area) run.now
        → AllGive place sectors lefts sources.old.items
        → Shows place sectors (record { cache = cache.old; medium = D.medium device.old })
        → MatchResult result
        (λ _. AllGive place sectors (lefts ++ from_key from.now (versions_of run.now) ∷ [])
        sources.new.items × Shows place sectors
        (record { cache = cache.new; medium = D.medium device.new }))
        (λ refusal. (refusal ≡ Io) ⊎ (refusal ≡ NoMemory)) }
    ensures ready { OnOk result (AreReady (D.medium device.new).size sources.new.items) }
    ensures same_size { (D.medium device.new).size ≡ (D.medium device.old).size }
    ensures refused { IfErr result
        (λ refusal. (refusal ≡ Io) ⊎ ((refusal ≡ BadTable) ⊎ (refusal ≡ NoMemory))) }
{
    let alloc = alloc.clone()?;
    let cursor = RunCursor::seek(run, alloc, area, from, cache, device)?;
    sources.push(SourceCursor::of_run(cursor))?;
    Ok(())
}

/// Adds to the sources a cursor over each run.
pub(crate) fn seek_runs<'a, D: Device, A: Allocator + Clone>(
    sources: &mut Vec<SourceCursor<'a, A>, A>,
    runs: &'a [Run<A>],
    alloc: &A,
    area: u32,
    from: &[u8],
    cache: &mut Cache<A>,
    device: &mut D,
) -> Result<(), Refusal>
    requires within { AreWithin (D.medium device.old).size area runs.now }
    requires ready { AreReady (D.medium device.old).size sources.old.items }
    ensures gathers { (g : Gathering) (behind : List (List Table))
        → GoesOver (GathersRuns g area from.now (runs.now ++ behind) sources.old.items)
        (GathersRuns g area from.now behind sources.new.items) (refusal_of result)
        (record { cache = cache.old; medium = D.medium device.old })
        (record { cache = cache.new; medium = D.medium device.new }) }
    ensures asks { (behind : List (List PlacedBlock))
        → AsksOn (blocks_to_come sources.old.items
        ++ (blocks_of_runs area from.now runs.now ++ behind))
        (blocks_to_come sources.new.items ++ behind) (refusal_of result)
        (record { cache = cache.old; medium = D.medium device.old })
        (record { cache = cache.new; medium = D.medium device.new }) }
    ensures gives { (place : Name → Option ℕ) (sectors : List (List ℕ))
        (lefts : List (List Version)) → AllByRecursion IsRun runs.now
        → AreStored sectors area runs.now → ArePlaced place area runs.now
        → AllGive place sectors lefts sources.old.items
        → Shows place sectors (record { cache = cache.old; medium = D.medium device.old })
        → MatchResult result
        (λ _. AllGive place sectors
        (lefts ++ map (λ run. from_key from.now (versions_of run)) runs.now) sources.new.items
        × Shows place sectors (record { cache = cache.new; medium = D.medium device.new }))
        (λ refusal. (refusal ≡ Io) ⊎ (refusal ≡ NoMemory)) }
    ensures ready { OnOk result (AreReady (D.medium device.new).size sources.new.items) }
    ensures same_size { (D.medium device.new).size ≡ (D.medium device.old).size }
    ensures refused { IfErr result
        (λ refusal. (refusal ≡ Io) ⊎ ((refusal ≡ BadTable) ⊎ (refusal ≡ NoMemory))) }
{
    let Some((run, older)) = runs.split_first() else {
        return Ok(());
    };
    seek_run(sources, run, alloc, area, from, cache, device)?;
    seek_runs(sources, older, alloc, area, from, cache, device)?;
    Ok(())
}
