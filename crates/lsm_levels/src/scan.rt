//! Pages of what many sources have, in the order of keys.

ghost use Rattle.std.specs.Prelude.{◌≡◌, ◌⊎◌, ◌<◌, ◌+◌, ℕ, List, Option, Some, None, Err, true, length, map, IfOk, IfErr, MatchResult};
ghost use Rattle.lsm_device.specs.declared.refusal.Refusal.TheVariants.{Io, BadTable, NoMemory};
ghost use Rattle.lsm_codec.specs.Versions.{Version};
ghost use Rattle.lsm_mem.specs.Paging.{Page as MapPage};
ghost use Rattle.lsm_cache.specs.declared.name.BlockName.{BlockName as Name};
ghost use Rattle.lsm_levels.specs.Cursors.{present, refusal_of};
ghost use Rattle.lsm_levels.specs.Sources.{head_at};
ghost use Rattle.lsm_levels.specs.Pages.{EndsWith, Gathers, GoesOrEnds};
ghost use Rattle.lsm_levels.specs.Scans.{Advances, AreEndingWithin, AreReady, AsksOn, AsksSome, CanGoOn, ComesTo, Goes, HasCome, Takes, blocks_to_come, steps_left};

use crate::queue::{Queue, current_at};
use crate::source::SourceCursor;
use lsm_cache::Cache;
use lsm_device::{Device, Refusal};
use lsm_mem::PageBuilder;
use std::alloc::{AllocError, Allocator};

/// Takes the version at which the source at a place stands, and answers whether the page goes on.
fn take_at<A: Allocator + Clone>(
    sources: &[SourceCursor<'_, A>],
    place: usize,
    builder: &mut PageBuilder<'_, A>,
    alloc: &A,
) -> Result<bool, AllocError>
    requires { builder.old.next ≡ None }
    ensures { (v : Version) → head_at (map present sources.now) place ≡ Some v
        → IfOk result (λ goes_on. Takes v builder.old builder.new goes_on) }
{
    let Some(version) = current_at(sources, place) else {
        return Ok(false);
    };
    let goes_on = builder.take(alloc, version)?;
    Ok(goes_on)
}

/// The source at a place goes on to its next version.
fn advance_at<D: Device, A: Allocator + Clone>(
    sources: &mut [SourceCursor<'_, A>],
    place: usize,
    cache: &mut Cache<A>,
    device: &mut D,
) -> Result<(), Refusal>
    requires inside { place < length sources.old }
    requires within { AreEndingWithin (D.medium device.old).size sources.old }
    ensures advances { Advances place sources.old sources.new (refusal_of result)
        (record { cache = cache.old; medium = D.medium device.old })
        (record { cache = cache.new; medium = D.medium device.new }) }
    ensures within { AreEndingWithin (D.medium device.new).size sources.new }
    ensures same_size { (D.medium device.new).size ≡ (D.medium device.old).size }
{
    sources[place].advance(cache, device)?;
    Ok(())
}

/// Takes the next version, and goes on to the one after it. Returns whether the page goes on.
fn step<D: Device, A: Allocator + Clone>(
    sources: &mut [SourceCursor<'_, A>],
    queue: &mut Queue<A>,
    builder: &mut PageBuilder<'_, A>,
    alloc: &A,
    cache: &mut Cache<A>,
    device: &mut D,
) -> Result<bool, Refusal>
    requires { CanGoOn (D.medium device.old).size builder.old sources.old queue.old }
    ensures gathers { MatchResult result
        (λ goes_on. GoesOrEnds (Gathers builder.old sources.old) (Gathers builder.new sources.new)
        builder.new goes_on (record { cache = cache.old; medium = D.medium device.old })
        (record { cache = cache.new; medium = D.medium device.new }))
        (λ refusal. Gathers builder.old sources.old (Err refusal)
        (record { cache = cache.old; medium = D.medium device.old })
        (record { cache = cache.new; medium = D.medium device.new })) }
    ensures asks { AsksOn (blocks_to_come sources.old) (blocks_to_come sources.new)
        (refusal_of result)
        (record { cache = cache.old; medium = D.medium device.old })
        (record { cache = cache.new; medium = D.medium device.new }) }
    ensures comes { (place : Name → Option ℕ) (sectors : List (List ℕ)) (page : MapPage)
        → ComesTo place sectors page builder.old sources.old
        (record { cache = cache.old; medium = D.medium device.old })
        → MatchResult result
        (λ goes_on. Goes place sectors page builder.new sources.new
        (record { cache = cache.new; medium = D.medium device.new }) goes_on)
        (λ refusal. (refusal ≡ Io) ⊎ (refusal ≡ NoMemory)) }
    ensures keeps { IfOk result
        (λ goes_on. goes_on ≡ true
        → CanGoOn (D.medium device.new).size builder.new sources.new queue.new) }
    ensures fewer { IfOk result
        (λ goes_on. goes_on ≡ true → steps_left sources.new < steps_left sources.old) }
    ensures refused { IfErr result
        (λ refusal. (refusal ≡ Io) ⊎ ((refusal ≡ BadTable) ⊎ (refusal ≡ NoMemory))) }
{
    let Some(place) = queue.next() else {
        return Ok(false);
    };
    let goes_on = take_at(sources, place, builder, alloc)?;
    if !goes_on {
        return Ok(false);
    }
    advance_at(sources, place, cache, device)?;
    queue.settle(sources);
    Ok(true)
}

/// Takes versions until the page has come.
pub(crate) fn gather<D: Device, A: Allocator + Clone>(
    sources: &mut [SourceCursor<'_, A>],
    queue: &mut Queue<A>,
    builder: &mut PageBuilder<'_, A>,
    alloc: &A,
    cache: &mut Cache<A>,
    device: &mut D,
) -> Result<(), Refusal>
    requires { CanGoOn (D.medium device.old).size builder.old sources.old queue.old }
    ensures gathers { EndsWith (Gathers builder.old sources.old) (refusal_of result) builder.new
        (record { cache = cache.old; medium = D.medium device.old })
        (record { cache = cache.new; medium = D.medium device.new }) }
    ensures asks { AsksSome (blocks_to_come sources.old) (refusal_of result)
        (record { cache = cache.old; medium = D.medium device.old })
        (record { cache = cache.new; medium = D.medium device.new }) }
    ensures comes { (place : Name → Option ℕ) (sectors : List (List ℕ)) (page : MapPage)
        → ComesTo place sectors page builder.old sources.old
        (record { cache = cache.old; medium = D.medium device.old })
        → MatchResult result (λ _. HasCome page builder.new)
        (λ refusal. (refusal ≡ Io) ⊎ (refusal ≡ NoMemory)) }
    ensures refused { IfErr result
        (λ refusal. (refusal ≡ Io) ⊎ ((refusal ≡ BadTable) ⊎ (refusal ≡ NoMemory))) }
{
    'versions: loop {
        let goes_on = step(sources, queue, builder, alloc, cache, device)?;
        if !goes_on {
            return Ok(());
        }
    }
}

/// Takes versions of sources until the page has come. It takes memory for their queue.
pub(crate) fn gather_all<D: Device, A: Allocator + Clone>(
    sources: &mut [SourceCursor<'_, A>],
    builder: &mut PageBuilder<'_, A>,
    alloc: &A,
    cache: &mut Cache<A>,
    device: &mut D,
) -> Result<(), Refusal>
    requires going { builder.old.next ≡ None }
    requires ready { AreReady (D.medium device.old).size sources.old }
    ensures gathers { EndsWith (Gathers builder.old sources.old) (refusal_of result) builder.new
        (record { cache = cache.old; medium = D.medium device.old })
        (record { cache = cache.new; medium = D.medium device.new }) }
    ensures asks { AsksSome (blocks_to_come sources.old) (refusal_of result)
        (record { cache = cache.old; medium = D.medium device.old })
        (record { cache = cache.new; medium = D.medium device.new }) }
    ensures comes { (place : Name → Option ℕ) (sectors : List (List ℕ)) (page : MapPage)
        → ComesTo place sectors page builder.old sources.old
        (record { cache = cache.old; medium = D.medium device.old })
        → MatchResult result (λ _. HasCome page builder.new)
        (λ refusal. (refusal ≡ Io) ⊎ (refusal ≡ NoMemory)) }
    ensures refused { IfErr result
        (λ refusal. (refusal ≡ Io) ⊎ ((refusal ≡ BadTable) ⊎ (refusal ≡ NoMemory))) }
{
    let mut queue = Queue::of(alloc.clone()?, sources)?;
    gather(sources, &mut queue, builder, alloc, cache, device)?;
    Ok(())
}
