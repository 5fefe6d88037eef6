// What is read of a store's memory, and of its tables through its cache.
ghost use Rattle.std.specs.Prelude.{◌≡◌, ◌⊎◌, ◌≤◌, ◌+◌, ◌*◌, ℕ, true, is_some, length, option_map, Option, IfErr, MatchResult};
ghost use Rattle.std.specs.Arc.{arc_value};
ghost use Rattle.std.specs.FinMap as finite;
ghost use Rattle.lsm_cache.specs.declared.name.BlockName.{BlockName as Name};
ghost use Rattle.lsm_device.specs.Refusals.{faultless};
ghost use Rattle.lsm_device.specs.declared.refusal.Refusal.TheVariants.{Io, BadTable, NoMemory};
ghost use Rattle.lsm_levels.specs.Cursors.{refusal_of};
ghost use Rattle.lsm_levels.specs.Levels.{places};
ghost use Rattle.lsm_levels.specs.Lookups.{IsLookUp, IsTest, answer_of, sealed_now};
ghost use Rattle.lsm_levels.specs.Orders.{IsVersionOrder};
ghost use Rattle.lsm_levels.specs.Pages.{IsScan};
ghost use Rattle.lsm_levels.specs.Scans.{ScansRuns, blocks_in, blocks_of_runs};
ghost use Rattle.lsm_levels.specs.Stored.{AreWithin, IsReadable};
ghost use Rattle.lsm_mem.specs.Paging.{page_of};
ghost use Rattle.lsm_mem.specs.Versions.{map_of, sealed_versions};
ghost use Rattle.lsm_open.specs.Tables.{first_data};
ghost use Rattle.lsm_store.specs.Memory.{IsInside, work_of};
ghost use Rattle.lsm_store.specs.Guarding.{AsksGuards, AnswersGuards, MayEndGuards};
ghost use Rattle.lsm_codec.specs.Guards.{is_met};
ghost use Rattle.lsm_store.specs.Reading.{ReadsThrough};
ghost use Rattle.lsm_machine.specs.Work.{versions_by_place, versions_in};

use crate::Page;
use crate::memory::Memory;
use lsm_cache::Cache;
use lsm_codec::Guard;
use lsm_device::{Device, Refusal};
use lsm_levels::ReadView;
use std::alloc::Allocator;

// Memory, sealed memory and the tables.
fn view_of<A: Allocator>(memory: &Memory<A>) -> ReadView<'_, A>
    ensures memory { result.mem.now ≡ memory.now.mem }
    ensures sealed { sealed_now result.sealed
        ≡ sealed_versions (option_map arc_value memory.now.sealed) }
    ensures levels { result.levels.now ≡ memory.now.levels }
    ensures area { result.area ≡ first_data memory.now.regions.log_sectors }
{
    ReadView {
        mem: &memory.mem,
        sealed: memory.sealed.as_deref(),
        levels: &memory.levels,
        area: memory.regions.data_start(),
    }
}

/// The value of a key at a count of batches.
pub(crate) fn look_up<D: Device, A: Allocator + Clone>(
    memory: &Memory<A>,
    cache: &mut Cache<A>,
    device: &mut D,
    key: &[u8],
    count: u64,
) -> Result<Option<Vec<u8, A>>, Refusal>
    requires { IsInside (D.medium device.old).size memory.now }
    ensures answers { (place : Name → Option ℕ)
        → IsReadable place (first_data memory.now.regions.log_sectors) (places memory.now.levels)
        (record { cache = cache.old; medium = D.medium device.old })
        → IsVersionOrder (versions_by_place (work_of memory.now))
        → MatchResult result
        (λ value. option_map (λ v. v.items) value
        ≡ finite.get (map_of (versions_in (work_of memory.now)) count) key.now)
        (λ refusal. (refusal ≡ Io)
        ⊎ ((refusal ≡ NoMemory)
        × (is_some (finite.get (map_of (versions_in (work_of memory.now)) count) key.now)
        ≡ true))) }
    ensures looks { IsLookUp memory.now.mem (work_of memory.now).sealed (places memory.now.levels)
        (first_data memory.now.regions.log_sectors) key.now count (answer_of result)
        (record { cache = cache.old; medium = D.medium device.old })
        (record { cache = cache.new; medium = D.medium device.new }) }
    ensures reads { ReadsThrough 128 (first_data memory.now.regions.log_sectors) memory.now.levels
        (faultless result)
        (record { cache = cache.old; medium = D.medium device.old })
        (record { cache = cache.new; medium = D.medium device.new }) }
    ensures refused { IfErr result
        (λ refusal. (refusal ≡ Io) ⊎ ((refusal ≡ BadTable) ⊎ (refusal ≡ NoMemory))) }
{
    let view = view_of(memory);
    view.find(memory.allocator(), cache, device, key, count)
}

// Whether the map at a count of batches meets a guard.
fn ask_guard<D: Device, A: Allocator + Clone>(
    memory: &Memory<A>,
    cache: &mut Cache<A>,
    device: &mut D,
    guard: &Guard<A>,
    count: u64,
) -> Result<bool, Refusal>
    requires { IsInside (D.medium device.old).size memory.now }
    ensures tests { IsTest memory.now.mem (work_of memory.now).sealed (places memory.now.levels)
        (first_data memory.now.regions.log_sectors) guard.now count result
        (record { cache = cache.old; medium = D.medium device.old })
        (record { cache = cache.new; medium = D.medium device.new }) }
    ensures answers { (place : Name → Option ℕ)
        → IsReadable place (first_data memory.now.regions.log_sectors) (places memory.now.levels)
        (record { cache = cache.old; medium = D.medium device.old })
        → IsVersionOrder (versions_by_place (work_of memory.now))
        → MatchResult result
        (λ met. met ≡ is_met (map_of (versions_in (work_of memory.now)) count) guard.now)
        (λ refusal. refusal ≡ Io) }
    ensures reads { ReadsThrough 128 (first_data memory.now.regions.log_sectors) memory.now.levels
        (faultless result)
        (record { cache = cache.old; medium = D.medium device.old })
        (record { cache = cache.new; medium = D.medium device.new }) }
    ensures refused { IfErr result (λ refusal. (refusal ≡ Io) ⊎ (refusal ≡ BadTable)) }
{
    let view = view_of(memory);
    view.meets_guard(cache, device, guard, count)
}

/// Asks guards of the map at a count of batches, in their order, until one is false: that one's place is told, where the first one has
/// this place.
pub(crate) fn ask_guards<D: Device, A: Allocator + Clone>(
    memory: &Memory<A>,
    cache: &mut Cache<A>,
    device: &mut D,
    guards: &[Guard<A>],
    count: u64,
    first: u8,
) -> Result<(), Refusal>
    requires inside { IsInside (D.medium device.old).size memory.now }
    requires few { first + length guards.now ≤ 255 }
    ensures asks { AsksGuards memory.now.mem (work_of memory.now).sealed (places memory.now.levels)
        (first_data memory.now.regions.log_sectors) count first guards.now (refusal_of result)
        (record { cache = cache.old; medium = D.medium device.old })
        (record { cache = cache.new; medium = D.medium device.new }) }
    ensures answers { (place : Name → Option ℕ)
        → IsReadable place (first_data memory.now.regions.log_sectors) (places memory.now.levels)
        (record { cache = cache.old; medium = D.medium device.old })
        → IsVersionOrder (versions_by_place (work_of memory.now))
        → AnswersGuards first (map_of (versions_in (work_of memory.now)) count) guards.now result }
    ensures reads { ReadsThrough (128 * length guards.now)
        (first_data memory.now.regions.log_sectors) memory.now.levels (faultless result)
        (record { cache = cache.old; medium = D.medium device.old })
        (record { cache = cache.new; medium = D.medium device.new }) }
    ensures refused { IfErr result (MayEndGuards first (length guards.now)) }
{
    match guards {
        [] => Ok(()),
        [guard, rest @ ..] => {
            if !ask_guard(memory, cache, device, guard, count)? {
                return Err(Refusal::GuardFailed(first));
            }
            ask_guards(memory, cache, device, rest, count, first + 1)?;
            Ok(())
        }
    }
}

/// The first `limit` pairs from a key on at a count of batches, up to another key where one is given.
pub(crate) fn page<D: Device, A: Allocator + Clone>(
    memory: &Memory<A>,
    cache: &mut Cache<A>,
    device: &mut D,
    range: (&[u8], Option<&[u8]>),
    count: u64,
    limit: u64,
) -> Result<Page<A>, Refusal>
    requires { IsInside (D.medium device.old).size memory.now }
    ensures answers { (place : Name → Option ℕ)
        → IsReadable place (first_data memory.now.regions.log_sectors) (places memory.now.levels)
        (record { cache = cache.old; medium = D.medium device.old })
        → IsVersionOrder (versions_by_place (work_of memory.now))
        → MatchResult result
        (λ page. page ≡ page_of (map_of (versions_in (work_of memory.now)) count) range.entry.0.now
        (option_map (λ to. to.now) range.entry.1) limit)
        (λ refusal. (refusal ≡ Io) ⊎ (refusal ≡ NoMemory)) }
    ensures pages { IsScan memory.now.mem (work_of memory.now).sealed (places memory.now.levels)
        (first_data memory.now.regions.log_sectors) range.entry.0.now
        (option_map (λ to. to.now) range.entry.1) limit count result
        (record { cache = cache.old; medium = D.medium device.old })
        (record { cache = cache.new; medium = D.medium device.new }) }
    ensures scans { ScansRuns (first_data memory.now.regions.log_sectors) range.entry.0.now
        (places memory.now.levels) (refusal_of result)
        (record { cache = cache.old; medium = D.medium device.old })
        (record { cache = cache.new; medium = D.medium device.new }) }
    ensures reads { ReadsThrough
        (8 * blocks_in (blocks_of_runs (first_data memory.now.regions.log_sectors) range.entry.0.now
        (places memory.now.levels))) (first_data memory.now.regions.log_sectors)
        memory.now.levels (faultless result)
        (record { cache = cache.old; medium = D.medium device.old })
        (record { cache = cache.new; medium = D.medium device.new }) }
    ensures refused { IfErr result
        (λ refusal. (refusal ≡ Io) ⊎ ((refusal ≡ BadTable) ⊎ (refusal ≡ NoMemory))) }
{
    let view = view_of(memory);
    view.scan(memory.allocator(), cache, device, range, count, limit)
}
