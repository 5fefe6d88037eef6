//! What is read of a store.

ghost use Rattle.std.specs.Prelude.{◌≡◌, ◌⊎◌, ◌↔◌, ◌*◌, ℕ, true, is_some, [], length, map, Option, Some, None, Err, IsTrue, IfOk, IfErr, OnOk, MatchResult, option_map};
ghost use Rattle.std.specs.List.{AllByRecursion};
ghost use Rattle.std.specs.Option.{option_or};
ghost use Rattle.std.specs.FinMap as finite;
ghost use Rattle.lsm_device.specs.declared.refusal.Refusal.TheVariants.{Io, BadTable, NoMemory};
ghost use Rattle.lsm_device.specs.Calls.{AtMost, faults_after};
ghost use Rattle.lsm_device.specs.Disk.{seen};
ghost use Rattle.lsm_device.specs.Medium.{disk};
ghost use Rattle.lsm_device.specs.Refusals.{faultless};
ghost use Rattle.lsm_codec.specs.Guards.{is_met};
ghost use Rattle.lsm_codec.specs.References.{shown};
ghost use Rattle.lsm_codec.specs.Versions.{AreOrdered, newest};
ghost use Rattle.lsm_mem.specs.Versions.{map_of};
ghost use Rattle.lsm_mem.specs.Ranges.{from_key, newest_each};
ghost use Rattle.lsm_mem.specs.Paging.{page_of};
ghost use Rattle.lsm_mem.specs.Gathering.{Gathering, gathering};
ghost use Rattle.lsm_codec.specs.Keys.{Bytes};
ghost use Rattle.lsm_mem.specs.Versions.{joined};
ghost use Rattle.lsm_cache.specs.declared.name.BlockName.{BlockName as Name};
ghost use Rattle.lsm_cache.specs.Fresh.{IsFresh, IsNumberedBelow};
ghost use Rattle.lsm_levels.specs.Levels.{places};
ghost use Rattle.lsm_levels.specs.Orders.{IsVersionOrder};
ghost use Rattle.lsm_levels.specs.Stored.{AreWithin, AreNumberedBelow, ArePlaced, IsReadable};
ghost use Rattle.lsm_levels.specs.Cursors.{refusal_of};
ghost use Rattle.lsm_levels.specs.Pages.{EndsWith, Gathers, GathersRuns, GoesOver, IsScan, cursors_of};
ghost use Rattle.lsm_levels.specs.Scans.{AreReady, AsksOn, AsksSome, ComesTo, HasCome, ScansRuns, blocks_of_runs, blocks_to_come, memory_places};
ghost use Rattle.lsm_levels.specs.SourceCursors.{cursor_of_versions};
ghost use Rattle.lsm_levels.specs.Lookups.{IsLookUp, IsTest, answer_of, sealed_now, versions_in_places};

use crate::asking::Query;
use crate::found::copied;
use crate::levels::Levels;
use crate::lookup::{copy_from_levels, test_in_levels};
use crate::scan::gather_all;
use crate::source::SourceCursor;
use crate::sources::seek_runs;
use crate::within::are_within;
use lsm_cache::Cache;
use lsm_codec::{Guard, VersionRef};
use lsm_device::{Device, Refusal};
use lsm_filter::KeyHash;
use lsm_mem::{Mem, Page, PageBuilder, Sealed};
use std::alloc::{AllocError, Allocator, Global};

/// What is read of a store: its memory, its sealed memory where there is one, and its levels, each newer than the next. The
/// blocks of tables, eight sectors each, are counted from the sector `area` on.
#[derive(Drop)]
pub struct ReadView<'a, A: Allocator = Global> {
    pub mem: &'a Mem<A>,
    pub sealed: Option<&'a Sealed<A>>,
    pub levels: &'a Levels<A>,
    pub area: u32,
}

impl<'a, A: Allocator> ReadView<'a, A> {
    /// Whether the data blocks of each table lie within the first `sectors` sectors.
    pub fn is_within(&self, sectors: u32) -> bool
        ensures { IsTrue result ↔ AreWithin sectors self.now.area (places self.now.levels.now) }
    {
        are_within(self.levels.runs(), sectors, self.area)
            && are_within(self.levels.deeper(), sectors, self.area)
    }

    /// The newest version of the key in memory, or else in sealed memory, that is numbered at most `at`.
    fn newest_in_memory(&self, key: &[u8], at: u64) -> Option<VersionRef<'_>>
        ensures { option_map shown result
            ≡ option_or (newest key.now at self.now.mem.now)
            (newest key.now at (sealed_now self.now.sealed)) }
    {
        if let Some(version) = self.mem.get(key, at) {
            return Some(version);
        }
        self.sealed?.get(key, at)
    }
}

impl<'a, A: Allocator + Clone> ReadView<'a, A> {
    /// What memory, sealed memory and the runs of the levels say of a key, each asked where the newer ones have no version.
    fn look_up<D: Device>(
        &self,
        alloc: &A,
        cache: &mut Cache<A>,
        device: &mut D,
        key: &[u8],
        at: u64,
    ) -> Result<Option<Vec<u8, A>>, Refusal>
        requires { AreWithin (D.medium device.old).size self.now.area (places self.now.levels.now) }
        ensures { IsLookUp self.now.mem.now (sealed_now self.now.sealed)
            (places self.now.levels.now) self.now.area key.now at (answer_of result)
            (record { cache = cache.old; medium = D.medium device.old })
            (record { cache = cache.new; medium = D.medium device.new }) }
    {
        if let Some(version) = self.newest_in_memory(key, at) {
            return copied(alloc, version.value);
        }
        let query = Query {
            area: self.area,
            key,
            hash: KeyHash::of(key),
            at,
        };
        copy_from_levels(self.levels, &query, alloc, cache, device)
    }

    /// Whether what memory, sealed memory and the runs of the levels say of a guard's key meets it.
    fn tested<D: Device>(
        &self,
        cache: &mut Cache<A>,
        device: &mut D,
        guard: &Guard<A>,
        at: u64,
    ) -> Result<bool, Refusal>
        requires { AreWithin (D.medium device.old).size self.now.area (places self.now.levels.now) }
        ensures { IsTest self.now.mem.now (sealed_now self.now.sealed) (places self.now.levels.now)
            self.now.area guard.now at result
            (record { cache = cache.old; medium = D.medium device.old })
            (record { cache = cache.new; medium = D.medium device.new }) }
    {
        let key = guard.key();
        if let Some(version) = self.newest_in_memory(key, at) {
            return Ok(guard.is_met_by(version.value));
        }
        let query = Query {
            area: self.area,
            key,
            hash: KeyHash::of(key),
            at,
        };
        test_in_levels(self.levels, &query, guard, cache, device)
    }

    /// The value of a key at a count of batches, `None` where it has none. Memory is asked first, then sealed memory, then the
    /// runs of the levels, the newer first, until one has a version of the key that is numbered at most `at`. Of each run at
    /// most one block is asked for: that of the one table whose range has the key, where filter and index don't tell that it
    /// has no such version. The value is copied once, for the caller.
    ///
    /// Fails with `Io` for a read that faulted, its last; with `BadTable` where bytes of a block are no entry; and with
    /// `NoMemory` for the copy.
    pub fn find<D: Device>(
        &self,
        alloc: &A,
        cache: &mut Cache<A>,
        device: &mut D,
        key: &[u8],
        at: u64,
    ) -> Result<Option<Vec<u8, A>>, Refusal>
        requires { AreWithin (D.medium device.old).size self.now.area (places self.now.levels.now) }

        // Which blocks are asked for, how they are given, and what they say.
        ensures looks { IsLookUp self.now.mem.now (sealed_now self.now.sealed)
            (places self.now.levels.now) self.now.area key.now at (answer_of result)
            (record { cache = cache.old; medium = D.medium device.old })
            (record { cache = cache.new; medium = D.medium device.new }) }

        // Where the tables stand, and the blocks of the cache are those of the device, the answer is that of the map, unless a
        // read faults, or the key has a value and memory for its copy is refused.
        ensures answers { (place : Name → Option ℕ)
            → IsReadable place self.now.area (places self.now.levels.now)
            (record { cache = cache.old; medium = D.medium device.old })
            → IsVersionOrder
            (versions_in_places self.now.mem.now (sealed_now self.now.sealed)
            (places self.now.levels.now))
            → MatchResult result (λ value. option_map (λ v. v.items) value
            ≡ finite.get (map_of
            (joined (versions_in_places self.now.mem.now (sealed_now self.now.sealed)
            (places self.now.levels.now))) at) key.now)
            (λ refusal. (refusal ≡ Io) ⊎ ((refusal ≡ NoMemory)
            × (is_some (finite.get
            (map_of (joined (versions_in_places self.now.mem.now
            (sealed_now self.now.sealed) (places self.now.levels.now)))
            at) key.now) ≡ true))) }

        // The blocks of the cache go on to be those of the device, of tables with numbers below any that all have been below.
        ensures fresh { (place : Name → Option ℕ) → IsTrue (D.medium device.old).lasting.tells
            → ArePlaced place self.now.area (places self.now.levels.now)
            → IsFresh place (seen (disk (D.medium device.old))) cache.old
            → IsFresh place (seen (disk (D.medium device.new))) cache.new }
        ensures numbered { (number : ℕ) → AreNumberedBelow number (places self.now.levels.now)
            → IsNumberedBelow number cache.old → IsNumberedBelow number cache.new }

        // The device is only read, eight sectors a run at most. Fails with Io only for a read that faulted, its last.
        ensures refused { IfErr result
            (λ refusal. (refusal ≡ Io) ⊎ ((refusal ≡ BadTable) ⊎ (refusal ≡ NoMemory))) }
        ensures faults { (D.medium device.new).calls.faults
            ≡ faults_after (faultless result) (D.medium device.old).calls.faults }
        ensures stops { IfErr result
            (λ refusal. refusal ≡ Io → IsTrue (D.medium device.new).calls.last_faulted) }
        ensures calls { AtMost (8 * length (places self.now.levels.now)) 0 0
            (D.medium device.old).calls (D.medium device.new).calls }
        ensures unchanged { IsTrue (D.medium device.old).lasting.tells
            → (D.medium device.new).history ≡ (D.medium device.old).history }
        ensures same_size { (D.medium device.new).size ≡ (D.medium device.old).size }
        ensures same_lasting { (D.medium device.new).lasting ≡ (D.medium device.old).lasting }
    {
        let _runs = self.levels.runs();
        let answer = self.look_up(alloc, cache, device, key, at);
        answer
    }

    /// Whether the map at a count of batches meets a guard. Its key is looked up as [`ReadView::find`] looks keys up, and what is
    /// found is compared where it lies: no memory is taken.
    ///
    /// Fails with `Io` for a read that faulted, its last; and with `BadTable` where bytes of a block are no entry.
    pub fn meets_guard<D: Device>(
        &self,
        cache: &mut Cache<A>,
        device: &mut D,
        guard: &Guard<A>,
        at: u64,
    ) -> Result<bool, Refusal>
        requires { AreWithin (D.medium device.old).size self.now.area (places self.now.levels.now) }

        // Which blocks are asked for, how they are given, and what they say.
        ensures tests { IsTest self.now.mem.now (sealed_now self.now.sealed)
            (places self.now.levels.now) self.now.area guard.now at result
            (record { cache = cache.old; medium = D.medium device.old })
            (record { cache = cache.new; medium = D.medium device.new }) }

        // Where the tables stand, and the blocks of the cache are those of the device, the answer is that of the map, unless a
        // read faults.
        ensures answers { (place : Name → Option ℕ)
            → IsReadable place self.now.area (places self.now.levels.now)
            (record { cache = cache.old; medium = D.medium device.old })
            → IsVersionOrder
            (versions_in_places self.now.mem.now (sealed_now self.now.sealed)
            (places self.now.levels.now))
            → MatchResult result
            (λ met. met ≡ is_met
            (map_of (joined (versions_in_places self.now.mem.now (sealed_now self.now.sealed)
            (places self.now.levels.now))) at) guard.now)
            (λ refusal. refusal ≡ Io) }

        // Cache and device are used as for a look-up.
        ensures fresh { (place : Name → Option ℕ) → IsTrue (D.medium device.old).lasting.tells
            → ArePlaced place self.now.area (places self.now.levels.now)
            → IsFresh place (seen (disk (D.medium device.old))) cache.old
            → IsFresh place (seen (disk (D.medium device.new))) cache.new }
        ensures numbered { (number : ℕ) → AreNumberedBelow number (places self.now.levels.now)
            → IsNumberedBelow number cache.old → IsNumberedBelow number cache.new }
        ensures refused { IfErr result (λ refusal. (refusal ≡ Io) ⊎ (refusal ≡ BadTable)) }
        ensures faults { (D.medium device.new).calls.faults
            ≡ faults_after (faultless result) (D.medium device.old).calls.faults }
        ensures stops { IfErr result
            (λ refusal. refusal ≡ Io → IsTrue (D.medium device.new).calls.last_faulted) }
        ensures calls { AtMost (8 * length (places self.now.levels.now)) 0 0
            (D.medium device.old).calls (D.medium device.new).calls }
        ensures unchanged { IsTrue (D.medium device.old).lasting.tells
            → (D.medium device.new).history ≡ (D.medium device.old).history }
        ensures same_size { (D.medium device.new).size ≡ (D.medium device.old).size }
        ensures same_lasting { (D.medium device.new).lasting ≡ (D.medium device.old).lasting }
    {
        let _runs = self.levels.runs();
        let answer = self.tested(cache, device, guard, at);
        answer
    }

    /// Puts the sources of memory and of sealed memory in front of others.
    fn memory_sources(
        &self,
        sources: &mut Vec<SourceCursor<'a, A>, A>,
        from: &[u8],
        at: u64,
    ) -> Result<(), AllocError>
        requires { sources.old.items ≡ [] }
        ensures left { OnOk result
            (sources.new.items
            ≡ map (λ place. cursor_of_versions (from_key from.now (newest_each at place)))
            (memory_places self.now.mem.now self.now.sealed)) }
        ensures ordered { OnOk result
            (AllByRecursion AreOrdered (memory_places self.now.mem.now self.now.sealed)) }
    {
        let _versions = self.mem.versions();
        sources.push(SourceCursor::of_range(self.mem.range(from, at)?))?;
        if let Some(sealed) = self.sealed {
            let _versions = sealed.versions();
            sources.push(SourceCursor::of_range(sealed.range(from, at)?))?;
        }
        Ok(())
    }

    /// The sources of memory and of sealed memory, with room for those of the runs.
    fn memory(
        &self,
        alloc: &A,
        from: &[u8],
        at: u64,
    ) -> Result<Vec<SourceCursor<'a, A>, A>, AllocError>
        ensures left { IfOk result
            (λ sources. sources.items
            ≡ map (λ place. cursor_of_versions (from_key from.now (newest_each at place)))
            (memory_places self.now.mem.now self.now.sealed)) }
        ensures ordered { IfOk result
            (λ sources. AllByRecursion AreOrdered
            (memory_places self.now.mem.now self.now.sealed)) }
    {
        let count = self.levels.runs().len().saturating_add(6);
        let mut sources = Vec::with_capacity(alloc.clone()?, count)?;
        self.memory_sources(&mut sources, from, at)?;
        Ok(sources)
    }

    /// The sources of a scan, the newer first: memory, sealed memory, and each run.
    fn sources<D: Device>(
        &self,
        alloc: &A,
        cache: &mut Cache<A>,
        device: &mut D,
        from: &[u8],
        at: u64,
    ) -> Result<Vec<SourceCursor<'a, A>, A>, Refusal>
        requires { AreWithin (D.medium device.old).size self.now.area (places self.now.levels.now) }
        ensures gathers { (g : Gathering) → MatchResult result
            (λ sources. GoesOver
            (GathersRuns g self.now.area from.now (places self.now.levels.now)
            (cursors_of from.now at (memory_places self.now.mem.now self.now.sealed)))
            (Gathers g sources.items) None
            (record { cache = cache.old; medium = D.medium device.old })
            (record { cache = cache.new; medium = D.medium device.new }))
            (λ refusal. GathersRuns g self.now.area from.now (places self.now.levels.now)
            (cursors_of from.now at (memory_places self.now.mem.now self.now.sealed))
            (Err refusal)
            (record { cache = cache.old; medium = D.medium device.old })
            (record { cache = cache.new; medium = D.medium device.new })) }
        ensures asks { MatchResult result
            (λ sources. AsksOn (blocks_of_runs self.now.area from.now (places self.now.levels.now))
            (blocks_to_come sources.items) None
            (record { cache = cache.old; medium = D.medium device.old })
            (record { cache = cache.new; medium = D.medium device.new }))
            (λ refusal. AsksSome
            (blocks_of_runs self.now.area from.now (places self.now.levels.now)) (Some refusal)
            (record { cache = cache.old; medium = D.medium device.old })
            (record { cache = cache.new; medium = D.medium device.new })) }
        ensures comes { (place : Name → Option ℕ)
            → IsReadable place self.now.area (places self.now.levels.now)
            (record { cache = cache.old; medium = D.medium device.old })
            → IsVersionOrder
            (versions_in_places self.now.mem.now (sealed_now self.now.sealed)
            (places self.now.levels.now))
            → MatchResult result (λ sources. (to : Option Bytes) (limit : ℕ)
            → ComesTo place (seen (disk (D.medium device.old)))
            (page_of (map_of
            (joined (versions_in_places self.now.mem.now (sealed_now self.now.sealed)
            (places self.now.levels.now))) at) from.now to limit)
            (gathering at to limit) sources.items
            (record { cache = cache.new; medium = D.medium device.new }))
            (λ refusal. (refusal ≡ Io) ⊎ (refusal ≡ NoMemory)) }
        ensures ready { IfOk result (λ sources. AreReady (D.medium device.new).size sources.items) }
        ensures refused { IfErr result
            (λ refusal. (refusal ≡ Io) ⊎ ((refusal ≡ BadTable) ⊎ (refusal ≡ NoMemory))) }
    {
        let runs = self.levels.runs();
        let mut sources = self.memory(alloc, from, at)?;
        seek_runs(&mut sources, runs, alloc, self.area, from, cache, device)?;
        let older = self.levels.deeper();
        seek_runs(&mut sources, older, alloc, self.area, from, cache, device)?;
        Ok(sources)
    }

    /// Fills a page from the sources of a scan.
    fn fill<D: Device>(
        &self,
        builder: &mut PageBuilder<'_, A>,
        alloc: &A,
        cache: &mut Cache<A>,
        device: &mut D,
        from: &[u8],
        at: u64,
    ) -> Result<(), Refusal>
        requires within { AreWithin (D.medium device.old).size self.now.area
            (places self.now.levels.now) }
        requires going { builder.old.next ≡ None }
        ensures gathers { EndsWith
            (GathersRuns builder.old self.now.area from.now (places self.now.levels.now)
            (cursors_of from.now at (memory_places self.now.mem.now self.now.sealed)))
            (refusal_of result) builder.new
            (record { cache = cache.old; medium = D.medium device.old })
            (record { cache = cache.new; medium = D.medium device.new }) }
        ensures asks { AsksSome (blocks_of_runs self.now.area from.now (places self.now.levels.now))
            (refusal_of result)
            (record { cache = cache.old; medium = D.medium device.old })
            (record { cache = cache.new; medium = D.medium device.new }) }
        ensures comes { (place : Name → Option ℕ) (to : Option Bytes) (limit : ℕ)
            → IsReadable place self.now.area (places self.now.levels.now)
            (record { cache = cache.old; medium = D.medium device.old })
            → IsVersionOrder
            (versions_in_places self.now.mem.now (sealed_now self.now.sealed)
            (places self.now.levels.now)) → builder.old ≡ gathering at to limit
            → MatchResult result
            (λ _. HasCome (page_of
            (map_of (joined (versions_in_places self.now.mem.now
            (sealed_now self.now.sealed) (places self.now.levels.now))) at)
            from.now to limit) builder.new)
            (λ refusal. (refusal ≡ Io) ⊎ (refusal ≡ NoMemory)) }
        ensures refused { IfErr result
            (λ refusal. (refusal ≡ Io) ⊎ ((refusal ≡ BadTable) ⊎ (refusal ≡ NoMemory))) }
    {
        let mut sources = self.sources(alloc, cache, device, from, at)?;
        gather_all(&mut sources, builder, alloc, cache, device)?;
        Ok(())
    }

    /// The first `limit` pairs of the map at a count of batches from the key `from` on, up to the key `to` where one is given,
    /// and the key of the next. Memory, sealed memory and the runs of the levels are read together in the order of keys, each
    /// from `from` on. Blocks of a run are asked for in turn, each once at most, from the first on that doesn't end before
    /// `from`. Only the pairs are copied. The time for a version grows with the logarithm of the runs.
    ///
    /// Fails with `Io` for a read that faulted, its last; with `BadTable` where bytes of a block are no entry; and with
    /// `NoMemory`.
    pub fn scan<D: Device>(
        &self,
        alloc: &A,
        cache: &mut Cache<A>,
        device: &mut D,
        range: (&[u8], Option<&[u8]>),
        at: u64,
        limit: u64,
    ) -> Result<Page<A>, Refusal>
        requires { AreWithin (D.medium device.old).size self.now.area (places self.now.levels.now) }

        // Which blocks are asked for, and what it comes to: reads alone, eight sectors a block at most.
        ensures asks { ScansRuns self.now.area range.entry.0.now (places self.now.levels.now)
            (refusal_of result)
            (record { cache = cache.old; medium = D.medium device.old })
            (record { cache = cache.new; medium = D.medium device.new }) }

        // The page of what the blocks that it asks for have, whatever that is; it fails with `BadTable` just where bytes that
        // are no entry come next in one.
        ensures scans { IsScan self.now.mem.now (sealed_now self.now.sealed)
            (places self.now.levels.now) self.now.area range.entry.0.now
            (option_map (λ to. to.now) range.entry.1) limit at result
            (record { cache = cache.old; medium = D.medium device.old })
            (record { cache = cache.new; medium = D.medium device.new }) }

        // Where the tables stand, and the blocks of the cache are those of the device, the page is that of the map, unless a
        // read faults or memory is refused.
        ensures answers { (place : Name → Option ℕ)
            → IsReadable place self.now.area (places self.now.levels.now)
            (record { cache = cache.old; medium = D.medium device.old })
            → IsVersionOrder
            (versions_in_places self.now.mem.now (sealed_now self.now.sealed)
            (places self.now.levels.now))
            → MatchResult result (λ page. page
            ≡ page_of (map_of
            (joined (versions_in_places self.now.mem.now (sealed_now self.now.sealed)
            (places self.now.levels.now))) at) range.entry.0.now
            (option_map (λ to. to.now) range.entry.1) limit)
            (λ refusal. (refusal ≡ Io) ⊎ (refusal ≡ NoMemory)) }
        ensures refused { IfErr result
            (λ refusal. (refusal ≡ Io) ⊎ ((refusal ≡ BadTable) ⊎ (refusal ≡ NoMemory))) }
    {
        let (from, to) = range;
        let mut builder = PageBuilder::new(alloc, to, at, limit)?;
        self.fill(&mut builder, alloc, cache, device, from, at)?;
        Ok(builder.into_page())
    }
}
