//! How many blocks the outputs of a merge take at most.

ghost use Rattle.std.specs.Prelude.{◌≡◌, ◌≤◌, ◌<◌, ◌⊎◌, ◌+◌, ◌-◌, ◌*◌, ◌/◌, ◌&&◌, [], length, not, false, if◌then◌else◌};
ghost use Rattle.std.specs.Int.{div_ceil};
ghost use Prim.Native.Nat.{min};
ghost use Rattle.lsm_levels.specs.Levels.{all_tables};
ghost use Rattle.lsm_levels.specs.Tables.{IsRun};
ghost use Rattle.lsm_levels.specs.Held.{IsHeld};
ghost use Rattle.lsm_levels.specs.Pick.{is_bottom, is_flush};
ghost use Rattle.lsm_levels.specs.Picks.{job_of};
ghost use Rattle.lsm_policy.specs.Room.{blocks_of as blocks_in};
ghost use Rattle.lsm_room.specs.Flushes.{FlushTakes};
ghost use Rattle.lsm_room.specs.Outputs.{MakesAtMost};
ghost use Rattle.lsm_room.specs.Measuring.{AreBeside, AreEnough, AreEnoughFor, AreEnoughOver, AreMerged, AreRaised, HoldImages, IsRaised, most_images, no_sizes};

use lsm_levels::{Levels, Pick, PlacedTable, Run};
use lsm_mem::MemSize;
use std::alloc::Allocator;

/// The data blocks that a table has at most.
const MOST_DATA: u64 = 64;

/// The entries that a table has at most.
const MOST_ENTRIES: u64 = 3_200;

/// The bytes that the index of a table has at most for each data block.
pub(crate) const INDEX_BYTES: u64 = 264;

/// The bytes of a block.
pub(crate) const BLOCK: u64 = 4_096;

/// An entry of more bytes may leave half of a block free.
const HALF: u64 = 2_047;

/// Blocks that images take at most.
#[derive(Clone, Copy, Debug)]
pub struct Outputs {
    /// Those of all of them.
    pub blocks: u64,
    /// Those of the largest.
    pub largest: u64,
    /// How many images there are.
    pub tables: u64,
}

impl Outputs {
    /// Those of no image.
    pub(crate) fn none() -> Outputs
        ensures { result.blocks ≡ 0 }
    {
        Outputs {
            blocks: 0,
            largest: 0,
            tables: 0,
        }
    }

    /// These and others together.
    pub(crate) fn beside(self, others: Outputs) -> Outputs
        ensures { result.blocks < 4294967296 → AreBeside self others result }
    {
        Outputs {
            blocks: self.blocks.saturating_add(others.blocks),
            largest: self.largest.max(others.largest),
            tables: self.tables.saturating_add(others.tables),
        }
    }
}

/// How large tables are together.
#[derive(Clone, Copy)]
pub(crate) struct Sizes {
    pub entries: u64,
    pub deletes: u64,
    pub data: u64,
    /// As many of its entries as may be large: at most one in each block.
    pub large: u64,
    /// The bytes of the largest entry.
    pub largest: u64,
}

impl Sizes {
    pub fn none() -> Sizes
        ensures entries { result.entries ≡ 0 }
        ensures space { result.«data» ≡ 0 }
        ensures sizes { result ≡ no_sizes }
    {
        Sizes {
            entries: 0,
            deletes: 0,
            data: 0,
            large: 0,
            largest: 0,
        }
    }

    /// How many entries come into an output at most, where it `drops` deletes.
    fn kept(self, drops: bool) -> u64
        ensures { result ≡ (if drops then self.entries - self.deletes else self.entries) }
    {
        if drops {
            return self.entries.saturating_sub(self.deletes);
        }
        self.entries
    }

    /// These and a table.
    pub fn with<A: Allocator>(self, table: &PlacedTable<A>) -> Sizes
        ensures entries { result.entries ≤ self.entries + 3200 }
        ensures space { result.«data» ≤ self.«data» + table.now.blocks }
        ensures raised { IsRaised self table.now result }
    {
        let entries = u64::from(table.table().entries());
        let deletes = u64::from(table.deletes());
        let data = data_of(table);
        let largest = table.largest_entry() as u64;
        let large = if largest > HALF {
            entries.saturating_sub(deletes).min(data)
        } else {
            0
        };
        Sizes {
            entries: self.entries.saturating_add(entries),
            deletes: self.deletes.saturating_add(deletes),
            data: self.data.saturating_add(data),
            large: self.large.saturating_add(large),
            largest: self.largest.max(largest),
        }
    }

    /// These and some tables.
    pub fn with_all<A: Allocator>(self, tables: &[PlacedTable<A>]) -> Sizes
        ensures entries { result.entries ≤ self.entries + 3200 * length tables.now }
        ensures space { result.«data» ≤ self.«data» + blocks_in tables.now }
        ensures raised { AreRaised self tables.now result }
    {
        let mut sizes = self;
        for table in tables {
            sizes = sizes.with(table);
        }
        sizes
    }

    /// These and the tables of runs.
    pub fn with_runs<A: Allocator>(self, runs: &[Run<A>]) -> Sizes
        ensures entries { result.entries ≤ self.entries + 3200 * length (all_tables runs.now) }
        ensures space { result.«data» ≤ self.«data» + blocks_in (all_tables runs.now) }
        ensures raised { AreRaised self (all_tables runs.now) result }
    {
        let mut sizes = self;
        for run in runs {
            sizes = sizes.with_all(run.tables());
        }
        sizes
    }
}

/// The blocks of some tables.
pub(crate) fn blocks_of<A: Allocator>(tables: &[PlacedTable<A>]) -> u64 {
    blocks_with_those(0, tables)
}

/// Some blocks and those of some tables.
pub(crate) fn blocks_with_those<A: Allocator>(before: u64, tables: &[PlacedTable<A>]) -> u64
    ensures { result ≡ min (before + blocks_in tables.now) 18446744073709551615 }
{
    let mut blocks = before;
    for table in tables {
        blocks = blocks.saturating_add(u64::from(table.blocks()));
    }
    blocks
}

/// The data blocks of a table.
pub(crate) fn data_of<A: Allocator>(table: &PlacedTable<A>) -> u64
    ensures within { result ≤ table.now.blocks }
    ensures count { result ≡ length table.now.outline.edges }
    ensures few { result ≤ 64 }
{
    table.table().data_blocks() as u64
}

/// The blocks of `tables` images of `data` data blocks in all, each with an index, a filter and a footer.
pub(crate) fn blocks_with(data: u64, tables: u64) -> u64
    ensures most { result ≤ «data» + 264 * «data» / 4096 + 1 + 3 * tables }
    ensures least { result < 4294967296
        → «data» + (div_ceil (264 * «data») 4096 + 3 * tables) ≤ result }
{
    let index = data.saturating_mul(INDEX_BYTES).div_ceil(BLOCK);
    data.saturating_add(index)
        .saturating_add(tables.saturating_mul(3))
}

/// How many images there are at most of `data` data blocks and `entries` entries.
pub(crate) fn tables_of(data: u64, entries: u64) -> u64
    ensures { result ≤ «data» / 64 + entries / 3200 + 1 }
{
    (data / MOST_DATA)
        .saturating_add(entries / MOST_ENTRIES)
        .saturating_add(1)
}

/// The data blocks that entries take at most in any division, where they take `data` in one, and none has more than `largest` bytes.
pub(crate) fn packed(data: u64, largest: u64) -> u64
    ensures most { result ≤ 2 * «data» + 1 }
    ensures small { result < 4294967296 → largest ≤ 2047
        → (4094 * «data») / (4095 - largest) + 1 ≤ result }
    ensures any { result < 4294967296 → 2047 < largest → 2 * «data» + 1 ≤ result }
    ensures some { 0 < result }
{
    if largest > HALF {
        return data.saturating_mul(2).saturating_add(1);
    }
    let bytes = data.saturating_mul(BLOCK - 2);
    let least = BLOCK - 1 - largest;
    (bytes / least).saturating_add(1)
}

/// The data blocks that `entries` entries take at most, where none has more than `largest` bytes: each block but the last has as many as of
/// the largest fit.
pub(crate) fn filled(entries: u64, largest: u64) -> u64
    ensures small { result < 4294967296 → 0 < largest → largest ≤ 4094
        → entries / (4094 / largest) + 1 ≤ result }
    ensures any { result < 4294967296 → 4094 < largest → entries + 1 ≤ result }
    ensures some { 0 < result }
{
    if largest > BLOCK - 2 {
        return entries.saturating_add(2);
    }
    let each = (BLOCK - 2).checked_div(largest).unwrap_or(1);
    entries
        .checked_div(each)
        .unwrap_or(entries)
        .saturating_add(2)
}

/// How many images a merge makes at most of `data` data blocks and `entries` entries. With a live snapshot a table may end up to 33 entries
/// before it is full, since those of a key stay together.
fn images_of(data: u64, entries: u64, live: bool) -> u64
    ensures least { result < 4294967296 → most_images live «data» entries ≤ result }
    ensures most { result ≤ entries / 3168 + («data» + entries / 3168) / 31 + 1 }
{
    let (least_data, least_entries) = if live { (31, 3_168) } else { (63, 3_200) };
    let by_entries = entries / least_entries;
    (data.saturating_add(by_entries) / least_data)
        .saturating_add(by_entries)
        .saturating_add(1)
}

/// The outputs of `data` data blocks and `entries` entries.
fn outputs_with(data: u64, entries: u64, live: bool) -> Outputs
    ensures hold { HoldImages live «data» entries result }
    ensures few { result.blocks ≤ 3 * «data» + 5 * (entries / 3168) + 10 }
    ensures number { result.tables < 4294967296 → most_images live «data» entries ≤ result.tables }
{
    let tables = images_of(data, entries, live);
    let data = data.saturating_add(tables.saturating_sub(1));
    Outputs {
        blocks: blocks_with(data, tables),
        largest: blocks_with(data.min(MOST_DATA), 1),
        tables,
    }
}

/// The outputs of `data` data blocks and `entries` entries: where that is one image, just its data blocks, index, filter and footer.
pub(crate) fn outputs_for(data: u64, entries: u64, live: bool) -> Outputs
    ensures enough { AreEnoughFor live «data» entries result }
    ensures few { result.blocks < 4294967296
        → («data» < 4294967296) × (entries < 18446744073709551614) }
{
    let outputs = outputs_with(data, entries, live);
    if outputs.tables > 1 {
        return outputs;
    }
    let blocks = blocks_with(data.min(MOST_DATA), 1).saturating_sub(1);
    Outputs {
        blocks,
        largest: blocks,
        tables: 1,
    }
}

/// What a flush of memory takes at most, where a snapshot is live or none is.
pub fn flush_outputs(memory: MemSize, live: bool) -> Outputs
    ensures takes { FlushTakes live memory result }
    ensures few { result.blocks ≤ 6 * div_ceil memory.bytes 4094 + 6 * (memory.entries / 3200)
        + 20 }
    ensures none { memory.entries ≡ 0 → result.blocks ≡ 0 }
{
    if memory.entries == 0 {
        return Outputs::none();
    }
    let by_bytes = packed(memory.bytes.div_ceil(BLOCK - 2), memory.largest);
    let by_count = filled(memory.entries, memory.largest);
    outputs_with(by_bytes.min(by_count), memory.entries, live)
}

/// The outputs of a run that is merged down alone, or rewritten.
fn alone(sizes: Sizes, live: bool) -> Outputs
    ensures { AreEnough live sizes result }
{
    outputs_for(sizes.data.max(1), sizes.entries, live)
}

/// The outputs of a merge of a run with the run below it. Where it `drops` deletes, none of the upper ones is in an output.
pub(crate) fn merged(upper: Sizes, lower: Sizes, drops: bool, live: bool) -> Outputs
    ensures alone { lower.«data» ≡ 0 → AreEnough live upper result }
    ensures over { AreEnoughOver live drops upper lower result ⊎ (lower.«data» ≡ 0) }
{
    if lower.data == 0 {
        return alone(upper, live);
    }
    mixed(upper, lower, drops, live)
}

// Those of upper tables over a run.
fn mixed(upper: Sizes, lower: Sizes, drops: bool, live: bool) -> Outputs
    ensures { AreEnoughOver live drops upper lower result }
{
    let kept = upper.kept(drops);
    let by_entries = lower
        .data
        .max(1)
        .saturating_add(kept)
        .saturating_add(upper.large);
    let largest = upper.largest.max(lower.largest);
    let by_bytes = packed(upper.data.saturating_add(lower.data), largest);
    let by_count = filled(kept.saturating_add(lower.entries), largest);
    outputs_with(
        by_entries.min(by_bytes).min(by_count),
        upper.entries.saturating_add(lower.entries),
        live,
    )
}

// Those of a merge of runs of level 0.
fn of_runs<A: Allocator>(
    runs: &[Run<A>],
    lower: &[PlacedTable<A>],
    drops: bool,
    live: bool,
) -> Outputs
    ensures { AreMerged live drops (all_tables runs.now) lower.now result }
{
    let upper = Sizes::none().with_runs(runs);
    let below = Sizes::none().with_all(lower);
    if let [run] = runs {
        let _tables = run.tables();
        return merged(upper, below, drops, live);
    }
    mixed(upper, below, drops, live)
}

// Whether a merge drops deletes: nothing is below, and no snapshot is live.
fn drops_deletes<A: Allocator>(levels: &Levels<A>, job: &Pick<'_, A>, live: bool) -> bool
    ensures { result ≡ (not live && is_bottom levels.now (job_of job.now)) }
{
    !live && levels.is_bottom(job)
}

/// The outputs of a job, undivided, where a snapshot is live or none is.
pub(crate) fn outputs_of<A: Allocator>(levels: &Levels<A>, job: &Pick<'_, A>, live: bool) -> Outputs
    ensures { result.blocks < 4294967296
        → IsHeld levels.now (is_bottom levels.now (job_of job.now)) (job_of job.now)
        → is_flush (job_of job.now) ≡ false
        → MakesAtMost levels.now live (job_of job.now) [] result.blocks result.largest }
{
    let _runs = levels.runs();
    let drops = drops_deletes(levels, job, live);
    match job {
        Pick::Flush => Outputs::none(),
        Pick::OldestRuns { runs, lower } => of_runs(runs, lower, drops, live),
        Pick::OneTable { upper, lower, .. } => merged(
            Sizes::none().with(upper),
            Sizes::none().with_all(lower),
            drops,
            live,
        ),
        Pick::Neighbours {
            level,
            upper,
            lower,
        } => of_neighbours(*level, upper, lower, drops, live),
        Pick::Rewrite { tables, .. } => alone(Sizes::none().with_all(tables), live),
    }
}

// Those of a merge of neighbours, which are a run in a level from 1 on.
fn of_neighbours<A: Allocator>(
    level: usize,
    upper: &[PlacedTable<A>],
    lower: &[PlacedTable<A>],
    drops: bool,
    live: bool,
) -> Outputs
    ensures { (IsRun upper.now ⊎ (level ≡ 0)) → AreMerged live drops upper.now lower.now result }
{
    let above = Sizes::none().with_all(upper);
    let below = Sizes::none().with_all(lower);
    if level > 0 {
        return merged(above, below, drops, live);
    }
    mixed(above, below, drops, live)
}

/// The blocks that a job takes in.
pub(crate) fn taken_in<A: Allocator>(job: &Pick<'_, A>) -> u64 {
    match job {
        Pick::Flush => 0,
        Pick::OldestRuns { runs, lower } => {
            let mut blocks = blocks_of(lower);
            for run in runs.iter() {
                blocks = blocks.saturating_add(blocks_of(run.tables()));
            }
            blocks
        }
        Pick::OneTable { upper, lower, .. } => {
            blocks_of(lower).saturating_add(u64::from(upper.blocks()))
        }
        Pick::Neighbours { upper, lower, .. } => blocks_of(upper).saturating_add(blocks_of(lower)),
        Pick::Rewrite { tables, .. } => blocks_of(tables),
    }
}

/// The tables that a job takes in.
pub(crate) fn count_in<A: Allocator>(job: &Pick<'_, A>) -> u64 {
    match job {
        Pick::Flush => 0,
        Pick::OldestRuns { runs, lower } => {
            let mut count = lower.len() as u64;
            for run in runs.iter() {
                count = count.saturating_add(run.tables().len() as u64);
            }
            count
        }
        Pick::OneTable { lower, .. } => (lower.len() as u64).saturating_add(1),
        Pick::Neighbours { upper, lower, .. } => {
            (upper.len() as u64).saturating_add(lower.len() as u64)
        }
        Pick::Rewrite { tables, .. } => tables.len() as u64,
    }
}
