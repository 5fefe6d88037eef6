//! Whether a batch may be taken: what it makes of its keys will find room, in a flush and in the last level.

ghost use Rattle.std.specs.Prelude.{◌≡◌, ◌≤◌, ◌<◌, ◌+◌, ◌*◌, ◌/◌, min, true, false};
ghost use Rattle.std.specs.Int.{div_ceil};
ghost use Rattle.lsm_extent.specs.Area.{free_count};
ghost use Rattle.lsm_levels.specs.Moving.{table_count};
ghost use Rattle.lsm_mem.specs.Sizes.{no_size};
ghost use Rattle.lsm_policy.specs.Room.{taken_blocks};
ghost use Rattle.lsm_room.specs.Crowding.{IsCrowded, blocks_for};
ghost use Rattle.lsm_room.specs.Flushes.{FlushesLeave};

use crate::bounds::{Sizes, blocks_with, filled, flush_outputs, packed, tables_of};
use crate::standing::Standing;
use lsm_levels::HeldJobs;
use lsm_mem::MemSize;
use std::alloc::Allocator;

/// Deletes in memory take at most this many blocks of tables.
const DELETE_BLOCKS: u64 = 80;

/// Puts are admitted with at most this many tables.
const TABLES_FOR_PUTS: u64 = 795;

/// Deletes are admitted without a step before, with at most this many tables.
const TABLES_FOR_DELETES: u64 = 900;

/// Deletes are admitted without a step before, with fewer runs of level 0 than this.
const RUNS_FOR_DELETES: usize = 10;

/// An area of this many blocks or more has room for what a full log holds, however much that is.
const LARGE_AREA: u64 = 8_192;

/// The least bytes of a full block of deletes: one more of the largest doesn't fit.
const DELETE_ROOM: u64 = 3_828;

/// What is in memory: what waits for its flush, and the memtable before a batch and after it.
#[derive(Clone, Copy)]
pub struct InMemory {
    /// What waits for its flush.
    pub waiting: MemSize,
    /// The memtable before the batch.
    pub before: MemSize,
    /// The memtable with the batch.
    pub after: MemSize,
}

/// The blocks that a store keeps free, by the size of its area.
#[derive(Clone, Copy)]
pub struct Reserve {
    area: u64,
}

impl Reserve {
    /// Those of an area of `area` blocks.
    pub fn of(area: u64) -> Reserve
        ensures { result.area ≡ area }
    {
        Reserve { area }
    }

    /// The blocks that a step needs: one table is cut, or one is merged down.
    pub fn for_steps(self) -> u64
        ensures least { 100 ≤ result }
        ensures most { result ≤ 200 }
    {
        if self.area < 400 {
            100
        } else if self.area < 1_000 {
            160
        } else {
            200
        }
    }

    /// The blocks that puts leave free: for steps, and for deletes after them; and at least a sixth of the area.
    pub fn for_puts(self) -> u64
        ensures { result ≤ 280 + self.area / 6 }
    {
        self.for_steps()
            .saturating_add(DELETE_BLOCKS)
            .max(self.area / 6)
    }

    /// The blocks that are free in addition after steps for puts, so that steps aren't needed again after a few puts.
    pub fn to_spare(self) -> u64
        ensures { result ≡ self.area / 24 }
    {
        self.area / 24
    }

    /// The blocks of deletes in memory above which another log is opened.
    fn deletes(self) -> u64 {
        (self.area / 16).max(20)
    }

    /// The blocks of all that is in memory above which another log is opened, if the area is small.
    fn flush(self) -> u64 {
        if self.area >= LARGE_AREA {
            return u64::MAX;
        }
        (self.area / 8).max(30)
    }
}

/// The blocks of tables of `data` data blocks and `entries` entries.
fn blocks_of(data: u64, entries: u64) -> u64 {
    if entries == 0 {
        return 0;
    }
    blocks_with(data, tables_of(data, entries))
}

/// The data blocks that entries of `bytes` bytes in all take at most.
fn data_of(bytes: u64, largest: u64) -> u64 {
    packed(bytes.div_ceil(4_094), largest)
}

/// The blocks that the deletes in memory take.
fn delete_blocks(memory: MemSize) -> u64 {
    let data = (memory.delete_bytes / DELETE_ROOM)
        .saturating_add(1)
        .min(memory.deletes);
    blocks_of(data.saturating_add(memory.deletes / 3_200), memory.deletes)
}

/// The blocks of a flush, by which memory counts as small or not. What a flush takes at most is [`flush_outputs`].
pub fn flush_blocks(memory: MemSize) -> u64 {
    let by_bytes = data_of(memory.bytes, memory.largest);
    let by_count = filled(memory.entries, memory.largest);
    let data = by_bytes
        .min(by_count)
        .saturating_add(memory.entries / 3_200);
    blocks_of(data.min(memory.entries), memory.entries)
}

/// What is in memory, where a live snapshot keeps each delete.
fn counted(memory: MemSize, live: bool) -> MemSize
    ensures bytes { result.bytes ≡ memory.bytes }
    ensures entries { result.entries ≡ memory.entries }
{
    if !live {
        return memory;
    }
    MemSize {
        deletes: 0,
        delete_bytes: 0,
        ..memory
    }
}

// Both sizes together.
fn together(one: MemSize, other: MemSize) -> MemSize
    ensures bytes { result.bytes ≤ one.bytes + other.bytes }
    ensures entries { result.entries ≤ one.entries + other.entries }
{
    MemSize {
        entries: one.entries.saturating_add(other.entries),
        bytes: one.bytes.saturating_add(other.bytes),
        large: one.large.saturating_add(other.large),
        deletes: one.deletes.saturating_add(other.deletes),
        delete_bytes: one.delete_bytes.saturating_add(other.delete_bytes),
        largest: one.largest.max(other.largest),
    }
}

/// The charge of what is in memory: the blocks by which its puts may make the last level larger.
fn charge_of(memory: MemSize) -> u64 {
    memory
        .entries
        .saturating_sub(memory.deletes)
        .saturating_add(memory.large)
}

/// Whether memory that isn't empty is small enough to take more.
pub fn is_small(reserve: Reserve, memory: MemSize) -> bool {
    delete_blocks(memory) <= reserve.deletes() && flush_blocks(memory) <= reserve.flush()
}

impl<'a, H: HeldJobs, A: Allocator> Standing<'a, H, A> {
    /// The blocks that the store keeps free.
    pub fn reserve(&self) -> Reserve
        ensures { result.area ≤ taken_blocks self.now.levels.now + free_count self.now.extents.now }
    {
        Reserve::of(self.area())
    }

    /// Whether the memtable may become `memory.after`: its flush will find room, that of what waits will too, and so will the last level
    /// with both. For deletes alone less is required, and more are admitted where puts find room too. Where memory was empty, puts are
    /// admitted unless the store is crowded.
    pub fn admits(&self, memory: InMemory, puts: bool) -> bool
        ensures crowded { result ≡ false → memory.before.entries ≡ 0 → memory.waiting ≡ no_size
            → puts ≡ true → IsCrowded (taken_blocks self.now.levels.now)
            (free_count self.now.extents.now) (table_count self.now.levels.now)
            (blocks_for memory.after.bytes memory.after.entries) }

        // Whatever is admitted, a hundred blocks stay free after the flushes.
        ensures room { result ≡ true
            → FlushesLeave 100 (free_count self.now.extents.now) self.now.live memory.waiting
            memory.after }
    {
        let after = counted(memory.after, self.live);
        let taken = self.taken();
        let reserve = Reserve::of(taken.saturating_add(self.free()));
        if memory.before.entries > 0 && !is_small(reserve, after) {
            return false;
        }
        if !puts && charge_of(after) == 0 {
            return self.admits_deletes(memory, reserve)
                || (self.has_few_runs() && self.has_room_for(memory, taken));
        }
        (memory.before.entries == 0 || delete_blocks(after) <= DELETE_BLOCKS)
            && self.has_room_for(memory, taken)
    }

    // Whether what puts leave is free once all is in the last level, with memory and a batch, and after its flush what steps need.
    fn has_room_for(&self, memory: InMemory, taken: u64) -> bool
        requires { taken ≡ min (taken_blocks self.now.levels.now) 18446744073709551615 }
        ensures crowded { result ≡ false → memory.waiting ≡ no_size
            → IsCrowded (taken_blocks self.now.levels.now) (free_count self.now.extents.now)
            (table_count self.now.levels.now)
            (blocks_for memory.after.bytes memory.after.entries) }
        ensures room { result ≡ true
            → FlushesLeave 100 (free_count self.now.extents.now) self.now.live memory.waiting
            memory.after }
    {
        let after = counted(memory.after, self.live);
        let reserve = Reserve::of(taken.saturating_add(self.free()));
        taken <= self.free().saturating_mul(2)
            && self.tables() <= TABLES_FOR_PUTS
            && self.leaves(
                together(memory.waiting, after),
                reserve.area,
                reserve.for_puts(),
            )
            && self.leaves_flushes(memory, reserve)
    }

    fn has_few_runs(&self) -> bool {
        self.levels.runs().len() < RUNS_FOR_DELETES
    }

    /// Whether the memtable may become as large as `most` by any puts and deletes: then each batch that keeps it within is admitted, as
    /// long as the tables, the free blocks and what waits are the same.
    pub fn admits_up_to(&self, memory: InMemory, most: MemSize) -> bool
        ensures { result ≡ true
            → FlushesLeave 100 (free_count self.now.extents.now) self.now.live memory.waiting most }
    {
        let puts = MemSize {
            deletes: memory.before.deletes,
            delete_bytes: memory.before.delete_bytes,
            ..most
        };
        let deletes = counted(most, self.live);
        let all = InMemory {
            before: most,
            after: puts,
            ..memory
        };
        delete_blocks(deletes) <= DELETE_BLOCKS
            && is_small(self.reserve(), deletes)
            && self.has_few_runs()
            && self.admits(all, true)
    }

    /// Whether it admits `memory` with some blocks to spare, and few runs are in level 0.
    pub fn admits_easily(&self, memory: InMemory, puts: bool) -> bool {
        let after = counted(memory.after, self.live);
        let reserve = self.reserve();
        let spare = reserve.for_puts().saturating_add(reserve.to_spare());
        self.admits(memory, puts)
            && self.levels.runs().len() < 4
            && self.has_spare()
            && ((!puts && charge_of(after) == 0)
                || self.leaves(together(memory.waiting, after), reserve.area, spare))
    }

    /// Whether the reserve of puts and the blocks to spare are free.
    pub fn has_spare(&self) -> bool
        ensures { result ≡ false
            → IsCrowded (taken_blocks self.now.levels.now) (free_count self.now.extents.now)
            (table_count self.now.levels.now) 0 }
    {
        let reserve = self.reserve();
        self.free() >= reserve.for_puts().saturating_add(reserve.to_spare())
    }

    // Whether the flushes leave what steps need.
    fn leaves_flushes(&self, memory: InMemory, reserve: Reserve) -> bool
        ensures crowded { result ≡ false → memory.waiting ≡ no_size
            → free_count self.now.extents.now
            < 6 * div_ceil memory.after.bytes 4094 + 6 * (memory.after.entries / 3200) + 220 }
        ensures room { result ≡ true
            → FlushesLeave 100 (free_count self.now.extents.now) self.now.live memory.waiting
            memory.after }
    {
        let first = flush_outputs(memory.waiting, self.live);
        let second = flush_outputs(memory.after, self.live);
        first
            .blocks
            .saturating_add(second.blocks)
            .saturating_add(reserve.for_steps())
            <= self.free()
    }

    // Whether the memtable may have deletes alone: they are few, and the flushes leave what steps need.
    fn admits_deletes(&self, memory: InMemory, reserve: Reserve) -> bool
        ensures { result ≡ true
            → FlushesLeave 100 (free_count self.now.extents.now) self.now.live memory.waiting
            memory.after }
    {
        self.leaves_flushes(memory, reserve)
            && delete_blocks(memory.after) <= DELETE_BLOCKS
            && self.tables() <= TABLES_FOR_DELETES
            && self.has_few_runs()
    }

    // Whether `blocks` blocks are left once all tables and memory are in the last level.
    fn leaves(&self, memory: MemSize, area: u64, blocks: u64) -> bool
        ensures { result ≡ false
            → 8 * free_count self.now.extents.now
            < 9 * taken_blocks self.now.levels.now + 18 * div_ceil memory.bytes 4094
            + 33 * (table_count self.now.levels.now + memory.entries / 3200) + 83 + 8 * blocks }
    {
        self.growth(memory, area).saturating_add(blocks) <= self.free()
    }

    // By how many blocks all tables and memory grow at most until all is in the last level.
    fn growth(&self, memory: MemSize, area: u64) -> u64
        ensures { 8 * result ≤ 9 * taken_blocks self.now.levels.now
            + 18 * div_ceil memory.bytes 4094
            + 33 * (table_count self.now.levels.now + memory.entries / 3200) + 83 }
    {
        let above = Sizes::none().with_runs(self.levels.runs());
        let deeper = self.levels.deeper();
        let last = self.last_level_of(area).saturating_sub(1).min(deeper.len());
        let (upper, lower) = deeper.split_at(last);
        match lower.split_first() {
            Some((level, deepest)) => grown(
                above.with_runs(upper).with_runs(deepest),
                Sizes::none().with_all(level.tables()),
                memory,
            ),
            None => grown(above.with_runs(upper), Sizes::none(), memory),
        }
    }
}

// By how many blocks tables above the last level, those in it and memory grow at most.
fn grown(above: Sizes, below: Sizes, memory: MemSize) -> u64
    ensures { 8 * result ≤ 9 * (above.«data» + below.«data») + 18 * div_ceil memory.bytes 4094
        + 33 * (above.entries / 3200 + memory.entries / 3200) + 83 }
{
    let charge = charge_of(memory);
    if charge == 0 && above.entries == 0 {
        return 0;
    }
    let all = above.data.saturating_add(below.data);
    let largest = above.largest.max(below.largest).max(memory.largest);
    let entries = above.entries.saturating_add(memory.entries);
    let by_entries = below
        .data
        .saturating_add(above.entries)
        .saturating_add(above.large)
        .saturating_add(charge);
    let in_memory = memory.bytes.div_ceil(4_094);
    let by_bytes = packed(all.saturating_add(in_memory), largest);
    let by_count = filled(entries.saturating_add(below.entries), largest);
    let mixed = by_bytes
        .min(by_count)
        .saturating_add(entries / 3_200)
        .saturating_add(1);
    let growth = by_entries.min(mixed).saturating_sub(all);
    blocks_with(growth, tables_of(growth, entries))
}
