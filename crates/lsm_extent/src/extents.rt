//! A data area, and the extents of it that are handed out.

ghost use Rattle.std.specs.Prelude.{◌≡◌, ◌<◌, ◌↔◌, ◌⊎◌, ℕ, true, [], length, slice_get, IfOk, IfErr, OnErr, SomeIff, MatchOption, Contains, Err};
ghost use Rattle.lsm_device.specs.declared.refusal.Refusal.TheVariants.{NoMemory, NoSpace};
ghost use Rattle.lsm_extent.specs.Area.{IsFreeRun, IsLowestFit, HasNoFit, IsPartition, handed_out, given_back, free_count};
ghost use Rattle.lsm_extent.specs.Gaps.{IsLongestGap, SurelyFit, gaps, has_sure_room};
ghost use Rattle.lsm_extent.specs.Laws.{Frees};

use crate::Extent;
use crate::gaps::{begun_before, free_among, gap_at, lowest_gap, place_of};
use crate::room::{count_gaps, is_sure, longest_gap, starts_among};
use lsm_device::Refusal;
use std::alloc::{Allocator, Global};
use std::marker::Model;

/// The blocks of a data area, numbered from 0, and the extents of it that are handed out. A block is free where none
/// of these has it.
#[derive(Drop)]
pub struct Extents<A: Allocator = Global> {
    blocks: u32,
    /// By their first blocks.
    held: Vec<Extent, A>,
}

impl<A: Allocator> Model for Extents<A> {
    ghost use Rattle.lsm_extent.specs.Area.{Area};
    ghost use Rattle.lsm_extent.specs.Laid.{IsLaid};

    ghost Value = { Area };

    ghost view = { λ e. record { blocks = e.blocks; held = e.held.items } };

    ghost invariant = { λ e. IsLaid 0 e.blocks e.held.items };
}

impl<A: Allocator> Extents<A> {
    /// An area of this many blocks, all of them free.
    pub fn new(alloc: A, blocks: u32) -> Self
        ensures { result ≡ record { blocks = blocks; held = [] } }
    {
        let held = Vec::new(alloc);
        Extents { blocks, held }
    }

    /// Hands out the lowest free run of this many blocks, at least 1. Fails with `NoSpace` exactly where no free
    /// run is that long, or else with `NoMemory`; then nothing has changed.
    pub fn take(&mut self, blocks: u32) -> Result<Extent, Refusal>
        requires nonempty { 0 < blocks }
        ensures length { IfOk result (λ extent. extent.blocks ≡ blocks) }
        ensures lowest { IfOk result (λ extent. IsLowestFit self.old blocks extent.first) }
        ensures held { IfOk result (λ extent. self.new ≡ handed_out extent self.old) }
        ensures no_space { (result ≡ Err NoSpace) ↔ HasNoFit self.old blocks }
        ensures refusals { IfErr result (λ refusal. (refusal ≡ NoSpace) ⊎ (refusal ≡ NoMemory)) }
        ensures unchanged { OnErr result (self.new ≡ self.old) }
    {
        let Some(gap) = lowest_gap(&self.held, self.blocks, blocks) else {
            return Err(Refusal::NoSpace);
        };
        let extent = Extent {
            first: gap.first,
            blocks,
        };
        self.held.insert(gap.place, extent)?;
        Ok(extent)
    }

    /// Hands out the blocks from `first` on, this many and at least 1: `None` exactly where one of them is not free or
    /// is outside the area. Fails with `NoMemory` alone, and only where they are free. Where it returns `None` or
    /// fails, nothing has changed.
    pub fn claim(&mut self, first: u32, blocks: u32) -> Result<Option<Extent>, Refusal>
        requires nonempty { 0 < blocks }
        ensures claimed { IfOk result
            (λ given. SomeIff given (IsFreeRun self.old first blocks)
            (record { first = first; blocks = blocks })) }
        ensures held { IfOk result
            (λ given. MatchOption given (self.new ≡ self.old)
            (λ extent. self.new ≡ handed_out extent self.old)) }
        ensures no_memory { IfErr result (λ refusal. refusal ≡ NoMemory) }
        ensures were_free { OnErr result (IsFreeRun self.old first blocks) }
        ensures unchanged { OnErr result (self.new ≡ self.old) }
    {
        let extent = Extent { first, blocks };
        let Some(place) = place_of(&self.held, self.blocks, extent) else {
            return Ok(None);
        };
        self.held.insert(place, extent)?;
        Ok(Some(extent))
    }

    /// Takes back an extent that is handed out. It takes no memory.
    pub fn give(&mut self, extent: Extent)
        requires { Contains self.old.held extent }
        ensures given { self.new ≡ given_back extent self.old }
        ensures frees { Frees extent self.old self.new }
    {
        let place = begun_before(&self.held, extent.first);
        self.held.remove(place);
    }

    /// How many blocks are free. It takes no memory.
    pub fn free_blocks(&self) -> u32
        ensures { result ≡ free_count self.now }
    {
        free_among(&self.held, self.blocks)
    }

    /// The gap before the extent at this place, counted from 0, or after the last one: `None` at any place beyond. Its blocks
    /// are free, and the ones next to it are not; between neighbours it has no blocks. It takes no memory.
    pub fn gap(&self, place: usize) -> Option<Extent>
        ensures { result ≡ slice_get (gaps self.now) place }
    {
        gap_at(&self.held, self.blocks, place)
    }

    /// How many gaps there are: one before each extent, and one after the last. It takes no memory.
    pub fn gap_count(&self) -> usize
        ensures { result ≡ length (gaps self.now) }
    {
        count_gaps(&self.held, self.blocks)
    }

    /// How many blocks the longest gap has. It takes no memory.
    pub fn longest_gap(&self) -> u32
        ensures { IsLongestGap self.now result }
    {
        longest_gap(&self.held, self.blocks)
    }

    /// Whether runs of at most `largest` blocks each, and `total` in all, are sure to find room one after the other, each in
    /// the lowest free run that fits, whatever their sizes and their order: some gap has `largest` blocks, and `total` is less than
    /// `largest` plus the number of blocks at which a run of `largest` may begin. It takes no memory.
    pub fn surely_places(&self, total: u64, largest: u32) -> bool
        ensures test { result ≡ has_sure_room self.now total largest }
        ensures sure { result ≡ true → SurelyFit self.now total largest }
    {
        let starts = starts_among(&self.held, self.blocks, largest);
        is_sure(starts, total, largest)
    }

    /// States for proofs of callers that what has sure room surely fits.
    pub fn sure_room(&self)
        ensures { (total largest : ℕ) → has_sure_room self.now total largest ≡ true
            → SurelyFit self.now total largest }
    {
        let _blocks = self.blocks;
    }

    /// States for proofs of callers that each block of the area is free or in just one extent that is handed out.
    pub fn partition(&self)
        ensures { IsPartition self.now }
    {
        let _blocks = self.blocks;
    }
}
