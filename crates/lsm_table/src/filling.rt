//! Blocks that are being filled.

ghost use Rattle.std.specs.Prelude.{◌≡◌, ◌+◌, ◌<◌, ◌≤◌, ◌^◌, ◌++◌, ◌∷◌, [], map, IfOk, OnOk};
ghost use Rattle.lsm_codec.specs.Versions.{IsEntry};
ghost use Rattle.lsm_table.specs.Filled.{none_filled, with_next, blocks_in};

use crate::layout::Layout;
use lsm_codec::Entry;
use std::alloc::{AllocError, Allocator};
use std::marker::Model;

/// Blocks that are being filled: those that are full, and the one that is begun. Contracts see their entries.
#[derive(Drop)]
pub(crate) struct Filling<A: Allocator> {
    full: Vec<Vec<Entry<A>, A>, A>,
    begun: Vec<Entry<A>, A>,
    layout: Layout,
}

impl<A: Allocator> Model for Filling<A> {
    ghost use Rattle.std.specs.Prelude.{map};
    ghost use Rattle.lsm_table.specs.Filled.{Filled};

    ghost Value = { Filled };

    ghost view = { λ f. record { full = map (λ b. b.items) f.full.items; begun = f.begun.items; layout = f.layout } };
}

/// A block of one entry.
fn block_of<A: Allocator + Clone>(
    alloc: &A,
    entry: Entry<A>,
) -> Result<Vec<Entry<A>, A>, AllocError>
    ensures { IfOk result (λ block. block.items ≡ entry ∷ []) }
{
    let mut block = Vec::new(alloc.clone()?);
    block.push(entry)?;
    Ok(block)
}

impl<A: Allocator + Clone> Filling<A> {
    pub(crate) fn new(alloc: A) -> Result<Filling<A>, AllocError>
        ensures { IfOk result (λ filling. filling ≡ none_filled) }
    {
        Ok(Filling {
            full: Vec::new(alloc.clone()?),
            begun: Vec::new(alloc),
            layout: Layout::new(),
        })
    }

    /// Moves an entry to the end: into the block that is begun, or where it doesn't fit there into the next.
    pub(crate) fn add(&mut self, alloc: &A, entry: Entry<A>) -> Result<(), AllocError>
        requires blocks { self.old.layout.blocks < 2 ^ 32 }
        requires used { self.old.layout.used ≤ 4096 }
        ensures added { OnOk result (self.new ≡ with_next self.old entry) }
        ensures version { OnOk result (IsEntry entry) }
        ensures used { OnOk result (self.new.layout.used ≤ 4096) }
        ensures blocks { OnOk result (self.new.layout.blocks ≤ self.old.layout.blocks + 1) }
    {
        if self.layout.add(entry.size()) {
            let next = block_of(alloc, entry)?;
            self.begin(next)?;
            return Ok(());
        }
        self.begun.push(entry)?;
        Ok(())
    }
}

impl<A: Allocator> Filling<A> {
    /// Begins the next block: the one before it is full.
    fn begin(&mut self, next: Vec<Entry<A>, A>) -> Result<(), AllocError>
        ensures full { OnOk result (self.new.full ≡ self.old.full ++ self.old.begun ∷ []) }
        ensures begun { self.new.begun ≡ next.items }
        ensures layout { self.new.layout ≡ self.old.layout }
    {
        let full = std::mem::replace(&mut self.begun, next);
        self.full.push(full)?;
        Ok(())
    }

    /// The blocks, of which there is one at least.
    pub(crate) fn finish(self) -> Result<Vec<Vec<Entry<A>, A>, A>, AllocError>
        ensures { IfOk result (λ made. map (λ b. b.items) made.items ≡ blocks_in self) }
    {
        let Filling { full, begun, .. } = self;
        let mut blocks = full;
        blocks.push(begun)?;
        Ok(blocks)
    }
}
