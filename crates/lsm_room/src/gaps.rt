//! The gaps of a data area, filled on trial.

ghost use Rattle.std.specs.Prelude.{◌≡◌, ◌∷◌, ◌++◌, [], Some, IfOk, OnOk, MatchOption, filter, position};
ghost use Rattle.lsm_room.specs.Gaps.{HasNone, TakesLowest, free_gaps, has_blocks};

use lsm_extent::{Extent, Extents};
use std::alloc::{AllocError, Allocator};

/// Adds a gap to others, if it has a block.
fn push_free<A: Allocator>(found: &mut Vec<Extent, A>, gap: Extent) -> Result<(), AllocError>
    ensures { OnOk result (found.new.items ≡ found.old.items ++ filter (has_blocks 1) (gap ∷ [])) }
{
    if gap.blocks >= 1 {
        found.push(gap)?;
    }
    Ok(())
}

/// The gaps of an area that have a block, in order.
pub(crate) fn gaps_of<A: Allocator + Clone>(
    alloc: &A,
    extents: &Extents<A>,
) -> Result<Vec<Extent, A>, AllocError>
    ensures { IfOk result (λ found. found.items ≡ free_gaps extents.now) }
{
    let mut found = Vec::new(alloc.clone()?);
    for place in 0..extents.gap_count() {
        match extents.gap(place) {
            Some(gap) => push_free(&mut found, gap)?,
            None => return Ok(found),
        }
    }
    Ok(found)
}

/// The place of the lowest gap that has `blocks` blocks.
fn lowest_with(gaps: &[Extent], blocks: u32) -> Option<usize>
    ensures { result ≡ position (has_blocks blocks) gaps.now }
{
    gaps.iter().position(|gap| gap.blocks >= blocks)
}

/// Takes `blocks` blocks of the lowest gap that has as many, and returns the first one.
fn take_at(gaps: &mut [Extent], place: usize, blocks: u32) -> u32
    requires { position (has_blocks blocks) gaps.old ≡ Some place }
    ensures { TakesLowest blocks gaps.old gaps.new result }
{
    let gap = gaps[place];
    gaps[place] = Extent {
        first: gap.first.saturating_add(blocks),
        blocks: gap.blocks - blocks,
    };
    gap.first
}

/// Takes the lowest run of `blocks` blocks, and returns its first one. `None` where no gap is that long.
pub(crate) fn take_lowest(gaps: &mut [Extent], blocks: u32) -> Option<u32>
    ensures { MatchOption result
        (HasNone blocks gaps.old × (gaps.new ≡ gaps.old))
        (λ first. TakesLowest blocks gaps.old gaps.new first) }
{
    match lowest_with(gaps, blocks) {
        Some(place) => Some(take_at(gaps, place, blocks)),
        None => None,
    }
}

/// The blocks of the longest of the gaps that begin below a block.
pub(crate) fn longest_below(gaps: &[Extent], below: u32) -> u32 {
    let mut longest = 0;
    for gap in gaps {
        if gap.first < below {
            longest = gap.blocks.max(longest);
        }
    }
    longest
}

/// The blocks of the longest gap, once `blocks` blocks from `first` on are free too.
pub(crate) fn longest_with(gaps: &[Extent], first: u32, blocks: u32) -> u32 {
    let mut longest = 0;
    let mut freed = blocks;
    for gap in gaps {
        let is_before = gap.first.saturating_add(gap.blocks) == first;
        let is_behind = gap.first == first.saturating_add(blocks);
        if is_before || is_behind {
            freed = freed.saturating_add(gap.blocks);
        }
        longest = gap.blocks.max(longest);
    }
    freed.max(longest)
}
