//! The gaps between the extents that are handed out, which are sorted by their first blocks.

ghost use Rattle.std.specs.Prelude.{◌≡◌, ◌<◌, ◌≤◌, ◌+◌, length, take, drop, slice_get, MatchOption, MatchBool};
ghost use Rattle.std.specs.List.Sorted.{IsNonDecreasingBy, IsPartitionPoint};
ghost use Rattle.lsm_extent.specs.Area.{IsFreeRun, IsLowestFit, HasNoFit, free_count};
ghost use Rattle.lsm_extent.specs.Gaps.{gaps_between};
ghost use Rattle.lsm_extent.specs.Laid.{IsLaid, IsGap, end_of, start_of};

use crate::Extent;

/// Free blocks: the place that an extent of them would get among the others, and the first of them.
#[derive(Clone, Copy)]
pub(crate) struct Gap {
    pub(crate) place: usize,
    pub(crate) first: u32,
}

/// Whether there are `blocks` blocks from one up to another.
fn has_room(from: u32, to: u32, blocks: u32) -> bool
    ensures { MatchBool result (from + blocks ≤ to) (to < from + blocks) }
{
    from <= to && to - from >= blocks
}

/// The lowest gap with this many blocks.
pub(crate) fn lowest_gap(held: &[Extent], area: u32, blocks: u32) -> Option<Gap>
    requires nonempty { 0 < blocks }
    requires laid { IsLaid 0 area held.now }
    ensures { MatchOption result (HasNoFit (record { blocks = area; held = held.now }) blocks)
        (λ gap. IsGap held.now area gap.place gap.first blocks
        × IsLowestFit (record { blocks = area; held = held.now }) blocks gap.first) }
{
    let mut from = 0;
    for (place, extent) in held.iter().enumerate() {
        if has_room(from, extent.first, blocks) {
            return Some(Gap { place, first: from });
        }
        from = extent.first + extent.blocks;
    }
    if !has_room(from, area, blocks) {
        return None;
    }
    Some(Gap {
        place: held.len(),
        first: from,
    })
}

/// How many of the extents begin before this block.
pub(crate) fn begun_before(held: &[Extent], block: u32) -> usize
    requires { IsNonDecreasingBy (λ e. e.first) held.now }
    ensures bound { result ≤ length held.now }
    ensures split { IsPartitionPoint (λ e. e.first < block) (λ e. block ≤ e.first) held.now result }
{
    held.partition_point(|extent: &Extent| extent.first < block)
}

/// The first block after the extents before this place.
fn end_before(held: &[Extent], area: u32, place: usize) -> u32
    requires laid { IsLaid 0 area held.now }
    requires within { place ≤ length held.now }
    ensures { result ≡ end_of 0 (take place held.now) }
{
    match held[..place].last() {
        Some(extent) => extent.first + extent.blocks,
        None => 0,
    }
}

/// The first block of the extent at this place, or the end of the area after the last one.
fn next_from(held: &[Extent], area: u32, place: usize) -> u32
    ensures { result ≡ start_of area (drop place held.now) }
{
    match held.get(place) {
        Some(extent) => extent.first,
        None => area,
    }
}

/// The gap before the extent at this place, or after the last one.
pub(crate) fn gap_at(held: &[Extent], area: u32, place: usize) -> Option<Extent>
    requires laid { IsLaid 0 area held.now }
    ensures { result ≡ slice_get (gaps_between 0 area held.now) place }
{
    if place > held.len() {
        return None;
    }
    let first = end_before(held, area, place);
    let blocks = next_from(held, area, place) - first;
    Some(Extent { first, blocks })
}

/// The place among the extents of one with these blocks, where they are free.
pub(crate) fn place_of(held: &[Extent], area: u32, wanted: Extent) -> Option<usize>
    requires nonempty { 0 < wanted.blocks }
    requires laid { IsLaid 0 area held.now }
    ensures { MatchOption result
        (¬ IsFreeRun (record { blocks = area; held = held.now }) wanted.first wanted.blocks)
        (λ place. IsGap held.now area place wanted.first wanted.blocks) }
{
    let place = begun_before(held, wanted.first);
    if wanted.first < end_before(held, area, place) {
        return None;
    }
    if !has_room(wanted.first, next_from(held, area, place), wanted.blocks) {
        return None;
    }
    Some(place)
}

/// How many blocks of the area are in none of the extents.
pub(crate) fn free_among(held: &[Extent], area: u32) -> u32
    requires laid { IsLaid 0 area held.now }
    ensures { result ≡ free_count (record { blocks = area; held = held.now }) }
{
    let mut free = area;
    for extent in held {
        free -= extent.blocks;
    }
    free
}
