//! The gaps between extents, counted.

ghost use Rattle.std.specs.Prelude.{◌≡◌, ◌+◌, ◌-◌, ◌≤◌, ◌^◌, ltb, ◌&&◌, length};
ghost use Rattle.lsm_extent.specs.Gaps.{IsLongestGap, gaps_between, starts};
ghost use Rattle.lsm_extent.specs.Laid.{IsLaid};

use crate::Extent;

/// How many gaps there are.
pub(crate) fn count_gaps(held: &[Extent], area: u32) -> usize
    requires laid { IsLaid 0 area held.now }
    ensures { result ≡ length (gaps_between 0 area held.now) }
{
    held.len() + 1
}

/// At how many blocks of a gap a run of `blocks` blocks may begin.
fn starts_in(gap: u32, blocks: u32) -> u64
    ensures { result ≡ (gap + 1) - blocks }
{
    (u64::from(gap) + 1).saturating_sub(u64::from(blocks))
}

/// At how many blocks of all gaps a run of `blocks` blocks may begin.
pub(crate) fn starts_among(held: &[Extent], area: u32, blocks: u32) -> u64
    requires laid { IsLaid 0 area held.now }
    ensures value { result ≡ starts blocks (gaps_between 0 area held.now) }
    ensures bound { result ≤ 2 ^ 32 }
{
    let mut starts = 0;
    let mut from = 0;
    for extent in held {
        starts += starts_in(extent.first - from, blocks);
        from = extent.first + extent.blocks;
    }
    starts + starts_in(area - from, blocks)
}

/// Whether runs of at most `largest` blocks, `total` in all, surely fit where one of `largest` may begin at `starts` blocks.
pub(crate) fn is_sure(starts: u64, total: u64, largest: u32) -> bool
    requires { starts ≤ 2 ^ 32 }
    ensures { result ≡ (ltb 0 starts && ltb total (starts + largest)) }
{
    starts > 0 && total < starts + u64::from(largest)
}

/// How many blocks the longest gap has.
pub(crate) fn longest_gap(held: &[Extent], area: u32) -> u32
    requires laid { IsLaid 0 area held.now }
    ensures { IsLongestGap (record { blocks = area; held = held.now }) result }
{
    let mut longest: u32 = 0;
    let mut from = 0;
    for extent in held {
        longest = longest.max(extent.first - from);
        from = extent.first + extent.blocks;
    }
    longest.max(area - from)
}
