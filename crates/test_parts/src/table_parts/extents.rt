//! Which blocks are handed out.

ghost use Rattle.std.specs.Prelude.{◌<◌};

use linked_list_allocator::LocalHeap;
use lsm_device::Refusal;
use lsm_extent::laws::extent_laws;
use lsm_extent::{Extent, Extents};
use std::alloc::Allocator;
use std::process::Abort;

/// Whether so many blocks are taken here, or none of them since no free run is that long.
fn takes<A: Allocator>(extents: &mut Extents<A>, blocks: u32, first: Option<u32>) -> bool
    requires { 0 < blocks }
{
    match (extents.take(blocks), first) {
        (Ok(extent), Some(first)) => extent == Extent { first, blocks },
        (Err(Refusal::NoSpace), None) => true,
        _ => false,
    }
}

/// Whether these blocks are claimed, or none of them, as `given` says.
fn claims<A: Allocator>(extents: &mut Extents<A>, first: u32, blocks: u32, given: bool) -> bool
    requires { 0 < blocks }
{
    match extents.claim(first, blocks) {
        Ok(Some(extent)) => given && extent == Extent { first, blocks },
        Ok(None) => !given,
        Err(_) => false,
    }
}

#[test]
fn the_lowest_fit_is_taken(rt: HostRuntime) {
    let mut extents = Extents::new(rt.alloc(), 10);
    for (blocks, first) in [
        (4, Some(0)),
        (4, Some(4)),
        (3, None),
        (2, Some(8)),
        (1, None),
    ] {
        assert!(rt;
            blocks > 0 && takes(&mut extents, blocks, first),
            "{blocks}"
        );
    }
    assert!(rt; extents.free_blocks() == 0);
}

/// All memory that is left of a heap.
fn rest_of(heap: &LocalHeap, bytes: usize) -> Option<Vec<u8, &LocalHeap>> {
    Vec::with_capacity(heap, bytes.saturating_sub(heap.used())).ok()
}

/// Whether blocks before others that stay are given back without memory, and taken again.
fn gives_back(heap: &LocalHeap, bytes: usize) -> Result<bool, Refusal> {
    extent_laws();
    let mut extents = Extents::new(heap, 10);
    let stay = claims(&mut extents, 4, 4, true);
    let first = extents.take(4)?;
    let rest = rest_of(heap, bytes);
    extents.give(first);
    let again = takes(&mut extents, 2, Some(0)) && takes(&mut extents, 3, None);
    Ok(stay && rest.is_some() && again && extents.free_blocks() == 4)
}

/// Whether a gap with these blocks stands at a place.
fn has_gap<A: Allocator>(extents: &Extents<A>, place: usize, first: u32, blocks: u32) -> bool {
    match extents.gap(place) {
        Some(gap) => gap == Extent { first, blocks },
        None => false,
    }
}

/// Whether an area has so many gaps, the longest of which has these blocks.
fn has_gaps<A: Allocator>(extents: &Extents<A>, count: usize, longest: u32) -> bool {
    extents.gap(count).is_none() && extents.gap_count() == count && extents.longest_gap() == longest
}

#[test]
fn gaps_are_told_in_order(rt: HostRuntime) {
    let mut extents = Extents::new(rt.alloc(), 20);
    for (first, blocks) in [(5, 2), (10, 2), (12, 2)] {
        assert!(rt;
            blocks > 0 && claims(&mut extents, first, blocks, true),
            "{first}"
        );
    }
    for (place, first, blocks) in [(0, 0, 5), (1, 7, 3), (2, 12, 0), (3, 14, 6)] {
        assert!(rt; has_gap(&extents, place, first, blocks), "{place}");
    }
    assert!(rt; has_gaps(&extents, 4, 6));
}

/// An area of 20 blocks, with gaps of 5, 3 and 8 blocks.
fn three_gaps<A: Allocator>(alloc: A) -> Option<Extents<A>> {
    let mut extents = Extents::new(alloc, 20);
    if claims(&mut extents, 5, 2, true) && claims(&mut extents, 10, 2, true) {
        Some(extents)
    } else {
        None
    }
}

#[test]
fn what_surely_finds_room(rt: HostRuntime) {
    let extents = three_gaps(rt.alloc()).expect(&rt, "gaps");
    // A run of 4 blocks may begin at 2 + 0 + 5 of them, so 3 more are sure.
    for (total, largest, sure) in [
        (0, 4, true),
        (10, 4, true),
        (11, 4, false),
        (16, 1, true),
        (17, 1, false),
        (8, 8, true),
        (9, 8, false),
        (1, 9, false), // No gap has as many.
        (12, 3, true), // 3 + 1 + 6, and 2 more.
        (13, 3, false),
        (u64::MAX, u32::MAX, false),
    ] {
        assert!(rt;
            extents.surely_places(total, largest) == sure,
            "{total} {largest}"
        );
    }
}

#[test]
fn runs_that_surely_find_room_are_taken(rt: HostRuntime) {
    let mut extents = three_gaps(rt.alloc()).expect(&rt, "gaps");
    assert!(rt; extents.surely_places(10, 4));
    for (blocks, first) in [(3, 0), (4, 12), (1, 3), (2, 7)] {
        assert!(rt;
            blocks > 0 && takes(&mut extents, blocks, Some(first)),
            "{first}"
        );
    }
}

#[test]
fn the_room_of_an_extent_is_used_again(rt: HostRuntime) {
    let heap = LocalHeap::new(rt.alloc(), 256).expect(&rt, "a heap");
    assert!(rt; gives_back(&heap, 256) == Ok(true));
}

#[test]
fn blocks_are_claimed_where_all_are_free(rt: HostRuntime) {
    let mut extents = Extents::new(rt.alloc(), 10);
    for (first, blocks, given) in [
        (4, 3, true),
        (4, 3, false), // The same blocks.
        (6, 1, false), // The last of them.
        (3, 2, false), // One that is free and the first of them.
        (1, 3, true), // Right before them.
        (7, 4, false), // The last block is outside.
        (10, 1, false),
        (u32::MAX, u32::MAX, false),
        (7, 3, true), // Right behind them, up to the end.
        (0, 10, false),
        (0, 1, true),
        (0, 1, false),
    ] {
        assert!(rt;
            blocks > 0 && claims(&mut extents, first, blocks, given),
            "{first}"
        );
    }
    assert!(rt; extents.free_blocks() == 0);
}

/// Whether an area that is nearly as large as can be has its lowest and its highest blocks handed out.
fn is_handed_out<A: Allocator>(extents: &mut Extents<A>) -> bool {
    let most = 4_000_000_000;
    takes(extents, most, Some(0))
        && takes(extents, 1, Some(most))
        && claims(extents, u32::MAX - 1, 1, true)
        && claims(extents, u32::MAX, 1, false)
        && takes(extents, 1, Some(most + 1))
}

#[test]
fn a_large_area(rt: HostRuntime) {
    let mut extents = Extents::new(rt.alloc(), u32::MAX);
    assert!(rt; is_handed_out(&mut extents) && extents.free_blocks() == 294_967_292);
}
