//! Data areas with gaps.

use lsm_extent::Extents;
use std::alloc::Global;
use std::process::Abort;

/// An area of so many gaps of so many free blocks each, with a block between neighbours that isn't free.
pub fn area_of<R: Abort>(rt: &R, alloc: Global, gaps: u32, blocks: u32) -> Extents {
    assert!(rt; gaps < 100 && blocks < 10_000);
    let mut extents = Extents::new(alloc, gaps * (blocks + 1));
    for gap in 0..gaps {
        assert!(rt; gap < 100);
        let end = gap * (blocks + 1) + blocks;
        assert!(rt; matches!(extents.claim(end, 1), Ok(Some(_))));
    }
    extents
}
