//! How entries are divided among tables: by data blocks, and by entries.

use crate::input::{entry, images_of};
use lsm_codec::Entry;
use lsm_table::Image;
use std::alloc::Global;
use std::process::Abort;

/// Puts of 2,048 bytes under 65 keys of one byte. Each has a data block of its own.
fn large_puts<R: Abort>(rt: &R, alloc: Global) -> Vec<Entry> {
    let mut entries = Vec::new(alloc);
    for key in 0..65_u8 {
        let made = entry(alloc, &[key], Some(&[key; 2_048])).expect(rt, "memory");
        entries
            .push(made.expect(rt, "an entry"))
            .expect(rt, "memory");
    }
    entries
}

/// Deletes of 3,201 keys of two bytes. An entry has 14 bytes, and a block 292 of them.
fn small_deletes<R: Abort>(rt: &R, alloc: Global) -> Vec<Entry> {
    let mut entries = Vec::new(alloc);
    for key in 0..3_201_u16 {
        let bytes = [(key / 256) as u8, (key % 256) as u8];
        let made = entry(alloc, &bytes, None).expect(rt, "memory");
        entries
            .push(made.expect(rt, "an entry"))
            .expect(rt, "memory");
    }
    entries
}

/// How many data blocks, entries and deletes a table has.
type Size = (usize, u32, u16);

/// Whether entries are divided into two tables of these sizes.
fn make_two<R: Abort>(rt: &R, alloc: Global, entries: Vec<Entry>, sizes: [Size; 2]) -> bool {
    let images: Vec<Image> = images_of(alloc, entries).expect(rt, "memory");
    if images.len() != 2 {
        return false;
    }
    for (image, size) in images.iter().zip(sizes) {
        if (image.data_blocks(), image.entries(), image.deletes()) != size {
            return false;
        }
    }
    true
}

#[test]
fn a_table_has_64_data_blocks_at_most(rt: HostRuntime) {
    let puts = large_puts(&rt, rt.alloc());
    assert!(rt; make_two(&rt, rt.alloc(), puts, [(64, 64, 0), (1, 1, 0)]));
}

#[test]
fn a_table_has_3200_entries_at_most(rt: HostRuntime) {
    let deletes = small_deletes(&rt, rt.alloc());
    assert!(rt; make_two(&rt, rt.alloc(), deletes, [(11, 3_200, 3_200), (1, 1, 1)]));
}
