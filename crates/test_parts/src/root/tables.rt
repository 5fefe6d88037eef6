//! Roots whose manifests name tables.

use crate::root::installed::{LOG, is_found, is_installed, manifest};
use crate::root::quiet::Quiet;
use lsm_codec::Manifest;
use lsm_device::Refusal;
use lsm_root::load;
use std::alloc::Global;
use std::process::Abort;

/// Of these just the data area of 1,024 tables of 4 blocks is left, with log regions of 128.
const SECTORS: u32 = 33_282;

/// The manifest of generation 4 with as many records as there may be.
fn largest<R: Abort>(rt: &R, alloc: Global) -> Manifest {
    manifest(rt, alloc, 4, 1_024, 3)
}

/// Whether it is installed with 41 sectors, a superblock and two syncs, and found with as many reads and one more.
fn is_found_again<R: Abort>(rt: &R, alloc: Global) -> bool {
    let manifest = largest(rt, alloc);
    let mut device = Quiet::new(rt, alloc, SECTORS);
    is_installed(alloc, &mut device, LOG, &manifest)
        && device.calls() == (0, 42, 2)
        && is_found(alloc, &mut device, &manifest)
        && device.calls() == (43, 42, 2)
}

#[test]
fn the_largest_manifest_is_found_again(rt: HostRuntime) {
    assert!(rt; is_found_again(&rt, rt.alloc()));
}

/// Whether the new root is left by an install that ends with so many writes and syncs, of which a crash keeps the first that pends or
/// not. The sixth is the sync after the manifest's five sectors. Behind it the superblock's write alone pends.
fn is_new(fuse: u64, keeps_first: bool) -> bool {
    fuse == 8 || (fuse >= 6 && keeps_first)
}

/// The first byte of a sector that pended before: it is kept where a mask keeps it or a sync was made.
fn byte_behind(fuse: u64, keeps_first: bool) -> u8 {
    if fuse >= 6 || keeps_first { 0xff } else { 0 }
}

/// Whether the old root is left, or the new one where it must be, after an install that ends with so many writes and syncs and
/// a crash under the mask; and a sector behind them that pended before.
fn are_apart<R: Abort>(
    rt: &R,
    alloc: Global,
    (old, new): (&Manifest, &Manifest),
    fuse: u64,
    mask: &[bool],
) -> bool {
    let mut device = Quiet::new(rt, alloc, 8_192);
    let stands = is_installed(alloc, &mut device, LOG, old);
    let pends = device.put(130, &[0xff; 512]);
    device.fuse(fuse);
    let is_made = is_installed(alloc, &mut device, LOG, new);
    let mut left = device.crash(mask);
    let keeps_first = mask.first() == Some(&true);
    let is_kept = left.sector(130)[0] == byte_behind(fuse, keeps_first);
    let is_there = is_found(
        alloc,
        &mut left,
        one_of(old, new, is_new(fuse, keeps_first)),
    );
    stands && pends && is_made == (fuse == 8) && is_kept && is_there
}

/// The new one of two, or the old one.
fn one_of<'m>(old: &'m Manifest, new: &'m Manifest, is_new: bool) -> &'m Manifest {
    if is_new { new } else { old }
}

#[test]
fn a_crash_leaves_the_old_root_or_the_new_one(rt: HostRuntime) {
    // Its text has 32 bytes, 17 for each log record, and 20 for each table.
    let (old, new) = (
        manifest(&rt, rt.alloc(), 3, 0, 0),
        manifest(&rt, rt.alloc(), 4, 100, 3),
    );
    let masks: [&[bool]; 4] = [&[], &[true], &[false, true], &[true; 7]];
    for fuse in 0..9u64 {
        for mask in masks {
            assert!(rt;
                are_apart(&rt, rt.alloc(), (&old, &new), fuse, mask),
                "{fuse}"
            );
        }
    }
}

/// Where a table lies: its first block, and how many data blocks and index blocks it has.
type Place = (u32, u8, u8);

/// What refuses to load a device of 8,192 sectors with a table in this place.
fn refused<R: Abort>(rt: &R, alloc: Global, log_sectors: u16, place: Place) -> Option<Refusal> {
    let mut device = Quiet::new(rt, alloc, 8_192);
    assert!(rt;
        is_installed(
            alloc,
            &mut device,
            log_sectors,
            &manifest(rt, alloc, 1, 1, 0)
        )
    );
    // The table of generation 1, which has no log record.
    let mut sector = device.sector(66);
    sector[42..46].copy_from_slice(&place.0.to_be_bytes());
    sector[46] = place.1;
    sector[47] = place.2;
    assert!(rt; device.put(66, &sector));
    load(alloc, &mut device).err()
}

#[test]
fn tables_in_the_data_area_and_behind_it(rt: HostRuntime) {
    // 959 blocks with log regions of 128 sectors, and 239 with 2,048; then 6 sectors are left, too few for a block.
    for (log_sectors, place, refusal) in [
        (128, (955, 1, 1), None),
        (128, (956, 1, 1), Some(Refusal::BadManifest)),
        (128, (888, 64, 5), None),
        (128, (889, 64, 5), Some(Refusal::BadManifest)),
        (128, (959, 1, 1), Some(Refusal::BadManifest)),
        (128, (4_294_967_225, 64, 5), Some(Refusal::BadManifest)),
        (2_048, (235, 1, 1), None),
        (2_048, (236, 1, 1), Some(Refusal::BadManifest)),
    ] {
        assert!(rt;
            refused(&rt, rt.alloc(), log_sectors, place) == refusal,
            "{log_sectors}"
        );
    }
}

/// What refuses to load the largest manifest, where its superblock names so many sectors.
fn refused_with_sectors<R: Abort>(rt: &R, alloc: Global, sectors: u8) -> Option<Refusal> {
    let mut device = Quiet::new(rt, alloc, SECTORS);
    assert!(rt; is_installed(alloc, &mut device, LOG, &largest(rt, alloc)));
    let mut sector = device.sector(0);
    sector[21] = sectors;
    assert!(rt; device.put(0, &sector));
    load(alloc, &mut device).err()
}

#[test]
fn a_superblock_that_names_too_few_sectors_or_too_many(rt: HostRuntime) {
    for (sectors, refusal) in [
        (40, Some(Refusal::BadManifest)),
        (41, None),
        (42, Some(Refusal::BadManifest)),
    ] {
        assert!(rt;
            refused_with_sectors(&rt, rt.alloc(), sectors) == refusal,
            "{sectors}"
        );
    }
}
