//! Which roots are loaded, and which are refused.

use crate::root::installed::{LOG, is_installed, manifest};
use crate::root::quiet::Quiet;
use lsm_codec::{FormatVersion, Superblock};
use lsm_device::{MemDevice, Refusal};
use lsm_root::load;
use std::alloc::Global;
use std::process::Abort;

const SECTORS: u32 = 8_192;

/// What stands in a superblock's place.
#[derive(Clone, Copy)]
enum Place {
    Blank,
    Ones,
    /// A superblock of this generation, this many sectors, and this LOG.
    Of(u64, u32, u16),
    /// The same in version 1 of the format.
    Old(u64),
}

/// The sector of a superblock that names one manifest sector.
fn superblock(
    version: FormatVersion,
    generation: u64,
    sectors: u32,
    log_sectors: u16,
) -> [u8; 512] {
    Superblock {
        version,
        generation,
        sectors,
        log_sectors,
        manifest_sectors: 1,
    }
    .encode()
}

fn sector(place: Place) -> [u8; 512] {
    match place {
        Place::Blank => [0; 512],
        Place::Ones => [0xff; 512],
        Place::Of(generation, sectors, log_sectors) => {
            superblock(FormatVersion::Two, generation, sectors, log_sectors)
        }
        Place::Old(generation) => superblock(FormatVersion::One, generation, SECTORS, LOG),
    }
}

/// A device on which the generations 1 and 2 were installed.
fn two_stand<R: Abort>(rt: &R, alloc: Global) -> Quiet {
    let mut device = Quiet::new(rt, alloc, SECTORS);
    for generation in 1..=2u64 {
        let next = manifest(rt, alloc, generation, 0, 0);
        assert!(rt; is_installed(alloc, &mut device, LOG, &next));
    }
    device
}

/// The generation that is loaded, or the refusal, where these superblocks stand over the manifests of generations 1 and 2.
fn loaded<R: Abort>(rt: &R, alloc: Global, even: Place, odd: Place) -> Result<u64, Refusal> {
    let mut device = two_stand(rt, alloc);
    assert!(rt; device.put(0, &sector(even)) && device.put(1, &sector(odd)));
    Ok(load(alloc, &mut device)?.manifest.generation())
}

const ONE: Place = Place::Of(1, SECTORS, LOG);

const TWO: Place = Place::Of(2, SECTORS, LOG);

/// Superblocks, the generation that is loaded or the refusal, and what they are.
const SUPERBLOCKS: &[(Place, Place, Result<u64, Refusal>, &str)] = &[
    (TWO, ONE, Ok(2), "the newer"),
    (TWO, Place::Blank, Ok(2), "a lone one"),
    (Place::Blank, ONE, Ok(1), "a lone one"),
    (Place::Old(2), Place::Old(1), Ok(2), "version 1"),
    (TWO, Place::Old(1), Ok(2), "the first of version 2"),
    (
        Place::Blank,
        Place::Old(1),
        Ok(1),
        "a lone one of version 1",
    ),
    (
        Place::Old(2),
        Place::Blank,
        Ok(2),
        "a lone one of version 1",
    ),
    (Place::Blank, Place::Blank, Err(Refusal::NotAStore), "none"),
    (
        Place::Ones,
        Place::Blank,
        Err(Refusal::BadSuper),
        "no superblock",
    ),
    (
        Place::Blank,
        Place::Ones,
        Err(Refusal::BadSuper),
        "no superblock",
    ),
    (TWO, Place::Ones, Err(Refusal::BadSuper), "no superblock"),
    (
        ONE,
        Place::Blank,
        Err(Refusal::BadSuper),
        "in the wrong sector",
    ),
    (
        Place::Blank,
        TWO,
        Err(Refusal::BadSuper),
        "in the wrong sector",
    ),
    (ONE, TWO, Err(Refusal::BadSuper), "in the wrong sector"),
    (
        TWO,
        Place::Of(5, SECTORS, LOG),
        Err(Refusal::BadSuper),
        "not one apart",
    ),
    (
        Place::Of(4, SECTORS, LOG),
        ONE,
        Err(Refusal::BadSuper),
        "not one apart",
    ),
    (
        TWO,
        Place::Of(1, SECTORS, 129),
        Err(Refusal::BadSuper),
        "of two sizes",
    ),
    (
        TWO,
        Place::Of(1, 8_193, LOG),
        Err(Refusal::BadSuper),
        "of two sizes",
    ),
    (
        Place::Old(2),
        ONE,
        Err(Refusal::BadSuper),
        "version 1 after version 2",
    ),
    (
        TWO,
        Place::Old(3),
        Err(Refusal::BadSuper),
        "version 1 after version 2",
    ),
    (
        Place::Of(2, 8_200, LOG),
        Place::Blank,
        Err(Refusal::BadGeometry),
        "another device's",
    ),
    (
        Place::Blank,
        Place::Of(1, 8_200, LOG),
        Err(Refusal::BadGeometry),
        "another device's",
    ),
    (
        Place::Of(4, SECTORS, LOG),
        Place::Blank,
        Err(Refusal::BadManifest),
        "another manifest",
    ),
    (
        Place::Blank,
        Place::Of(3, SECTORS, LOG),
        Err(Refusal::BadManifest),
        "another manifest",
    ),
];

#[test]
fn superblocks_that_are_loaded_and_refused(rt: HostRuntime) {
    for (even, odd, answer, what) in SUPERBLOCKS {
        assert!(rt; loaded(&rt, rt.alloc(), *even, *odd) == *answer, "{what}");
    }
}

/// What is loaded where one byte of the newer manifest is this. Generation 1 stands whole, and there is no falling back to it.
fn loaded_with<R: Abort>(rt: &R, alloc: Global, at: usize, byte: u8) -> Result<u64, Refusal> {
    let mut device = two_stand(rt, alloc);
    let mut sector = device.sector(2);
    if at < 512 {
        sector[at] = byte;
    }
    assert!(rt; device.put(2, &sector));
    Ok(load(alloc, &mut device)?.manifest.generation())
}

#[test]
fn manifests_that_are_refused(rt: HostRuntime) {
    for (at, byte, answer) in [
        (0, b'L', Ok(2)), // The manifest itself.
        (0, b'M', Err(Refusal::BadManifest)), // Another first byte.
        (11, 0, Err(Refusal::BadManifest)), // Another generation.
    ] {
        assert!(rt; loaded_with(&rt, rt.alloc(), at, byte) == answer, "{at}");
    }
}

/// What refuses a blank device of this size.
fn refused_at<R: Abort>(rt: &R, alloc: Global, sectors: u32) -> Option<Refusal> {
    let mut device = MemDevice::new(alloc, sectors).expect(rt, "memory");
    load(alloc, &mut device).err()
}

#[test]
fn small_devices_that_are_refused(rt: HostRuntime) {
    for (sectors, refusal) in [
        (0, Refusal::BadGeometry),
        (1, Refusal::BadGeometry),
        (2, Refusal::NotAStore),
        (8_191, Refusal::NotAStore),
    ] {
        assert!(rt;
            refused_at(&rt, rt.alloc(), sectors) == Some(refusal),
            "{sectors}"
        );
    }
}
