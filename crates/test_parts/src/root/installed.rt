//! Manifests that are installed and loaded.

use crate::codec::manifests::is_same;
use crate::root::quiet::Quiet;
use lsm_codec::{FormatVersion, LogRecord, Manifest, TableRecord};
use lsm_device::Device;
use lsm_root::{install, is_geometry, lie_inside, load};
use std::alloc::Global;
use std::process::Abort;

/// The sectors of a log region.
pub const LOG: u16 = 128;

/// A table of four blocks with an entry, in level 1.
pub fn table(number: u64, first_block: u32) -> TableRecord {
    TableRecord {
        number,
        level: 1,
        run: 0,
        first_block,
        data_blocks: 1,
        index_blocks: 1,
        entries: 1,
        deletes: Some(0),
    }
}

/// A manifest with so many tables in level 1, one behind the other, and the log records of so many regions.
pub fn manifest<R: Abort>(
    rt: &R,
    alloc: Global,
    generation: u64,
    tables: u32,
    regions: u8,
) -> Manifest {
    let mut records = Vec::new(alloc);
    for at in 0..tables {
        records
            .push(table(at as u64, at.wrapping_mul(4)))
            .expect(rt, "memory");
    }
    let mut logs = Vec::new(alloc);
    for region in 0..regions {
        let number = region as u64 + 1;
        let record = LogRecord {
            region,
            epoch: number,
            first_batch: number,
        };
        logs.push(record).expect(rt, "memory");
    }
    Manifest::new(generation, 0, tables as u64 + 1, 0, logs, records)
}

/// Whether the manifest is one for the device and is installed there.
pub fn is_installed(
    alloc: Global,
    device: &mut Quiet,
    log_sectors: u16,
    manifest: &Manifest,
) -> bool {
    let sectors = device.sectors();
    is_geometry(sectors, log_sectors)
        && manifest.is_within_limits()
        && manifest.is_of_version(FormatVersion::Two)
        && lie_inside(manifest.tables(), sectors, log_sectors)
        && install(alloc, device, log_sectors, manifest).is_ok()
}

/// Whether just this manifest is loaded.
pub fn is_found(alloc: Global, device: &mut Quiet, manifest: &Manifest) -> bool {
    match load(alloc, device) {
        Ok(loaded) => loaded.log_sectors == LOG && is_same(&loaded.manifest, manifest),
        Err(_) => false,
    }
}
