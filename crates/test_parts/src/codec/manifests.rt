//! Manifests, and the log records in them.

use crate::codec::texts::are;
use lsm_codec::{FormatVersion, LogRecord, Manifest, TableRecord};
use std::alloc::Global;
use std::process::Abort;

/// The generation, the base, the next table and the runs of a manifest.
pub type Numbers = (u64, u64, u64, u8);

/// The region, the epoch and the first batch of a log record.
pub type Log = (u8, u64, u64);

/// A table's number, level, run, first block, data blocks, index blocks, entries and deletes, or none where they aren't told.
pub type Row = (u64, u8, u8, u32, u8, u8, u16, Option<u16>);

/// The table record of these numbers.
fn record(row: &Row) -> TableRecord {
    let (number, level, run, first_block, data_blocks, index_blocks, entries, deletes) = *row;
    TableRecord {
        number,
        level,
        run,
        first_block,
        data_blocks,
        index_blocks,
        entries,
        deletes,
    }
}

/// A manifest with these records.
pub fn manifest<R: Abort>(
    rt: &R,
    alloc: Global,
    (generation, base, next_table, runs): Numbers,
    logs: &[Log],
    tables: &[Row],
) -> Manifest {
    let mut records = Vec::new(alloc);
    for (region, epoch, first_batch) in logs {
        let record = LogRecord {
            region: *region,
            epoch: *epoch,
            first_batch: *first_batch,
        };
        records.push(record).expect(rt, "memory");
    }
    let mut others = Vec::new(alloc);
    for row in tables {
        others.push(record(row)).expect(rt, "memory");
    }
    Manifest::new(generation, base, next_table, runs, records, others)
}

/// The sectors of a manifest.
pub fn sectors_of<R: Abort>(rt: &R, alloc: Global, manifest: &Manifest) -> Vec<u8> {
    assert!(rt; manifest.logs().len() <= 255 && manifest.tables().len() <= 65_535);
    manifest.encode(alloc).expect(rt, "memory")
}

/// The manifest that the bytes spell in a version, if they spell one.
pub fn read<R: Abort>(
    rt: &R,
    alloc: Global,
    version: FormatVersion,
    bytes: &[u8],
) -> Option<Manifest> {
    Manifest::decode(alloc, version, bytes).expect(rt, "memory")
}

const FORMATTED: &str = "4c534d4d00000000000000010000000000000000000000000000000100000000";

const OPENED: &str = "4c534d4d000000000000000200000000000000000000000000000001\
010000000000000000000000020000000000000001";

/// Whether two manifests are the same.
pub fn is_same(a: &Manifest, b: &Manifest) -> bool {
    a.generation() == b.generation()
        && a.base() == b.base()
        && a.next_table() == b.next_table()
        && a.runs() == b.runs()
        && a.logs() == b.logs()
        && a.tables() == b.tables()
}

/// Whether the manifest is within the limits, as `fits` says, and just then read back from its sectors in a version.
pub fn is_limited<R: Abort>(
    rt: &R,
    alloc: Global,
    version: FormatVersion,
    manifest: &Manifest,
    fits: bool,
) -> bool {
    let is_within = manifest.is_within_limits();
    match read(rt, alloc, version, &sectors_of(rt, alloc, manifest)) {
        Some(again) => fits && is_within && is_same(&again, manifest),
        None => !fits && !is_within,
    }
}

/// Whether the manifest is spelled so in a version, and read back.
pub fn is_spelled<R: Abort>(
    rt: &R,
    alloc: Global,
    version: FormatVersion,
    manifest: &Manifest,
    text: &str,
) -> bool {
    are(&sectors_of(rt, alloc, manifest), text) && is_limited(rt, alloc, version, manifest, true)
}

#[test]
fn manifests_of_a_format_and_an_open(rt: HostRuntime) {
    for (generation, logs, text) in [(1, [].as_slice(), FORMATTED), (2, &[(0, 2, 1)], OPENED)] {
        let manifest = manifest(&rt, rt.alloc(), (generation, 0, 1, 0), logs, &[]);
        assert!(rt; is_spelled(&rt, rt.alloc(), FormatVersion::Two, &manifest, text));
    }
}

/// Whether a manifest without a table is within the limits and read back, as `fits` says.
fn are_limited<R: Abort>(
    rt: &R,
    alloc: Global,
    numbers: Numbers,
    logs: &[Log],
    fits: bool,
) -> bool {
    let manifest = manifest(rt, alloc, numbers, logs, &[]);
    is_limited(rt, alloc, FormatVersion::Two, &manifest, fits)
}

/// Of generation 5, with 7 batches in tables.
const FIVE: Numbers = (5, 7, 1, 0);

#[test]
fn log_records_in_order_and_out_of_it(rt: HostRuntime) {
    let last = (1 << 63) + 1;
    for (first, second, third, fits) in [
        ((2, 3, 8), (0, 4, 9), (1, 5, 20), true), // Three regions.
        ((2, 3, 8), (0, 4, 9), (2, 5, 20), false), // A region twice.
        ((2, 3, 8), (0, 4, 9), (3, 5, 20), false), // A region above 2.
        ((2, 3, 8), (0, 3, 9), (1, 5, 20), false), // An epoch twice.
        ((2, 4, 8), (0, 3, 9), (1, 5, 20), false), // Epochs that fall.
        ((2, 0, 8), (0, 4, 9), (1, 5, 20), false), // Epoch 0.
        ((2, 3, 8), (0, 4, 9), (1, 6, 20), false), // An epoch above the generation.
        ((2, 3, 7), (0, 4, 9), (1, 5, 20), false), // A first batch that is in tables.
        ((2, 3, 9), (0, 4, 10), (1, 5, 20), false), // A first batch too late.
        ((2, 3, 8), (0, 4, 8), (1, 5, 20), false), // A first batch twice.
        ((2, 3, 8), (0, 4, 9), (1, 5, last), true), // No batch left.
        ((2, 3, 8), (0, 4, 9), (1, 5, last + 1), false), // A batch above the last.
    ] {
        assert!(rt; are_limited(&rt, rt.alloc(), FIVE, &[first, second, third], fits));
    }
    let four = [(0, 1, 8), (1, 2, 9), (2, 3, 10), (0, 4, 11)];
    assert!(rt; are_limited(&rt, rt.alloc(), FIVE, &four, false));
}

#[test]
fn numbers_at_their_limits(rt: HostRuntime) {
    let last = 1 << 63;
    for (generation, base, next_table, fits) in [
        (1, 0, 1, true),
        (last, last, last + 1, true),
        (0, 0, 1, false),
        (last + 1, 0, 1, false),
        (1, last + 1, 1, false),
        (1, 0, 0, false),
        (1, 0, last + 2, false),
    ] {
        let numbers = (generation, base, next_table, 0);
        assert!(rt; are_limited(&rt, rt.alloc(), numbers, &[], fits));
    }
}

/// Whether the sectors of the manifest of an open are read with the lowest bit of a byte changed, if it is one of them, and cut
/// down or filled up with zeros to a size.
fn is_read_with<R: Abort>(rt: &R, alloc: Global, at: usize, size: usize) -> bool {
    let opened = manifest(rt, alloc, (2, 0, 1, 0), &[(0, 2, 1)], &[]);
    let mut sectors = sectors_of(rt, alloc, &opened);
    if let Some(byte) = sectors.get_mut(at) {
        *byte ^= 1;
    }
    sectors.resize(size, 0).expect(rt, "memory");
    read(rt, alloc, FormatVersion::Two, &sectors).is_some()
}

#[test]
fn bytes_that_spell_no_manifest(rt: HostRuntime) {
    let none = 9_999;
    for (at, size, is_whole) in [
        (none, 512, true),
        (0, 512, false), // Another first byte.
        (28, 512, false), // Another count of log records.
        (29, 512, false), // A level 0 run.
        (31, 512, false), // A table record.
        (49, 512, false), // A byte behind the text.
        (511, 512, false), // A byte at the end.
        (none, 513, false),
        (none, 1_024, false),
        (none, 511, false),
        (none, 49, false),
        (none, 48, false),
        (none, 31, false),
        (none, 0, false),
    ] {
        let is_read = is_read_with(&rt, rt.alloc(), at, size);
        assert!(rt; is_read == is_whole, "byte {at}, {size} bytes");
    }
}
