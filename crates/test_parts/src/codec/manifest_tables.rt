//! Manifests with tables.

use crate::codec::manifests::{Row, is_limited, is_spelled, manifest, read, sectors_of};
use lsm_codec::FormatVersion;
use std::alloc::Global;
use std::process::Abort;

const ONE_TABLE: &str = "4c534d4d000000000000000400000000000000010000000000000002\
000100010000000000000001000000000000010100010000";

/// The same in version 1, where a record doesn't tell the deletes.
const ONE_TABLE_OLD: &str = "4c534d4d000000000000000400000000000000010000000000000002\
00010001000000000000000100000000000001010001";

#[test]
fn a_manifest_with_a_table(rt: HostRuntime) {
    for (version, deletes, text) in [
        (FormatVersion::Two, Some(0), ONE_TABLE),
        (FormatVersion::One, None, ONE_TABLE_OLD),
    ] {
        let row = (1, 0, 0, 0, 1, 1, 1, deletes);
        let manifest = manifest(&rt, rt.alloc(), (4, 1, 2, 1), &[], &[row]);
        assert!(rt; is_spelled(&rt, rt.alloc(), version, &manifest, text));
    }
}

/// Whether a manifest of two tables of seven entries, which tell these deletes or none, is read back in versions 1 and 2.
fn read_back<R: Abort>(
    rt: &R,
    alloc: Global,
    first: Option<u16>,
    second: Option<u16>,
) -> (bool, bool) {
    let tables = [(1, 1, 0, 0, 1, 1, 7, first), (2, 1, 0, 4, 1, 1, 7, second)];
    let sectors = sectors_of(rt, alloc, &manifest(rt, alloc, (4, 1, 4, 0), &[], &tables));
    (
        read(rt, alloc, FormatVersion::One, &sectors).is_some(),
        read(rt, alloc, FormatVersion::Two, &sectors).is_some(),
    )
}

#[test]
fn each_version_reads_its_own_records(rt: HostRuntime) {
    for (first, second, one, two) in [
        (None, None, true, false),
        (Some(0), Some(3), false, true),
        (None, Some(3), false, false),
        // The zeros behind the text are the second table's count.
        (Some(3), None, false, true),
        // Deletes are at most the entries.
        (Some(0), Some(0), false, true),
        (Some(0), Some(7), false, true),
        (Some(0), Some(8), false, false),
        (Some(0), Some(65_535), false, false),
    ] {
        assert!(rt; read_back(&rt, rt.alloc(), first, second) == (one, two));
    }
}

/// Whether a manifest of so many runs with these tables, and table number 4 to come, is within the limits, as `fits`
/// says, and just then read.
fn are_limited<R: Abort>(rt: &R, alloc: Global, runs: u8, rows: &[Row], fits: bool) -> bool {
    let manifest = manifest(rt, alloc, (4, 1, 4, runs), &[], rows);
    is_limited(rt, alloc, FormatVersion::Two, &manifest, fits)
}

const A: Row = (1, 0, 0, 0, 1, 1, 1, Some(0));

const B: Row = (2, 0, 1, 4, 1, 1, 1, Some(0));

const C: Row = (3, 1, 0, 8, 1, 1, 1, Some(0));

const NONE: Option<u16> = Some(0);

#[test]
fn table_records_in_order_and_out_of_it(rt: HostRuntime) {
    const CASES: &[(&str, u8, [Row; 3], bool)] = &[
        ("in order", 2, [A, B, C], true),
        ("the later run first", 2, [B, A, C], false),
        ("the later level first", 2, [C, A, B], false),
        (
            "a number twice",
            2,
            [A, (1, 0, 1, 4, 1, 1, 1, NONE), C],
            false,
        ),
        (
            "the next number",
            2,
            [A, B, (4, 1, 0, 8, 1, 1, 1, NONE)],
            false,
        ),
        (
            "the first blocks meet",
            2,
            [A, (2, 0, 1, 3, 1, 1, 1, NONE), C],
            false,
        ),
        (
            "the last blocks meet",
            2,
            [A, B, (3, 1, 0, 0, 1, 1, 1, NONE)],
            false,
        ),
        (
            "apart, in no order",
            2,
            [(1, 0, 0, 8, 1, 1, 1, NONE), B, (3, 1, 0, 0, 1, 1, 1, NONE)],
            true,
        ),
        ("a run without a record", 3, [A, B, C], false),
        ("a run that is NONE", 1, [A, B, C], false),
        (
            "two tables of a run",
            1,
            [A, (2, 0, 0, 4, 1, 1, 1, NONE), C],
            true,
        ),
        (
            "two tables of a level",
            0,
            [(1, 1, 0, 0, 1, 1, 1, NONE), (2, 1, 0, 4, 1, 1, 1, NONE), C],
            true,
        ),
    ];
    for &(what, runs, rows, fits) in CASES {
        assert!(rt; are_limited(&rt, rt.alloc(), runs, &rows, fits), "{what}");
    }
}

#[test]
fn table_records_at_their_limits(rt: HostRuntime) {
    let none = Some(0);
    for (row, fits) in [
        ((3, 1, 0, 0, 1, 1, 1, none), true),
        ((3, 4, 0, 0, 64, 5, 3_200, none), true),
        ((3, 4, 0, 4_294_967_225, 64, 5, 3_200, none), true), // The last block is 2^32 - 1.
        ((3, 4, 0, 4_294_967_226, 64, 5, 3_200, none), false),
        ((3, 5, 0, 0, 1, 1, 1, none), false), // A level above 4.
        ((3, 1, 1, 0, 1, 1, 1, none), false), // A run in level 1.
        ((3, 0, 0, 0, 1, 1, 1, none), false), // A run in level 0, which has none.
        ((3, 1, 0, 0, 0, 1, 1, none), false), // No data block.
        ((3, 1, 0, 0, 65, 1, 1, none), false),
        ((3, 1, 0, 0, 1, 0, 1, none), false), // No index block.
        ((3, 1, 0, 0, 1, 6, 1, none), false),
        ((3, 1, 0, 0, 1, 1, 0, none), false), // No entry.
        ((3, 1, 0, 0, 1, 1, 3_201, none), false),
        ((3, 1, 0, 0, 1, 1, 1, Some(2)), false), // More deletes than entries.
    ] {
        assert!(rt; are_limited(&rt, rt.alloc(), 0, &[row], fits));
    }
}

/// Whether a manifest with so many tables of level 0, each a run of its own, or all in level 1, takes so many bytes, and is
/// within the limits, as `fits` says.
fn takes<R: Abort>(
    rt: &R,
    alloc: Global,
    (count, level): (u16, u8),
    bytes: usize,
    fits: bool,
) -> bool {
    let mut rows = Vec::new(alloc);
    for at in 0..count {
        let run = if level == 0 { (at % 256) as u8 } else { 0 };
        let row = (at as u64, level, run, at as u32 * 71, 64, 5, 3_200, Some(0));
        rows.push(row).expect(rt, "memory");
    }
    let runs = if level == 0 { (count % 256) as u8 } else { 0 };
    let logs = [(0, 1, 2), (1, 2, 3), (2, 3, 4)];
    let manifest = manifest(rt, alloc, (4, 1, 2_000, runs), &logs, &rows);
    sectors_of(rt, alloc, &manifest).len() == bytes
        && is_limited(rt, alloc, FormatVersion::Two, &manifest, fits)
}

#[test]
fn the_most_runs_and_tables(rt: HostRuntime) {
    for (tables, bytes, fits) in [
        ((12, 0), 512, true),
        ((13, 0), 512, false),
        ((1_024, 1), 20_992, true),
        ((1_025, 1), 20_992, false),
    ] {
        assert!(rt; takes(&rt, rt.alloc(), tables, bytes, fits));
    }
}
