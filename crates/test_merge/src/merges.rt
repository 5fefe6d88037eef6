//! What merges keep, and where they are cut.

use crate::cases::{
    EIGHT, NEWER, OLDER, ROW_A, ROW_B, ROW_C, ROW_D, ROW_E, ROW_F, ROW_G, ROW_H, Row, input,
};
use lsm_codec::Entry;
use lsm_merge::{borders, part};
use std::alloc::Global;
use std::process::Abort;

fn is_row(entry: &Entry, row: &Row) -> bool {
    let (key, number, value) = row;
    let has_value = match (entry.value(), value) {
        (Some(found), Some(value)) => found == [*value].as_slice(),
        (None, None) => true,
        _ => false,
    };
    entry.key() == [*key].as_slice() && entry.number() == *number && has_value
}

/// The runs of a merge, its cuts, and whether it is one into the last level.
type Merge<'m> = (&'m [&'m [Row]], &'m [u64], bool);

/// Whether a merge keeps just these versions of a range.
fn keeps<R: Abort>(
    rt: &R,
    alloc: Global,
    (runs, cuts, bottom): Merge<'_>,
    (from, to): (Option<&[u8]>, Option<&[u8]>),
    rows: &[Row],
) -> bool {
    let input = input(rt, alloc, runs, cuts, bottom);
    let kept = part(alloc, &input, from, to).expect(rt, "memory");
    let mut wanted = rows.iter();
    kept.len() == rows.len()
        && kept.iter().all(|entry| wanted.next().is_some_and(|row| is_row(entry, row)))
}

#[test]
fn a_delete_over_a_put(rt: HostRuntime) {
    let runs: [&[Row]; 2] = [&NEWER, &OLDER];
    const BOTH: &[Row] = &[(0x61, 9, None), (0x61, 4, Some(0x31))];
    const CASES: &[(&[u64], bool, &[Row])] = &[
        (&[9], false, &NEWER),
        (&[9], true, &[]),
        (&[4, 9], true, BOTH),
        (&[4, 9], false, BOTH),
        (&[4], true, &OLDER),
        (&[3], false, &[]),
    ];
    for &(cuts, bottom, kept) in CASES {
        assert!(rt; keeps(&rt, rt.alloc(), (&runs, cuts, bottom), (None, None), kept));
    }
    // Of one key and number the newer run counts.
    let newer = [(0x61, 4, Some(0x32))];
    let twice: [&[Row]; 2] = [&newer, &OLDER];
    assert!(rt; keeps(&rt, rt.alloc(), (&twice, &[9], true), (None, None), &newer));
}

#[test]
fn ranges_of_eight_keys(rt: HostRuntime) {
    const CASES: &[(Option<&[u8]>, Option<&[u8]>, &[Row])] = &[
        (None, None, &EIGHT),
        (Some(&[0x62]), Some(&[0x64]), &[ROW_B, ROW_C]),
        (Some(&[0x67]), None, &[ROW_G, ROW_H]),
        (None, Some(&[0x61]), &[]),
        (Some(&[0x69]), None, &[]),
    ];
    for &(from, to, rows) in CASES {
        let eight = [EIGHT.as_slice()];
        assert!(rt; keeps(&rt, rt.alloc(), (&eight, &[1], true), (from, to), rows));
    }
}

/// Eight versions of one key.
const VERSIONS: [Row; 8] = [
    (0x61, 8, None),
    (0x61, 7, None),
    (0x61, 6, None),
    (0x61, 5, None),
    (0x61, 4, None),
    (0x61, 3, None),
    (0x61, 2, None),
    (0x61, 1, None),
];

/// Whether the input of these runs is cut at these keys of one byte.
fn is_cut_at<R: Abort>(rt: &R, alloc: Global, runs: &[&[Row]], parts: u8, keys: &[u8]) -> bool {
    let input = input(rt, alloc, runs, &[9], false);
    let found = borders(&alloc, &input, parts).expect(rt, "memory");
    let mut wanted = keys.iter();
    found.len() == keys.len()
        && found.iter().all(|key| wanted
            .next()
            .is_some_and(|byte| key.as_slice() == [*byte].as_slice()))
}

#[test]
fn borders_of_runs(rt: HostRuntime) {
    const CASES: &[(&[&[Row]], u8, &[u8])] = &[
        (&[&EIGHT], 4, &[0x63, 0x65, 0x67]),
        (&[&[ROW_A, ROW_B, ROW_C]], 8, &[0x61, 0x62, 0x63]),
        (&[&VERSIONS], 4, &[0x61]),
        (&[&EIGHT], 1, &[]),
        (&[&[]], 8, &[]),
        // The first of the longest is cut.
        (
            &[
                &[ROW_A],
                &[ROW_A, ROW_B, ROW_C, ROW_D],
                &[ROW_E, ROW_F, ROW_G, ROW_H],
            ],
            2,
            &[0x63],
        ),
    ];
    for &(runs, parts, keys) in CASES {
        assert!(rt; is_cut_at(&rt, rt.alloc(), runs, parts, keys));
    }
}
