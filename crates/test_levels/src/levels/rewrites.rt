//! What a rewrite leaves of the levels.

use crate::levels::rewriting::rewrite;
use crate::tables::{Put, Puts, have_numbers, levels_of, runs_have_numbers};
use lsm_levels::Levels;
use std::process::Abort;

/// Whether the runs of level 0, and the levels from 1 to 4, have these numbers.
fn stand<R: Abort>(rt: &R, levels: &Levels, runs: &[u64], deeper: &[&[u64]; 4]) {
    assert!(rt; runs_have_numbers(levels.runs(), runs), "{runs:?}");
    for (run, numbers) in levels.deeper().iter().zip(deeper) {
        assert!(rt; have_numbers(run.tables(), numbers), "{numbers:?}");
    }
}

/// A run of level 0, and tables in each other level.
const RUNS: &[&[Put]] = &[&[(2, 0x62)]];

const DEEPER: &[&[Put]] = &[
    &[(5, 0x61), (4, 0x62), (7, 0x63)],
    &[(6, 0x62)],
    &[(8, 0x62)],
    &[(9, 0x62), (10, 0x64)],
];

/// The number of a table, the put as which it is rewritten, whether that is done, and the tables of the levels from 1 to 4 then.
type Case = (u64, Put, bool, [&'static [u64]; 4]);

const CASES: &[Case] = &[
    // The tables of the key 0x62 become others, one after the other, where each has one above it and below it.
    (4, (20, 0x62), true, [&[5, 20, 7], &[6], &[8], &[9, 10]]),
    (8, (21, 0x62), true, [&[5, 20, 7], &[6], &[21], &[9, 10]]),
    (9, (22, 0x62), true, [&[5, 20, 7], &[6], &[21], &[22, 10]]),
    // A table of level 0, and one that lies beside.
    (2, (23, 0x62), false, [&[5, 20, 7], &[6], &[21], &[22, 10]]),
    (6, (23, 0x63), false, [&[5, 20, 7], &[6], &[21], &[22, 10]]),
];

#[test]
fn a_rewrite_leaves_the_other_levels(rt: HostRuntime) {
    let mut levels = levels_of(&rt, rt.alloc(), RUNS, DEEPER);
    stand(&rt, &levels, &[2], &[&[5, 4, 7], &[6], &[8], &[9, 10]]);
    for &(number, put, is_done, deeper) in CASES {
        let table = put.table(&rt, rt.alloc());
        assert!(rt;
            rewrite(rt.alloc(), &mut levels, number, table) == is_done,
            "{number}"
        );
        stand(&rt, &levels, &[2], &deeper);
    }
}
