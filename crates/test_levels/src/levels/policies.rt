//! What a policy advises to merge.

use self::Advice::{Nothing, Runs, Tables};
use crate::slots::Slots;
use crate::tables::{Put, levels_of};
use lsm_levels::{Choice, Levels};
use lsm_policy::Policy;
use std::alloc::Global;
use std::process::Abort;

/// What is advised: nothing, so many of the oldest runs, or the tables from one to another.
#[derive(Clone, Copy)]
enum Advice {
    Nothing,
    Runs(usize),
    Tables(u64, u64),
}

/// How many blocks are free, how slots are held, and what is advised.
type Case = (u32, Slots, Advice);

/// Runs of level 0, the oldest first; the levels from 1 on; and cases of them.
type Shape = (
    &'static [&'static [Put]],
    &'static [&'static [Put]],
    &'static [Case],
);

/// Whether that is advised.
fn is_advised(levels: &Levels, (free_blocks, held, advice): Case) -> bool {
    let wanted = match advice {
        Nothing => None,
        Runs(count) => Some(Choice::OldestRuns { count }),
        Tables(first, last) => Some(Choice::Tables { first, last }),
    };
    Policy::new().next_choice(levels, free_blocks, &held) == wanted
}

/// A merge of level 0 that takes in none of the tables here.
const OF_LEVEL_0: Slots = Slots::Merge { level: 0, table: 0 };

/// A merge of level 1 that takes in the table 15.
const TAKES_15: Slots = Slots::Merge {
    level: 1,
    table: 15,
};

/// A merge of level 3.
const OF_LEVEL_3: Slots = Slots::Merge { level: 3, table: 0 };

/// Three runs go, as many as find room. Each table has four blocks.
const THREE_RUNS: Shape = (
    &[&[(2, 0x61)], &[(3, 0x62)], &[(4, 0x63)]],
    &[],
    &[
        (100, Slots::Free, Runs(3)),
        (100, Slots::Flush, Runs(3)),
        (12, Slots::Free, Runs(3)),
        (11, Slots::Free, Runs(2)),
        (7, Slots::Free, Runs(1)),
        (3, Slots::Free, Nothing),
        (100, OF_LEVEL_0, Nothing),
        (100, Slots::Several, Nothing),
    ],
);

/// Two runs stay.
const TWO_RUNS: Shape = (
    &[&[(2, 0x61)], &[(3, 0x62)]],
    &[],
    &[(100, Slots::Free, Nothing)],
);

/// Five tables of four blocks.
const FIVE: &[Put] = &[(15, 0x61), (14, 0x62), (17, 0x63), (11, 0x64), (19, 0x65)];

/// Neighbours of a level over its limit go together. Of 120 blocks a level may have 16. Nothing meets the first four, so they go for
/// nothing.
const OVER_LIMIT: Shape = (
    &[],
    &[FIVE, &[(20, 0x65)]],
    &[
        (100, Slots::Free, Tables(15, 11)),
        // Beside another merge one goes alone: the first of those that meet nothing.
        (100, OF_LEVEL_3, Tables(15, 15)),
        (100, TAKES_15, Tables(14, 14)),
        (100, Slots::Several, Nothing),
        // Where room is scarce the oldest goes, with as many as find room.
        (16, Slots::Free, Tables(15, 11)),
        (8, Slots::Free, Tables(17, 11)),
        (3, Slots::Free, Nothing),
    ],
);

/// Level 2 may have half of all blocks.
const LEVEL_2: Shape = (
    &[],
    &[&[], FIVE],
    &[
        (20, Slots::Free, Nothing),
        (10, Slots::Free, Tables(17, 11)),
    ],
);

/// Levels within their limits stay.
const WITHIN_LIMITS: Shape = (
    &[],
    &[
        &[(15, 0x61), (14, 0x62), (17, 0x63), (11, 0x64)],
        &[(20, 0x65)],
    ],
    &[(100, Slots::Free, Nothing)],
);

#[test]
fn advice_on_small_levels(rt: HostRuntime) {
    const SHAPES: &[Shape] = &[THREE_RUNS, TWO_RUNS, OVER_LIMIT, LEVEL_2, WITHIN_LIMITS];
    for &(runs, deeper, cases) in SHAPES {
        let levels = levels_of(&rt, rt.alloc(), runs, deeper);
        for case in cases {
            assert!(rt; is_advised(&levels, *case), "{deeper:?} {}", case.0);
        }
    }
}

/// Eight runs of a table each.
const EIGHT_RUNS: &[&[Put]] = &[
    &[(2, 0x61)],
    &[(3, 0x62)],
    &[(4, 0x63)],
    &[(5, 0x64)],
    &[(6, 0x65)],
    &[(7, 0x66)],
    &[(8, 0x67)],
    &[(9, 0x68)],
];

/// What is advised where level 0 has so many runs of a table each, and level 1 so many tables. Each table has four blocks, and there is
/// room for all.
fn advised<R: Abort>(rt: &R, alloc: Global, runs: usize, tables: u8) -> Option<Choice> {
    let mut level_1 = Vec::new(alloc);
    for key in 0..tables {
        level_1
            .push((u32::from(key) + 10, key))
            .expect(rt, "memory");
    }
    let runs = EIGHT_RUNS.get(..runs).unwrap_or(EIGHT_RUNS);
    let levels = levels_of(rt, alloc, runs, &[level_1.as_slice()]);
    Policy::new().next_choice(&levels, 5_000, &Slots::Free)
}

#[test]
fn small_runs_wait_until_they_are_a_quarter_of_level_1_or_eight(rt: HostRuntime) {
    // How many runs, how many tables of level 1, and whether all runs go.
    const CASES: &[(usize, u8, bool)] = &[
        (2, 0, false),
        (3, 0, true),
        (3, 12, true),
        (3, 13, false),
        (7, 28, true),
        (7, 29, false),
        (8, 32, true),
        (8, 33, true),
        (8, 60, true),
    ];
    for &(runs, tables, go) in CASES {
        let wanted = if go {
            Some(Choice::OldestRuns { count: runs })
        } else {
            None
        };
        assert!(rt;
            advised(&rt, rt.alloc(), runs, tables) == wanted,
            "{runs} {tables}"
        );
    }
}

/// Whether a policy by which so many tables are allowed finds room scarce, and finds room for more, where so many blocks are free.
fn room(levels: &Levels, most_tables: usize, free_blocks: u32) -> (bool, bool) {
    let policy = Policy {
        most_tables,
        ..Policy::new()
    };
    (
        policy.is_scarce(levels, free_blocks),
        policy.has_room(levels, free_blocks),
    )
}

#[test]
fn room_is_counted(rt: HostRuntime) {
    // Five tables have twenty blocks.
    let levels = levels_of(&rt, rt.alloc(), &[], &[FIVE]);
    const CASES: &[(usize, u32, (bool, bool))] = &[
        (768, 9, (true, false)),
        (768, 10, (true, true)),
        (768, 19, (true, true)),
        (768, 20, (false, true)),
        // Five tables are at most five, and more than four, however many blocks are free.
        (5, 20, (false, true)),
        (4, 5_000, (true, false)),
    ];
    for &(most_tables, free_blocks, wanted) in CASES {
        assert!(rt;
            room(&levels, most_tables, free_blocks) == wanted,
            "{free_blocks}"
        );
    }
}
