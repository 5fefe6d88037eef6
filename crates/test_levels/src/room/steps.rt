//! Which step comes next.

use crate::room::areas::area_of;
use crate::slots::Slots;
use crate::tables::{PutKeys, levels_of, no_tables};
use lsm_extent::Extents;
use lsm_levels::{Choice, Levels};
use lsm_room::{Advice, Outputs, Standing};
use std::alloc::{AllocError, Global};

/// What is advised: nothing; a choice with so many divisions, which is sure to find room or not; or that room lacks for a choice.
#[derive(Clone, Copy, Debug, PartialEq, Eq)]
enum Advised {
    Nothing,
    Take(Choice, usize),
    Try(Choice, usize),
    Lacks(Choice),
    NoMemory,
}

fn standing<'a>(levels: &'a Levels, extents: &'a Extents, held: &'a Slots) -> Standing<'a, Slots> {
    Standing {
        levels,
        extents,
        held,
        live: false,
    }
}

fn as_advised(advice: Result<Advice, AllocError>) -> Advised {
    match advice {
        Ok(Advice::Nothing) => Advised::Nothing,
        Ok(Advice::Take(step)) => Advised::Take(step.choice, step.divisions.len()),
        Ok(Advice::Try(step)) => Advised::Try(step.choice, step.divisions.len()),
        Ok(Advice::Lacks { choice, wanted: _ }) => Advised::Lacks(choice),
        Err(_) => Advised::NoMemory,
    }
}

/// The next step down.
fn down(alloc: Global, levels: &Levels, extents: &Extents) -> Advised {
    let held = Slots::Free;
    as_advised(standing(levels, extents, &held).step_down(&alloc))
}

/// The next move, and the next joining.
fn aside_and_together(alloc: Global, levels: &Levels, extents: &Extents) -> (Advised, Advised) {
    let held = Slots::Free;
    let standing = standing(levels, extents, &held);
    let aside = as_advised(standing.step_aside(&alloc));
    (aside, as_advised(standing.step_together(&alloc)))
}

/// A table alone goes down.
fn table(number: u64) -> Choice {
    Choice::Tables {
        first: number,
        last: number,
    }
}

/// Neighbours are written anew.
fn rewrite(first: u64, last: u64) -> Choice {
    Choice::Rewrite { first, last }
}

/// A table of one key.
const ALONE: &[PutKeys] = &[(1, &[&[0x61]])];

/// A table whose extent begins at block 9.
const NINE: &[&[PutKeys]] = &[&[(9, &[&[0x61]])]];

/// A table over three of the next level, which lie higher than 10 blocks.
const OVER_THREE: &[&[PutKeys]] = &[
    &[(11, &[&[0x61], &[0x7a]])],
    &[(12, &[&[0x61]]), (13, &[&[0x6d]]), (14, &[&[0x7a]])],
];

/// Five tables.
const FIVE: &[PutKeys] = &[
    (1, &[&[0x61]]),
    (2, &[&[0x62]]),
    (3, &[&[0x63]]),
    (4, &[&[0x64]]),
    (5, &[&[0x65]]),
];

#[test]
fn tables_go_down(rt: HostRuntime) {
    let extents = area_of(&rt, rt.alloc(), 1, 500);
    let none = no_tables(&rt, rt.alloc());
    assert!(rt; down(rt.alloc(), &none, &extents) == Advised::Nothing);
    // Level 2 is the last one in a small area.
    let last = levels_of(&rt, rt.alloc(), &[], &[&[], ALONE]);
    assert!(rt; down(rt.alloc(), &last, &extents) == Advised::Nothing);
    let first = levels_of(&rt, rt.alloc(), &[], &[ALONE]);
    assert!(rt; down(rt.alloc(), &first, &extents) == Advised::Take(table(1), 0));
    let run = levels_of(&rt, rt.alloc(), &[ALONE], &[]);
    let oldest = Choice::OldestRuns { count: 1 };
    assert!(rt; down(rt.alloc(), &run, &extents) == Advised::Take(oldest, 0));
}

#[test]
fn what_choices_make(rt: HostRuntime) {
    let levels = levels_of(&rt, rt.alloc(), &[], OVER_THREE);
    let extents = area_of(&rt, rt.alloc(), 1, 6);
    let held = Slots::Free;
    let standing = standing(&levels, &extents, &held);
    // The merge may make one table of two data blocks, and a copy makes one of a single block; each has three blocks besides.
    for (choice, wanted) in [
        (table(11), Some((6, 1))),
        (rewrite(14, 14), Some((4, 1))),
        (table(15), None),
    ] {
        let made = standing.outputs(choice);
        assert!(rt; made.map(|outputs| (outputs.blocks, outputs.tables)) == wanted);
    }
}

#[test]
fn outputs_find_room(rt: HostRuntime) {
    let levels = no_tables(&rt, rt.alloc());
    let held = Slots::Free;
    // All blocks of one gap. In two gaps of 5 blocks a table of 3 may begin at 3 blocks each, so 3 + 6 - 1 blocks find room. None of
    // the tables has more blocks than all together.
    const CASES: &[(u32, u32, u64, u64, bool)] = &[
        (1, 10, 10, 3, true),
        (1, 10, 11, 3, false),
        (2, 5, 8, 3, true),
        (2, 5, 9, 3, false),
        (2, 5, 6, 6, false),
        (2, 5, 5, 60, true),
        (2, 5, u64::MAX, 5, false),
    ];
    for &(gaps, free, blocks, largest, wanted) in CASES {
        let extents = area_of(&rt, rt.alloc(), gaps, free);
        let outputs = Outputs {
            blocks,
            largest,
            tables: 1,
        };
        let found = standing(&levels, &extents, &held).has_room(outputs);
        assert!(rt; found == wanted, "{gaps} {blocks} {largest}");
    }
}

#[test]
fn small_steps_where_room_is_scarce(rt: HostRuntime) {
    const MERGE: Choice = Choice::Tables {
        first: 11,
        last: 11,
    };
    const CUT: Choice = Choice::Rewrite {
        first: 11,
        last: 11,
    };
    const MOVE: Choice = Choice::Rewrite {
        first: 14,
        last: 14,
    };
    let levels = levels_of(&rt, rt.alloc(), &[], OVER_THREE);
    // The merge may make one table of two data blocks: 6 blocks. A cut makes two tables of 4 blocks at most. A copy takes 4, and where that
    // leaves the longest gap as long, the table that lies highest is moved.
    const CASES: &[(u32, u32, Advised)] = &[
        (1, 6, Advised::Take(MERGE, 0)),
        (1, 5, Advised::Lacks(MERGE)),
        (3, 5, Advised::Take(CUT, 1)),
        (2, 4, Advised::Take(MOVE, 0)),
        (2, 3, Advised::Lacks(MERGE)),
    ];
    for &(gaps, blocks, wanted) in CASES {
        let extents = area_of(&rt, rt.alloc(), gaps, blocks);
        assert!(rt;
            down(rt.alloc(), &levels, &extents) == wanted,
            "{gaps} {blocks}"
        );
    }
}

#[test]
fn moves_and_joinings(rt: HostRuntime) {
    const ALL: Choice = Choice::Rewrite { first: 1, last: 5 };
    let extents = area_of(&rt, rt.alloc(), 1, 500);
    let five = levels_of(&rt, rt.alloc(), &[], &[FIVE]);
    // A move would make the only gap shorter.
    let together = (Advised::Nothing, Advised::Take(rewrite(1, 5), 0));
    assert!(rt; aside_and_together(rt.alloc(), &five, &extents) == together);
    // One entry each goes into one data block, so four blocks are enough for the table of all. By the number of their data blocks they
    // might take eight.
    const CASES: &[(u32, Advised)] = &[
        (8, Advised::Take(ALL, 0)),
        (7, Advised::Try(ALL, 0)),
        (4, Advised::Try(ALL, 0)),
        (3, Advised::Nothing),
    ];
    for &(blocks, wanted) in CASES {
        let gap = area_of(&rt, rt.alloc(), 1, blocks);
        let (_, joined) = aside_and_together(rt.alloc(), &five, &gap);
        assert!(rt; joined == wanted, "{blocks}");
    }
    // A table right behind the gap of blocks 5 to 8, whose copy takes that of blocks 0 to 3: then 8 lie side by side.
    let nine = levels_of(&rt, rt.alloc(), &[], NINE);
    let gaps = area_of(&rt, rt.alloc(), 2, 4);
    let aside = (Advised::Take(rewrite(9, 9), 0), Advised::Nothing);
    assert!(rt; aside_and_together(rt.alloc(), &nine, &gaps) == aside);
    // Four tables are not too many, and no gap has room for a copy.
    let few = levels_of(&rt, rt.alloc(), &[], OVER_THREE);
    let full = area_of(&rt, rt.alloc(), 2, 3);
    let nothing = (Advised::Nothing, Advised::Nothing);
    assert!(rt; aside_and_together(rt.alloc(), &few, &full) == nothing);
}

#[test]
fn a_run_surely_goes(rt: HostRuntime) {
    // It has four blocks, and so has its copy at most.
    let levels = levels_of(&rt, rt.alloc(), &[ALONE], &[]);
    const CASES: &[(usize, u32, u64, bool)] = &[
        (1, 4, 4, true),
        (1, 3, 4, false),
        (1, 4, 3, false),
        (2, 500, 500, false),
    ];
    for &(count, blocks, most_blocks, wanted) in CASES {
        let extents = area_of(&rt, rt.alloc(), 1, blocks);
        let choice = Choice::OldestRuns { count };
        let held = Slots::Free;
        let given = standing(&levels, &extents, &held).is_sure(choice, most_blocks);
        assert!(rt; given == wanted, "{count} {blocks} {most_blocks}");
    }
}
