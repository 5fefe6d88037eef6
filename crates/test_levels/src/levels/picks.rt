//! Which job comes next, and which may be chosen.

use self::ExpectedPick::{Flush, Merge, Nothing, Rewrite};
use self::PickQuery::{Anew, Next, Runs, Tables, Waiting};
use crate::slots::Slots;
use crate::tables::{Put, have_numbers, levels_of, runs_have_numbers};
use lsm_levels::{Choice, Levels, Pick};
use std::process::Abort;

/// What is asked of levels.
#[derive(Clone, Copy, Debug)]
enum PickQuery {
    /// The job that comes next.
    Next,
    /// The same where sealed versions wait.
    Waiting,
    /// That of so many of the oldest runs.
    Runs(usize),
    /// That of the tables from one to another.
    Tables(u64, u64),
    /// The rewrite of the tables from one to another.
    Anew(u64, u64),
}

/// A job that is wanted: a flush, a merge of a level with the numbers of its upper and lower tables, or a rewrite of the level below
/// one with the numbers of its tables.
#[derive(Clone, Copy)]
enum ExpectedPick<'a> {
    Nothing,
    Flush,
    Merge(usize, &'a [u64], &'a [u64]),
    Rewrite(usize, &'a [u64]),
}

/// What is asked where slots are held so, and the job that is wanted.
type Case = (PickQuery, Slots, ExpectedPick<'static>);

/// Runs of level 0, the oldest first; the levels from 1 on; and cases of them.
type Shape = (
    &'static [&'static [Put]],
    &'static [&'static [Put]],
    &'static [Case],
);

/// Whether a job is the wanted one.
fn is_wanted(job: &Pick<'_>, wanted: ExpectedPick<'_>) -> bool {
    match (job, wanted) {
        (Pick::Flush, Flush) => true,
        (Pick::OldestRuns { runs, lower }, Merge(0, above, below)) => {
            runs_have_numbers(runs, above) && have_numbers(lower, below)
        }
        (
            Pick::OneTable {
                level,
                upper,
                lower,
            },
            Merge(from, [above], below),
        ) => *level == from && upper.number() == *above && have_numbers(lower, below),
        (
            Pick::Neighbours {
                level,
                upper,
                lower,
            },
            Merge(from, above, below),
        ) => *level == from && have_numbers(upper, above) && have_numbers(lower, below),
        (Pick::Rewrite { above, tables }, Rewrite(from, numbers)) => {
            *above == from && have_numbers(tables, numbers)
        }
        _ => false,
    }
}

/// The job that is asked for.
fn answer(levels: &Levels, query: PickQuery, held: Slots) -> Option<Pick<'_>> {
    match query {
        Next => levels.pick(false, &held),
        Waiting => levels.pick(true, &held),
        Runs(count) => levels.choose(Choice::OldestRuns { count }, &held),
        Tables(first, last) => levels.choose(Choice::Tables { first, last }, &held),
        Anew(first, last) => levels.choose(Choice::Rewrite { first, last }, &held),
    }
}

/// Whether what is asked is answered as it is wanted.
fn is_answered(levels: &Levels, (query, held, wanted): Case) -> bool {
    match answer(levels, query, held) {
        Some(job) => is_wanted(&job, wanted),
        None => matches!(wanted, Nothing),
    }
}

/// A merge of level 1 that takes in the table 4.
const TAKES_4: Slots = Slots::Merge { level: 1, table: 4 };

/// One that takes in the table 5.
const TAKES_5: Slots = Slots::Merge { level: 1, table: 5 };

/// One that takes in the table 23.
const TAKES_23: Slots = Slots::Merge {
    level: 1,
    table: 23,
};

/// A merge of level 2 that takes in the table 8.
const TAKES_8: Slots = Slots::Merge { level: 2, table: 8 };

/// A merge of level 0 that takes in none of the tables here.
const OF_LEVEL_0: Slots = Slots::Merge { level: 0, table: 0 };

/// One of level 3.
const OF_LEVEL_3: Slots = Slots::Merge { level: 3, table: 0 };

/// Four runs of a table each, of which the oldest meets a table.
const FOUR: Shape = (
    &[&[(2, 0x61)], &[(3, 0x62)], &[(4, 0x63)], &[(6, 0x64)]],
    &[&[(5, 0x61)]],
    &[
        // Waiting versions are flushed first, where no flush holds a slot.
        (Waiting, Slots::Free, Flush),
        (Waiting, Slots::Flush, Merge(0, &[2], &[5])),
        // Then the oldest run goes with what it meets.
        (Next, Slots::Free, Merge(0, &[2], &[5])),
        (Next, OF_LEVEL_3, Merge(0, &[2], &[5])),
        // A job of level 0 bars another, and so does one that has an input.
        (Next, OF_LEVEL_0, Nothing),
        (Next, TAKES_5, Nothing),
        // A merge of several tables bars all but a flush.
        (Next, Slots::Several, Nothing),
        (Waiting, Slots::Several, Flush),
        // And so does a rewrite.
        (Next, Slots::Rewrite, Nothing),
        (Waiting, Slots::Rewrite, Flush),
    ],
);

/// Three runs are left.
const THREE: Shape = (
    &[&[(2, 0x61)], &[(3, 0x62)], &[(4, 0x63)]],
    &[],
    &[
        (Next, Slots::Free, Nothing),
        (Waiting, Slots::Flush, Nothing),
    ],
);

/// The oldest run meets what lies in its hull.
const WIDE: Shape = (
    &[
        &[(1, 0x61), (2, 0x65)],
        &[(3, 0x62)],
        &[(4, 0x63)],
        &[(6, 0x64)],
    ],
    &[&[(5, 0x60), (7, 0x63), (8, 0x65), (9, 0x66)]],
    &[(Next, Slots::Free, Merge(0, &[1, 2], &[7, 8]))],
);

/// In its hull lies nothing.
const ALONE: Shape = (
    &[
        &[(1, 0x61), (2, 0x65)],
        &[(3, 0x62)],
        &[(4, 0x63)],
        &[(6, 0x64)],
    ],
    &[&[(5, 0x60), (9, 0x66)]],
    &[(Next, Slots::Free, Merge(0, &[1, 2], &[]))],
);

/// A run of level 0, neighbours of level 1, and what they meet.
const NEIGHBOURS: Shape = (
    &[&[(2, 0x61)]],
    &[&[(5, 0x61), (4, 0x62), (7, 0x63)], &[(6, 0x62), (8, 0x63)]],
    &[
        // One run, and levels far below their limits.
        (Runs(1), Slots::Free, Merge(0, &[2], &[5])),
        (Tables(7, 7), Slots::Free, Merge(1, &[7], &[8])),
        (Tables(5, 5), Slots::Free, Merge(1, &[5], &[])),
        (Tables(8, 8), Slots::Free, Merge(2, &[8], &[])),
        // Neighbours from one to another with those between, and what meets their hull.
        (Tables(5, 7), Slots::Free, Merge(1, &[5, 4, 7], &[6, 8])),
        (Tables(5, 4), Slots::Flush, Merge(1, &[5, 4], &[6])),
        // Others have what it would take in, or a job of level 0 goes on.
        (Tables(7, 7), TAKES_8, Nothing),
        (Runs(1), TAKES_5, Nothing),
        (Runs(1), OF_LEVEL_0, Nothing),
        // From behind to before, over two levels, a table of level 0, and none.
        (Tables(7, 5), Slots::Free, Nothing),
        (Tables(5, 8), Slots::Free, Nothing),
        (Tables(2, 2), Slots::Free, Nothing),
        (Tables(1, 1), Slots::Free, Nothing),
        // Several stand beside no other merge, and none beside several.
        (Tables(5, 4), OF_LEVEL_3, Nothing),
        (Tables(5, 5), OF_LEVEL_3, Merge(1, &[5], &[])),
        (Runs(1), OF_LEVEL_3, Merge(0, &[2], &[5])),
        (Tables(5, 4), Slots::Several, Nothing),
        (Tables(5, 5), Slots::Several, Nothing),
        (Runs(1), Slots::Several, Nothing),
    ],
);

/// Five runs, of which each of the first three has keys beside those of the others, and a level below them.
const FIVE: Shape = (
    &[
        &[(2, 0x62), (3, 0x63)],
        &[(4, 0x61)],
        &[(6, 0x64)],
        &[(9, 0x60)],
        &[(11, 0x66)],
    ],
    &[&[(20, 0x60), (21, 0x61), (22, 0x62), (23, 0x64), (24, 0x65)]],
    &[
        // The newer runs stand before the older, and what meets the hull of all of them goes with them.
        (Runs(1), Slots::Free, Merge(0, &[2, 3], &[22])),
        (Runs(2), Slots::Free, Merge(0, &[4, 2, 3], &[21, 22])),
        (
            Runs(3),
            Slots::Flush,
            Merge(0, &[6, 4, 2, 3], &[21, 22, 23]),
        ),
        (
            Runs(5),
            Slots::Free,
            Merge(0, &[11, 9, 6, 4, 2, 3], &[20, 21, 22, 23, 24]),
        ),
        (Runs(2), TAKES_23, Merge(0, &[4, 2, 3], &[21, 22])),
        (Runs(1), TAKES_4, Merge(0, &[2, 3], &[22])),
        // None, and more than there are.
        (Runs(0), Slots::Free, Nothing),
        (Runs(6), Slots::Free, Nothing),
        // A table of the runs or below them is another's, or one of both is a job of level 0 already.
        (Runs(3), TAKES_23, Nothing),
        (Runs(2), TAKES_4, Nothing),
        (Runs(2), OF_LEVEL_0, Nothing),
        (Runs(2), Slots::Several, Nothing),
    ],
);

/// A run of level 0, and tables in each other level.
const ALL_LEVELS: Shape = (
    &[&[(2, 0x61)]],
    &[
        &[(5, 0x61), (4, 0x62), (7, 0x63)],
        &[(6, 0x62), (8, 0x63)],
        &[(10, 0x61)],
        &[(12, 0x60), (13, 0x62), (14, 0x64)],
    ],
    &[
        // A table of each level from 1 to 4, without what it meets in the next.
        (Anew(4, 4), Slots::Free, Rewrite(0, &[4])),
        (Anew(8, 8), Slots::Free, Rewrite(1, &[8])),
        (Anew(10, 10), Slots::Free, Rewrite(2, &[10])),
        (Anew(12, 12), Slots::Free, Rewrite(3, &[12])),
        // Neighbours from one to another with those between.
        (Anew(5, 7), Slots::Free, Rewrite(0, &[5, 4, 7])),
        (Anew(6, 8), Slots::Free, Rewrite(1, &[6, 8])),
        (Anew(12, 14), Slots::Free, Rewrite(3, &[12, 13, 14])),
        (Anew(4, 7), Slots::Flush, Rewrite(0, &[4, 7])),
        // From behind to before, over two levels, a table of level 0, and none.
        (Anew(7, 5), Slots::Free, Nothing),
        (Anew(5, 8), Slots::Free, Nothing),
        (Anew(2, 2), Slots::Free, Nothing),
        (Anew(1, 1), Slots::Free, Nothing),
        // It stands beside no merge, whatever that takes in, and no merge beside it.
        (Anew(4, 4), TAKES_23, Nothing),
        (Anew(12, 12), OF_LEVEL_0, Nothing),
        (Anew(4, 4), OF_LEVEL_3, Nothing),
        (Anew(4, 4), Slots::Several, Nothing),
        (Anew(4, 4), Slots::Rewrite, Nothing),
        (Tables(5, 5), Slots::Rewrite, Nothing),
        (Runs(1), Slots::Rewrite, Nothing),
    ],
);

#[test]
fn jobs_of_small_levels(rt: HostRuntime) {
    const SHAPES: &[Shape] = &[FOUR, THREE, WIDE, ALONE, NEIGHBOURS, FIVE, ALL_LEVELS];
    for &(runs, deeper, cases) in SHAPES {
        let levels = levels_of(&rt, rt.alloc(), runs, deeper);
        for case in cases {
            assert!(rt; is_answered(&levels, *case), "{runs:?} {:?}", case.0);
        }
    }
}

/// Tables of level 1, numbered down from 100, with the keys from 0 on. Of four blocks each, 64 of them are the limit.
fn many() -> [Put; 65] {
    let mut puts = [(100, 0); 65];
    for (key, put) in puts.iter_mut().enumerate() {
        *put = (100_u32.wrapping_sub(key as u32), key as u8);
    }
    puts
}

#[test]
fn a_level_over_its_limit_gives_its_least_table(rt: HostRuntime) {
    let puts = many();
    // The table 200 of level 2 meets the table 40.
    const CASES: &[(usize, u64, ExpectedPick)] = &[
        (64, 1, Nothing),
        (65, 1, Merge(1, &[36], &[])),
        (65, 36, Merge(1, &[37], &[])),
        (61, 1, Nothing),
    ];
    for &(count, table, wanted) in CASES {
        let levels = levels_of(&rt, rt.alloc(), &[], &[&puts[..count], &[(200, 60)]]);
        let held = Slots::Merge { level: 1, table };
        assert!(rt;
            is_answered(&levels, (Next, held, wanted)),
            "{count} {table}"
        );
    }
}
