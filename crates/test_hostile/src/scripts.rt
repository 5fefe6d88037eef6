//! The lists of steps that are attacked, and those that make images.

use crate::attacked::List;
use lsm_store::{At, Choice};
use test_compared_steps::beginnings::After;
use test_compared_steps::lists::ListedStep;
use test_compared_steps::plain::{Change, Condition, Division, Step, Value};

/// Four runs of level 0, of which the merge of the oldest comes next.
pub(crate) const FOUR_RUNS: &[ListedStep] = &[
    ListedStep::Flush(1, 1),
    ListedStep::Flush(2, 2),
    ListedStep::Flush(3, 3),
    ListedStep::Flush(4, 4),
];

/// As many runs of level 0 as may be there.
pub(crate) const TWELVE_RUNS: &[ListedStep] = &[
    ListedStep::Flush(1, 1),
    ListedStep::Flush(2, 2),
    ListedStep::Flush(3, 3),
    ListedStep::Flush(4, 4),
    ListedStep::Flush(5, 5),
    ListedStep::Flush(6, 6),
    ListedStep::Flush(7, 7),
    ListedStep::Flush(8, 8),
    ListedStep::Flush(9, 9),
    ListedStep::Flush(10, 10),
    ListedStep::Flush(11, 11),
    ListedStep::Flush(12, 12),
];

/// Three runs of level 0, a table of level 1, and two batches after them.
const TABLES: &[ListedStep] = &[
    ListedStep::Flush(1, 1),
    ListedStep::Flush(2, 2),
    ListedStep::Flush(1, 3),
    ListedStep::Flush(3, 4),
    ListedStep::Job(5),
    ListedStep::Put(4),
    ListedStep::Delete(2),
    ListedStep::One(Step::Sync),
];

/// Five runs of level 0.
const FIVE_RUNS: &[ListedStep] = &[
    ListedStep::Flush(1, 1),
    ListedStep::Flush(2, 2),
    ListedStep::Flush(3, 3),
    ListedStep::Delete(2),
    ListedStep::Flush(1, 4),
    ListedStep::Long(4, 9),
    ListedStep::Flush(3, 5),
];

/// Two batches in a log, and one in a table before them.
pub(crate) const BATCHES: &[ListedStep] = &[
    ListedStep::Flush(1, 1),
    ListedStep::Put(2),
    ListedStep::Long(3, 600),
    ListedStep::One(Step::Sync),
];

/// Gets and scans of all of them.
const READS: &[ListedStep] = &[
    ListedStep::Get(1),
    ListedStep::Get(2),
    ListedStep::Get(3),
    ListedStep::Get(4),
    ListedStep::Get(5),
    ListedStep::Scan(0, 64),
    ListedStep::Scan(1, 1),
    ListedStep::Scan(3, 64),
    ListedStep::One(Step::Scan(At::Now, 0, 0)),
];

/// A rotation and the flush after it, as the first job.
const ROTATED: &[ListedStep] = &[
    ListedStep::One(Step::Rotate),
    ListedStep::One(Step::Rotate),
    ListedStep::Job(1),
    ListedStep::Put(7),
    ListedStep::One(Step::Stat),
    ListedStep::One(Step::Room),
    ListedStep::One(Step::Sync),
    ListedStep::Scan(0, 64),
];

/// A merge of level 0, and the next flush.
const MERGED: &[ListedStep] = &[
    ListedStep::Job(1),
    ListedStep::Put(5),
    ListedStep::One(Step::Rotate),
    ListedStep::Job(2),
    ListedStep::One(Step::Stat),
    ListedStep::Scan(0, 64),
];

/// The merge of the oldest three runs; of those after it there are too few for another.
const THREE_MERGED: &[ListedStep] = &[
    ListedStep::One(Step::TakeOf(Choice::OldestRuns { count: 3 })),
    ListedStep::One(Step::Read(1)),
    ListedStep::Put(5),
    ListedStep::One(Step::Build(1, 2)),
    ListedStep::One(Step::Accept(1)),
    ListedStep::One(Step::Write(1)),
    ListedStep::One(Step::Install(1)),
    ListedStep::One(Step::TakeOf(Choice::OldestRuns { count: 2 })),
    ListedStep::One(Step::Stat),
    ListedStep::Scan(0, 64),
];

/// A flush and a merge side by side.
const SIDE_BY_SIDE: &[ListedStep] = &[
    ListedStep::Put(6),
    ListedStep::One(Step::Rotate),
    ListedStep::One(Step::Take),
    ListedStep::One(Step::Take),
    ListedStep::One(Step::Take),
    ListedStep::One(Step::Read(2)),
    ListedStep::One(Step::Build(1, 1)),
    ListedStep::One(Step::Accept(2)),
    ListedStep::One(Step::Accept(1)),
    ListedStep::One(Step::Build(2, 1)),
    ListedStep::One(Step::Accept(2)),
    ListedStep::One(Step::Write(2)),
    ListedStep::One(Step::Write(1)),
    ListedStep::One(Step::Install(2)),
    ListedStep::Put(8),
    ListedStep::One(Step::Install(1)),
    ListedStep::One(Step::Drop(1)),
    ListedStep::Scan(0, 64),
];

/// A guard that asks for the value of one byte, the key's, and those that ask for none.
const HAS_3: Condition = Condition {
    key: 3,
    value: Some(Value { byte: 3, length: 1 }),
};

pub(crate) const LACKS_1: Condition = Condition {
    key: 1,
    value: None,
};

pub(crate) const LACKS_9: Condition = Condition {
    key: 9,
    value: None,
};

/// Commits of one sector and of two, also under guards of keys in memory, and syncs.
const COMMITS: &[ListedStep] = &[
    ListedStep::Put(1),
    ListedStep::Long(2, 600),
    ListedStep::One(Step::Sync),
    ListedStep::Get(2),
    ListedStep::One(Step::Commit(Change::Both(1, 2))),
    ListedStep::One(Step::SyncTo(1)),
    ListedStep::One(Step::SyncTo(4)),
    ListedStep::One(Step::SyncTo(3)),
    ListedStep::Put(3),
    ListedStep::One(Step::CommitIf(HAS_3, LACKS_9, Change::Put(4, 4, 600))),
    ListedStep::One(Step::CommitIf(HAS_3, LACKS_1, Change::Delete(3))),
    ListedStep::Scan(0, 64),
];

/// A batch that fills the log, and what comes after it.
const FULL: &[ListedStep] = &[
    ListedStep::One(Step::Commit(Change::Fill)),
    ListedStep::Put(1),
    ListedStep::One(Step::Room),
    ListedStep::One(Step::Rotate),
    ListedStep::Put(1),
    ListedStep::Get(30),
    ListedStep::Scan(0, 64),
    ListedStep::Scan(28, 2),
];

/// Snapshots over a flush.
const SNAPSHOTS: &[ListedStep] = &[
    ListedStep::Put(1),
    ListedStep::Long(1, 2),
    ListedStep::One(Step::Rotate),
    ListedStep::One(Step::Take),
    ListedStep::One(Step::Snapshot),
    ListedStep::Long(1, 3),
    ListedStep::One(Step::Snapshot),
    ListedStep::Delete(1),
    ListedStep::One(Step::Build(1, 1)),
    ListedStep::One(Step::Accept(1)),
    ListedStep::One(Step::Write(1)),
    ListedStep::One(Step::Install(1)),
    ListedStep::One(Step::Get(At::Snap(1), 1)),
    ListedStep::One(Step::Get(At::Snap(2), 1)),
    ListedStep::Get(1),
    ListedStep::One(Step::Rotate),
    ListedStep::Job(2),
    ListedStep::One(Step::Get(At::Snap(2), 1)),
    ListedStep::One(Step::Release(1)),
    ListedStep::One(Step::Scan(At::Snap(1), 0, 64)),
];

/// A scan at a snapshot over a flush.
const SCANS: &[ListedStep] = &[
    ListedStep::Put(1),
    ListedStep::Put(2),
    ListedStep::Put(3),
    ListedStep::One(Step::Snapshot),
    ListedStep::One(Step::Scan(At::Snap(1), 0, 1)),
    ListedStep::One(Step::Rotate),
    ListedStep::Delete(2),
    ListedStep::Job(1),
    ListedStep::One(Step::Scan(At::Snap(1), 2, 1)),
    ListedStep::One(Step::Scan(At::Snap(1), 3, 1)),
    ListedStep::Scan(0, 64),
    ListedStep::One(Step::Stat),
];

/// Five flushes and two merges.
const JOBS: &[ListedStep] = &[
    ListedStep::Flush(1, 1),
    ListedStep::Delete(1),
    ListedStep::Flush(2, 2),
    ListedStep::Flush(2, 3),
    ListedStep::Flush(3, 4),
    ListedStep::Job(5),
    ListedStep::Flush(4, 6),
    ListedStep::Job(7),
    ListedStep::Get(1),
    ListedStep::One(Step::Stat),
    ListedStep::Scan(0, 64),
];

/// A table of a delete and a put goes down from level 1 to level 4, where the delete has nothing left to hide.
const DELETES: &[ListedStep] = &[
    ListedStep::Job(1),
    ListedStep::Job(2),
    ListedStep::Get(2),
    ListedStep::Job(3),
    ListedStep::One(Step::Take),
    ListedStep::One(Step::Stat),
    ListedStep::Get(2),
    ListedStep::Scan(0, 64),
];

const AT_2_AND_3: Division = Division {
    first: 2,
    second: 3,
};

/// Three neighbours of level 1: of key 1, of key 2, and of keys 3 and 4.
const NEIGHBOURS: &[ListedStep] = &[
    ListedStep::Flush(1, 1),
    ListedStep::Flush(2, 2),
    ListedStep::Flush(3, 3),
    ListedStep::Flush(4, 4),
    ListedStep::Chosen(Choice::OldestRuns { count: 4 }, 5, AT_2_AND_3),
];

/// A rewrite of neighbours in their own place, along with which a flush goes on and no other merge, and one that keeps nothing, since
/// its delete hides nothing more.
const REWRITTEN: &[ListedStep] = &[
    ListedStep::One(Step::TakeOf(Choice::Rewrite { first: 5, last: 6 })),
    ListedStep::One(Step::TakeOf(Choice::Tables { first: 7, last: 7 })),
    ListedStep::One(Step::Snapshot),
    ListedStep::Delete(2),
    ListedStep::One(Step::Rotate),
    ListedStep::Job(2),
    ListedStep::One(Step::Read(1)),
    ListedStep::One(Step::Build(1, 1)),
    ListedStep::One(Step::Accept(1)),
    ListedStep::One(Step::Write(1)),
    ListedStep::One(Step::Install(1)),
    ListedStep::One(Step::TakeOf(Choice::Rewrite { first: 5, last: 7 })),
    ListedStep::Chosen(Choice::OldestRuns { count: 1 }, 3, AT_2_AND_3),
    ListedStep::One(Step::Release(1)),
    ListedStep::Chosen(
        Choice::Rewrite {
            first: 11,
            last: 11,
        },
        4,
        Division::NONE,
    ),
    ListedStep::One(Step::TakeOf(Choice::Rewrite { first: 10, last: 7 })),
    ListedStep::Get(2),
    ListedStep::One(Step::Stat),
    ListedStep::Scan(0, 64),
];

/// Neighbours go down, alone and several, until a delete meets what it hides.
const LOWERED: &[ListedStep] = &[
    ListedStep::One(Step::TakeOf(Choice::Tables { first: 1, last: 1 })),
    ListedStep::One(Step::TakeOf(Choice::Rewrite { first: 1, last: 1 })),
    ListedStep::One(Step::TakeOf(Choice::Tables { first: 3, last: 3 })),
    ListedStep::One(Step::Drop(1)),
    ListedStep::Chosen(Choice::Rewrite { first: 4, last: 4 }, 2, AT_2_AND_3),
    ListedStep::Chosen(Choice::Tables { first: 6, last: 7 }, 3, AT_2_AND_3),
    ListedStep::Chosen(Choice::Tables { first: 9, last: 9 }, 4, Division::NONE),
    ListedStep::Get(2),
    ListedStep::One(Step::Stat),
    ListedStep::Scan(0, 64),
];

/// How many lists there are.
pub(crate) const COUNT: usize = 16;

/// The lists.
pub(crate) const LISTS: &[List] = &[
    List {
        name: "a store with a torn batch",
        past: BATCHES,
        after: After::Torn,
        is_opened: true,
        before: &[],
        steps: ROTATED,
    },
    List {
        name: "a store with tables in all levels",
        past: FIVE_RUNS,
        after: After::Spread,
        is_opened: true,
        before: &[],
        steps: READS,
    },
    List {
        name: "commits",
        past: &[],
        after: After::Nothing,
        is_opened: false,
        before: &[],
        steps: COMMITS,
    },
    List {
        name: "reads with nothing cached",
        past: TABLES,
        after: After::Nothing,
        is_opened: true,
        before: &[],
        steps: READS,
    },
    List {
        name: "reads with all cached",
        past: TABLES,
        after: After::Nothing,
        is_opened: false,
        before: READS,
        steps: READS,
    },
    List {
        name: "a rotation and a flush",
        past: &[],
        after: After::Nothing,
        is_opened: false,
        before: &[ListedStep::Put(1), ListedStep::Long(2, 600)],
        steps: ROTATED,
    },
    List {
        name: "a merge and a flush",
        past: FOUR_RUNS,
        after: After::Nothing,
        is_opened: false,
        before: &[],
        steps: MERGED,
    },
    List {
        name: "a merge of three runs",
        past: FOUR_RUNS,
        after: After::Nothing,
        is_opened: false,
        before: &[],
        steps: THREE_MERGED,
    },
    List {
        name: "a merge beside a flush",
        past: FOUR_RUNS,
        after: After::Nothing,
        is_opened: false,
        before: &[],
        steps: SIDE_BY_SIDE,
    },
    List {
        name: "a full log",
        past: &[],
        after: After::Nothing,
        is_opened: false,
        before: &[],
        steps: FULL,
    },
    List {
        name: "snapshots over a flush",
        past: &[],
        after: After::Nothing,
        is_opened: false,
        before: &[],
        steps: SNAPSHOTS,
    },
    List {
        name: "scans over a flush",
        past: &[],
        after: After::Nothing,
        is_opened: false,
        before: &[],
        steps: SCANS,
    },
    List {
        name: "five flushes and two merges",
        past: &[],
        after: After::Nothing,
        is_opened: false,
        before: &[],
        steps: JOBS,
    },
    List {
        name: "deletes that go down",
        past: FIVE_RUNS,
        after: After::Spread,
        is_opened: false,
        before: &[],
        steps: DELETES,
    },
    List {
        name: "rewrites in their own place",
        past: NEIGHBOURS,
        after: After::Nothing,
        is_opened: false,
        before: &[],
        steps: REWRITTEN,
    },
    List {
        name: "neighbours that go down",
        past: FIVE_RUNS,
        after: After::Spread,
        is_opened: false,
        before: &[],
        steps: LOWERED,
    },
];

/// A put in a table, and nothing else.
pub(crate) const ONE_KEY: &[ListedStep] = &[ListedStep::Flush(0x61, 1)];

/// Four runs of level 0, a table of level 1, and batches after them.
pub(crate) const MANY_TABLES: &[ListedStep] = &[
    ListedStep::Flush(1, 1),
    ListedStep::Flush(2, 2),
    ListedStep::Flush(1, 3),
    ListedStep::Flush(3, 4),
    ListedStep::Job(5),
    ListedStep::Long(5, 2_000),
    ListedStep::Flush(2, 6),
    ListedStep::Delete(1),
    ListedStep::Long(4, 700),
];

/// What is done with a store of a foreign image: a get, a scan, a put, and calls after them.
pub(crate) const CALLS: &[ListedStep] = &[
    ListedStep::Get(0x61),
    ListedStep::Get(1),
    ListedStep::Scan(0, 64),
    ListedStep::Put(0x62),
    ListedStep::One(Step::Sync),
    ListedStep::One(Step::Snapshot),
    ListedStep::One(Step::Get(At::Snap(1), 0x61)),
    ListedStep::One(Step::Rotate),
    ListedStep::One(Step::Stat),
    ListedStep::One(Step::Room),
    ListedStep::One(Step::SyncTo(1)),
    ListedStep::One(Step::Take),
    ListedStep::One(Step::Take),
    ListedStep::One(Step::Read(2)),
    ListedStep::One(Step::Read(1)),
    ListedStep::One(Step::Scan(At::Snap(1), 2, 1)),
    ListedStep::One(Step::Release(1)),
    ListedStep::One(Step::Drop(2)),
    ListedStep::Put(0x63),
];

/// Jobs of a store of a foreign image.
pub(crate) const WORK: &[ListedStep] = &[
    ListedStep::One(Step::Take),
    ListedStep::One(Step::Take),
    ListedStep::One(Step::Read(2)),
    ListedStep::One(Step::Build(2, 2)),
    ListedStep::One(Step::Accept(2)),
    ListedStep::One(Step::Write(2)),
    ListedStep::One(Step::Install(2)),
    ListedStep::Get(1),
    ListedStep::One(Step::Build(1, 1)),
    ListedStep::One(Step::Accept(1)),
    ListedStep::One(Step::Write(1)),
    ListedStep::One(Step::Install(1)),
    ListedStep::One(Step::Stat),
    ListedStep::Scan(0, 64),
    ListedStep::Put(3),
];
