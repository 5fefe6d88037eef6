//! Lists of what the clients of a session do.

use crate::scripts::{BATCHES, FOUR_RUNS, LACKS_1, LACKS_9, TWELVE_RUNS};
use lsm_store::{At, Choice};
use test_compared_sessions::deeds::{Deed, Late, Sitting, Sizes};
use test_compared_steps::lists::ListedStep;
use test_compared_steps::plain::{Change, Condition, Step, Value};

/// One client, with a flush between its calls.
const FLUSHED: &[Deed] = &[
    Deed::Turn(0),
    Deed::Call(0, ListedStep::Put(1)),
    Deed::Call(0, ListedStep::Long(2, 600)),
    Deed::Turn(0),
    Deed::Call(0, ListedStep::One(Step::Sync)),
    Deed::Call(0, ListedStep::One(Step::Rotate)),
    Deed::Turn(0),
    Deed::Call(0, ListedStep::Put(3)),
    Deed::Turn(0),
    Deed::Call(0, ListedStep::One(Step::Snapshot)),
    Deed::Turn(0),
    Deed::Call(0, ListedStep::Delete(1)),
    Deed::Turn(0),
    Deed::Turn(0),
    Deed::Call(0, ListedStep::Get(2)),
    Deed::Call(0, ListedStep::One(Step::Get(At::Snap(1), 2))),
    Deed::Call(0, ListedStep::One(Step::Get(At::Snap(2), 1))),
    Deed::Call(0, ListedStep::One(Step::Release(1))),
    Deed::Call(0, ListedStep::One(Step::Release(2))),
    Deed::Call(0, ListedStep::One(Step::Release(2))),
    Deed::Call(0, ListedStep::One(Step::SyncTo(4))),
    Deed::Call(0, ListedStep::One(Step::SyncTo(5))),
    Deed::Call(0, ListedStep::One(Step::Room)),
    Deed::Call(0, ListedStep::Scan(0, 64)),
];

/// One client, with a merge, and a flush after it, and the rewrite of what was merged.
const MERGED: &[Deed] = &[
    Deed::Turn(0),
    Deed::Call(0, ListedStep::Put(5)),
    Deed::Turn(0),
    Deed::Turn(0),
    Deed::Call(0, ListedStep::Get(1)),
    Deed::Turn(0),
    Deed::Turn(0),
    Deed::Turn(0),
    Deed::Call(0, ListedStep::One(Step::Rotate)),
    Deed::Turn(0),
    Deed::Turn(0),
    Deed::Turn(0),
    Deed::Turn(0),
    Deed::Turn(0),
    Deed::Call(0, ListedStep::Delete(5)),
    Deed::Call(0, ListedStep::Scan(0, 64)),
    Deed::Take(0, Choice::Rewrite { first: 5, last: 5 }),
    Deed::Turn(0),
    Deed::Turn(0),
    Deed::Take(0, Choice::Tables { first: 5, last: 5 }),
];

/// Two clients, with a flush and a merge side by side.
const SIDE_BY_SIDE: &[Deed] = &[
    Deed::Call(0, ListedStep::Put(6)),
    Deed::Call(1, ListedStep::One(Step::Rotate)),
    Deed::Turn(0),
    Deed::Turn(1),
    Deed::Turn(1),
    Deed::Turn(0),
    Deed::Call(0, ListedStep::One(Step::Commit(Change::Both(1, 2)))),
    Deed::Turn(1),
    Deed::Turn(1),
    Deed::Turn(0),
    Deed::Turn(0),
    Deed::Turn(1),
    Deed::Turn(1),
    Deed::Turn(0),
    Deed::Call(1, ListedStep::Get(1)),
    Deed::Call(0, ListedStep::Get(6)),
    Deed::Call(1, ListedStep::Scan(0, 64)),
    Deed::Call(0, ListedStep::One(Step::Sync)),
];

/// Four clients, each of which commits and syncs, until the trail has no place left. A choice without a job needs none.
const FOUR: &[Deed] = &[
    Deed::Call(0, ListedStep::Put(1)),
    Deed::Call(1, ListedStep::Long(2, 600)),
    Deed::Call(1, ListedStep::One(Step::Sync)),
    Deed::Call(2, ListedStep::Put(3)),
    Deed::Call(3, ListedStep::Delete(1)),
    Deed::Call(0, ListedStep::One(Step::Sync)),
    Deed::Call(2, ListedStep::One(Step::SyncTo(5))),
    Deed::Call(3, ListedStep::One(Step::SyncTo(6))),
    Deed::Call(2, ListedStep::Get(1)),
    Deed::Call(1, ListedStep::Scan(0, 64)),
    Deed::Call(3, ListedStep::Put(4)),
    Deed::Turn(3),
    Deed::Call(0, ListedStep::Put(5)),
    Deed::Call(1, ListedStep::One(Step::Sync)),
    Deed::Take(2, Choice::OldestRuns { count: 1 }),
    Deed::Take(3, Choice::Rewrite { first: 1, last: 1 }),
];

/// Guards that ask for a value of one byte, the key's, or of 600.
const HAS_1: Condition = Condition {
    key: 1,
    value: Some(Value { byte: 1, length: 1 }),
};

const HAS_2: Condition = Condition {
    key: 2,
    value: Some(Value { byte: 2, length: 1 }),
};

const HAS_LONG_3: Condition = Condition {
    key: 3,
    value: Some(Value {
        byte: 3,
        length: 600,
    }),
};

const HAS_4: Condition = Condition {
    key: 4,
    value: Some(Value { byte: 4, length: 1 }),
};

/// Guards that ask for no value.
const LACKS_3: Condition = Condition {
    key: 3,
    value: None,
};

const LACKS_4: Condition = Condition {
    key: 4,
    value: None,
};

/// Commits under guards, with a flush between them, until the trail is full. Guards that hold read nothing: their keys are in memory, or
/// outside of all tables. Those of keys in a table are false, or come before a false one.
const GUARDED: &[Deed] = &[
    Deed::Call(
        0,
        ListedStep::One(Step::CommitIf(HAS_2, LACKS_9, Change::Put(4, 4, 1))),
    ),
    Deed::Call(
        0,
        ListedStep::One(Step::CommitIf(HAS_1, LACKS_4, Change::Delete(1))),
    ),
    Deed::Call(
        0,
        ListedStep::One(Step::CommitIf(LACKS_1, LACKS_9, Change::Delete(2))),
    ),
    Deed::Call(
        0,
        ListedStep::One(Step::CommitIf(LACKS_9, LACKS_1, Change::Fill)),
    ),
    Deed::Turn(0),
    Deed::Turn(0),
    Deed::Call(
        0,
        ListedStep::One(Step::CommitIf(HAS_4, LACKS_9, Change::Both(2, 1))),
    ),
    Deed::Turn(0),
    Deed::Turn(0),
    Deed::Call(
        0,
        ListedStep::One(Step::CommitIf(HAS_LONG_3, LACKS_3, Change::Delete(4))),
    ),
    Deed::Call(0, ListedStep::One(Step::Sync)),
    Deed::Call(
        0,
        ListedStep::One(Step::CommitIf(LACKS_1, HAS_4, Change::Delete(4))),
    ),
    Deed::Call(0, ListedStep::Get(4)),
    Deed::Call(0, ListedStep::Scan(0, 64)),
    Deed::Call(
        0,
        ListedStep::One(Step::CommitIf(LACKS_1, LACKS_4, Change::Delete(2))),
    ),
];

/// A flush is taken, and both clients are handed out its input.
const TAKEN_FOR_BOTH: &[Deed] = &[
    Deed::Call(0, ListedStep::Put(1)),
    Deed::Call(0, ListedStep::One(Step::Rotate)),
    Deed::Turn(0),
];

/// The first one brings its result first.
const BROUGHT_BEFORE: Late = Late {
    meanwhile: &[Deed::Turn(0), Deed::Call(0, ListedStep::Put(2))],
    behind: &[
        Deed::Turn(1),
        Deed::Turn(0),
        Deed::Turn(1),
        Deed::Call(1, ListedStep::Scan(0, 64)),
    ],
};

/// It also ends the job, and takes the next one.
const ENDED_BEFORE: Late = Late {
    meanwhile: &[
        Deed::Turn(0),
        Deed::Turn(0),
        Deed::Turn(0),
        Deed::Call(0, ListedStep::Put(2)),
        Deed::Call(0, ListedStep::One(Step::Rotate)),
        Deed::Turn(0),
    ],
    behind: &[
        Deed::Turn(1),
        Deed::Turn(0),
        Deed::Turn(1),
        Deed::Call(1, ListedStep::Scan(0, 64)),
    ],
};

/// Two clients take merges of their choice, until the trail is full. A choice without a job is no entry, there too.
const CHOSEN: &[Deed] = &[
    Deed::Take(0, Choice::OldestRuns { count: 5 }),
    Deed::Take(0, Choice::OldestRuns { count: 2 }),
    Deed::Take(1, Choice::OldestRuns { count: 1 }),
    Deed::Turn(0),
    Deed::Call(1, ListedStep::Put(6)),
    Deed::Turn(1),
    Deed::Turn(0),
    Deed::Turn(1),
    Deed::Call(0, ListedStep::One(Step::Sync)),
    Deed::Take(1, Choice::OldestRuns { count: 3 }),
    Deed::Take(0, Choice::OldestRuns { count: 2 }),
];

/// The install of a flush is put off until a merge has made a place in level 0.
const PUT_OFF: &[Deed] = &[
    Deed::Call(0, ListedStep::Put(20)),
    Deed::Call(0, ListedStep::One(Step::Rotate)),
    Deed::Turn(0),
    Deed::Turn(0),
    Deed::Turn(0),
    Deed::Turn(0),
    Deed::Turn(0),
    Deed::Turn(0),
    Deed::Turn(0),
    Deed::Turn(0),
    Deed::Turn(0),
    Deed::Call(0, ListedStep::Scan(0, 64)),
];

/// The same, where the trail has a place for an install that is put off, and none for what comes after it.
const PUT_OFF_AT_THE_END: &[Deed] = &[
    Deed::Call(0, ListedStep::Put(20)),
    Deed::Call(0, ListedStep::One(Step::Rotate)),
    Deed::Turn(0),
    Deed::Turn(0),
    Deed::Turn(0),
    Deed::Turn(0),
    Deed::Turn(0),
];

/// The sessions.
pub(crate) const SITTINGS: &[Sitting] = &[
    Sitting {
        name: "a session with a flush",
        past: &[],
        sizes: Sizes {
            clients: 1,
            places: 64,
        },
        deeds: FLUSHED,
        late: None,
    },
    Sitting {
        name: "a session with a merge",
        past: FOUR_RUNS,
        sizes: Sizes {
            clients: 1,
            places: 64,
        },
        deeds: MERGED,
        late: None,
    },
    Sitting {
        name: "a session with a flush and a merge",
        past: FOUR_RUNS,
        sizes: Sizes {
            clients: 2,
            places: 64,
        },
        deeds: SIDE_BY_SIDE,
        late: None,
    },
    Sitting {
        name: "a session of four clients",
        past: BATCHES,
        sizes: Sizes {
            clients: 4,
            places: 11,
        },
        deeds: FOUR,
        late: None,
    },
    Sitting {
        name: "a session with guards",
        past: BATCHES,
        sizes: Sizes {
            clients: 1,
            places: 15,
        },
        deeds: GUARDED,
        late: None,
    },
    Sitting {
        name: "a result that comes behind another",
        past: &[],
        sizes: Sizes {
            clients: 2,
            places: 64,
        },
        deeds: TAKEN_FOR_BOTH,
        late: Some(BROUGHT_BEFORE),
    },
    Sitting {
        name: "a result of a job that has ended",
        past: &[],
        sizes: Sizes {
            clients: 2,
            places: 64,
        },
        deeds: TAKEN_FOR_BOTH,
        late: Some(ENDED_BEFORE),
    },
    Sitting {
        name: "jobs that clients choose",
        past: FOUR_RUNS,
        sizes: Sizes {
            clients: 2,
            places: 8,
        },
        deeds: CHOSEN,
        late: None,
    },
    Sitting {
        name: "an install that is put off",
        past: TWELVE_RUNS,
        sizes: Sizes {
            clients: 1,
            places: 64,
        },
        deeds: PUT_OFF,
        late: None,
    },
    Sitting {
        name: "an install that is put off at the end of a trail",
        past: TWELVE_RUNS,
        sizes: Sizes {
            clients: 1,
            places: 7,
        },
        deeds: PUT_OFF_AT_THE_END,
        late: None,
    },
];
