//! The workloads, in the order in which a run does them.

use crate::reads::ReadPattern;
use crate::settling::Rule;

/// What guards a put.
#[derive(Clone, Copy)]
pub(crate) enum Guarding {
    Nothing,
    /// That its key still has its value of a round, which is in a table.
    InTable(u8),
    /// That a key has the value that was put since the log was empty.
    InMemory,
}

/// How puts are committed: `puts` in a batch, and each batch synced or not.
#[derive(Clone, Copy)]
pub(crate) struct Way {
    pub(crate) puts: u32,
    pub(crate) synced: bool,
    /// How many of such batches a log region holds.
    pub(crate) in_log: u32,
    pub(crate) guarding: Guarding,
}

/// What a workload does.
#[derive(Clone, Copy)]
pub(crate) enum Work {
    /// Commits batches. What makes room in the log between them is not measured.
    Commit(Way),
    /// Puts all keys into an empty store, in batches of 100, with the rotations in the time, and with all jobs that a rule takes. Or
    /// it deletes every second one too, a log later, so that of all operations a third are deletes.
    Load { rule: Rule, thins: bool },
    /// Puts all keys, into an empty store or over what it has, with the rotations in the time, and with all jobs that a rule takes.
    Keep { way: Way, rule: Rule, fresh: bool },
    /// Gets each key, or as many that have no value.
    Get(ReadPattern),
    /// Gets each key, from a store that was just opened with a cache of one block. The opening is not measured.
    GetCold,
    /// Scans the whole map, page by page.
    Scan,
    /// Opens a store that has batches in its log.
    Reopen,
    /// A number of clients of one session commit batches of one put, each client in a thread of its own.
    Share(u32),
    /// And sync each of them.
    ShareSynced(u32),
    /// A number of clients fill the trail of one session: each asks for a value 39 times, and then puts one.
    Fill(u32),
    /// One client of a session fills an empty store, alone or with a worker, with all rotations, flushes and merges in the time.
    Beside { has_worker: bool },
}

/// A workload with its name, and the ratio of its rate to that of the raw calls, in thousandths, that the store aims at.
#[derive(Clone, Copy)]
pub(crate) struct Workload {
    pub(crate) name: &'static str,
    pub(crate) work: Work,
    pub(crate) aim: u64,
    /// The round of the values that it puts, or finds.
    pub(crate) round: u8,
}

pub(crate) const SINGLE: Way = Way {
    puts: 1,
    synced: false,
    in_log: 2_000,
    guarding: Guarding::Nothing,
};

pub(crate) const HUNDRED: Way = Way {
    puts: 100,
    synced: false,
    in_log: 70,
    guarding: Guarding::Nothing,
};

const SINGLE_SYNCED: Way = Way {
    puts: 1,
    synced: true,
    in_log: 2_000,
    guarding: Guarding::Nothing,
};

const HUNDRED_SYNCED: Way = Way {
    puts: 100,
    synced: true,
    in_log: 70,
    guarding: Guarding::Nothing,
};

const IN_TABLE: Way = Way {
    puts: 1,
    synced: false,
    in_log: 2_000,
    guarding: Guarding::InTable(6),
};

const IN_MEMORY: Way = Way {
    puts: 1,
    synced: false,
    in_log: 2_000,
    guarding: Guarding::InMemory,
};

/// The workloads that are compared with raw calls. Each value that a workload puts says in which of them it was put.
pub(crate) const WORKLOADS: &[Workload] = &[
    Workload {
        name: "fill",
        work: Work::Commit(SINGLE),
        aim: 450,
        round: 1,
    },
    Workload {
        name: "overwrite",
        work: Work::Commit(SINGLE),
        aim: 450,
        round: 2,
    },
    Workload {
        name: "batches of 100",
        work: Work::Commit(HUNDRED),
        aim: 300,
        round: 3,
    },
    Workload {
        name: "synced puts",
        work: Work::Commit(SINGLE_SYNCED),
        aim: 950,
        round: 4,
    },
    Workload {
        name: "synced batches of 100",
        work: Work::Commit(HUNDRED_SYNCED),
        aim: 500,
        round: 5,
    },
    Workload {
        name: "load, a third deletes",
        work: Work::Load {
            rule: Rule::Next,
            thins: true,
        },
        aim: 200,
        round: 12,
    },
    Workload {
        name: "deletes, limits alone",
        work: Work::Load {
            rule: Rule::LimitsAlone,
            thins: true,
        },
        aim: 200,
        round: 13,
    },
    Workload {
        name: "load and settle",
        work: Work::Load {
            rule: Rule::Next,
            thins: false,
        },
        aim: 200,
        round: 6,
    },
    Workload {
        name: "get hit",
        work: Work::Get(ReadPattern::Put),
        aim: 840,
        round: 6,
    },
    Workload {
        name: "get miss",
        work: Work::Get(ReadPattern::Nothing),
        aim: 2_000,
        round: 6,
    },
    Workload {
        name: "scan pages",
        work: Work::Scan,
        aim: 220,
        round: 6,
    },
    Workload {
        name: "put, guard in table",
        work: Work::Commit(IN_TABLE),
        aim: 230,
        round: 14,
    },
    Workload {
        name: "put, guard in memory",
        work: Work::Commit(IN_MEMORY),
        aim: 350,
        round: 15,
    },
    Workload {
        name: "reopen",
        work: Work::Reopen,
        aim: 450,
        round: 7,
    },
    Workload {
        name: "1 client",
        work: Work::Share(1),
        aim: 450,
        round: 8,
    },
    Workload {
        name: "2 clients",
        work: Work::Share(2),
        aim: 350,
        round: 9,
    },
    Workload {
        name: "4 clients",
        work: Work::Share(4),
        aim: 400,
        round: 10,
    },
    Workload {
        name: "4 clients, synced",
        work: Work::ShareSynced(4),
        aim: 800,
        round: 11,
    },
];

/// The workloads that count their rotations and jobs, by the job that comes next and by the policy. They have no aim.
pub(crate) const KEPT: &[Workload] = &[
    Workload {
        name: "fill, next",
        work: Work::Keep {
            way: SINGLE,
            rule: Rule::Next,
            fresh: true,
        },
        aim: 0,
        round: 1,
    },
    Workload {
        name: "overwrite, next",
        work: Work::Keep {
            way: SINGLE,
            rule: Rule::Next,
            fresh: false,
        },
        aim: 0,
        round: 2,
    },
    Workload {
        name: "batches of 100, next",
        work: Work::Keep {
            way: HUNDRED,
            rule: Rule::Next,
            fresh: false,
        },
        aim: 0,
        round: 3,
    },
    Workload {
        name: "load, next",
        work: Work::Keep {
            way: HUNDRED,
            rule: Rule::Next,
            fresh: true,
        },
        aim: 0,
        round: 4,
    },
    Workload {
        name: "fill, policy",
        work: Work::Keep {
            way: SINGLE,
            rule: Rule::Policy,
            fresh: true,
        },
        aim: 0,
        round: 5,
    },
    Workload {
        name: "overwrite, policy",
        work: Work::Keep {
            way: SINGLE,
            rule: Rule::Policy,
            fresh: false,
        },
        aim: 0,
        round: 6,
    },
    Workload {
        name: "batches of 100, policy",
        work: Work::Keep {
            way: HUNDRED,
            rule: Rule::Policy,
            fresh: false,
        },
        aim: 0,
        round: 7,
    },
    Workload {
        name: "load, policy",
        work: Work::Keep {
            way: HUNDRED,
            rule: Rule::Policy,
            fresh: true,
        },
        aim: 0,
        round: 8,
    },
];

/// Sessions whose trails are filled, and before them the load of what their clients ask for. They have no aim.
pub(crate) const ROUNDS: &[Workload] = &[
    Workload {
        name: "load before rounds",
        work: Work::Keep {
            way: HUNDRED,
            rule: Rule::Policy,
            fresh: true,
        },
        aim: 0,
        round: 8,
    },
    Workload {
        name: "2 clients, a round",
        work: Work::Fill(2),
        aim: 0,
        round: 10,
    },
    Workload {
        name: "4 clients, a round",
        work: Work::Fill(4),
        aim: 0,
        round: 12,
    },
];

/// A load, and reads of all that it put: blocks that are not in the cache, and those that are as far as it has room.
pub(crate) const LOOKS: &[Workload] = &[
    Workload {
        name: "load before reads",
        work: Work::Keep {
            way: HUNDRED,
            rule: Rule::Policy,
            fresh: true,
        },
        aim: 0,
        round: 8,
    },
    Workload {
        name: "get cold",
        work: Work::GetCold,
        aim: 1_000,
        round: 8,
    },
    Workload {
        name: "get hit",
        work: Work::Get(ReadPattern::Put),
        aim: 500,
        round: 8,
    },
    Workload {
        name: "get miss",
        work: Work::Get(ReadPattern::Nothing),
        aim: 0,
        round: 8,
    },
    Workload {
        name: "scan pages",
        work: Work::Scan,
        aim: 200,
        round: 8,
    },
];

/// The same fill without a worker and with one. They have no aim.
pub(crate) const BESIDE: &[Workload] = &[
    Workload {
        name: "fill, no worker",
        work: Work::Beside { has_worker: false },
        aim: 0,
        round: 1,
    },
    Workload {
        name: "fill, a worker",
        work: Work::Beside { has_worker: true },
        aim: 0,
        round: 2,
    },
];
