//! A store is settled: its jobs are done, one after another, and its log is empty then.

use lsm_device::{Device, Refusal};
use lsm_levels::{Choice, Levels, Run};
use lsm_merge::build;
use lsm_policy::Policy;
use lsm_store::{Store, TakenJob};
use std::alloc::Global;
use std::thread::Threads;

/// From this number of runs on, and above these numbers of blocks of levels 1 to 3, jobs come next.
const RUNS: usize = 4;

const LIMITS: &[u32] = &[256, 2_048, 16_384];

/// More jobs than come one after another.
const MOST_JOBS: u32 = 10_000;

/// More pieces than a job has.
const MOST_PIECES: u32 = 100_000;

/// Which job is taken, where no flush waits.
#[derive(Clone, Copy)]
pub(crate) enum Rule {
    /// The one that comes next.
    Next,
    /// The one that the policy chooses.
    Policy,
    /// The one that would come next if no table were merged because it is mostly deletes.
    LimitsAlone,
}

/// How a store is kept up: the rule, and in how many parts a result is built, each in a thread of its own.
#[derive(Clone, Copy)]
pub(crate) struct Upkeep {
    pub(crate) rule: Rule,
    pub(crate) parts: u8,
}

/// How stores are settled where no workload says otherwise.
pub(crate) const USUAL: Upkeep = Upkeep {
    rule: Rule::Next,
    parts: 4,
};

/// What was written: sectors of logs, blocks of tables, and roots, which rotations and installs write, with their sectors.
#[derive(Clone, Copy)]
pub(crate) struct Written {
    pub(crate) logged: u32,
    pub(crate) blocks: u32,
    pub(crate) roots: u32,
    pub(crate) in_roots: u32,
}

impl Written {
    pub(crate) const NOTHING: Written = Written {
        logged: 0,
        blocks: 0,
        roots: 0,
        in_roots: 0,
    };

    /// Counts a root that names `tables` tables, and three logs at most: a superblock, and a manifest of 20 bytes a table.
    fn add_root(&mut self, tables: usize) {
        let manifest = tables.saturating_mul(20).saturating_add(83).div_ceil(512);
        let sectors = u32::try_from(manifest).unwrap_or(0).saturating_add(1);
        self.roots = self.roots.wrapping_add(1);
        self.in_roots = self.in_roots.wrapping_add(sectors);
    }
}

/// The table of the least number of a run, if it has more blocks than its limit.
fn least_over(run: &Run, limit: u32) -> Option<Choice> {
    let mut blocks = 0_u32;
    let mut least = u64::MAX;
    for table in run.tables() {
        blocks = blocks.saturating_add(table.blocks());
        least = least.min(table.number());
    }
    if blocks <= limit {
        return None;
    }
    Some(Choice::Tables {
        first: least,
        last: least,
    })
}

/// What is over its limit, of the least level.
fn over_limit(levels: &Levels) -> Option<Choice> {
    if levels.runs().len() >= RUNS {
        return Some(Choice::OldestRuns { count: 1 });
    }
    for (level, limit) in LIMITS.iter().enumerate() {
        if let Some(choice) = least_over(levels.deeper().get(level)?, *limit) {
            return Some(choice);
        }
    }
    None
}

/// Takes a job by a rule: a flush where one waits.
fn take<D: Device>(store: &mut Store<D>, rule: Rule) -> Result<Option<TakenJob>, Refusal> {
    let stat = store.stat()?;
    let choice = match rule {
        Rule::Policy if !stat.waiting => {
            Policy::new().next_choice(store.levels(), stat.free_blocks, store.jobs())
        }
        Rule::LimitsAlone if !stat.waiting => over_limit(store.levels()),
        _ => return store.job_take(),
    };
    match choice {
        Some(choice) => store.job_take_of(choice),
        None => Ok(None),
    }
}

fn read<D: Device>(store: &mut Store<D>, job: u64) -> Result<(), Refusal> {
    for _ in 0..MOST_PIECES {
        if store.job_read(job)? == 0 {
            return Ok(());
        }
    }
    Err(Refusal::WrongState)
}

fn merge<R: Threads + Sync, D: Device>(
    rt: &R,
    alloc: Global,
    store: &mut Store<D>,
    job: u64,
    parts: u8,
) -> Result<(), Refusal> {
    let input = store.job_input(job)?;
    let built = build(rt, alloc, input, parts)?;
    store.job_accept(job, &built)
}

fn write<D: Device>(store: &mut Store<D>, job: u64) -> Result<(), Refusal> {
    for _ in 0..MOST_PIECES {
        if store.job_write(job)? == 0 {
            return Ok(());
        }
    }
    Err(Refusal::WrongState)
}

/// Does a job that was taken, and counts what it writes.
fn finish<R: Threads + Sync, D: Device>(
    rt: &R,
    alloc: Global,
    store: &mut Store<D>,
    taken: TakenJob,
    parts: u8,
    written: &mut Written,
) -> Result<(), Refusal> {
    let job = taken.number;
    if taken.level.is_some() {
        read(store, job)?;
    }
    let free = store.stat()?.free_blocks;
    merge(rt, alloc, store, job, parts)?;
    let placed = free.wrapping_sub(store.stat()?.free_blocks);
    written.blocks = written.blocks.wrapping_add(placed);
    write(store, job)?;
    store.job_install(job)?;
    written.add_root(store.stat()?.tables);
    Ok(())
}

/// Opens an empty log where that of the store has a batch.
fn rotate<D: Device>(store: &mut Store<D>, written: &mut Written) -> Result<(), Refusal> {
    match store.rotate() {
        Ok(()) => written.add_root(store.stat()?.tables),
        Err(Refusal::NothingToRotate) => {}
        Err(refusal) => return Err(refusal),
    }
    Ok(())
}

/// Moves all versions into tables, does jobs until none is left, and opens an empty log. It counts what is written.
pub(crate) fn settle<R: Threads + Sync, D: Device>(
    rt: &R,
    alloc: Global,
    store: &mut Store<D>,
    upkeep: Upkeep,
    written: &mut Written,
) -> Result<(), Refusal> {
    let mut is_rotated = false;
    for _ in 0..MOST_JOBS {
        match take(store, upkeep.rule)? {
            Some(taken) => finish(rt, alloc, store, taken, upkeep.parts, written)?,
            None if is_rotated => return Ok(()),
            None => {
                rotate(store, written)?;
                is_rotated = true;
            }
        }
    }
    Err(Refusal::WrongState)
}
