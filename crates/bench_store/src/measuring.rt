//! What a store does of each workload, how long it takes, and how many of its answers are right.

use crate::clients::Task;
use crate::clock::{now, since};
use crate::puts::{Puts, put_all};
use crate::reads::{ReadPattern, count_right, scan};
use crate::settling::{USUAL, Upkeep, Written};
use crate::sizes::{CACHE, Sizes};
use crate::subject::Subject;
use crate::workers::Filling;
use crate::workloads::{HUNDRED, SINGLE, Way, Work, Workload};
use lsm_device::{Device, Refusal};
use std::alloc::Global;
use std::rt::Clock;
use std::sync::Wait;
use std::thread::Threads;

/// The time of a number of operations, and how many of the wanted answers were right.
#[derive(Clone, Copy)]
pub(crate) struct Measured {
    pub(crate) operations: u32,
    pub(crate) nanos: u64,
    pub(crate) right: u32,
    pub(crate) wanted: u32,
    /// What was written to logs, and by what else is measured.
    pub(crate) written: Written,
    /// How many blocks tables hold more than before a load when it is done.
    pub(crate) held: u32,
    /// The most nanoseconds that a put waits for the jobs of a load, or takes in a session with them; or those of a change of rounds.
    pub(crate) wait: u64,
}

impl Measured {
    /// `operations` operations, of which nothing is measured yet, and as many answers are wanted.
    fn of(operations: u32) -> Measured {
        Measured {
            operations,
            nanos: 0,
            right: 0,
            wanted: operations,
            written: Written::NOTHING,
            held: 0,
            wait: 0,
        }
    }
}

/// How many of `count` gets are answered right. 0 where the store has another number of batches.
fn right_of<D: Device + Drop>(
    subject: &mut Subject<D>,
    batches: u64,
    pattern: ReadPattern,
    count: u32,
    round: u8,
) -> Result<u32, Refusal> {
    if subject.stat()?.batches != batches {
        return Ok(0);
    }
    match &mut subject.store {
        Some(store) => count_right(store, pattern, count, round),
        None => Err(Refusal::Stopped),
    }
}

/// Makes all puts. How many are found is not counted yet.
fn puts_made<R: Clock + Threads + Sync, D: Device + Drop>(
    rt: &R,
    alloc: Global,
    subject: &mut Subject<D>,
    puts: Puts,
) -> Result<Measured, Refusal> {
    let Some(store) = &mut subject.store else {
        return Err(Refusal::Stopped);
    };
    let mut measured = Measured::of(puts.count);
    let free = store.stat()?.free_blocks;
    put_all(rt, alloc, store, puts, &mut measured)?;
    measured.held = free.saturating_sub(store.stat()?.free_blocks);
    Ok(measured)
}

/// Makes all puts, and asks for what they put.
pub(crate) fn put<R: Clock + Threads + Sync, D: Device + Drop>(
    rt: &R,
    alloc: Global,
    subject: &mut Subject<D>,
    puts: Puts,
) -> Result<Measured, Refusal> {
    if puts.fresh {
        subject.renew(alloc)?;
    }
    let before = subject.stat()?.batches;
    let mut measured = puts_made(rt, alloc, subject, puts)?;
    let mut batches = u64::from(puts.batches());
    let mut pattern = ReadPattern::Put;
    if puts.thins {
        measured.operations = puts.count.wrapping_add(puts.count / 2);
        batches = batches.wrapping_mul(2);
        pattern = ReadPattern::Thinned;
    }
    let batches = before.wrapping_add(batches);
    measured.right = right_of(subject, batches, pattern, puts.count, puts.round)?;
    Ok(measured)
}

/// Gets of keys, or scans.
fn read<R: Clock, D: Device + Drop>(
    rt: &R,
    subject: &mut Subject<D>,
    sizes: Sizes,
    pattern: Option<ReadPattern>,
    round: u8,
) -> Result<Measured, Refusal> {
    let Some(store) = &mut subject.store else {
        return Err(Refusal::Stopped);
    };
    let mut measured = Measured::of(sizes.keys);
    let start = now(rt);
    match pattern {
        Some(pattern) => measured.right = count_right(store, pattern, sizes.keys, round)?,
        None => {
            let (pages, rows) = scan(store, sizes.scans, round)?;
            measured.operations = pages;
            measured.right = rows;
            measured.wanted = sizes.keys.wrapping_mul(sizes.scans);
        }
    }
    measured.nanos = since(rt, start);
    Ok(measured)
}

/// Makes all puts and opens the store, `times` times.
fn open<R: Clock + Threads + Sync, D: Device + Drop>(
    rt: &R,
    alloc: Global,
    subject: &mut Subject<D>,
    puts: Puts,
    times: u32,
) -> Result<Measured, Refusal> {
    let mut measured = Measured::of(times);
    measured.wanted = puts.count.wrapping_mul(times);
    for _ in 0..times {
        put(rt, alloc, subject, puts)?;
        let batches = subject.stat()?.batches;
        let nanos = subject.reopen(rt, alloc, CACHE)?;
        measured.nanos = measured.nanos.saturating_add(nanos);
        let right = right_of(subject, batches, ReadPattern::Put, puts.count, puts.round)?;
        measured.right = measured.right.wrapping_add(right);
    }
    Ok(measured)
}

/// Sessions one after another, each of which begins with an empty log.
fn share<R: Clock + Threads + Wait + Sync, D: Device + Drop + Send>(
    rt: &R,
    alloc: Global,
    subject: &mut Subject<D>,
    task: Task,
    times: u32,
) -> Result<Measured, Refusal> {
    let commits = task.commits.wrapping_mul(task.clients);
    let mut measured = Measured::of(commits.wrapping_mul(times));
    let batches = u64::from(measured.operations).wrapping_add(subject.stat()?.batches);
    for _ in 0..times {
        let nanos = subject.share(rt, alloc, USUAL, task)?.nanos;
        measured.nanos = measured.nanos.saturating_add(nanos);
    }
    measured.wanted = commits;
    measured.right = right_of(subject, batches, ReadPattern::Put, commits, task.round)?;
    Ok(measured)
}

/// A session whose trail is filled. Its wait is that of a change of rounds: the end of the session, and the beginning of one.
fn fill<R: Clock + Threads + Wait + Sync, D: Device + Drop + Send>(
    rt: &R,
    alloc: Global,
    subject: &mut Subject<D>,
    task: Task,
) -> Result<Measured, Refusal> {
    let mut measured = Measured::of(task.places);
    let times = subject.share(rt, alloc, USUAL, task)?;
    measured.nanos = times.nanos;
    measured.wait = times.change;
    measured.right = times.entries;
    Ok(measured)
}

/// A session in which one client fills an empty store, alone or with a worker, with all flushes and merges in the time. Its wait is
/// the longest put.
fn fill_beside<R: Clock + Threads + Wait + Sync, D: Device + Drop + Send>(
    rt: &R,
    alloc: Global,
    subject: &mut Subject<D>,
    filling: Filling,
) -> Result<Measured, Refusal> {
    subject.renew(alloc)?;
    let mut measured = Measured::of(filling.puts);
    let free = subject.stat()?.free_blocks;
    let times = subject.share(rt, alloc, USUAL, filling.task())?;
    measured.nanos = times.nanos;
    measured.wait = times.longest;
    measured.held = free.saturating_sub(subject.stat()?.free_blocks);
    let batches = u64::from(filling.puts);
    measured.right = right_of(
        subject,
        batches,
        ReadPattern::Put,
        filling.puts,
        filling.round,
    )?;
    Ok(measured)
}

/// How many puts a way of committing makes.
fn count_of(sizes: Sizes, way: Way) -> u32 {
    if way.synced && way.puts == 1 {
        sizes.synced
    } else {
        sizes.keys
    }
}

/// The puts of a workload.
fn puts_of(sizes: Sizes, workload: Workload) -> Puts {
    let puts = Puts {
        way: SINGLE,
        count: sizes.keys,
        round: workload.round,
        upkeep: USUAL,
        fresh: false,
        is_whole: false,
        thins: false,
    };
    match workload.work {
        Work::Commit(way) => Puts {
            way,
            count: count_of(sizes, way),
            ..puts
        },
        Work::Load { rule, thins } => Puts {
            way: HUNDRED,
            upkeep: Upkeep { rule, parts: 4 },
            fresh: true,
            is_whole: true,
            thins,
            ..puts
        },
        Work::Keep { way, rule, fresh } => Puts {
            way,
            upkeep: Upkeep { rule, parts: 1 },
            fresh,
            is_whole: true,
            ..puts
        },
        _ => Puts {
            count: sizes.logged,
            ..puts
        },
    }
}

/// What `clients` clients do in a session of a workload.
fn task_of(sizes: Sizes, clients: u32, round: u8) -> Task {
    Task {
        clients,
        commits: sizes.logged / clients.max(1),
        gets: 0,
        places: 8_192,
        synced: false,
        round,
        filling: None,
    }
}

/// The same of a session whose trail they fill.
fn full_task_of(sizes: Sizes, clients: u32, round: u8) -> Task {
    Task {
        commits: sizes.places,
        places: sizes.places,
        gets: 39,
        ..task_of(sizes, clients, round)
    }
}

/// Has a store do a workload.
pub(crate) fn measure<R: Clock + Threads + Wait + Sync, D: Device + Drop + Send>(
    rt: &R,
    alloc: Global,
    subject: &mut Subject<D>,
    sizes: Sizes,
    workload: Workload,
) -> Result<Measured, Refusal> {
    let round = workload.round;
    let puts = puts_of(sizes, workload);
    match workload.work {
        Work::Commit(_) | Work::Load { .. } | Work::Keep { .. } => put(rt, alloc, subject, puts),
        Work::Get(pattern) => read(rt, subject, sizes, Some(pattern), round),
        Work::GetCold => {
            subject.reopen(rt, alloc, 1)?;
            let measured = read(rt, subject, sizes, Some(ReadPattern::Put), round)?;
            subject.reopen(rt, alloc, CACHE)?;
            Ok(measured)
        }
        Work::Scan => read(rt, subject, sizes, None, round),
        Work::Reopen => open(rt, alloc, subject, puts, sizes.openings),
        Work::Share(clients) => {
            let task = task_of(sizes, clients, round);
            share(rt, alloc, subject, task, sizes.sessions)
        }
        Work::ShareSynced(clients) => {
            let mut task = task_of(sizes, clients, round);
            task.commits = sizes.synced / clients.max(1);
            task.synced = true;
            share(rt, alloc, subject, task, 1)
        }
        Work::Fill(clients) => fill(rt, alloc, subject, full_task_of(sizes, clients, round)),
        Work::Beside { has_worker } => {
            let filling = Filling::of(sizes, round, has_worker);
            fill_beside(rt, alloc, subject, filling)
        }
    }
}
