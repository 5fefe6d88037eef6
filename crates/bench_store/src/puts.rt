//! Puts of many keys, log after log.

use crate::clock::{now, since};
use crate::keys::{batch_of, guards_of, thinning_of};
use crate::measuring::Measured;
use crate::settling::{Upkeep, settle};
use crate::workloads::{Guarding, Way};
use lsm_codec::Batch;
use lsm_device::{Device, Refusal};
use lsm_store::Store;
use std::alloc::Global;
use std::rt::Clock;
use std::thread::Threads;

/// Puts of the numbers from 0 on, in a round.
#[derive(Clone, Copy)]
pub(crate) struct Puts {
    pub(crate) way: Way,
    pub(crate) count: u32,
    pub(crate) round: u8,
    /// How the store is settled before each log.
    pub(crate) upkeep: Upkeep,
    /// Whether the store is empty before.
    pub(crate) fresh: bool,
    /// Whether that is measured too, and the store settled after the last log.
    pub(crate) is_whole: bool,
    /// Whether every second key is deleted one log later.
    pub(crate) thins: bool,
}

impl Puts {
    /// How many batches of puts they are.
    pub(crate) fn batches(self) -> u32 {
        self.count / self.way.puts.max(1)
    }

    /// The batches that the log of a place among these takes, from which on, and up to which.
    fn in_log(self, log: u32) -> (u32, u32) {
        let first = log.wrapping_mul(self.way.in_log);
        let end = first.wrapping_add(self.way.in_log);
        (first, end.min(self.batches()))
    }

    /// The number and the round of the value that guards the batch of a place, none where there is no guard. In memory it is that
    /// of a batch of the same log, halfway back to its beginning.
    fn guard(self, place: u32) -> Option<(u32, u8)> {
        match self.way.guarding {
            Guarding::Nothing => None,
            Guarding::InTable(round) => Some((place, round)),
            Guarding::InMemory => {
                let before = place % self.way.in_log.max(1);
                if before == 0 {
                    return None;
                }
                Some((place.wrapping_sub(before.div_ceil(2)), self.round))
            }
        }
    }
}

/// Commits a batch, under a guard where there is one.
pub(crate) fn commit<D: Device>(
    alloc: Global,
    store: &mut Store<D>,
    guard: Option<(u32, u8)>,
    batch: &Batch,
) -> Result<u64, Refusal> {
    match guard {
        Some((number, round)) => store.commit_if(&guards_of(alloc, number, round)?, batch),
        None => store.commit(batch),
    }
}

/// Commits the batches of a log, each synced or not, and the deletes of those of the one before.
fn fill_log<D: Device>(
    alloc: Global,
    store: &mut Store<D>,
    puts: Puts,
    log: u32,
) -> Result<(), Refusal> {
    let count = puts.way.puts;
    let (first, end) = puts.in_log(log);
    for place in first..end {
        let batch = batch_of(alloc, place.wrapping_mul(count), count, puts.round)?;
        commit(alloc, store, puts.guard(place), &batch)?;
        if puts.way.synced {
            store.sync()?;
        }
    }
    if !puts.thins || log == 0 {
        return Ok(());
    }
    let (first, end) = puts.in_log(log - 1);
    for place in first..end {
        let batch = thinning_of(alloc, place.wrapping_mul(count), count)?;
        commit(alloc, store, None, &batch)?;
    }
    Ok(())
}

/// Fills a log, which is empty before, and adds the time and the sectors.
fn fill_timed<R: Clock, D: Device>(
    rt: &R,
    alloc: Global,
    store: &mut Store<D>,
    puts: Puts,
    log: u32,
    measured: &mut Measured,
) -> Result<(), Refusal> {
    let room = store.stat()?.room;
    let start = now(rt);
    fill_log(alloc, store, puts, log)?;
    measured.nanos = measured.nanos.saturating_add(since(rt, start));
    let sectors = room.wrapping_sub(store.stat()?.room);
    measured.written.logged = measured.written.logged.wrapping_add(sectors);
    Ok(())
}

/// Settles the store, and returns the nanoseconds. They are added where they are measured.
fn settle_timed<R: Clock + Threads + Sync, D: Device>(
    rt: &R,
    alloc: Global,
    store: &mut Store<D>,
    puts: Puts,
    measured: &mut Measured,
) -> Result<u64, Refusal> {
    let mut written = measured.written;
    let start = now(rt);
    settle(rt, alloc, store, puts.upkeep, &mut written)?;
    let nanos = since(rt, start);
    if !puts.is_whole {
        return Ok(0);
    }
    measured.written = written;
    measured.nanos = measured.nanos.saturating_add(nanos);
    Ok(nanos)
}

/// Makes all puts. The store is settled before each log.
pub(crate) fn put_all<R: Clock + Threads + Sync, D: Device>(
    rt: &R,
    alloc: Global,
    store: &mut Store<D>,
    puts: Puts,
    measured: &mut Measured,
) -> Result<(), Refusal> {
    let logs = puts.batches().div_ceil(puts.way.in_log.max(1));
    for log in 0..logs.wrapping_add(u32::from(puts.thins)) {
        let wait = settle_timed(rt, alloc, store, puts, measured)?;
        measured.wait = measured.wait.max(wait);
        fill_timed(rt, alloc, store, puts, log, measured)?;
    }
    if puts.is_whole {
        settle_timed(rt, alloc, store, puts, measured)?;
    }
    Ok(())
}
