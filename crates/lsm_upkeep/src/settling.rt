//! A store is settled: its jobs are taken and finished, one after another.

ghost use Rattle.lsm_upkeep.specs.Keeping.{KeepsMap};
ghost use Rattle.lsm_upkeep.specs.Steps.{IsUpkept};
ghost use Rattle.lsm_upkeep.specs.Upkeep.{FinishesJobs, OpensLog, Settles};

use crate::finishing::finish_next;
use lsm_device::Device;
use lsm_store::Store;
use std::alloc::Global;

/// The most jobs that are finished at once.
const MOST_JOBS: u32 = 64;

/// Takes and finishes jobs, one after another, until none is given, one can't be finished, or 64 are. One that can't is
/// given up. Then a log is opened where the open one has no room, or none is open.
///
/// Errors are skipped: the store goes on as it then is, and its map is the same.
pub fn settle<D: Device>(alloc: Global, store: &mut Store<D>)
    ensures settles { Settles store.old store.new }
    ensures upkept { IsUpkept store.old store.new }
    ensures map { KeepsMap store.old store.new }
{
    finish_jobs(alloc, store);
    open_log(store);
}

fn finish_jobs<D: Device>(alloc: Global, store: &mut Store<D>)
    ensures { FinishesJobs 64 store.old store.new }
{
    for _ in 0..MOST_JOBS {
        if !finish_next(alloc, store) {
            return;
        }
    }
}

// After an opening the open log is empty, so that it has room where one is open.
fn open_log<D: Device>(store: &mut Store<D>)
    ensures { OpensLog store.old store.new }
{
    if let Ok(0) = store.log_room() {
        let _ = store.rotate();
    }
}
