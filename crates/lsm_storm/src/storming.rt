// Storms.
ghost use Rattle.std.specs.Prelude.{◌≡◌, ◌≤◌, ◌+◌, IfErr, IfOk};
ghost use Rattle.lsm_storm.specs.Crews.{IsDone};
ghost use Rattle.lsm_storm.specs.Storms.{IsFreshBegin, HasEndedFresh, HasStormed, IsSessionRefusal, IsStormRefusal};

use crate::counts::{Counts, accepted_in, pieces_in, rows_in};
use crate::crew::{Left, Tasks, run};
use crate::fresh::fresh;
use lsm_device::{MemDevice, Refusal};
use lsm_language::Load;
use lsm_shared::prepare;
use lsm_trail::Opened;
use std::alloc::Global;
use std::marker::Brand;
use std::sync::Wait;
use std::thread::Threads;

/// The places of the trail.
const PLACES: u32 = 65_536;

/// Lets clients and workers share an empty store in memory, all at the same time, each in a thread of its own, and counts what came
/// of it. Each client commits puts of keys of its own, and in their middle rotates the log once; each worker takes turns until the
/// clients have made all their calls and nothing is left to do, and builds and brings what these hand out to be merged. Whatever one
/// of them is answered, it goes on.
///
/// Fails with `NoMemory`, where memory for the store, the session or a page is refused; with `Io` or `Stopped`, where the
/// device had none for a write; and with `BadLimit` for more than 65,536 pages of rows. What a client or a worker is refused is no refusal of the storm: the counts show it.
pub fn storm<R: Threads + Wait + Sync>(rt: &R, alloc: Global, load: Load) -> Result<Counts, Refusal>
    ensures stormed { IfOk result (HasStormed (load.clients + load.workers)) }
    ensures all { IfOk result (λ counts. counts.commits ≡ counts.batches) }
    ensures refused { IfErr result IsStormRefusal }
{
    let threads = threads_of(load);
    let tasks = Tasks::Storm {
        clients: load.clients(),
        commits: load.commits(),
    };
    let mut left = shared_by_all(rt, alloc, threads, tasks)?;
    let commits = accepted_in(&left.trail);
    let pieces = pieces_in(&left.trail);
    let batches = left.store.batch_count();
    let rows = rows_in(&mut left.store)?;
    Ok(Counts {
        commits,
        batches,
        rows,
        pieces,
    })
}

// A thread for each client and each worker.
fn threads_of(load: Load) -> u32
    ensures same { result ≡ load.clients + load.workers }
    ensures within { (1 ≤ result) × (result ≤ 64) }
{
    let clients = u32::from(load.clients());
    let workers = u32::from(load.workers());
    clients + workers
}

/// A session of `threads` threads on an empty store, which has ended.
pub(crate) fn shared_by_all<R: Threads + Wait + Sync>(
    rt: &R,
    alloc: Global,
    threads: u32,
    tasks: Tasks,
) -> Result<Left, Refusal>
    requires { (1 ≤ threads) × (threads ≤ 64) }
    ensures ended { IfOk result (λ left. HasEndedFresh threads left.store left.trail) }
    ensures done { IfOk result (λ left. IsDone tasks left.trail.log) }
    ensures refused { IfErr result IsSessionRefusal }
{
    let opened = prepared(alloc, threads)?;
    let left = run::<Brand, R>(rt, alloc, opened, tasks)?;
    Ok(left)
}

// Prepares the session of a crew on an empty store.
fn prepared(alloc: Global, threads: u32) -> Result<Opened<MemDevice>, Refusal>
    requires { (1 ≤ threads) × (threads ≤ 64) }
    ensures opened { IfOk result (λ opened. IsFreshBegin threads opened.begin) }
    ensures refused { IfErr result IsSessionRefusal }
{
    let store = fresh(alloc)?;
    match prepare(alloc, store, threads, PLACES) {
        Ok(opened) => Ok(opened),
        Err((refusal, _)) => Err(refusal),
    }
}
