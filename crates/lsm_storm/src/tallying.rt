// Tallies.
ghost use Rattle.std.specs.Prelude.{◌≡◌, ◌≤◌, IfErr, IfOk};
ghost use Rattle.lsm_storm.specs.Storms.{IsSessionRefusal};
ghost use Rattle.lsm_storm.specs.Tallies.{HasTallied};

use crate::counter::counted_in;
use crate::counts::accepted_in;
use crate::crew::Tasks;
use crate::storming::shared_by_all;
use lsm_device::Refusal;
use lsm_language::Load;
use std::alloc::Global;
use std::sync::Wait;
use std::thread::Threads;

/// What came of a tally.
#[derive(Clone, Copy)]
pub struct Tallied {
    /// The counter, when all had ended.
    pub count: u64,
    /// The commits in the trail that were accepted.
    pub accepted: u64,
}

/// Lets clients raise one counter in an empty store in memory, all at the same time, each in a thread of its own. As often as it
/// has commits, each client gets the key 00 and commits the next number, under the guard that the key still has the value that it
/// got. Whatever one of them is answered, it goes on. Of the load it takes clients and commits alone.
///
/// Fails with `NoMemory`, where memory for the store or the session is refused; and with `Io` or `Stopped`, where the device
/// had none for a write. An error of a client is no error of the tally.
pub fn tally<R: Threads + Wait + Sync>(
    rt: &R,
    alloc: Global,
    load: Load,
) -> Result<Tallied, Refusal>
    ensures tallied { IfOk result (HasTallied load.clients) }
    // No commit that was accepted was lost, and none counted twice.
    ensures all { IfOk result (λ tally. tally.count ≡ tally.accepted) }
    ensures refused { IfErr result IsSessionRefusal }
{
    let tasks = Tasks::Tally {
        tries: load.commits(),
    };
    let mut left = shared_by_all(rt, alloc, threads_of(load), tasks)?;
    let accepted = accepted_in(&left.trail);
    let count = counted_in(&mut left.store)?;
    Ok(Tallied { count, accepted })
}

// A thread for each client.
fn threads_of(load: Load) -> u32
    ensures same { result ≡ load.clients }
    ensures within { (1 ≤ result) × (result ≤ 64) }
{
    u32::from(load.clients())
}
