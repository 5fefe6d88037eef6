// A session of clients and workers, each in a thread of its own.
ghost use Rattle.std.specs.Prelude.{◌≡◌, ◌<◌, ℕ, length, slice_index_or, IfErr, IfOk};
ghost use Rattle.lsm_device.specs.declared.refusal.Refusal.TheVariants.{NoMemory};
ghost use Rattle.lsm_trail.specs.Knowledge.{Known};
ghost use Rattle.lsm_storm.specs.Crews.{DoesTask, IsDone};
ghost use Rattle.lsm_storm.specs.Storms.{HasEnded};

use crate::client::commit_all;
use crate::counter::count_up;
use crate::worker::work;
use lsm_device::{MemDevice, Refusal};
use lsm_shared::{Client, Shared};
use lsm_store::Store;
use lsm_trail::{Opened, SessionName, Trail};
use std::alloc::Global;
use std::sync::Wait;
use std::thread::{Threads, for_each_mut};

/// The most threads: one for each client and each worker.
const MOST_THREADS: usize = 64;

/// What each of a crew is to do.
#[derive(Clone, Copy)]
pub(crate) enum Tasks {
    /// The first ones by number are clients, which make `commits` commits each, and the others workers.
    Storm { clients: u16, commits: u16 },
    /// All are clients, which try `tries` times to raise one counter.
    Tally { tries: u16 },
}

// How many calls `clients` clients make: each its commits and a rotation.
fn calls_of(clients: u16, commits: u16) -> u64 {
    u64::from(clients).saturating_mul(u64::from(commits) + 1)
}

// What one of them does.
fn take_part<B: SessionName, R: Threads + Wait + Sync>(
    rt: &R,
    alloc: Global,
    shared: &Shared<MemDevice, Global, B>,
    me: &mut Client<Global, B>,
    tasks: Tasks,
)
    ensures { DoesTask tasks me.old me.new }
{
    match tasks {
        Tasks::Storm { clients, commits } => {
            if me.number() < u32::from(clients) {
                commit_all(rt, alloc, shared, me, commits);
            } else {
                work(rt, alloc, shared, me, calls_of(clients, commits));
            }
        }
        Tasks::Tally { tries } => count_up(rt, alloc, shared, me, tries),
    }
}

// All of them do their part at the same time.
fn do_all<B: SessionName + Send + Sync, R: Threads + Wait + Sync>(
    rt: &R,
    alloc: Global,
    shared: &Shared<MemDevice, Global, B>,
    crew: &mut [Client<Global, B>],
    tasks: Tasks,
)
    ensures { (i : ℕ) (d : Known) → i < length crew.old
        → DoesTask tasks (slice_index_or crew.old i d) (slice_index_or crew.new i d) }
{
    let part = |_: usize, me: &mut Client<Global, B>|
        ensures { DoesTask tasks me.old me.new }
    { take_part(rt, alloc, shared, me, tasks) };
    for_each_mut(rt, crew, MOST_THREADS, &part);
}

/// What is left of a session that has ended.
pub(crate) struct Left {
    pub store: Store<MemDevice>,
    pub trail: Trail,
}

// One call at each exit of a caller, in the place of the drops of both fields.
impl Drop for Left {
    fn drop(self) {
        let Left { store: _, trail: _ } = self;
    }
}

/// Begins a session, lets all of its crew do their part, and ends it.
pub(crate) fn run<B: SessionName + Send + Sync, R: Threads + Wait + Sync>(
    rt: &R,
    alloc: Global,
    opened: Opened<MemDevice>,
    tasks: Tasks,
) -> Result<Left, Refusal>
    requires { opened ≡ B.id }
    ensures ended { IfOk result (λ left. HasEnded opened.begin left.store left.trail) }
    ensures done { IfOk result (λ left. IsDone tasks left.trail.log) }
    ensures refused { IfErr result (λ e. e ≡ NoMemory) }
{
    let (shared, mut crew) = match Shared::<MemDevice, Global, B>::begin(alloc, opened) {
        Ok(begun) => begun,
        Err((refusal, _)) => return Err(refusal),
    };
    do_all(rt, alloc, &shared, &mut crew, tasks);
    match shared.finish(crew) {
        Ok((store, trail)) => Ok(Left { store, trail }),
        Err((refusal, _, _)) => Err(refusal),
    }
}
