// One client of the session that works on jobs.
ghost use Rattle.std.specs.Prelude.{◌≡◌, IfOk};
ghost use Rattle.lsm_shared.specs.Workers.{MakesNoCall};

use lsm_device::{MemDevice, Refusal};
use lsm_policy::Policy;
use lsm_shared::{Client, Shared, take_turn};
use lsm_trail::SessionName;
use std::alloc::Global;
use std::sync::Wait;
use std::thread::Threads;

// In how many parts results are built.
const PARTS: u8 = 2;

// How many turns a worker takes at most.
const TURNS: u32 = 100_000;

// How many calls the other clients make: each commits and syncs.
const CALLS: u64 = 4;

// Takes a turn. Whether there was nothing to do, and the other clients have made all their calls.
fn has_ended<B: SessionName, R: Threads + Wait + Sync>(
    rt: &R,
    alloc: Global,
    shared: &Shared<MemDevice, Global, B>,
    me: &mut Client<Global, B>,
) -> Result<bool, Refusal>
    ensures { IfOk result (λ ended. MakesNoCall me.old me.new) }
{
    let busy = take_turn(rt, alloc, shared, me, &Policy::new(), PARTS)?;
    let calls = me.watch(shared).calls;
    Ok(!busy && calls >= CALLS)
}

// Works until the other clients have made all their calls and nothing is left to do, for at most `TURNS` turns.
pub(crate) fn work<B: SessionName, R: Threads + Wait + Sync>(
    rt: &R,
    alloc: Global,
    shared: &Shared<MemDevice, Global, B>,
    me: Client<Global, B>,
) -> Result<Client<Global, B>, Refusal>
    ensures { IfOk result (λ worker. MakesNoCall me worker) }
{
    let mut me = me;
    for _ in 0..TURNS {
        if has_ended(rt, alloc, shared, &mut me)? {
            break;
        }
    }
    Ok(me)
}
