// What one worker of a storm does.
ghost use Rattle.std.specs.Prelude.{◌≡◌};

use lsm_device::MemDevice;
use lsm_policy::Policy;
use lsm_shared::{Client, Shared, take_turn};
use lsm_trail::SessionName;
use std::alloc::Global;
use std::sync::Wait;
use std::thread::Threads;

/// How many turns a worker takes at most: many more than there are while clients go on, and an end where a client had no memory for
/// a call.
const TURNS: u32 = 1_000_000;

/// In how many parts it builds.
const PARTS: u8 = 4;

// Takes a turn, whatever comes of it. Whether there was nothing to do, and all these calls were made.
fn has_ended<B: SessionName, R: Threads + Wait + Sync>(
    rt: &R,
    alloc: Global,
    shared: &Shared<MemDevice, Global, B>,
    me: &mut Client<Global, B>,
    calls: u64,
) -> bool
    ensures { me.new.number ≡ me.old.number }
{
    let idle = matches!(
        take_turn(rt, alloc, shared, me, &Policy::new(), PARTS),
        Ok(false)
    );
    let made = me.watch(shared).calls;
    idle && made >= calls
}

/// Takes turns until the clients have made all these calls and nothing is left to do, for at most `TURNS` turns.
pub(crate) fn work<B: SessionName, R: Threads + Wait + Sync>(
    rt: &R,
    alloc: Global,
    shared: &Shared<MemDevice, Global, B>,
    me: &mut Client<Global, B>,
    calls: u64,
)
    ensures { me.new.number ≡ me.old.number }
{
    for _ in 0..TURNS {
        if has_ended(rt, alloc, shared, me, calls) {
            break;
        }
    }
}
