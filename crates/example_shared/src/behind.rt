// A call that comes after another client's.
ghost use Rattle.std.specs.Prelude.{◌≡◌, IfOk};
ghost use Rattle.lsm_lives.specs.Calls.{call_of, told_of};
ghost use Rattle.lsm_shared.specs.Clients.{MakesCall};
ghost use Rattle.example_shared.specs.Behind.{ComesBehind, StandsBehind};

use lsm_device::{MemDevice, Refusal};
use lsm_lives::{Call, Reply};
use lsm_shared::{Client, Seen, Shared};
use lsm_trail::SessionName;
use std::alloc::Global;
use std::sync::Wait;
use std::thread::{Threads, join};

// Makes a call, and tells of it.
fn make_and_tell<B: SessionName, R: Wait>(
    rt: &R,
    shared: &Shared<MemDevice, Global, B>,
    me: Client<Global, B>,
    call: Call,
) -> Result<(Client<Global, B>, Reply, Seen<Global, B>), Refusal>
    ensures { IfOk result (λ r. MakesCall me (call_of call) (told_of r.1) r.0 × (r.2 ≡ r.0.seen)) }
{
    let mut me = me;
    let reply = me.call(rt, shared, call)?;
    let seen = me.tell(shared);
    Ok((me, reply, seen))
}

// Hears what another tells, and makes a call after that.
fn hear_and_make<B: SessionName, R: Wait>(
    rt: &R,
    shared: &Shared<MemDevice, Global, B>,
    me: &mut Client<Global, B>,
    seen: Seen<Global, B>,
    call: Call,
) -> Result<Reply, Refusal>
    ensures { IfOk result
        (λ reply. ComesBehind seen me.old.number (call_of call) (told_of reply) me.new.seen) }
{
    me.hear(shared, seen);
    let reply = me.call(rt, shared, call)?;
    Ok(reply)
}

/// Lets one client make a call in a thread of its own, which hands over what it has seen. Another hears that, and makes a call: it
/// comes after the first one in the history.
pub fn call_behind<B: SessionName + Send + Sync, R: Threads + Wait + Sync>(
    rt: &R,
    shared: &Shared<MemDevice, Global, B>,
    one: Client<Global, B>,
    two: &mut Client<Global, B>,
    first: Call,
    second: Call,
) -> Result<(Client<Global, B>, Reply, Reply), Refusal>
    ensures { IfOk result
        (λ r. StandsBehind one.number (call_of first) (told_of r.1) two.old.number (call_of second)
        (told_of r.2) two.new.seen) }
{
    let (told, _) = join(
        rt,
        || -> Result<(Client<Global, B>, Reply, Seen<Global, B>), Refusal>
            ensures { IfOk result
                (λ r. MakesCall one (call_of first) (told_of r.1) r.0 × (r.2 ≡ r.0.seen)) }
        { make_and_tell(rt, shared, one, first) },
        || {},
    );
    let (one, reply, seen) = told?;
    let answer = hear_and_make(rt, shared, two, seen, second)?;
    Ok((one, reply, answer))
}
