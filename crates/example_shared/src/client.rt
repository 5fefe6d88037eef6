// One client of the session.
ghost use Rattle.std.specs.Prelude.{◌≡◌, [], IfOk, OnOk};
ghost use Rattle.lsm_lives.specs.Calls.{call_of, told_of};
ghost use Rattle.example_shared.specs.Shares.{one_put, IsAnswer, Makes, HasStored};

use lsm_codec::{Batch, Op};
use lsm_device::{MemDevice, Refusal};
use lsm_lives::{Call, Reply};
use lsm_shared::{Client, Shared};
use lsm_trail::SessionName;
use std::alloc::Global;
use std::sync::Wait;

// A batch that puts one value.
pub(crate) fn batch_of(alloc: Global, key: &[u8], value: &[u8]) -> Result<Batch, Refusal>
    ensures { IfOk result (λ batch. batch ≡ one_put key.now value.now) }
{
    Ok(Batch::new(alloc, Op::put(alloc, key, value)?)?)
}

// Refuses where the store did.
fn answered(reply: Reply) -> Result<(), Refusal>
    ensures { OnOk result (IsAnswer (told_of reply)) }
{
    match reply {
        Reply::Refused(refusal) => Err(refusal),
        _ => Ok(()),
    }
}

// Makes a call that the store is to answer.
fn make<B: SessionName, R: Wait>(
    rt: &R,
    shared: &Shared<MemDevice, Global, B>,
    me: &mut Client<Global, B>,
    call: Call,
) -> Result<(), Refusal>
    ensures { OnOk result (Makes me.old (call_of call) me.new) }
{
    let reply = me.call(rt, shared, call)?;
    answered(reply)
}

// Commits a batch and syncs.
pub(crate) fn store<B: SessionName, R: Wait>(
    rt: &R,
    shared: &Shared<MemDevice, Global, B>,
    me: Client<Global, B>,
    batch: Batch,
) -> Result<Client<Global, B>, Refusal>
    requires { me.mine ≡ [] }
    ensures { IfOk result (λ client. HasStored me batch client) }
{
    let mut me = me;
    make(rt, shared, &mut me, Call::Commit(batch))?;
    make(rt, shared, &mut me, Call::Sync)?;
    Ok(me)
}
