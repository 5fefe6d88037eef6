//! Calls that are made for a line. A commit finds room: the store is made ready for it.

ghost use Rattle.std.specs.Prelude.{◌≡◌};
ghost use Rattle.lsm_lives.specs.Asked.{Replied};
ghost use Rattle.lsm_lives.specs.Calls.{call_of, reply_of, told_of};
ghost use Rattle.lsm_machine.specs.Calls.{Number, reply_of as reply_by};
ghost use Rattle.lsm_serve.specs.Committing.{MakesCall};

use lsm_device::{Device, Refusal};
use lsm_lives::{Call, Reply, serve};
use lsm_store::Store;
use lsm_upkeep::{Upkeep, write};
use std::alloc::Global;

/// Makes a call. What is refused is a reply.
pub(crate) fn make<D: Device>(
    alloc: Global,
    store: &mut Store<D>,
    upkeep: &mut Upkeep,
    call: &Call,
) -> Reply
    ensures makes { MakesCall (call_of call.now) store.old (reply_of result) store.new }
    ensures told { told_of result ≡ Replied (reply_of result) }
{
    match call {
        Call::Commit(batch) => number(write(alloc, store, upkeep, None, batch)),
        Call::CommitIf(guards, batch) => number(write(alloc, store, upkeep, Some(guards), batch)),
        _ => serve(store, call),
    }
}

// The reply to a commit.
fn number(answered: Result<u64, Refusal>) -> Reply
    ensures reply { reply_of result ≡ reply_by Number answered }
    ensures told { told_of result ≡ Replied (reply_of result) }
{
    match answered {
        Ok(n) => Reply::Number(n),
        Err(refusal) => Reply::Refused(refusal),
    }
}
