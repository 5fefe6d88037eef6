// A store makes a call that is a value.
ghost use Rattle.std.specs.Prelude.{◌≡◌, option_map};
ghost use Rattle.lsm_lives.specs.Asked.{Replied};
ghost use Rattle.lsm_lives.specs.Calls.{call_of, reply_of, told_of};
ghost use Rattle.lsm_machine.specs.Calls.{Number, Done, reply_of as reply_by};
ghost use Rattle.lsm_store.specs.Serving.{Serves, reply_in};

use crate::calls::{Call, Reply};
use lsm_device::{Device, Refusal};
use lsm_store::Store;
use std::alloc::Allocator;

/// Makes a call of the store. What the store refuses is a reply.
pub fn serve<D: Device, A: Allocator + Clone>(store: &mut Store<D, A>, call: &Call<A>) -> Reply<A>
    ensures serves { Serves store.old (call_of call.now)
        (reply_in (call_of call.now) store.new.state (reply_of result)) store.new }
    ensures told { told_of result ≡ Replied (reply_of result) }
{
    match call {
        Call::Commit(batch) => number(store.commit(batch)),
        Call::CommitIf(guards, batch) => number(store.commit_if(guards, batch)),
        Call::Sync => done(store.sync()),
        Call::SyncTo(n) => done(store.sync_to(*n)),
        Call::Get(at, key) => match store.get(*at, key) {
            Ok(value) => Reply::Value(value),
            Err(refusal) => Reply::Refused(refusal),
        },
        Call::Scan {
            at,
            from,
            to,
            limit,
        } => match store.scan(*at, from, end_of(to), *limit) {
            Ok(page) => Reply::Page(page),
            Err(refusal) => Reply::Refused(refusal),
        },
        Call::Snapshot => number(store.snapshot()),
        Call::Release(n) => done(store.release(*n)),
        Call::Rotate => done(store.rotate()),
        Call::Room => room(store.log_room()),
    }
}

fn end_of<A: Allocator>(to: &Option<Vec<u8, A>>) -> Option<&[u8]>
    ensures { option_map (λ to. to.now) result ≡ option_map (λ to. to.items) to.now }
{
    match to {
        Some(to) => Some(to),
        None => None,
    }
}

fn number<A: Allocator>(answered: Result<u64, Refusal>) -> Reply<A>
    ensures reply { reply_of result ≡ reply_by Number answered }
    ensures told { told_of result ≡ Replied (reply_of result) }
{
    match answered {
        Ok(n) => Reply::Number(n),
        Err(refusal) => Reply::Refused(refusal),
    }
}

fn room<A: Allocator>(answered: Result<u32, Refusal>) -> Reply<A>
    ensures reply { reply_of result ≡ reply_by Number answered }
    ensures told { told_of result ≡ Replied (reply_of result) }
{
    match answered {
        Ok(sectors) => Reply::Number(u64::from(sectors)),
        Err(refusal) => Reply::Refused(refusal),
    }
}

pub(crate) fn done<A: Allocator>(answered: Result<(), Refusal>) -> Reply<A>
    ensures reply { reply_of result ≡ reply_by (λ _. Done) answered }
    ensures told { told_of result ≡ Replied (reply_of result) }
{
    match answered {
        Ok(()) => Reply::Done,
        Err(refusal) => Reply::Refused(refusal),
    }
}
