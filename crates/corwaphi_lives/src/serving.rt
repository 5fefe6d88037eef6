// A `Db` makes a call that is a value.
ghost use Rattle.std.specs.Prelude.{◌≡◌, None, option_map};
ghost use Rattle.lsm_lives.specs.Calls.{reply_of};
ghost use Rattle.lsm_machine.specs.Calls.{Get, Number, Done, Value, Rows, reply_of as reply_by};
ghost use Rattle.lsm_store.specs.Serving.{Serves};
ghost use Rattle.corwaphi_lives.specs.Calls.{call_of};
ghost use Rattle.corwaphi_lives.specs.Leading.{Does};

use crate::calls::DbCall;
use corwaphi::{At, Db, Device, Page, Refusal};
use lsm_lives::Reply;

/// Makes a call. What is refused is a reply, and a compact is told as done whether all tables came into the last level or not.
pub(crate) fn serve<D: Device>(db: &mut Db<D>, call: &DbCall) -> Reply
    ensures { Does db.old (call_of call.now) (reply_of result) db.new }
{
    match call {
        DbCall::Write(batch) => number(db.write(batch)),
        DbCall::WriteIf(guards, batch) => number(db.write_if(guards, batch)),
        DbCall::Sync => done(db.sync()),
        DbCall::SyncTo(n) => done(db.sync_to(*n)),
        DbCall::Get(at, key) => get(db, *at, key),
        DbCall::Page {
            at,
            from,
            to,
            limit,
        } => page(db.page(*at, from, end_of(to), *limit)),
        DbCall::Snapshot => number(db.snapshot()),
        DbCall::Release(n) => done(db.release(*n)),
        DbCall::Compact => compact(db),
    }
}

fn get<D: Device>(db: &mut Db<D>, at: At, key: &[u8]) -> Reply
    ensures { Serves db.old (Get at key.now) (reply_of result) db.new }
{
    match at {
        At::Now => value(db.get(key)),
        At::Snap(snapshot) => value(db.get_at(snapshot, key)),
    }
}

fn compact<D: Device>(db: &mut Db<D>) -> Reply
    ensures { Does db.old None (reply_of result) db.new }
{
    db.compact();
    Reply::Done
}

fn end_of(to: &Option<Vec<u8>>) -> Option<&[u8]>
    ensures { option_map (λ to. to.now) result ≡ option_map (λ to. to.items) to.now }
{
    match to {
        Some(to) => Some(to),
        None => None,
    }
}

fn number(answered: Result<u64, Refusal>) -> Reply
    ensures { reply_of result ≡ reply_by Number answered }
{
    match answered {
        Ok(n) => Reply::Number(n),
        Err(refusal) => Reply::Refused(refusal),
    }
}

fn done(answered: Result<(), Refusal>) -> Reply
    ensures { reply_of result ≡ reply_by (λ _. Done) answered }
{
    match answered {
        Ok(()) => Reply::Done,
        Err(refusal) => Reply::Refused(refusal),
    }
}

fn value(answered: Result<Option<Vec<u8>>, Refusal>) -> Reply
    ensures { reply_of result ≡ reply_by (λ value. Value (option_map (λ v. v.items) value))
        answered }
{
    match answered {
        Ok(value) => Reply::Value(value),
        Err(refusal) => Reply::Refused(refusal),
    }
}

fn page(answered: Result<Page, Refusal>) -> Reply
    ensures { reply_of result ≡ reply_by Rows answered }
{
    match answered {
        Ok(page) => Reply::Page(page),
        Err(refusal) => Reply::Refused(refusal),
    }
}
