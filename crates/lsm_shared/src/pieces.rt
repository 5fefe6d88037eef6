// The pieces of work that a store does by itself.
ghost use Rattle.std.specs.Prelude.{◌≡◌};
ghost use Rattle.lsm_lives.specs.Asked.{Own as OfItself, Replied};
ghost use Rattle.lsm_lives.specs.Calls.{asked_of_work, reply_of, told_of};
ghost use Rattle.lsm_machine.specs.Calls.{Done, reply_of as reply_by, taken_reply};
ghost use Rattle.lsm_machine.specs.Machine.{Worked};
ghost use Rattle.lsm_store.specs.Working.{Works};
ghost use Rattle.lsm_shared.specs.Pieces.{work_of};

use lsm_device::{Device, Refusal};
use lsm_lives::{Reply, Work};
use lsm_store::{Choice, Store, TakenJob};
use std::alloc::Allocator;

/// A piece of work that a store does by itself: a build and an accept need an input or a result besides.
#[derive(Clone, Copy)]
pub(crate) enum OwnPiece {
    Take,
    TakeOf(Choice),
    Read(u64),
    Write(u64),
    Install(u64),
    Drop(u64),
}

impl OwnPiece {
    /// The piece as a value of a trail.
    pub(crate) fn work(self) -> Work
        ensures { asked_of_work result ≡ OfItself (Worked (work_of self)) }
    {
        match self {
            OwnPiece::Take => Work::Take,
            OwnPiece::TakeOf(choice) => Work::TakeOf(choice),
            OwnPiece::Read(job) => Work::Read(job),
            OwnPiece::Write(job) => Work::Write(job),
            OwnPiece::Install(job) => Work::Install(job),
            OwnPiece::Drop(job) => Work::Drop(job),
        }
    }

    /// The store does it. What the store refuses is a reply.
    pub(crate) fn make<D: Device, A: Allocator + Clone>(self, store: &mut Store<D, A>) -> Reply<A>
        ensures works { Works store.old (work_of self) (reply_of result) store.new }
        ensures told { told_of result ≡ Replied (reply_of result) }
    {
        match self {
            OwnPiece::Take => taken(store.job_take()),
            OwnPiece::TakeOf(choice) => taken(store.job_take_of(choice)),
            OwnPiece::Read(job) => match store.job_read(job) {
                Ok(left) => Reply::Number(left as u64),
                Err(refusal) => Reply::Refused(refusal),
            },
            OwnPiece::Write(job) => match store.job_write(job) {
                Ok(left) => Reply::Number(u64::from(left)),
                Err(refusal) => Reply::Refused(refusal),
            },
            OwnPiece::Install(job) => done(store.job_install(job)),
            OwnPiece::Drop(job) => done(store.job_drop(job)),
        }
    }
}

/// The reply to a taking.
fn taken<A: Allocator>(answered: Result<Option<TakenJob>, Refusal>) -> Reply<A>
    ensures reply { reply_of result ≡ reply_by taken_reply answered }
    ensures told { told_of result ≡ Replied (reply_of result) }
{
    match answered {
        Ok(job) => Reply::Taken(job),
        Err(refusal) => Reply::Refused(refusal),
    }
}

/// The reply to a piece that answers nothing.
pub(crate) fn done<A: Allocator>(answered: Result<(), Refusal>) -> Reply<A>
    ensures reply { reply_of result ≡ reply_by (λ _. Done) answered }
    ensures told { told_of result ≡ Replied (reply_of result) }
{
    match answered {
        Ok(()) => Reply::Done,
        Err(refusal) => Reply::Refused(refusal),
    }
}
