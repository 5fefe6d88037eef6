// Calls of a store, pieces of work on its jobs, and its replies, as values.

use lsm_codec::{Batch, Guard};
use lsm_device::Refusal;
use lsm_store::{At, Choice, Page, TakenJob};
use std::alloc::{Allocator, Global};

/// A call of a store.
#[derive(Drop)]
pub enum Call<A: Allocator = Global> {
    /// Adds a batch.
    Commit(Batch<A>),
    /// Adds a batch where each of these guards is true of the present map.
    CommitIf(Vec<Guard<A>, A>, Batch<A>),
    /// Makes all batches durable.
    Sync,
    /// Makes the batches up to this sequence number durable.
    SyncTo(u64),
    /// Asks for the value of a key.
    Get(At, Vec<u8, A>),
    /// Asks for the first `limit` pairs from the key `from` on, up to the key `to` where one is given.
    Scan {
        at: At,
        from: Vec<u8, A>,
        to: Option<Vec<u8, A>>,
        limit: u64,
    },
    /// Takes a snapshot of the present map.
    Snapshot,
    /// Forgets the snapshot of this number.
    Release(u64),
    /// Closes the open log, opens a new one after all batches, and makes them durable.
    Rotate,
    /// Asks for the free sectors of the open log.
    Room,
}

/// A piece of work on the jobs of a store. The results of builds are numbered from 1 on, in each replay and in each life.
#[derive(Drop)]
pub enum Work {
    /// Takes the job that comes next.
    Take,
    /// Takes the job of a choice.
    TakeOf(Choice),
    /// Reads data blocks of a job's tables.
    Read(u64),
    /// Builds the result of a job's merge, in `parts` parts.
    Build { job: u64, parts: u64 },
    /// Accepts the result of a number for a job.
    Accept { job: u64, result: u64 },
    /// Writes blocks of a job's outputs.
    Write(u64),
    /// Puts a job's outputs in the place of what it took in.
    Install(u64),
    /// Gives a job up.
    Drop(u64),
}

/// A step of a replay, or of a life.
#[derive(Drop)]
pub enum Step<A: Allocator = Global> {
    Call(Call<A>),
    Work(Work),
}

/// What a store replies to a call, and what is replied to a piece of work.
#[derive(Drop)]
pub enum Reply<A: Allocator = Global> {
    /// Of a batch that was added, of a snapshot that was taken, of sectors, or of blocks that are left.
    Number(u64),
    /// All that was asked for is done.
    Done,
    /// Of a key, none where it has none.
    Value(Option<Vec<u8, A>>),
    /// Of a range of keys.
    Page(Page<A>),
    /// Of a job that was taken, none where there was none.
    Taken(Option<TakenJob>),
    /// Of a result that was built, its number, and how many tables it has.
    Built { result: u64, tables: u64 },
    /// It was refused.
    Refused(Refusal),
}
