//! A job that was taken, one piece after another.

ghost use Rattle.lsm_upkeep.specs.Steps.{IsUpkept};

use lsm_codec::Key;
use lsm_device::Device;
use lsm_store::{Piece, Store};
use std::alloc::Global;

/// What became of a job that was to go on.
#[derive(Clone, Copy)]
pub enum PieceDone {
    /// No slot has it.
    NoJob,
    /// Blocks of it were read or written, and more is to be done.
    GoesOn,
    /// Its result was built and accepted.
    Built,
    /// It was installed, which ends it.
    Finished,
    /// A piece of it was refused, and it was given up.
    GivenUp,
}

/// The number of slots for jobs.
const SLOTS: usize = 4;

/// Does the next piece of the job of this number, if a slot has it: reads at most eight blocks, builds its result, divided at these keys
/// too, writes at most eight blocks, or installs it. A job of which a piece is refused is given up.
pub fn do_piece<D: Device>(
    alloc: Global,
    store: &mut Store<D>,
    job: u64,
    divisions: &mut Option<Vec<Key>>,
) -> PieceDone
    ensures { IsUpkept store.old store.new }
{
    match piece_of(store, job) {
        Some(Piece::Read(_)) => read(store, job),
        Some(Piece::Build(_)) => build(alloc, store, job, divisions.take()),
        Some(Piece::Write(_)) => write(store, job),
        Some(Piece::Install(_)) => install(store, job),
        Some(Piece::Take) | None => PieceDone::NoJob,
    }
}

// The piece for which the slot of a job waits.
fn piece_of<D: Device>(store: &Store<D>, job: u64) -> Option<Piece> {
    for place in 0..SLOTS {
        match store.piece_at(place) {
            Some(piece) if is_of(piece, job) => return Some(piece),
            Some(_) | None => {}
        }
    }
    None
}

fn is_of(piece: Piece, job: u64) -> bool {
    match piece {
        Piece::Read(held) | Piece::Build(held) | Piece::Write(held) | Piece::Install(held) => {
            held == job
        }
        Piece::Take => false,
    }
}

fn read<D: Device>(store: &mut Store<D>, job: u64) -> PieceDone
    ensures { IsUpkept store.old store.new }
{
    let done = store.job_read(job).is_ok();
    end_of(store, job, done, PieceDone::GoesOn)
}

fn build<D: Device>(
    alloc: Global,
    store: &mut Store<D>,
    job: u64,
    divisions: Option<Vec<Key>>,
) -> PieceDone
    ensures { IsUpkept store.old store.new }
{
    let divisions = match divisions {
        Some(divisions) => divisions,
        None => Vec::new(alloc),
    };
    let done = store.job_merge(job, divisions).is_ok();
    end_of(store, job, done, PieceDone::Built)
}

fn write<D: Device>(store: &mut Store<D>, job: u64) -> PieceDone
    ensures { IsUpkept store.old store.new }
{
    let done = store.job_write(job).is_ok();
    end_of(store, job, done, PieceDone::GoesOn)
}

fn install<D: Device>(store: &mut Store<D>, job: u64) -> PieceDone
    ensures { IsUpkept store.old store.new }
{
    let done = store.job_install(job).is_ok();
    end_of(store, job, done, PieceDone::Finished)
}

// What became of a job of which a piece was done or refused.
fn end_of<D: Device>(store: &mut Store<D>, job: u64, done: bool, outcome: PieceDone) -> PieceDone
    ensures { IsUpkept store.old store.new }
{
    if done {
        return outcome;
    }
    let _ = store.job_drop(job);
    PieceDone::GivenUp
}
