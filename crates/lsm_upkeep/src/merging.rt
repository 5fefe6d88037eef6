//! A merge that was begun before one write, and is done in pieces before the next ones.

ghost use Rattle.lsm_upkeep.specs.Steps.{IsUpkept};

use crate::piecework::{PieceDone, do_piece};
use lsm_device::Device;
use lsm_store::Store;
use std::alloc::Global;

/// This number of pieces is done before a write: they read, or write, at most 64 blocks.
const PIECES_BEFORE_WRITE: u32 = 8;

/// A merge has fewer pieces than this: it takes in at most 1,024 blocks, and writes at most twice as many and some.
const MOST_PIECES: u32 = 4_096;

/// Does some pieces of the merge of a number, up to one that builds its result or installs it, and tells what became of it.
pub(crate) fn do_some_pieces<D: Device>(alloc: Global, store: &mut Store<D>, job: u64) -> PieceDone
    ensures { IsUpkept store.old store.new }
{
    do_pieces(alloc, store, job, PIECES_BEFORE_WRITE)
}

/// Finishes the merge of a number, if a slot has it. Returns whether a piece was left of it.
pub(crate) fn finish_begun<D: Device>(alloc: Global, store: &mut Store<D>, job: u64) -> bool
    ensures { IsUpkept store.old store.new }
{
    let mut left = false;
    for _ in 0..MOST_PIECES {
        match do_piece(alloc, store, job, &mut None) {
            PieceDone::GoesOn | PieceDone::Built => left = true,
            PieceDone::Finished | PieceDone::GivenUp => return true,
            PieceDone::NoJob => return left,
        }
    }
    left
}

fn do_pieces<D: Device>(alloc: Global, store: &mut Store<D>, job: u64, most: u32) -> PieceDone
    ensures { IsUpkept store.old store.new }
{
    for _ in 0..most {
        let done = do_piece(alloc, store, job, &mut None);
        if !matches!(done, PieceDone::GoesOn) {
            return done;
        }
    }
    PieceDone::GoesOn
}
