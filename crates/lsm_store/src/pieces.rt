// What the slots of a store's jobs wait for.
ghost use Rattle.std.specs.Prelude.{◌≡◌, None, is_some, option_map, slice_index_or};
ghost use Rattle.lsm_jobs.specs.Slots.{Slot};
ghost use Rattle.lsm_jobs.specs.Turns.{turn_of};
ghost use Rattle.lsm_store.specs.Memory.{AreConsistent, state_of, work_of};
ghost use Rattle.lsm_machine.specs.Pieces.{work_of_piece, piece_of_job, piece_of_slot, piece_at};
ghost use Rattle.lsm_machine.specs.WorkRefusals.{job_given};

use crate::memory::{Memory, Status};
use lsm_jobs::{JobTurn, NextPiece};
use lsm_machine::Piece;
use std::alloc::Allocator;

/// How many slots there are.
const SLOT_COUNT: usize = 4;

/// What a job waits for.
fn piece_of(turn: JobTurn) -> Piece
    ensures { (slot : Slot) → turn ≡ turn_of slot
        → work_of_piece result ≡ piece_of_job slot.number slot.stage }
{
    match turn.piece {
        NextPiece::Read => Piece::Read(turn.job),
        NextPiece::Build => Piece::Build(turn.job),
        NextPiece::Write => Piece::Write(turn.job),
        NextPiece::Install => Piece::Install(turn.job),
    }
}

impl<A: Allocator> Memory<A> {
    // Whether a job comes next and a slot is free for it.
    fn is_job_next(&self) -> bool
        requires { AreConsistent self.now }
        ensures { result ≡ is_some
            (job_given (record { state = state_of self.now; work = work_of self.now }) None) }
    {
        match self.jobs.has_next(&self.levels, None, self.is_waiting()) {
            Ok(given) => given,
            Err(_exhausted) => true,
        }
    }

    // What a free slot waits for.
    fn piece_of_free(&self) -> Option<Piece>
        requires { AreConsistent self.now }
        ensures { option_map work_of_piece result
            ≡ piece_of_slot (record { state = state_of self.now; work = work_of self.now }) None }
    {
        if self.is_job_next() {
            Some(Piece::Take)
        } else {
            None
        }
    }

    // What the slot at a place waits for while the store runs, free where there is no such place.
    fn piece_of_slot(&self, place: usize) -> Option<Piece>
        requires { AreConsistent self.now }
        ensures { option_map work_of_piece result
            ≡ piece_of_slot (record { state = state_of self.now; work = work_of self.now })
            (slice_index_or self.now.jobs.slots place None) }
    {
        match self.jobs.turn_at(place) {
            Some(turn) => Some(piece_of(turn)),
            None => self.piece_of_free(),
        }
    }

    /// What the slot at a place waits for.
    pub(crate) fn piece_at(&self, place: usize) -> Option<Piece>
        requires { AreConsistent self.now }
        ensures { option_map work_of_piece result
            ≡ piece_at (record { state = state_of self.now; work = work_of self.now }) place }
    {
        if place >= SLOT_COUNT {
            return None;
        }
        match self.status {
            Status::Running => self.piece_of_slot(place),
            Status::Stopped => None,
        }
    }
}
