//! What comes next of the jobs that hold slots.

ghost use Rattle.std.specs.Prelude.{◌≡◌};
ghost use Rattle.lsm_jobs.specs.Turns.{piece_at, turn_at, turn_of};

use crate::held::{HeldJob, Work};
use crate::slots::Slots;
use std::alloc::Allocator;

/// What a job waits for.
#[derive(Clone, Copy, Debug, PartialEq, Eq)]
pub enum NextPiece {
    /// Its data blocks are to be read.
    Read,
    /// A result is to be built of its input, and accepted.
    Build,
    /// Its outputs are to be written.
    Write,
    /// Its outputs, which are written, are to be installed.
    Install,
}

/// The number of a job, and what it waits for.
#[derive(Clone, Copy, Debug, PartialEq, Eq)]
pub struct JobTurn {
    pub job: u64,
    pub piece: NextPiece,
}

impl<A: Allocator> HeldJob<A> {
    /// What it waits for.
    fn next_piece(&self) -> NextPiece
        ensures { result ≡ piece_at self.now.stage }
    {
        match &self.work {
            Work::Reading(_) => NextPiece::Read,
            Work::Frozen(_) => NextPiece::Build,
            Work::Writing(outputs) => {
                if outputs.left() == 0 {
                    NextPiece::Install
                } else {
                    NextPiece::Write
                }
            }
        }
    }

    /// Its number, and what it waits for.
    fn turn(&self) -> JobTurn
        ensures { result ≡ turn_of self.now }
    {
        JobTurn {
            job: self.number(),
            piece: self.next_piece(),
        }
    }
}

impl<A: Allocator> Slots<A> {
    /// The job in the slot at a place, and what it waits for; `None` where the slot is free or there is no such place. It
    /// takes no memory.
    pub fn turn_at(&self, place: usize) -> Option<JobTurn>
        ensures { result ≡ turn_at self.now.slots place }
    {
        if place >= self.slots.len() {
            return None;
        }
        match &self.slots[place] {
            Some(held) => Some(held.turn()),
            None => None,
        }
    }
}
