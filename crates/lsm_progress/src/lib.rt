//! How far a long call is, for whoever shows it: compactions, loads and explorations tell what they have reached.
//!
//! A call that tells takes a [`Progress`], whose one method it calls now and then; [`Silent`] shows nothing. What is told is for
//! people: no promise rests on it.
#![tactic(auto)]

use std::fmt;

/// What a call has reached.
#[derive(Clone, Copy, Debug, PartialEq, Eq)]
pub enum Milestone {
    /// A compaction has finished so many jobs.
    Compacted { jobs: u32 },
    /// A load has put so many rows into the store.
    Loaded { rows: u64 },
    /// An exploration has judged so many states, and goes on with this one of the fuses.
    Explored { states: u64, fuse: u64, fuses: u64 },
}

impl fmt::Display for Milestone {
    ghost use Rattle.std.specs.Prelude.{None};

    ghost output = { λ milestone. None };

    fn fmt<W: fmt::Write>(&self, f: &mut fmt::Formatter<W>) -> fmt::Result {
        match self {
            Milestone::Compacted { jobs } => write!(f, "{jobs} jobs finished"),
            Milestone::Loaded { rows } => write!(f, "{rows} rows loaded"),
            Milestone::Explored {
                states,
                fuse,
                fuses,
            } => write!(f, "{states} states explored, fuse {fuse} of {fuses}"),
        }
    }
}

/// Who is told how far a call is.
pub trait Progress {
    /// Called for each milestone, however fast they follow.
    fn reached(&mut self, milestone: Milestone);
}

/// Shows nothing.
#[derive(Clone, Copy, Drop)]
pub struct Silent;

impl Progress for Silent {
    fn reached(&mut self, _milestone: Milestone) {}
}
