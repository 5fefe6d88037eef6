//! What the slots of a plain machine's jobs wait for.

use crate::plain::step::Step;
use crate::plain::working::{Job, Stage, Working};

/// In how many parts a session's results are built.
pub const PARTS: u8 = 2;

/// What a job waits for.
fn piece_of(job: Job) -> Step {
    match job.stage {
        Stage::Reading(_) => Step::Read(job.number),
        Stage::Frozen => Step::Build(job.number, PARTS),
        Stage::Writing(0) => Step::Install(job.number),
        Stage::Writing(_) => Step::Write(job.number),
    }
}

/// What a slot waits for: a free one for a job, where one comes next.
pub(crate) fn piece_in(working: &Working, slot: usize) -> Option<Step> {
    match working.job_in(slot) {
        Some(job) => Some(piece_of(job)),
        None if working.has_next() => Some(Step::Take),
        None => None,
    }
}

/// Whether a piece of work is the install of a flush for whose run level 0 has no place.
pub(crate) fn is_put_off(working: &Working, step: Step) -> bool {
    match step {
        Step::Install(job) => working.lacks_place(job),
        _ => false,
    }
}
