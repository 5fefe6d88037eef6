//! The entries that a session's trail is to have.

use lsm_device::Refusal;
use lsm_lives::{Call, Step as Made, Work};
use lsm_trail::{Trail, TrailEntry};
use std::alloc::{Allocator, Global};
use test_compared_steps::asking::told_step;
use test_compared_steps::plain::{Answer, Step};

/// An entry: who made the step, and what the trail is to tell of its reply.
#[derive(Clone, Copy)]
struct ExpectedEntry {
    client: u32,
    step: Step,
    answer: Answer,
}

/// The entries, the most that the trail may have, how many are calls, and how many are builds that were lent an input.
#[derive(Drop)]
pub(crate) struct Entries {
    wanted: Vec<ExpectedEntry>,
    places: u32,
    calls: u64,
    builds: u64,
}

fn is_call_of<A: Allocator>(call: &Call<A>, step: Step) -> bool {
    match call {
        Call::Commit(_) => matches!(step, Step::Commit(_)),
        Call::Sync => matches!(step, Step::Sync),
        Call::SyncTo(number) => matches!(step, Step::SyncTo(wanted) if wanted == *number),
        Call::Get(_, _) => matches!(step, Step::Get(_, _)),
        Call::Scan { .. } => matches!(step, Step::Scan(_, _, _)),
        Call::Snapshot => matches!(step, Step::Snapshot),
        Call::Release(number) => matches!(step, Step::Release(wanted) if wanted == *number),
        Call::Rotate => matches!(step, Step::Rotate),
        Call::Room => matches!(step, Step::Room),
        Call::CommitIf(_, _) => matches!(step, Step::CommitIf(_, _, _)),
    }
}

fn is_work_of(work: &Work, step: Step) -> bool {
    match work {
        Work::Take => matches!(step, Step::Take),
        Work::Read(job) => matches!(step, Step::Read(wanted) if wanted == *job),
        Work::Build { job, .. } => matches!(step, Step::Build(wanted, _) if wanted == *job),
        Work::Accept { job, .. } => matches!(step, Step::Accept(wanted) if wanted == *job),
        Work::Write(job) => matches!(step, Step::Write(wanted) if wanted == *job),
        Work::Install(job) => matches!(step, Step::Install(wanted) if wanted == *job),
        Work::Drop(job) => matches!(step, Step::Drop(wanted) if wanted == *job),
        Work::TakeOf(choice) => matches!(step, Step::TakeOf(wanted) if wanted == *choice),
    }
}

fn is_of<A: Allocator>(made: &Made<A>, step: Step) -> bool {
    match made {
        Made::Call(call) => is_call_of(call, step),
        Made::Work(work) => is_work_of(work, step),
    }
}

fn is_as_wanted<A: Allocator>(entry: &TrailEntry<A>, wanted: ExpectedEntry) -> bool {
    entry.client() == wanted.client
        && is_of(entry.step(), wanted.step)
        && told_step(entry.reply(), wanted.step) == wanted.answer
}

/// Whether a client that is answered so has made an entry.
pub(crate) fn is_entered(answer: Answer) -> bool {
    !matches!(
        answer,
        Answer::Taken(None)
            | Answer::Refused(Refusal::NoMemory | Refusal::TrailFull | Refusal::NotYours)
    )
}

fn is_call(step: Step) -> bool {
    matches!(
        step,
        Step::Commit(_)
            | Step::CommitIf(_, _, _)
            | Step::Sync
            | Step::SyncTo(_)
            | Step::Get(_, _)
            | Step::Scan(_, _, _)
            | Step::Snapshot
            | Step::Release(_)
            | Step::Rotate
            | Step::Room
    )
}

fn is_lent(step: Step, answer: Answer) -> bool {
    matches!(step, Step::Build(_, _)) && matches!(answer, Answer::Number(_))
}

impl Entries {
    /// No entry, of a trail with `places` places.
    pub(crate) fn new(alloc: Global, places: u32) -> Entries {
        Entries {
            wanted: Vec::new(alloc),
            places,
            calls: 0,
            builds: 0,
        }
    }

    /// Whether the trail has no place for another entry.
    pub(crate) fn is_full(&self) -> bool {
        self.wanted.len() >= self.places as usize
    }

    /// How many entries are calls.
    pub(crate) fn calls(&self) -> u64 {
        self.calls
    }

    /// The number of the result of the next build.
    pub(crate) fn next_result(&self) -> u64 {
        self.builds.wrapping_add(1)
    }

    pub(crate) fn add(&mut self, client: u32, step: Step, answer: Answer) -> Result<(), Refusal> {
        self.wanted.push(ExpectedEntry {
            client,
            step,
            answer,
        })?;
        self.calls = self.calls.wrapping_add(is_call(step).into());
        self.builds = self.builds.wrapping_add(is_lent(step, answer).into());
        Ok(())
    }

    /// Whether a trail has just these entries.
    pub(crate) fn are_in<A: Allocator>(&self, trail: &Trail<A>) -> bool {
        let entries = trail.entries();
        let mut same = entries.len() == self.wanted.len();
        for (entry, wanted) in entries.iter().zip(self.wanted.iter()) {
            same = same && is_as_wanted(entry, *wanted);
        }
        same
    }
}
