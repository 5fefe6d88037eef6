// What is done to a store between the writes of its host, piece by piece.

ghost use Rattle.std.specs.Prelude.{◌≡◌, true};
ghost use Rattle.lsm_upkeep.specs.Steps.{IsUpkept};
ghost use Rattle.lsm_upkeep.specs.Writing.{LacksRoom, wants_room};
ghost use Rattle.lsm_upkeep.specs.declared.readying.Verdict.TheVariants.{Refuse};

use lsm_codec::{Batch, Key};
use lsm_device::{Device, Refusal};
use lsm_levels::Choice;
use lsm_store::{Store, TakenJob};
use lsm_upkeep::{
    AdmitState, Attempt, Goal, PieceDone, Plan, Verdict, Way, Went, do_piece, next_step,
};
use std::alloc::Global;

/// What a piece of work did.
#[derive(Clone, Copy)]
pub(crate) enum Did {
    /// There is nothing to do.
    Nothing,
    /// A piece was done, and there may be more of it.
    Piece,
    /// A job, a flush or a compaction, was finished.
    Job,
    /// A piece was done or a job finished, and what is left are merges that a write needn't wait for.
    Rest,
}

impl Did {
    pub(crate) fn number(self) -> u32 {
        match self {
            Did::Nothing => 0,
            Did::Piece => 1,
            Did::Job => 2,
            Did::Rest => 3,
        }
    }
}

/// What is to be reached, how far that is, how the last attempt went, and which job was taken for it: one at a time.
#[derive(Drop)]
pub struct Upkeep {
    plan: Plan,
    went: Went,
    /// How far the store was made ready for the batch that is to be written.
    admit: AdmitState,
    /// The number of the job that was taken.
    job: Option<u64>,
    /// The keys at which the result of the job that was taken is to be divided.
    divisions: Option<Vec<Key>>,
}

impl Upkeep {
    /// Of this goal nothing was attempted yet.
    pub(crate) fn to(goal: Goal) -> Upkeep {
        Upkeep {
            plan: Plan::to(goal),
            went: Went::On,
            admit: AdmitState::new(),
            job: None,
            divisions: None,
        }
    }

    /// Another goal is to be reached. A job that was taken is finished first.
    pub(crate) fn turn_to(&mut self, goal: Goal) {
        self.plan = Plan::to(goal);
        self.went = Went::On;
    }

    /// What is to be done with a batch. Where a goal is to be reached before, it is from now on.
    pub(crate) fn admit<D: Device>(&mut self, store: &Store<D>, batch: &Batch) -> Verdict
        ensures refused { result ≡ Refuse → wants_room batch.now store.now.state ≡ true }
        ensures crowded { result ≡ Refuse → LacksRoom batch.now store.now }
    {
        let before = self.admit;
        let verdict = self.admit.next(store, batch);
        match verdict {
            Verdict::After(goal) => self.wait_for(goal, before),
            Verdict::Commit | Verdict::Refuse => self.admit = self.admit.next_batch(),
        }
        verdict
    }

    // A goal is to be reached before a batch is written. A job that was taken holds blocks, so it is finished before all else, and then the
    // batch is asked about anew.
    fn wait_for(&mut self, goal: Goal, before: AdmitState) {
        if self.job.is_some() {
            self.admit = before;
            self.turn_to(Goal::Flushed);
        } else {
            self.turn_to(goal);
        }
    }

    /// Does the next piece. An error is skipped: the job that it stops is given up.
    pub(crate) fn go_on<D: Device>(
        &mut self,
        alloc: Global,
        store: &mut Store<D>,
    ) -> Result<Did, Refusal>
        ensures { IsUpkept store.old store.new }
    {
        if store.is_stopped() {
            return Err(Refusal::Stopped);
        }
        let did = match self.job {
            Some(job) => self.go_on_with(alloc, store, job),
            None => self.attempt(alloc, store),
        };
        Ok(self.as_rest(did))
    }

    // What was done, as it is told where what is left may wait.
    fn as_rest(&self, did: Did) -> Did {
        match did {
            Did::Piece | Did::Job if self.plan.may_wait() => Did::Rest,
            did => did,
        }
    }

    // Does the next piece of a job.
    fn go_on_with<D: Device>(&mut self, alloc: Global, store: &mut Store<D>, job: u64) -> Did
        ensures { IsUpkept store.old store.new }
    {
        match do_piece(alloc, store, job, &mut self.divisions) {
            PieceDone::GoesOn | PieceDone::Built => Did::Piece,
            PieceDone::Finished => {
                self.end(Went::On);
                Did::Job
            }
            PieceDone::GivenUp | PieceDone::NoJob => {
                self.end(Went::Nowhere);
                Did::Piece
            }
        }
    }

    // The job that was taken has ended so.
    fn end(&mut self, went: Went) {
        self.job = None;
        self.went = went;
    }

    // Makes the next attempt. If that is a job it goes on in the next pieces.
    fn attempt<D: Device>(&mut self, alloc: Global, store: &mut Store<D>) -> Did
        ensures { IsUpkept store.old store.new }
    {
        let Some(attempt) = self.plan.next(store, self.went) else {
            return Did::Nothing;
        };
        self.divisions = None;
        self.went = self.begin(alloc, store, attempt);
        Did::Piece
    }

    fn begin<D: Device>(&mut self, alloc: Global, store: &mut Store<D>, attempt: Attempt) -> Went
        ensures { IsUpkept store.old store.new }
    {
        match attempt {
            Attempt::NextJob => self.begin_next(store),
            Attempt::Step(way) => self.begin_step(alloc, store, way),
            Attempt::Rotate => rotate(store),
        }
    }

    fn begin_step<D: Device>(&mut self, alloc: Global, store: &mut Store<D>, way: Way) -> Went
        ensures { IsUpkept store.old store.new }
    {
        match next_step(alloc, store, way) {
            Ok(Some(step)) => {
                self.divisions = Some(step.divisions);
                self.begin_chosen(store, step.choice)
            }
            Ok(None) => Went::ToTheEnd,
            Err(_) => Went::Nowhere,
        }
    }

    // Takes the job that comes next.
    fn begin_next<D: Device>(&mut self, store: &mut Store<D>) -> Went
        ensures { IsUpkept store.old store.new }
    {
        let taken = store.job_take();
        self.begun(taken)
    }

    // Takes the job of a choice.
    fn begin_chosen<D: Device>(&mut self, store: &mut Store<D>, choice: Choice) -> Went
        ensures { IsUpkept store.old store.new }
    {
        let taken = store.job_take_of(choice);
        self.begun(taken)
    }

    // How an attempt goes whose job was taken or not.
    fn begun(&mut self, taken: Result<Option<TakenJob>, Refusal>) -> Went {
        match taken {
            Ok(Some(taken)) => {
                self.job = Some(taken.number);
                Went::On
            }
            Ok(None) | Err(_) => Went::Nowhere,
        }
    }
}

// Opens another log.
fn rotate<D: Device>(store: &mut Store<D>) -> Went
    ensures { IsUpkept store.old store.new }
{
    let _ = store.rotate();
    Went::On
}
