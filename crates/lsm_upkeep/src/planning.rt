//! What is to be done to a store, attempt by attempt, for callers that do one piece of work at a time.

use crate::compacting::{MOST_JOBS, MOST_STEPS};
use crate::demand::Demand;
use crate::flushing::is_waiting;
use crate::pushing::PushState;
use crate::stepping::{Way, Went};
use crate::trying::{Attempt, FlushState};
use lsm_device::Device;
use lsm_store::Store;

/// What is to be reached.
#[derive(Clone, Copy)]
pub enum Goal {
    /// The flush that waits is finished.
    Flushed,
    /// Another log is open, and what was in the one before is flushed. Where that one had no room, a store is compacted by the policy too.
    NextLog { compacts: bool },
    /// What is demanded is admitted with blocks to spare, or tables are down as far as they go.
    Room(Demand),
    /// A store that was just opened is ready for writes: it is compacted by the policy, and a log is open that has room.
    Opened,
    /// All is in tables, all tables are in the last level, and small neighbours are joined.
    Whole,
}

/// What is done now.
#[derive(Clone, Copy)]
enum Stage {
    Flush,
    Rotate,
    FlushBehind,
    Compact,
    TakeDown,
    Push,
    Join,
    End,
}

/// How far a goal was pursued. Its attempts are those that `admit`, `open_log`, `compact` and `compact_all` make, in their order. The caller
/// takes the job of each, does its pieces, and tells how it went.
///
/// ```
/// let mut plan = Plan::to(Goal::Whole);
/// let first = plan.next(&store, Went::On);
/// ```
#[derive(Clone, Copy)]
pub struct Plan {
    goal: Goal,
    stage: Stage,
    flush: FlushState,
    push: PushState,
    /// Of rounds that have a flush and a step: how many were finished, and whether the step of this one was attempted.
    rounds: u32,
    stepped: bool,
}

impl Plan {
    /// Nothing was attempted for a goal yet.
    pub fn to(goal: Goal) -> Plan {
        let (stage, demand) = match goal {
            Goal::Flushed | Goal::NextLog { .. } | Goal::Whole => (Stage::Flush, None),
            Goal::Opened => (Stage::Compact, None),
            Goal::Room(demand) => (Stage::Push, Some(demand)),
        };
        Plan {
            goal,
            stage,
            flush: FlushState::new(),
            push: PushState::down(demand),
            rounds: 0,
            stepped: false,
        }
    }

    /// What is to be attempted next, where the last attempt went so. None at the end.
    pub fn next<D: Device>(&mut self, store: &Store<D>, went: Went) -> Option<Attempt> {
        let mut went = went;
        for _ in 0..8 {
            if let Some(attempt) = self.next_in_stage(store, went) {
                return Some(attempt);
            }
            self.begin(self.stage_behind());
            went = Went::On;
        }
        None
    }

    /// Whether all that is left to attempt are merges that a write needn't wait for: the log is open that it wanted, and what was in the one
    /// before is flushed.
    pub fn may_wait(&self) -> bool {
        matches!(
            (self.stage, self.goal),
            (Stage::Compact, Goal::NextLog { .. })
        )
    }

    fn begin(&mut self, stage: Stage) {
        self.stage = stage;
        self.flush = FlushState::new();
        self.rounds = 0;
        self.stepped = false;
        if matches!(stage, Stage::Join) {
            self.push = PushState::joins();
        }
    }

    fn stage_behind(&self) -> Stage {
        match (self.stage, self.goal) {
            (Stage::Flush, Goal::NextLog { .. } | Goal::Opened | Goal::Whole) => Stage::Rotate,
            (Stage::Rotate | Stage::FlushBehind, Goal::NextLog { compacts: true }) =>
                Stage::Compact,
            (Stage::Rotate | Stage::FlushBehind, Goal::Whole) => Stage::TakeDown,
            (Stage::Compact, Goal::Opened) => Stage::Flush,
            (Stage::TakeDown, _) => Stage::Join,
            _ => Stage::End,
        }
    }

    fn next_in_stage<D: Device>(&mut self, store: &Store<D>, went: Went) -> Option<Attempt> {
        match self.stage {
            Stage::Flush | Stage::FlushBehind => self.flush.next(store, went),
            Stage::Rotate => self.rotate(store),
            Stage::Compact => self.next_in_round(store, went, Way::ByPolicy, MOST_JOBS),
            Stage::TakeDown => self.next_in_round(store, went, Way::ToTheLast, MOST_STEPS),
            Stage::Push | Stage::Join => match self.push.next(store, went) {
                Some(way) => Some(Attempt::Step(way)),
                None => None,
            },
            Stage::End => None,
        }
    }

    // Another log is opened where no flush waits; after an opening only where the open one has no room. Then comes its flush.
    fn rotate<D: Device>(&mut self, store: &Store<D>) -> Option<Attempt> {
        let has_room = matches!(self.goal, Goal::Opened) && !matches!(store.log_room(), Ok(0));
        if has_room || is_waiting(store) {
            return None;
        }
        self.begin(Stage::FlushBehind);
        Some(Attempt::Rotate)
    }

    // One round after another: the flush that waits is finished, and then a step is taken. It ends where one of both is not.
    fn next_in_round<D: Device>(
        &mut self,
        store: &Store<D>,
        went: Went,
        way: Way,
        most: u32,
    ) -> Option<Attempt> {
        if self.stepped {
            if !matches!(went, Went::On) {
                return None;
            }
            self.rounds = self.rounds.saturating_add(1);
            self.stepped = false;
            self.flush = FlushState::new();
        }
        if self.rounds >= most {
            return None;
        }
        if let Some(attempt) = self.flush.next(store, went) {
            return Some(attempt);
        }
        if is_waiting(store) {
            return None;
        }
        self.stepped = true;
        Some(Attempt::Step(way))
    }
}
