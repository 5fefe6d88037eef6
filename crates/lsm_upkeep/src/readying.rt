//! How far a store was made ready for a batch, for callers that do one piece of work at a time.

ghost use Rattle.std.specs.Prelude.{◌≡◌, true};
ghost use Rattle.lsm_upkeep.specs.Readying.{is_before_room};
ghost use Rattle.lsm_upkeep.specs.Writing.{HasRoom, HasRoomFor, LacksRoom, wants_room};
ghost use Rattle.lsm_upkeep.specs.declared.readying.Verdict.TheVariants.{Commit, Refuse};

use crate::allowing::Allowance;
use crate::demand::Demand;
use crate::flushing::is_waiting;
use crate::planning::Goal;
use lsm_codec::Batch;
use lsm_device::Device;
use lsm_store::Store;

/// What is to be done with a batch.
#[derive(Clone, Copy)]
pub enum Verdict {
    /// It is to be committed.
    Commit,
    /// It is to fail with `NoSpace`.
    Refuse,
    /// A goal is to be reached, and then it is asked again.
    After(Goal),
}

/// What was done for a batch.
#[derive(Clone, Copy)]
enum Done {
    /// Nothing.
    Nothing,
    /// The flush that waited was finished.
    Flush,
    /// A log is open that has room, if one could be opened.
    Log,
    /// Tables were pushed down, so that it may join what is in memory.
    PushToJoin,
    /// Another log was opened for it.
    NextLog,
    /// And tables were pushed down.
    Push,
}

/// How far a store was made ready for a batch: what [`admit`](crate::admit) does at once is done goal by goal, and each time the batch is
/// asked what it demands of the store as it then is.
#[derive(Clone, Copy)]
pub struct AdmitState {
    done: Done,
    allowance: Allowance,
}

impl AdmitState {
    /// Nothing was done yet.
    pub fn new() -> AdmitState {
        AdmitState {
            done: Done::Nothing,
            allowance: Allowance::none(),
        }
    }

    /// Nothing was done for the next batch. What the store granted counts on.
    pub fn next_batch(self) -> AdmitState {
        AdmitState {
            done: Done::Nothing,
            ..self
        }
    }

    /// What is to be done next with a batch. It is refused only if it puts values, or if a snapshot keeps what it deletes; and if the
    /// memtable is empty and none waits for its flush, only by a store that is crowded. As long as no log was begun and no table brought
    /// down for it, it is committed only with room, deletes alone too.
    pub fn next<D: Device>(&mut self, store: &Store<D>, batch: &Batch) -> Verdict
        ensures refused { result ≡ Refuse → wants_room batch.now store.now.state ≡ true }
        ensures crowded { result ≡ Refuse → LacksRoom batch.now store.now }
        ensures room { result ≡ Commit → HasRoomFor batch.now store.now }
        ensures at_once { is_before_room self.old.done ≡ true → result ≡ Commit
            → HasRoom batch.now store.now }
    {
        if store.is_stopped() {
            return Verdict::Commit;
        }
        if let Some(goal) = self.log_goal(store) {
            return Verdict::After(goal);
        }
        match self.done {
            Done::Nothing | Done::Flush | Done::Log | Done::PushToJoin => self.with_log(
                store, batch,
            ),
            Done::NextLog => self.with_next_log(store, batch),
            Done::Push => behind_push(store, batch),
        }
    }

    // What is to be done so that a log with room is open.
    fn log_goal<D: Device>(&mut self, store: &Store<D>) -> Option<Goal>
        ensures { is_before_room self.new.done ≡ is_before_room self.old.done }
    {
        if matches!(self.done, Done::Nothing) {
            self.done = Done::Flush;
            if is_waiting(store) {
                return Some(Goal::Flushed);
            }
        }
        if matches!(self.done, Done::Flush) {
            self.done = Done::Log;
            if let Ok(0) = store.log_room() {
                return Some(Goal::NextLog { compacts: true });
            }
        }
        None
    }

    fn with_log<D: Device>(&mut self, store: &Store<D>, batch: &Batch) -> Verdict
        ensures refused { result ≡ Refuse → ⊥ }
        ensures room { result ≡ Commit → HasRoomFor batch.now store.now }
        ensures at_once { is_before_room self.old.done ≡ true → result ≡ Commit
            → HasRoom batch.now store.now }
    {
        let demand = Demand::of(store, batch);
        let has_log = demand.has_log(store);
        if has_log && self.allowance.admits(store, &demand) {
            return Verdict::Commit;
        }
        if has_log && !demand.puts && demand.joins(store) {
            if matches!(self.done, Done::PushToJoin) {
                return Verdict::Commit;
            }
            self.done = Done::PushToJoin;
            return Verdict::After(Goal::Room(demand));
        }
        self.done = Done::NextLog;
        Verdict::After(Goal::NextLog { compacts: !has_log })
    }

    fn with_next_log<D: Device>(&mut self, store: &Store<D>, batch: &Batch) -> Verdict
        ensures refused { result ≡ Refuse → ⊥ }
        ensures room { result ≡ Commit → HasRoomFor batch.now store.now }
    {
        let demand = Demand::of(store, batch);
        if demand.is_met(store) {
            return Verdict::Commit;
        }
        self.done = Done::Push;
        Verdict::After(Goal::Room(demand))
    }
}

fn behind_push<D: Device>(store: &Store<D>, batch: &Batch) -> Verdict
    ensures refused { result ≡ Refuse → wants_room batch.now store.now.state ≡ true }
    ensures crowded { result ≡ Refuse → LacksRoom batch.now store.now }
    ensures room { result ≡ Commit → HasRoomFor batch.now store.now }
{
    if Demand::of(store, batch).is_refused(store) {
        return Verdict::Refuse;
    }
    Verdict::Commit
}
