// A queue of tasks.
ghost use Rattle.std.specs.Prelude.{◌≡◌, IfErr, IfOk, MatchOption, MatchResult};
ghost use Rattle.lsm_machine.specs.Calls.{Sync, Done, reply_of};
ghost use Rattle.lsm_store.specs.Serving.{Serves};
ghost use Rattle.example_work_queue.specs.Committing.{AddsTask, Asks, ClaimsOne, HasCommitted, HasFinished, HoldsQueue, IsAddedNext, IsFinishedNow, IsFirstClaimed, IsRefused, NoneWaits, map_in};
ghost use Rattle.example_work_queue.specs.Deeds.{Adds, Claims, Finishes};

use crate::batches::{adds, claims, finishes, still_claimed, still_last, still_waits};
use crate::rows::{LAST_KEY, claimed_key, first_task, last_number};
use corwaphi::{At, Batch, Db, Device, Guard, Refusal};
use std::alloc::Global;
use std::marker::Model;

/// A queue of tasks, which owns all rows of its store. Contracts see it as the store that it is, whose map tells the status of each task.
/// A store with other rows is no queue; where a call meets one it fails with `BadValue` or `BadKey`.
pub struct Queue<D: Device> {
    alloc: Global,
    db: Db<D>,
}

// One call at each exit of a caller.
impl<D: Device + Drop> Drop for Queue<D> {
    fn drop(self) {
        let Queue { alloc: _, db: _ } = self;
    }
}

impl<D: Device> Model for Queue<D> {
    ghost use Rattle.std.specs.Coded.{codes};
    ghost use Rattle.lsm_codec.specs.Map.{map_code};
    ghost use Rattle.lsm_store.specs.Backing.{StoreView};

    ghost Value = { StoreView };

    ghost coded = { Prim.hlevel (codes, map_code) };

    ghost view = { λ q. q.db };
}

impl<D: Device> Queue<D> {
    /// The queue in a store: an empty one, or one that only queues have written.
    pub fn on(alloc: Global, db: Db<D>) -> Queue<D>
        ensures { result ≡ db }
    {
        Queue { alloc, db }
    }

    /// Gives the store back.
    pub fn into_db(self) -> Db<D>
        ensures { result ≡ self }
    {
        let Queue { alloc: _, db } = self;
        db
    }

    /// Adds a task, and returns its number, from 1 on. The next sync makes it durable.
    ///
    /// Fails with `BadValue` for a task above 2,048 bytes, with `Exhausted` where 2^64 - 1 were added, and as [`get`](Db::get) and
    /// [`write_if`](Db::write_if) of the store. A refused task is not there, but after `Io` a crash may leave it.
    pub fn add(&mut self, task: &[u8]) -> Result<u64, Refusal>
        ensures commits { MatchResult result
            (λ number. HasCommitted (Adds number task.now) self.old self.new)
            (λ refusal. IsRefused (AddsTask task.now) refusal self.old self.new) }
        ensures adds { HoldsQueue self.old
            → IfOk result (λ number. IsAddedNext number task.now (map_in self.old)
            (map_in self.new)) }
        ensures same { IfErr result (λ refusal. map_in self.new ≡ map_in self.old) }
        ensures holds { HoldsQueue self.old → HoldsQueue self.new }
    {
        let row = self.db.get(LAST_KEY)?;
        let last = last_number(&row)?;
        if last == u64::MAX {
            return Err(Refusal::Exhausted);
        }
        let number = last + 1;
        let guard = still_last(self.alloc, &row)?;
        let batch = adds(self.alloc, number, task)?;
        self.db.write_if(&[guard], &batch)?;
        Ok(number)
    }

    /// Claims the task that has waited longest, and returns its number and its bytes; `None` where no task waits.
    ///
    /// Fails as [`page`](Db::page) and [`write_if`](Db::write_if) of the store. Then it waits still, but after `Io` a crash may leave
    /// it claimed.
    pub fn claim(&mut self) -> Result<Option<(u64, Vec<u8>)>, Refusal>
        ensures commits { MatchResult result
            (λ found. MatchOption found (Asks self.old self.new)
            (λ f. HasCommitted (Claims f.0 f.1.items) self.old self.new))
            (λ refusal. IsRefused ClaimsOne refusal self.old self.new) }
        ensures claims { HoldsQueue self.old → IfOk result (λ found. MatchOption found
            (NoneWaits (map_in self.old) × (map_in self.new ≡ map_in self.old))
            (λ f. IsFirstClaimed f.0 f.1.items (map_in self.old) (map_in self.new))) }
        ensures same { IfErr result (λ refusal. map_in self.new ≡ map_in self.old) }
        ensures holds { HoldsQueue self.old → HoldsQueue self.new }
    {
        let page = self.db.page(At::Now, b"w", Some(b"x"), 1)?;
        match first_task(self.alloc, &page)? {
            Some((number, task)) => {
                let guard = still_waits(self.alloc, number, &task)?;
                let batch = claims(self.alloc, number, &task)?;
                self.db.write_if(&[guard], &batch)?;
                Ok(Some((number, task)))
            }
            None => Ok(None),
        }
    }

    /// Finishes the task of a number, and forgets it, where it is claimed. Returns whether it was.
    ///
    /// Fails as [`get`](Db::get) and [`write_if`](Db::write_if) of the store. Then it is claimed still, but after `Io` a crash may
    /// leave it finished.
    pub fn finish(&mut self, number: u64) -> Result<bool, Refusal>
        ensures commits { MatchResult result
            (λ finished. HasFinished finished number self.old self.new)
            (λ refusal. IsRefused (λ deed. deed ≡ Finishes number) refusal self.old self.new) }
        ensures finishes { HoldsQueue self.old
            → IfOk result (λ finished. IsFinishedNow finished number (map_in self.old)
            (map_in self.new)) }
        ensures same { IfErr result (λ refusal. map_in self.new ≡ map_in self.old) }
        ensures holds { HoldsQueue self.old → HoldsQueue self.new }
    {
        let key = claimed_key(number);
        let row = self.db.get(&key)?;
        match row {
            Some(task) => {
                let guard = still_claimed(self.alloc, number, &task)?;
                let batch = finishes(self.alloc, number)?;
                self.db.write_if(&[guard], &batch)?;
                Ok(true)
            }
            None => Ok(false),
        }
    }

    /// Makes all that was done so far durable. Fails as [`sync`](Db::sync) of the store.
    pub fn sync(&mut self) -> Result<(), Refusal>
        ensures serves { Serves self.old Sync (reply_of (λ _. Done) result) self.new }
        ensures same { map_in self.new ≡ map_in self.old }
        ensures holds { HoldsQueue self.old → HoldsQueue self.new }
    {
        self.db.sync()
    }
}
