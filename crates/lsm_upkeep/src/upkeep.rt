//! What is kept with a store between its writes.

ghost use Rattle.std.specs.Prelude.{◌≡◌, true};
ghost use Rattle.lsm_upkeep.specs.Steps.{IsUpkept};
ghost use Rattle.lsm_upkeep.specs.Writing.{HasRoom};

use crate::allowing::Allowance;
use crate::compacting::compact;
use crate::demand::Demand;
use crate::merging::{do_some_pieces, finish_begun};
use crate::next_compaction::{NextCompaction, next_compaction};
use crate::piecework::PieceDone;
use crate::stepping::{Went, step_down};
use lsm_codec::Batch;
use lsm_device::Device;
use lsm_levels::Choice;
use lsm_policy::Policy;
use lsm_store::Store;
use std::alloc::Global;

/// Before a write of more bytes than this a merge goes on more than once.
const BYTES_A_TIME: usize = 2_048;

/// What is kept with a store between its writes: whether merges are due, which one was begun, and how much more may come into memory
/// before the store is asked again whether there is room. Each store has one of its own.
#[derive(Clone, Copy)]
pub struct Upkeep {
    allowance: Allowance,
    /// Whether merges wait for the next writes.
    waits: bool,
    is_due: bool,
    /// The number of the merge that was begun.
    begun: Option<u64>,
}

impl Upkeep {
    /// That of who writes again and again: where a log is full, the merges that are due then are done in pieces before the next writes, so
    /// that no write waits for a whole one. Before each, and once more for each 2 KiB of it, at most 64 blocks are read or written, or one
    /// result is built.
    pub fn new() -> Upkeep {
        Upkeep {
            allowance: Allowance::none(),
            waits: true,
            is_due: false,
            begun: None,
        }
    }

    /// That of who may not write again: the merges are finished at once.
    pub fn at_once() -> Upkeep {
        Upkeep {
            waits: false,
            ..Upkeep::new()
        }
    }

    /// Finishes the merge that was begun, if one was: who asks for other merges does it before.
    pub fn finish_begun<D: Device>(&mut self, alloc: Global, store: &mut Store<D>) -> bool
        ensures { IsUpkept store.old store.new }
    {
        match self.begun.take() {
            Some(job) => finish_begun(alloc, store, job),
            None => false,
        }
    }

    /// Goes on with the merge that was begun, or begins one of those that are due: the further, the more bytes are written then. Where another
    /// log was opened they are due from now on.
    pub(crate) fn go_on<D: Device>(
        &mut self,
        alloc: Global,
        store: &mut Store<D>,
        opened: bool,
        bytes: usize,
    )
        ensures { IsUpkept store.old store.new }
    {
        if opened {
            self.merge(alloc, store);
        } else {
            self.go_on_times(alloc, store, bytes / BYTES_A_TIME);
        }
    }

    // Does so once and `more` times more, as long as a merge is begun.
    fn go_on_times<D: Device>(&mut self, alloc: Global, store: &mut Store<D>, more: usize)
        ensures { IsUpkept store.old store.new }
    {
        self.go_on_once(alloc, store);
        for _ in 0..more {
            if self.begun.is_none() {
                return;
            }
            self.go_on_once(alloc, store);
        }
    }

    fn go_on_once<D: Device>(&mut self, alloc: Global, store: &mut Store<D>)
        ensures { IsUpkept store.old store.new }
    {
        match self.begun {
            Some(job) => self.go_on_with(alloc, store, job),
            None => self.begin_if_due(alloc, store),
        }
    }

    fn go_on_with<D: Device>(&mut self, alloc: Global, store: &mut Store<D>, job: u64)
        ensures { IsUpkept store.old store.new }
    {
        match do_some_pieces(alloc, store, job) {
            PieceDone::GoesOn | PieceDone::Built => {}
            PieceDone::Finished | PieceDone::NoJob => self.begun = None,
            PieceDone::GivenUp => {
                self.begun = None;
                self.is_due = false;
            }
        }
    }

    // Begins what the policy wants, if merges are due and it wants something.
    fn begin_if_due<D: Device>(&mut self, alloc: Global, store: &mut Store<D>)
        ensures { IsUpkept store.old store.new }
    {
        if !self.is_due {
            return;
        }
        match next_compaction(&Policy::new(), store) {
            NextCompaction::Nothing => self.is_due = false,
            NextCompaction::Step => self.is_due = matches!(step_down(alloc, store), Went::On),
            NextCompaction::Merge(choice) => self.begin_merge(store, choice),
        }
    }

    fn begin_merge<D: Device>(&mut self, store: &mut Store<D>, choice: Choice)
        ensures { IsUpkept store.old store.new }
    {
        self.begun = match store.job_take_of(choice) {
            Ok(Some(taken)) => Some(taken.number),
            Ok(None) | Err(_) => None,
        };
        self.is_due = self.begun.is_some();
    }

    /// Whether a batch is admitted, and the log has room for it. Where it isn't admitted, the merge that was begun is finished, and it is
    /// asked again.
    pub(crate) fn admits<D: Device>(
        &mut self,
        alloc: Global,
        store: &mut Store<D>,
        batch: &Batch,
    ) -> bool
        ensures upkept { IsUpkept store.old store.new }
        ensures room { result ≡ true → HasRoom batch.now store.new }
    {
        if self.admits_now(store, batch) {
            return true;
        }
        self.finish_begun(alloc, store) && self.admits_now(store, batch)
    }

    // Whether a batch is admitted as the store stands, and the log has room for it.
    fn admits_now<D: Device>(&mut self, store: &Store<D>, batch: &Batch) -> bool
        ensures { result ≡ true → HasRoom batch.now store.now }
    {
        let demand = Demand::of(store, batch);
        demand.has_log(store) && self.allowance.admits(store, &demand)
    }

    /// Finishes all merges that are due.
    pub(crate) fn finish<D: Device>(&mut self, alloc: Global, store: &mut Store<D>)
        ensures { IsUpkept store.old store.new }
    {
        self.finish_begun(alloc, store);
        if self.is_due {
            self.is_due = false;
            compact(alloc, store, &Policy::new());
        }
    }

    /// Finishes the merges that the policy wants, or has them wait.
    pub(crate) fn merge<D: Device>(&mut self, alloc: Global, store: &mut Store<D>)
        ensures { IsUpkept store.old store.new }
    {
        if self.waits {
            self.is_due = true;
        } else {
            compact(alloc, store, &Policy::new());
        }
    }
}
