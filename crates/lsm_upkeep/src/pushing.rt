//! Tables are brought down until a batch is admitted, or as far as they go.

ghost use Rattle.lsm_upkeep.specs.Steps.{IsUpkept};

use crate::demand::Demand;
use crate::stepping::{Way, Went, take};
use lsm_device::Device;
use lsm_store::Store;
use std::alloc::Global;

/// The most steps that are taken at once.
const MOST_STEPS: u32 = 20_000;

/// The most joins after the last step.
const MOST_JOINS: u32 = 200;

/// The most attempts at all: four for each step.
const MOST_ATTEMPTS: u32 = 80_201;

/// With more tables than this, neighbours are joined first.
const MANY_TABLES: usize = 780;

/// How far tables were brought down: steps down are taken until none is left, none can be taken, or what is demanded is admitted with
/// blocks to spare. Where none can be taken neighbours are joined, or else tables are brought into level 4, which moves them to other blocks
/// and so may make room for the step. Where there are many tables neighbours are joined first, and where no step is left, as long as a level
/// has many small tables.
#[derive(Clone, Copy)]
pub(crate) struct PushState {
    demand: Option<Demand>,
    taken: u32,
    last: Last,
}

/// What was attempted last.
#[derive(Clone, Copy)]
enum Last {
    /// Nothing.
    Nothing,
    /// Neighbours were to be joined before a step.
    JoinBefore,
    /// A step down was to be taken.
    Step,
    /// Neighbours were to be joined, since no step could be taken.
    JoinInstead,
    /// A table was to be brought into the last of the levels, since no neighbours could be joined either.
    Sink,
    /// Neighbours were to be joined after the last step, or are to be: this number of times up to now.
    JoinBehind(u32),
}

impl PushState {
    /// Steps down are to be taken.
    pub fn down(demand: Option<Demand>) -> PushState {
        PushState {
            demand,
            taken: 0,
            last: Last::Nothing,
        }
    }

    /// Neighbours alone are to be joined.
    pub fn joins() -> PushState {
        PushState {
            demand: None,
            taken: 0,
            last: Last::JoinBehind(0),
        }
    }

    /// What is to be attempted next, where the last attempt went so; a first one is told that it went on. None at the end.
    pub fn next<D: Device>(&mut self, store: &Store<D>, went: Went) -> Option<Way> {
        match (self.last, went) {
            (Last::Nothing, _) => self.begin_step(store),
            (Last::JoinBehind(count), Went::On) => self.join_behind(count),
            (_, Went::On) => {
                self.taken = self.taken.saturating_add(1);
                self.begin_step(store)
            }
            (Last::JoinBefore, _) => self.attempt(Last::Step, Way::Down),
            (Last::Step, Went::ToTheEnd) => self.join_behind(0),
            (Last::Step, Went::Nowhere) => self.attempt(Last::JoinInstead, Way::Together),
            (Last::JoinInstead, _) => self.attempt(Last::Sink, Way::ToTheLast),
            (Last::Sink | Last::JoinBehind(_), _) => None,
        }
    }

    fn attempt(&mut self, last: Last, way: Way) -> Option<Way> {
        self.last = last;
        Some(way)
    }

    fn begin_step<D: Device>(&mut self, store: &Store<D>) -> Option<Way> {
        if self.taken >= MOST_STEPS || (self.taken > 0 && is_met(store, self.demand)) {
            return None;
        }
        if has_many_tables(store) {
            return self.attempt(Last::JoinBefore, Way::Together);
        }
        self.attempt(Last::Step, Way::Down)
    }

    fn join_behind(&mut self, count: u32) -> Option<Way> {
        if count >= MOST_JOINS {
            return None;
        }
        self.attempt(Last::JoinBehind(count.saturating_add(1)), Way::Together)
    }
}

// Whether what is demanded, if anything is, is admitted with blocks to spare.
fn is_met<D: Device>(store: &Store<D>, demand: Option<Demand>) -> bool {
    match demand {
        Some(demand) => demand.is_met_easily(store),
        None => false,
    }
}

fn has_many_tables<D: Device>(store: &Store<D>) -> bool {
    match store.stat() {
        Ok(stat) => stat.tables > MANY_TABLES,
        Err(_) => false,
    }
}

/// Takes steps down until none is left, none can be taken, or what is demanded is admitted with blocks to spare.
pub(crate) fn push<D: Device>(alloc: Global, store: &mut Store<D>, demand: Option<Demand>)
    ensures { IsUpkept store.old store.new }
{
    go_on(alloc, store, PushState::down(demand));
}

/// Joins neighbours as long as a level has many small tables.
pub(crate) fn join_all<D: Device>(alloc: Global, store: &mut Store<D>)
    ensures { IsUpkept store.old store.new }
{
    go_on(alloc, store, PushState::joins());
}

// Makes one attempt after another.
fn go_on<D: Device>(alloc: Global, store: &mut Store<D>, state: PushState)
    ensures { IsUpkept store.old store.new }
{
    let mut state = state;
    let mut went = Went::On;
    for _ in 0..MOST_ATTEMPTS {
        match state.next(store, went) {
            Some(way) => went = take(alloc, store, way),
            None => return,
        }
    }
}
