//! Steps by which tables go down where room is scarce.

ghost use Rattle.std.specs.Prelude.{◌≡◌};
ghost use Rattle.lsm_upkeep.specs.Steps.{IsUpkept};
ghost use Rattle.lsm_upkeep.specs.Writing.{is_live};

use crate::finishing::finish_step;
use crate::next_compaction::step_by;
use lsm_device::Device;
use lsm_jobs::Slots;
use lsm_policy::Policy;
use lsm_room::{Advice, Standing, Step};
use lsm_store::Store;
use std::alloc::{AllocError, Global};

/// How a step went.
#[derive(Clone, Copy)]
pub enum Went {
    /// It was finished.
    On,
    /// There is no step: all tables are where they are to go.
    ToTheEnd,
    /// No step is sure to find room, or it was refused.
    Nowhere,
}

/// What a step is to do.
#[derive(Clone, Copy)]
pub enum Way {
    /// It brings tables down, towards the last level that a store of this size has.
    Down,
    /// It brings tables down, towards level 4.
    ToTheLast,
    /// It joins neighbours, where a level has many small tables.
    Together,
    /// It moves a table, so that free blocks come to lie side by side.
    Aside,
    /// It does what the policy wants.
    ByPolicy,
}

/// What stands in a store.
pub(crate) fn standing<D: Device>(store: &Store<D>) -> Standing<'_, Slots>
    ensures levels { result.levels.now ≡ store.now.work.levels }
    ensures extents { result.extents.now ≡ store.now.work.area }
    ensures held { result.held.now ≡ store.now.work.jobs }
    ensures live { result.live ≡ is_live store.now.state }
{
    Standing {
        levels: store.levels(),
        extents: store.extents(),
        held: store.jobs(),
        live: store.has_snapshots(),
    }
}

/// The next step, if there is one to do this. It may be one that isn't sure to find room, since that is reckoned by bounds.
pub fn next_step<D: Device>(
    alloc: Global,
    store: &Store<D>,
    way: Way,
) -> Result<Option<Step>, AllocError> {
    match way {
        Way::Down => next_down(alloc, store),
        Way::ToTheLast => advised(alloc, standing(store).step_down_to(&alloc, 4)),
        Way::Together => aside(standing(store).step_together(&alloc)),
        Way::Aside => aside(standing(store).step_aside(&alloc)),
        Way::ByPolicy => step_by(alloc, store, &Policy::new()),
    }
}

/// The next step down.
pub(crate) fn next_down<D: Device>(
    alloc: Global,
    store: &Store<D>,
) -> Result<Option<Step>, AllocError> {
    advised(alloc, standing(store).step_down(&alloc))
}

// The step that is advised. What isn't sure to find room is tried all the same.
fn advised(alloc: Global, advice: Result<Advice, AllocError>) -> Result<Option<Step>, AllocError> {
    match advice {
        Ok(Advice::Nothing) => Ok(None),
        Ok(Advice::Take(step) | Advice::Try(step)) => Ok(Some(step)),
        Ok(Advice::Lacks { choice, .. }) => Ok(Some(Step::whole(&alloc, choice)?)),
        Err(error) => Err(error),
    }
}

// The advised step that brings no table down, if there is one. What isn't sure to find room isn't tried.
fn aside(advice: Result<Advice, AllocError>) -> Result<Option<Step>, AllocError> {
    match advice? {
        Advice::Take(step) | Advice::Try(step) => Ok(Some(step)),
        Advice::Nothing | Advice::Lacks { .. } => Ok(None),
    }
}

/// Takes the next step and finishes it.
pub(crate) fn take<D: Device>(alloc: Global, store: &mut Store<D>, way: Way) -> Went
    ensures { IsUpkept store.old store.new }
{
    match next_step(alloc, store, way) {
        Ok(Some(step)) => told(finish_step(store, step)),
        Ok(None) => Went::ToTheEnd,
        Err(_) => Went::Nowhere,
    }
}

// How a step went that was finished or not.
fn told(finished: bool) -> Went {
    if finished { Went::On } else { Went::Nowhere }
}

/// Takes the next step down.
pub(crate) fn step_down<D: Device>(alloc: Global, store: &mut Store<D>) -> Went
    ensures { IsUpkept store.old store.new }
{
    take(alloc, store, Way::Down)
}

/// Takes the next step of those that bring all tables into the last of the levels.
pub(crate) fn step_to_the_last<D: Device>(alloc: Global, store: &mut Store<D>) -> Went
    ensures { IsUpkept store.old store.new }
{
    take(alloc, store, Way::ToTheLast)
}

/// Joins neighbours, where a level has many small tables. Returns whether it did.
pub(crate) fn join<D: Device>(alloc: Global, store: &mut Store<D>) -> bool
    ensures { IsUpkept store.old store.new }
{
    matches!(take(alloc, store, Way::Together), Went::On)
}

/// Moves a table, so that free blocks come to lie side by side. Returns whether it did.
pub(crate) fn step_aside<D: Device>(alloc: Global, store: &mut Store<D>) -> bool
    ensures { IsUpkept store.old store.new }
{
    matches!(take(alloc, store, Way::Aside), Went::On)
}
