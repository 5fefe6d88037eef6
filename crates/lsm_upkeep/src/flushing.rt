//! What waits for a flush is flushed, and room is made for it where it lacks.

ghost use Rattle.std.specs.Prelude.{◌≡◌, ◌&&◌, not, is_some, true, false};
ghost use Rattle.lsm_machine.specs.State.{are_waiting};
ghost use Rattle.lsm_upkeep.specs.Flushing.{IsIdle, TriesNext};
ghost use Rattle.lsm_upkeep.specs.Steps.{IsUpkept};

use crate::finishing::finish_next;
use crate::pushing::push;
use crate::stepping::{Went, join, step_aside, step_down};
use lsm_device::Device;
use lsm_store::Store;
use std::alloc::Global;

/// The most times that a flush is tried.
pub(crate) const MOST_TRIES: u32 = 60;

/// From this number of runs of level 0 on they go down before a flush.
pub(crate) const MANY_RUNS: usize = 11;

/// The runs that level 0 has at most.
pub(crate) const MOST_RUNS: usize = 12;

/// Finishes the flush that waits, if one does. Returns whether none waits then.
pub(crate) fn flush<D: Device>(alloc: Global, store: &mut Store<D>) -> bool
    ensures upkept { IsUpkept store.old store.new }
    ensures finished { result ≡ true → IsIdle store.new }
    ensures tried { result ≡ false → TriesNext store.old store.new }
{
    for _ in 0..MOST_TRIES {
        if !is_waiting(store) {
            return true;
        }
        if !try_next(alloc, store) {
            return false;
        }
    }
    !is_waiting(store)
}

/// Whether a store runs, and a flush waits.
pub(crate) fn is_waiting<D: Device>(store: &Store<D>) -> bool
    ensures { result ≡ (not (is_some store.now.state.stopped) && are_waiting store.now.state) }
{
    !store.is_stopped() && store.is_waiting()
}

// Tries to finish the job that comes next, and makes room where it can't be. Returns whether it did one of both.
fn try_next<D: Device>(alloc: Global, store: &mut Store<D>) -> bool
    ensures { TriesNext store.old store.new }
{
    push_runs(alloc, store);
    if finish_next(alloc, store) {
        return true;
    }
    make_room(alloc, store)
}

// Brings tables down where level 0 has many runs.
fn push_runs<D: Device>(alloc: Global, store: &mut Store<D>)
    ensures { IsUpkept store.old store.new }
{
    if store.levels().runs().len() >= MANY_RUNS {
        push(alloc, store, None);
    }
}

// Takes a step that makes room for a flush: where level 0 is full its oldest run goes down, and else a table is moved, or goes down, or
// neighbours are joined. Returns whether it did.
fn make_room<D: Device>(alloc: Global, store: &mut Store<D>) -> bool
    ensures { IsUpkept store.old store.new }
{
    if store.levels().runs().len() < MOST_RUNS {
        move_or_sink(alloc, store)
    } else {
        sink_or_join(alloc, store)
    }
}

fn move_or_sink<D: Device>(alloc: Global, store: &mut Store<D>) -> bool
    ensures { IsUpkept store.old store.new }
{
    if step_aside(alloc, store) {
        return true;
    }
    sink_or_join(alloc, store)
}

fn sink_or_join<D: Device>(alloc: Global, store: &mut Store<D>) -> bool
    ensures { IsUpkept store.old store.new }
{
    match step_down(alloc, store) {
        Went::On => true,
        Went::ToTheEnd | Went::Nowhere => join(alloc, store),
    }
}
