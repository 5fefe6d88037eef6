//! What a store lacks that is not compacted to the end.

ghost use Rattle.std.specs.Prelude.{◌≡◌, true, IfOk, IfSome};
ghost use Rattle.lsm_machine.specs.State.{are_waiting};
ghost use Rattle.lsm_upkeep.specs.Lacking.{AreReckoned, IsAdvised, IsLacking, IsShortage};

use crate::compacting::are_in_last;
use crate::demand::waiting;
use crate::flushing::{MOST_RUNS, is_waiting};
use crate::stepping::standing;
use lsm_device::Device;
use lsm_levels::{Choice, HeldJobs};
use lsm_room::{Advice, Outputs, flush_outputs};
use lsm_store::Store;
use std::alloc::{AllocError, Global};
use std::fmt;

/// Blocks that are wanted, where it isn't sure that they find room, and those that there are.
#[derive(Clone, Copy, Debug)]
pub struct Shortage {
    /// So many are wanted at most.
    pub wanted: u64,
    /// So many of these have to lie side by side at most.
    pub together: u32,
    /// So many are free.
    pub free: u32,
    /// So many of these lie side by side at most.
    pub longest: u32,
}

/// What a store lacks that is not compacted to the end.
#[derive(Clone, Copy, Debug)]
pub enum Lack {
    /// A flush waits, and isn't sure to find room.
    FlushWants(Shortage),
    /// A flush waits that finds room. It was not finished: memory was refused, or level 0 can't take it.
    Flush,
    /// The next step isn't sure to find room.
    StepWants(Shortage),
    /// A step may be taken that finds room, and was not finished: memory was refused, a table could not be read, or there would be too
    /// many tables. Or a merge that holds a slot stands in the way.
    Step,
    /// There is no memory to look for the next step.
    Memory,
}

impl fmt::Display for Shortage {
    ghost use Rattle.std.specs.Prelude.{Some};
    ghost use Rattle.lsm_upkeep.specs.Lacking.{shortage_text};

    ghost output = { λ shortage. Some (shortage_text shortage) };

    fn fmt<W: fmt::Write>(&self, f: &mut fmt::Formatter<W>) -> fmt::Result {
        let Shortage {
            wanted,
            together,
            free,
            longest,
        } = self;
        write!(
            f,
            "wants up to {wanted} blocks, up to {together} of them side by side; {free} are free, at most {longest} of them side by side"
        )
    }
}

impl fmt::Display for Lack {
    ghost use Rattle.std.specs.Prelude.{Some};
    ghost use Rattle.lsm_upkeep.specs.Lacking.{lack_text};

    ghost output = { λ lack. Some (lack_text lack) };

    fn fmt<W: fmt::Write>(&self, f: &mut fmt::Formatter<W>) -> fmt::Result {
        match self {
            Lack::FlushWants(shortage) => write!(f, "a flush waits, which {shortage}"),
            Lack::Flush => write!(f, "a flush waits, which was not finished"),
            Lack::StepWants(shortage) => write!(f, "the next step {shortage}"),
            Lack::Step => write!(f, "the next step was not finished"),
            Lack::Memory => write!(f, "there is no memory for the next step"),
        }
    }
}

/// What a store lacks that runs and is not compacted to the end, as [`compact_all`](crate::compact_all) has told.
pub fn lack_of<D: Device>(alloc: Global, store: &Store<D>) -> Lack
    ensures { IsLacking store.now result }
{
    if is_waiting(store) && store.levels().runs().len() < MOST_RUNS {
        return flush_lack(store);
    }
    step_lack(alloc, store)
}

// What the flush lacks that waits.
fn flush_lack<D: Device>(store: &Store<D>) -> Lack
    requires { are_waiting store.now.state ≡ true }
    ensures { IsLacking store.now result }
{
    let wanted = flush_outputs(waiting(store), store.has_snapshots());
    if standing(store).has_room(wanted) {
        return Lack::Flush;
    }
    match shortage_of(store, wanted) {
        Some(shortage) => Lack::FlushWants(shortage),
        None => Lack::Memory,
    }
}

// What the next step lacks.
fn step_lack<D: Device>(alloc: Global, store: &Store<D>) -> Lack
    ensures { IsLacking store.now result }
{
    match next_advice(alloc, store) {
        Ok(advice) => lack_of_advice(store, advice),
        Err(_) => Lack::Memory,
    }
}

// What a step lacks that was advised, or the one for which blocks lack.
fn lack_of_advice<D: Device>(store: &Store<D>, advice: Advice) -> Lack
    requires { IsAdvised store.now advice }
    ensures { IsLacking store.now result }
{
    match advice {
        Advice::Take(_step) => Lack::Step,
        Advice::Try(step) => lack_of_choice(store, step.choice),
        Advice::Lacks { choice, wanted } => match shortage_of(store, wanted) {
            Some(shortage) => Lack::StepWants(shortage),
            None => lack_of_choice(store, choice),
        },
        Advice::Nothing => lack_at_rest(store),
    }
}

// What a step lacks that isn't known to find room as it was advised.
fn lack_of_choice<D: Device>(store: &Store<D>, choice: Choice) -> Lack
    ensures { IsLacking store.now result }
{
    match standing(store).outputs(choice) {
        Some(wanted) => lack_of_outputs(store, wanted),
        None => lack_at_rest(store),
    }
}

// What a choice lacks that may be taken and makes so much, undivided.
fn lack_of_outputs<D: Device>(store: &Store<D>, wanted: Outputs) -> Lack
    requires { AreReckoned store.now wanted }
    ensures { IsLacking store.now result }
{
    if standing(store).has_room(wanted) {
        return Lack::Step;
    }
    match shortage_of(store, wanted) {
        Some(shortage) => Lack::StepWants(shortage),
        None => Lack::Memory,
    }
}

// What a store lacks for which no step was found: nothing, if there is none, or one has to wait for a merge.
fn lack_at_rest<D: Device>(store: &Store<D>) -> Lack
    ensures { IsLacking store.now result }
{
    if are_in_last(store.levels()) || store.jobs().has_merge() {
        return Lack::Step;
    }
    Lack::Memory
}

// The next step: of those that make room for a flush where one waits, and else of those that bring all tables into the last of the levels.
fn next_advice<D: Device>(alloc: Global, store: &Store<D>) -> Result<Advice, AllocError>
    ensures { IfOk result (IsAdvised store.now) }
{
    if is_waiting(store) {
        return Ok(standing(store).step_down(&alloc)?);
    }
    Ok(standing(store).step_down_to(&alloc, 4)?)
}

// The blocks of outputs, where they aren't sure to find room.
fn shortage_of<D: Device>(store: &Store<D>, outputs: Outputs) -> Option<Shortage>
    ensures { IfSome result (IsShortage store.now.work.area) }
{
    let wanted = outputs.blocks;
    let together = u32::try_from(outputs.largest.min(wanted)).unwrap_or(u32::MAX);
    let extents = store.extents();
    if extents.surely_places(wanted, together) {
        return None;
    }
    Some(Shortage {
        wanted,
        together,
        free: extents.free_blocks(),
        longest: extents.longest_gap(),
    })
}
