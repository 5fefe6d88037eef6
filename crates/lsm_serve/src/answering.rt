//! One line, answered.

ghost use Rattle.std.specs.Prelude.{◌≡◌};
ghost use Rattle.lsm_serve.specs.Answering.{Answers, AnswersUntagged, IsTellable, TellsCompacted, numbers_in, outcome_of, refuses};
ghost use Rattle.lsm_serve.specs.Asking.{IsAskable, asked_by, asks_compaction};
ghost use Rattle.lsm_store.specs.Backing.{machine_of};
ghost use Rattle.lsm_store.specs.Stats.{stat_answer};

use crate::answer::Answer;
use crate::command::{Command, read_command};
use crate::committing::make;
use lsm_device::{Device, Refusal};
use lsm_language::{Counted, counted_in};
use lsm_lives::Reply;
use lsm_policy::Policy;
use lsm_store::Store;
use lsm_upkeep::{Upkeep, compact_all, keep_up, lack_of};
use std::alloc::Global;

/// Answers a line.
pub(crate) fn answer_line<D: Device>(
    alloc: Global,
    store: &mut Store<D>,
    upkeep: &mut Upkeep,
    line: &[u8],
) -> Answer
    ensures answers { AnswersUntagged store.old line.now (outcome_of result) store.new }
    ensures tellable { IsTellable result }
{
    match read_command(alloc, line) {
        Ok(command) => answer(alloc, store, upkeep, command),
        Err(_) => refused(Refusal::NoMemory),
    }
}

// Answers what a line asks for.
fn answer<D: Device>(
    alloc: Global,
    store: &mut Store<D>,
    upkeep: &mut Upkeep,
    command: Command,
) -> Answer
    requires { IsAskable command }
    ensures answers { Answers (asked_by command) store.old (outcome_of result) store.new }
    ensures tellable { IsTellable result }
{
    match command {
        Command::Call(call) => Answer::Told(counted_in(&call), make(alloc, store, upkeep, &call)),
        Command::NoBatch(refusal) => refused(refusal),
        Command::Numbers => numbers(store),
        Command::Compaction => compact(alloc, store, upkeep),
        Command::Nothing(wrong) => Answer::Usage(wrong),
    }
}

// Finishes what was begun, keeps a store up and compacts it, and tells its numbers then, with what it lacks where that is not to the end.
fn compact<D: Device>(alloc: Global, store: &mut Store<D>, upkeep: &mut Upkeep) -> Answer
    ensures answers { Answers asks_compaction store.old (outcome_of result) store.new }
    ensures tellable { IsTellable result }
{
    upkeep.finish_begun(alloc, store);
    keep_up(alloc, store, &Policy::new());
    let is_whole = compact_all(alloc, store);
    compacted(alloc, store, is_whole)
}

fn compacted<D: Device>(alloc: Global, store: &Store<D>, is_whole: bool) -> Answer
    ensures answers { TellsCompacted is_whole store.now (outcome_of result) }
    ensures tellable { IsTellable result }
{
    if is_whole {
        return numbers(store);
    }
    match store.stat() {
        Ok(stat) => Answer::Halfway(lack_of(alloc, store), stat),
        Err(refusal) => refused(refusal),
    }
}

fn numbers<D: Device>(store: &Store<D>) -> Answer
    ensures answers { outcome_of result ≡ numbers_in (stat_answer (machine_of store.now)) }
    ensures tellable { IsTellable result }
{
    match store.stat() {
        Ok(stat) => Answer::Numbers(stat),
        Err(refusal) => refused(refusal),
    }
}

fn refused(refusal: Refusal) -> Answer
    ensures answers { outcome_of result ≡ refuses refusal }
    ensures tellable { IsTellable result }
{
    Answer::Told(Counted::Batch, Reply::Refused(refusal))
}
