//! Lines, answered as they come.

ghost use Rattle.std.specs.Prelude.{◌≡◌, ◌≤◌, ◌++◌, MatchResult, OnOk, [], length};
ghost use Rattle.std.specs.Io.KnownBytes.{Appends};
ghost use Rattle.lsm_language.specs.Faults.{reason_of, unwritten};
ghost use Rattle.lsm_serve.specs.Answering.{IsTellable, outcome_of, outcome_text};
ghost use Rattle.lsm_serve.specs.Holding.{AreHeld, HoldsAnswer, IsAdded, KeepsHeld};
ghost use Rattle.lsm_serve.specs.Serving.{AreServed, IsServed, IsSynced, IsUnsynced};
ghost use Rattle.lsm_serve.specs.Tagging.{tag_in};

use crate::answer::{Answer, text_of};
use crate::answering::answer_line;
use crate::reading::next_line;
use crate::tagging::part_line;
use lsm_device::{Device, Refusal};
use lsm_language::ProgramError;
use lsm_store::Store;
use lsm_upkeep::Upkeep;
use std::alloc::Global;
use std::io;
use std::io::{BufRead, Write};

/// From this number of bytes on answers are written, though another line was read already.
const MOST_HELD: usize = 65_536;

/// Answers the lines of an input, each before the next one is read, and syncs the store at the end, unless it is stopped. A refusal is an
/// answer, and so is a mistake in a line. Answers are written at the latest where no other whole line was read after theirs, or where
/// they have 64 KiB, so that none is held while a read waits.
///
/// Only what a newline ends is done. An input that ends within a line counts as one that can't be read.
///
/// It ends before where the input can't be read, an answer can't be written, there is no memory for a line or for the text of an answer,
/// or the lines are more than have a number below 2^64 - 1. Then it tells that, and asks the store for a sync all the same.
pub fn serve<D: Device, I: BufRead, O: Write>(
    alloc: Global,
    store: &mut Store<D>,
    input: &mut I,
    output: &mut O,
) -> Result<(), ProgramError>
    ensures { IsServed (I.remaining input.old) result store.old store.new (O.contents output.old)
        (O.contents output.new) }
{
    let answered = answer_lines(alloc, store, input, output);
    let synced = sync(store);
    answered?;
    synced
}

// Syncs a store that is not stopped.
fn sync<D: Device>(store: &mut Store<D>) -> Result<(), ProgramError>
    ensures { MatchResult result (λ _. IsSynced store.old store.new)
        (λ e. IsUnsynced e store.old store.new) }
{
    match store.sync() {
        Ok(()) => Ok(()),
        Err(Refusal::Stopped) => Ok(()),
        Err(refusal) => Err(ProgramError::Refused(refusal)),
    }
}

// Answers the lines of an input, and writes all answers that there are.
fn answer_lines<D: Device, I: BufRead, O: Write>(
    alloc: Global,
    store: &mut Store<D>,
    input: &mut I,
    output: &mut O,
) -> Result<(), ProgramError>
    ensures { AreServed (I.remaining input.old) result store.old store.new (O.contents output.old)
        (O.contents output.new) }
{
    let mut held = Vec::new(alloc);
    let answered = hold_answers(alloc, store, input, &mut held, output);
    if let Err(ProgramError::Output(_)) = &answered {
        return answered;
    }
    write_held(&mut held, output)?;
    answered
}

// Answers the lines of an input. Answers are held as long as another line was read already, and they are few.
fn hold_answers<D: Device, I: BufRead, O: Write>(
    alloc: Global,
    store: &mut Store<D>,
    input: &mut I,
    held: &mut Vec<u8>,
    output: &mut O,
) -> Result<(), ProgramError>
    requires { held.old.items ≡ [] }
    ensures { AreHeld (I.remaining input.old) result store.old store.new (O.contents output.old)
        (O.contents output.new) held.new.items }
{
    let mut line = Vec::new(alloc);
    let mut upkeep = Upkeep::new();
    for number in 1..u64::MAX {
        let Some(ahead) = next_line(input, &mut line)? else {
            return Ok(());
        };
        hold_answer(alloc, store, &mut upkeep, number, &line, held)?;
        write_unless(ahead, held, output)?;
    }
    Err(ProgramError::Refused(Refusal::Exhausted))
}

// Answers a line, and holds the answer.
fn hold_answer<D: Device>(
    alloc: Global,
    store: &mut Store<D>,
    upkeep: &mut Upkeep,
    number: u64,
    line: &[u8],
    held: &mut Vec<u8>,
) -> Result<(), Refusal>
    ensures { HoldsAnswer store.old number line.now held.old.items result store.new held.new.items }
{
    let answer = answer_line(alloc, store, upkeep, line);
    hold(alloc, number, line, &answer, held)
}

// Adds the text of an answer to those that are held.
fn hold(
    alloc: Global,
    number: u64,
    line: &[u8],
    answer: &Answer,
    held: &mut Vec<u8>,
) -> Result<(), Refusal>
    requires { IsTellable answer.now }
    ensures { IsAdded result held.old.items
        (tag_in line.now ++ outcome_text number (outcome_of answer.now)) held.new.items }
{
    let (tag, _) = part_line(line);
    let text = text_of(alloc, number, tag, answer)?;
    held.extend_from_slice(&text)?;
    Ok(())
}

// Writes what is held, unless another line was read already and it is little.
fn write_unless<O: Write>(
    ahead: bool,
    held: &mut Vec<u8>,
    output: &mut O,
) -> Result<(), ProgramError>
    ensures { MatchResult result
        (λ _. KeepsHeld (O.contents output.old) held.old.items
        (O.contents output.new) held.new.items) (λ e. reason_of e ≡ unwritten) }
{
    if ahead && held.len() < MOST_HELD {
        return Ok(());
    }
    write_held(held, output)
}

// Writes what is held, if anything is, and flushes it.
fn write_held<O: Write>(held: &mut Vec<u8>, output: &mut O) -> Result<(), ProgramError>
    ensures { MatchResult result
        (λ _. KeepsHeld (O.contents output.old) held.old.items (O.contents output.new) []
        × (held.new.items ≡ []))
        (λ e. (reason_of e ≡ unwritten) × (1 ≤ length held.old.items)) }
{
    if held.is_empty() {
        return Ok(());
    }
    match print(output, held) {
        Ok(()) => {
            held.clear();
            Ok(())
        }
        Err(error) => Err(ProgramError::Output(error)),
    }
}

fn print<O: Write>(output: &mut O, text: &[u8]) -> io::Result<()>
    ensures { OnOk result (Appends (O.contents output.old) (O.contents output.new) text.now) }
{
    output.write_all(text)?;
    output.flush()?;
    Ok(())
}
