//! The operations of a line `commit` or `if`, and the batch of them.

ghost use Rattle.std.specs.Prelude.{◌≡◌, ◌∷◌, map};
ghost use Rattle.lsm_codec.specs.Answers.{Answers};
ghost use Rattle.lsm_language.specs.Changes.{change_said, changes_said, put_said, operation_of, first_refusal, batch_refusal, Forms};
ghost use Rattle.lsm_language.specs.Words.{Reads};

use crate::keyed::{Keyed, read_keyed};
use crate::words::{Unread, after, bytes};
use lsm_codec::{Batch, Op};
use lsm_device::Refusal;
use std::alloc::Global;

/// Reads the words of the operations, all of them.
pub fn read_changes(alloc: Global, words: &[&str]) -> Result<Vec<Keyed>, Unread>
    ensures { Reads (λ changes. map operation_of changes.items)
        (changes_said (map (λ word. word.now) words.now)) result }
{
    let mut changes = Vec::new(alloc);
    for word in words {
        changes.push(read_change(alloc, word)?)?;
    }
    Ok(changes)
}

// Reads a word `+KEY=VALUE` or `-KEY`.
fn read_change(alloc: Global, word: &str) -> Result<Keyed, Unread>
    ensures { Reads operation_of (change_said word.now) result }
{
    Ok(read_keyed(alloc, after(word, '+'), after(word, '-'))?)
}

/// Reads the words of a key and its value.
pub(crate) fn read_put(alloc: Global, key: &str, value: &str) -> Result<Keyed, Unread>
    ensures { Reads operation_of (put_said (key.now, value.now)) result }
{
    let key = bytes(alloc, key)?;
    let value = bytes(alloc, value)?;
    Ok(Keyed {
        key,
        value: Some(value),
    })
}

/// The batch of the changes, of which there is at least one. Fails as the first change that it doesn't take.
pub fn batch_of(alloc: Global, first: &Keyed, rest: &[Keyed]) -> Result<Batch, Refusal>
    ensures { Forms (map operation_of (first.now ∷ rest.now)) result }
{
    let mut batch = Batch::new(alloc, operation(alloc, first)?)?;
    for change in rest {
        match &change.value {
            Some(value) => batch.put(&change.key, value)?,
            None => batch.delete(&change.key)?,
        }
    }
    Ok(batch)
}

pub(crate) fn operation(alloc: Global, change: &Keyed) -> Result<Op, Refusal>
    ensures { Answers (first_refusal (operation_of change.now)) result
        (λ o. o ≡ operation_of change.now) }
{
    match &change.value {
        Some(value) => Op::put(alloc, &change.key, value),
        None => Op::delete(alloc, &change.key),
    }
}
