//! The guards of a line `if`.

ghost use Rattle.std.specs.Prelude.{◌≡◌, ◌⊎◌, map, Some, None, MatchResult};
ghost use Rattle.lsm_device.specs.declared.refusal.Refusal.TheVariants.{NoMemory};
ghost use Rattle.lsm_codec.specs.Answers.{Answers};
ghost use Rattle.lsm_language.specs.Guards.{condition_of, guard_refusal, guard_said, guards_refusal};
ghost use Rattle.lsm_language.specs.Words.{Reads};

use crate::keyed::{Keyed, read_keyed};
use crate::words::{Unread, after};
use lsm_codec::Guard;
use lsm_device::Refusal;
use std::alloc::Global;

/// Reads a guard: `?KEY=VALUE` asks for the value of the key, and `!KEY` that it has none.
pub fn read_guard(alloc: Global, word: &str) -> Result<Keyed, Unread>
    ensures { Reads condition_of (guard_said word.now) result }
{
    Ok(read_keyed(alloc, after(word, '?'), after(word, '!'))?)
}

/// The guards, in their order. Fails as the first that can't be formed.
pub fn guards_of(alloc: Global, wanted: &[Keyed]) -> Result<Vec<Guard>, Refusal>
    ensures { MatchResult result
        (λ guards. (guards_refusal (map condition_of wanted.now) ≡ None)
        × (guards.items ≡ map condition_of wanted.now))
        (λ e. (guards_refusal (map condition_of wanted.now) ≡ Some e) ⊎ (e ≡ NoMemory)) }
{
    let mut guards = Vec::new(alloc);
    for keyed in wanted {
        guards.push(guard(alloc, keyed)?)?;
    }
    Ok(guards)
}

/// The guard that asks for a key's value, or for no value where the word gives none.
pub fn guard(alloc: Global, wanted: &Keyed) -> Result<Guard, Refusal>
    ensures { Answers (guard_refusal (condition_of wanted.now)) result
        (λ g. g ≡ condition_of wanted.now) }
{
    match &wanted.value {
        Some(value) => Guard::holds(alloc, &wanted.key, value),
        None => Guard::absent(alloc, &wanted.key),
    }
}
