//! Words of a key alone, and of a key with a value.

ghost use Rattle.std.specs.Prelude.{option_map};
ghost use Rattle.lsm_language.specs.Keyed.{keyed_of, keyed_said};
ghost use Rattle.lsm_language.specs.Words.{Reads};

use crate::words::{Unread, bytes, pair_in};
use std::alloc::Global;

/// A key, and the value given with it, if any.
#[derive(Drop)]
pub struct Keyed {
    pub key: Vec<u8>,
    pub value: Option<Vec<u8>>,
}

/// Reads what follows the mark of a word: `KEY=VALUE` after one mark, else `KEY` after another.
pub fn read_keyed(alloc: Global, pair: Option<&str>, key: Option<&str>) -> Result<Keyed, Unread>
    ensures { Reads keyed_of
        (keyed_said (option_map (λ word. word.now) pair.entry)
        (option_map (λ word. word.now) key.entry)) result }
{
    if let Some(pair) = pair {
        let Some((key, value)) = pair_in(pair) else {
            return Err(Unread::Malformed);
        };
        let key = bytes(alloc, key)?;
        let value = Some(bytes(alloc, value)?);
        return Ok(Keyed { key, value });
    }
    if let Some(key) = key {
        let key = bytes(alloc, key)?;
        return Ok(Keyed { key, value: None });
    }
    Err(Unread::Malformed)
}
