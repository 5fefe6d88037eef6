//! Rows of an input: a line for each, a key and its value.

ghost use Rattle.lsm_language.specs.Rows.{row_in, row_said, utf8_row};
ghost use Rattle.lsm_language.specs.Words.{Reads};

use crate::operations::{operation, read_put};
use crate::words::Unread;
use lsm_codec::Op;
use lsm_device::Refusal;
use std::alloc::Global;

/// The most bytes of a line that is a row: those of a key of 255 bytes and a value of 2,048 in hex, and the space between them.
pub const MOST_ROW: usize = 4_607;

/// Reads a line `KEY VALUE`: two words, parted by one space, that say a key and a value within their limits. It is told as the
/// put of that value.
pub fn read_row(alloc: Global, line: &[u8]) -> Result<Op, Unread>
    ensures { Reads (λ op. op) (row_said line.now) result }
{
    if line.len() > MOST_ROW {
        return Err(Unread::Malformed);
    }
    read_short(alloc, line)
}

fn read_short(alloc: Global, line: &[u8]) -> Result<Op, Unread>
    ensures { Reads (λ op. op) (utf8_row line.now) result }
{
    match str::from_utf8(line) {
        Ok(line) => row_in(alloc, line),
        Err(_) => Err(Unread::Malformed),
    }
}

fn row_in(alloc: Global, line: &str) -> Result<Op, Unread>
    ensures { Reads (λ op. op) (row_in line.now) result }
{
    let Some((key, value)) = line.split_once(' ') else {
        return Err(Unread::Malformed);
    };
    let put = read_put(alloc, key, value)?;
    match operation(alloc, &put) {
        Ok(op) => Ok(op),
        Err(Refusal::NoMemory) => Err(Unread::NoMemory),
        Err(_) => Err(Unread::Malformed),
    }
}
