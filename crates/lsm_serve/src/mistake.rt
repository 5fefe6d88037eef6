//! What is wrong with a line that can't be read.

ghost use Rattle.std.specs.Prelude.{◌≡◌, IfOk, string_bytes};
ghost use Rattle.lsm_serve.specs.Mistakes.{IsShown, printable, shown};

use crate::expected::Expected;
use crate::finding::first_mistake;
use std::alloc::{AllocError, Global};

/// The most bytes that are shown of a part of a line.
const MOST_SHOWN: usize = 80;

/// What stands at a place of a line, and what was expected there.
#[derive(Drop)]
pub struct Mistake {
    pub expected: Expected,
    /// Its first bytes, of which those are replaced by `?` that are no printable ASCII.
    pub found: String,
}

impl Mistake {
    /// A line that is no text.
    pub(crate) fn no_text(alloc: Global, line: &[u8]) -> Result<Mistake, AllocError>
        ensures { IfOk result IsShown }
    {
        make_mistake(alloc, Expected::Text, line)
    }
}

fn make_mistake(alloc: Global, expected: Expected, part: &[u8]) -> Result<Mistake, AllocError>
    ensures { IfOk result IsShown }
{
    let found = shown(alloc, part)?;
    Ok(Mistake { expected, found })
}

// The first bytes of a part of a line, made printable.
fn shown(alloc: Global, part: &[u8]) -> Result<String, AllocError>
    ensures { IfOk result (λ text. string_bytes text ≡ shown part.now) }
{
    let mut text = String::new(alloc);
    for byte in &part[..part.len().min(MOST_SHOWN)] {
        text.push(char::from(printable(*byte)))?;
    }
    Ok(text)
}

// A byte as it is shown.
fn printable(byte: u8) -> u8
    ensures { result ≡ printable byte }
{
    if byte.is_ascii_graphic() || byte == b' ' {
        return byte;
    }
    b'?'
}

/// The first mistake in a line that can't be read.
pub(crate) fn mistake_in(alloc: Global, line: &str) -> Result<Mistake, AllocError>
    ensures { IfOk result IsShown }
{
    let (expected, part) = first_mistake(line);
    make_mistake(alloc, expected, part.as_bytes())
}
