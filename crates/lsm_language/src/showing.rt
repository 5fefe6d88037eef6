//! What is shown of bytes that may be anything.

ghost use Rattle.std.specs.Prelude.{◌≡◌, IfOk, string_bytes, take};
ghost use Rattle.lsm_language.specs.Showing.{printable, shown};

use std::alloc::{AllocError, Global};

/// The most bytes that are shown of a line, or of what the system says.
const MOST_SHOWN: usize = 80;

/// The first 80 bytes, each that is no printable ASCII as `?`: so they stand in one line.
pub fn shown(alloc: Global, bytes: &[u8]) -> Result<String, AllocError>
    ensures { IfOk result (λ text. string_bytes text ≡ shown bytes.now) }
{
    let mut text = String::new(alloc);
    for byte in beginning(bytes) {
        text.push(char::from(printable(*byte)))?;
    }
    Ok(text)
}

/// The first 80 bytes, which are all that is shown of a line.
pub fn beginning(bytes: &[u8]) -> &[u8]
    ensures { result.now ≡ take 80 bytes.now }
{
    &bytes[..bytes.len().min(MOST_SHOWN)]
}

// A byte as it is shown.
fn printable(byte: u8) -> u8
    ensures { result ≡ printable byte }
{
    if byte.is_ascii_graphic() || byte == b' ' {
        return byte;
    }
    b'?'
}
