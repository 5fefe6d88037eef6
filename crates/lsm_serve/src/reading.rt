//! Lines of an input, of which no more is kept than the longest that is answered, and a byte.

ghost use Rattle.std.specs.Prelude.{◌≡◌, ◌≢◌, ◌≤◌, ◌<◌, ◌++◌, All, is_some, None, length, take, IfErr, IfOk, OnOk, slice_index};
ghost use Rattle.lsm_language.specs.Faults.{reason_of};
ghost use Rattle.lsm_serve.specs.Reading.{Takes, TakesLine, IsInputFault, most_kept};

use lsm_language::ProgramError;
use memchr::memchr;
use std::alloc::{AllocError, Global};
use std::io;
use std::io::{BufRead, ErrorKind};

/// The most bytes that a line may have.
pub const MOST_BYTES: usize = 300_000;

/// At most this number of bytes of a line is kept, which tells whether it is too long.
const MOST_KEPT: usize = 300_001;

/// What is said of an input that ends within a line.
const CUT: &str = "it ends within a line, which was not done";

/// What one look at an input took.
#[derive(Clone, Copy)]
pub enum Taken {
    /// The rest of a line, and its newline. It tells whether another whole line was read after it.
    Line(bool),
    /// A part of a line, of which more may come.
    Part,
    /// Nothing, since it was interrupted.
    Nothing,
    /// Nothing, since there is no more.
    End,
}

/// Reads the next line of an input in the place of the one before it, without its newline. Of a line that is too long one byte more
/// than the most is kept, and the rest is passed over. If there is a line it tells whether another whole one was read after it, so
/// that the next call doesn't wait.
///
/// What no newline ends is no line: an input that ends so can't be read to its end. Nor can one of which 2^64 - 1 looks end no line.
pub(crate) fn next_line<I: BufRead>(
    input: &mut I,
    line: &mut Vec<u8>,
) -> Result<Option<bool>, ProgramError>
    ensures line { IfOk result
        (λ found. TakesLine (I.remaining input.old) (is_some found) line.new.items
        (I.remaining input.new)) }
    ensures fails { IfErr result (λ e. IsInputFault (reason_of e)) }
{
    line.clear();
    for _ in 0..u64::MAX {
        match take_piece(input, line)? {
            Taken::Line(ahead) => return Ok(Some(ahead)),
            Taken::End => return ended(line),
            Taken::Part | Taken::Nothing => {}
        }
    }
    Err(ProgramError::Input(ErrorKind::Interrupted.into()))
}

// There is no further line. An unfinished one doesn't count: its writer may have been stopped within it.
fn ended(begun: &[u8]) -> Result<Option<bool>, ProgramError>
    ensures none { IfOk result (λ found. (found ≡ None) × (length begun.now ≡ 0)) }
    ensures fails { IfErr result (λ e. IsInputFault (reason_of e)) }
{
    if begun.is_empty() {
        return Ok(None);
    }
    Err(ProgramError::Input(io::Error::new(ErrorKind::UnexpectedEof, CUT)))
}

// Takes what was read of a line, and appends it to what is kept of it.
fn take_piece<I: BufRead>(input: &mut I, line: &mut Vec<u8>) -> Result<Taken, ProgramError>
    requires { length line.old.items ≤ most_kept }
    ensures takes { IfOk result
        (λ taken. Takes (I.remaining input.old) line.old.items taken line.new.items
        (I.remaining input.new)) }
    ensures fails { IfErr result (λ e. IsInputFault (reason_of e)) }
{
    let read = match input.fill_buf() {
        Ok(read) => read,
        Err(error) if error.kind() == ErrorKind::Interrupted => return Ok(Taken::Nothing),
        Err(error) => return Err(ProgramError::Input(error)),
    };
    if read.is_empty() {
        return Ok(Taken::End);
    }
    let end = end_of_line(read);
    keep(line, &read[..end])?;
    if end == read.len() {
        input.consume(end);
        return Ok(Taken::Part);
    }
    let ahead = has_line(&read[end + 1..]);
    input.consume(end + 1);
    Ok(Taken::Line(ahead))
}

// Where the first newline stands, or how many bytes there are.
fn end_of_line(bytes: &[u8]) -> usize
    ensures within { result ≤ length bytes.now }
    ensures before { All (λ b. b ≢ 10) (take result bytes.now) }
    ensures newline { result < length bytes.now → slice_index bytes.now result ≡ 10 }
{
    memchr(b'\n', bytes).unwrap_or(bytes.len())
}

// Whether there is a newline.
fn has_line(bytes: &[u8]) -> bool {
    memchr(b'\n', bytes).is_some()
}

// Adds bytes to a line, of which no more is kept than is needed to see that it is too long.
fn keep(line: &mut Vec<u8>, bytes: &[u8]) -> Result<(), AllocError>
    requires { length line.old.items ≤ most_kept }
    ensures { OnOk result (line.new.items ≡ take most_kept (line.old.items ++ bytes.now)) }
{
    let room = MOST_KEPT - line.len();
    line.extend_from_slice(&bytes[..room.min(bytes.len())])?;
    Ok(())
}
