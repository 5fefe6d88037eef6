//! Lines of an input, of which no more is kept than the longest that can be right, and a byte.

ghost use Rattle.std.specs.Prelude.{◌≡◌, ◌≢◌, ◌⊎◌, ◌≤◌, ◌<◌, ◌+◌, ◌==◌, ◌++◌, All, length, not, take, IfErr, IfOk, OnOk, slice_index};
ghost use Rattle.lsm_device.specs.declared.refusal.Refusal.TheVariants.{NoMemory};
ghost use Rattle.lsm_language.specs.Faults.{reason_of, refusal, unread};
ghost use Rattle.lsm_language.specs.Reading.{ReadsLine, Takes};

use crate::program_error::ProgramError;
use lsm_device::Refusal;
use std::alloc::AllocError;
use std::io;
use std::io::{BufRead, ErrorKind};

/// What one look at an input took.
#[derive(Clone, Copy)]
pub enum Taken {
    /// The rest of a line, and its newline.
    Line,
    /// A part of a line, of which more may come.
    Part,
    /// Nothing, since it was interrupted.
    Nothing,
    /// Nothing, since there is no more.
    End,
}

/// Reads the next line of an input in the place of the one before it, without its newline, which may be missing after the
/// last. Returns whether there is one. Of a line that has more than the most bytes no more is read once this is seen, and one byte more
/// than the most is kept, by which the caller sees it too. An input of which 2^64 - 1 looks don't end a line can't be read.
pub fn next_line<I: BufRead>(
    input: &mut I,
    most: usize,
    line: &mut Vec<u8>,
) -> Result<bool, ProgramError>
    requires { most < 18446744073709551615 }
    ensures line { IfOk result
        (λ found. ReadsLine most (I.remaining input.old) found line.new.items
        (I.remaining input.new)) }
    ensures fails { IfErr result (λ e. (reason_of e ≡ refusal NoMemory) ⊎ (reason_of e ≡ unread)) }
{
    line.clear();
    for _ in 0..u64::MAX {
        if line.len() > most {
            return Ok(true);
        }
        match take_piece(input, most, line)? {
            Taken::Line => return Ok(true),
            Taken::End => return Ok(is_line(line)),
            Taken::Part | Taken::Nothing => {}
        }
    }
    Err(ProgramError::Input(ErrorKind::Interrupted.into()))
}

// Whether what stands at the end of an input, without a newline, is a line: it has a byte.
fn is_line(line: &[u8]) -> bool
    ensures { result ≡ not (length line.now == 0) }
{
    !line.is_empty()
}

// Takes what was read of a line, and appends it to what is kept of it.
fn take_piece<I: BufRead>(
    input: &mut I,
    most: usize,
    line: &mut Vec<u8>,
) -> Result<Taken, ProgramError>
    requires few { length line.old.items ≤ most }
    requires most { most < 18446744073709551615 }
    ensures takes { IfOk result
        (λ taken. Takes most (I.remaining input.old) line.old.items taken line.new.items
        (I.remaining input.new)) }
    ensures fails { IfErr result (λ e. (reason_of e ≡ refusal NoMemory) ⊎ (reason_of e ≡ unread)) }
{
    let read = match input.fill_buf() {
        Ok(read) => read,
        Err(error) if error.kind() == ErrorKind::Interrupted => return Ok(Taken::Nothing),
        Err(error) => return Err(unread(error)),
    };
    if read.is_empty() {
        return Ok(Taken::End);
    }
    let end = end_of_line(read);
    keep(line, &read[..end], most)?;
    if end == read.len() {
        input.consume(end);
        return Ok(Taken::Part);
    }
    input.consume(end + 1);
    Ok(Taken::Line)
}

// Where the first newline stands, or how many bytes there are.
fn end_of_line(bytes: &[u8]) -> usize
    ensures within { result ≤ length bytes.now }
    ensures before { All (λ b. b ≢ 10) (take result bytes.now) }
    ensures newline { result < length bytes.now → slice_index bytes.now result ≡ 10 }
{
    bytes
        .iter()
        .position(|byte| *byte == b'\n')
        .unwrap_or(bytes.len())
}

// Adds bytes to a line, of which no more is kept than is needed to see that it is too long.
fn keep(line: &mut Vec<u8>, bytes: &[u8], most: usize) -> Result<(), AllocError>
    requires few { length line.old.items ≤ most }
    requires most { most < 18446744073709551615 }
    ensures { OnOk result (line.new.items ≡ take (most + 1) (line.old.items ++ bytes.now)) }
{
    let room = most + 1 - line.len();
    line.extend_from_slice(&bytes[..room.min(bytes.len())])?;
    Ok(())
}

/// An input that can't be read, or no memory for what is read of it.
pub(crate) fn unread(error: io::Error) -> ProgramError
    ensures { (reason_of result ≡ refusal NoMemory) ⊎ (reason_of result ≡ unread) }
{
    if error.kind() == ErrorKind::OutOfMemory {
        return ProgramError::Refused(Refusal::NoMemory);
    }
    ProgramError::Input(error)
}
