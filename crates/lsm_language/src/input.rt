//! The text of a script, from the program's input.

ghost use Rattle.std.specs.Prelude.{◌≡◌, ◌⊎◌, ◌≤◌, [], false, IfOk, IfErr, IfSome, IsTrue, OnOk, length, take};
ghost use Rattle.std.specs.Io.Buffered.{reader_remaining};
ghost use Rattle.lsm_device.specs.declared.refusal.Refusal.TheVariants.{NoMemory};
ghost use Rattle.lsm_language.specs.Faults.{reason_of, refusal, unread};
ghost use Rattle.lsm_language.specs.Reading.{PassesBy, TakesText};
ghost use Rattle.lsm_language.specs.Requests.{wants_script};
ghost use Rattle.lsm_language.specs.Scripts.{read_within, room_behind};

use crate::number::parse_number;
use crate::program_error::ProgramError;
use crate::reading::unread;
use crate::subcommand::Subcommand;
use lsm_device::Refusal;
use std::alloc::Global;
use std::io::{BufRead, BufReader, ErrorKind, Read};

/// The most bytes of a line of a script.
pub(crate) const MOST_LINE: usize = 300_000;

/// At most this number of bytes of a line is read, which tells whether it is too long.
const MOST_READ: usize = 300_001;

/// Reads the input where a script is asked for and the words before it are right: to its end, or up to the first byte of a line that is
/// more than a line may have. Else it is left as it is.
pub fn script_text<I: Read>(
    alloc: Global,
    subcommand: &Subcommand<'_>,
    input: &mut I,
) -> Result<Vec<u8>, ProgramError>
    ensures whole { IfOk result
        (λ text. IsTrue (wants_script subcommand.now)
        → IfSome (I.remaining input.old) (λ all. text.items ≡ read_within 300001 all)) }
    ensures untouched { wants_script subcommand.now ≡ false → input.new ≡ input.old }
    ensures fails { IfErr result
        (λ e. (reason_of e ≡ refusal NoMemory)
        ⊎ ((reason_of e ≡ unread) × IsTrue (wants_script subcommand.now))) }
{
    let mut text = Vec::new(alloc);
    if !wants_script(subcommand) {
        return Ok(text);
    }
    let mut lines = buffered(alloc, input)?;
    read_text(&mut lines, &mut text)?;
    Ok(text)
}

/// A reader that takes in 64 KiB at a time.
pub fn buffered<I: Read>(alloc: Global, input: &mut I) -> Result<BufReader<&mut I>, Refusal>
    ensures lines { IfOk result
        (λ lines. reader_remaining (λ input. I.remaining input.now) lines ≡ I.remaining input.old) }
    ensures refused { IfErr result (λ e. e ≡ NoMemory) }
{
    match BufReader::with_capacity(alloc, 65_536, input) {
        Ok(lines) => Ok(lines),
        Err(_) => Err(Refusal::NoMemory),
    }
}

// Reads an input to its end, or to where a line is too long.
fn read_text<I: BufRead>(input: &mut I, text: &mut Vec<u8>) -> Result<(), ProgramError>
    requires { text.old.items ≡ [] }
    ensures whole { OnOk result
        (IfSome (I.remaining input.old) (λ all. text.new.items ≡ read_within 300001 all)) }
    ensures fails { IfErr result (λ e. (reason_of e ≡ refusal NoMemory) ⊎ (reason_of e ≡ unread)) }
{
    let mut room = MOST_READ;
    for _ in 0..u64::MAX {
        match take_text(input, room, text)? {
            Some(left) => room = left,
            None => return Ok(()),
        }
    }
    Err(ProgramError::Input(ErrorKind::Interrupted.into()))
}

// Takes what was read of an input, and tells how many bytes may still be read of the line that it then is in; none if nothing more is read.
fn take_text<I: BufRead>(
    input: &mut I,
    room: usize,
    text: &mut Vec<u8>,
) -> Result<Option<usize>, ProgramError>
    ensures takes { IfOk result
        (λ left. TakesText (I.remaining input.old) room text.old.items left text.new.items
        (I.remaining input.new)) }
    ensures fails { IfErr result (λ e. (reason_of e ≡ refusal NoMemory) ⊎ (reason_of e ≡ unread)) }
{
    let read = match input.fill_buf() {
        Ok(read) => read,
        Err(error) if error.kind() == ErrorKind::Interrupted => return Ok(Some(room)),
        Err(error) => return Err(unread(error)),
    };
    if room == 0 {
        return Ok(None);
    }
    if read.is_empty() {
        return Ok(None);
    }
    let (count, left) = part_within(read, room);
    text.extend_from_slice(&read[..count])?;
    input.consume(count);
    Ok(Some(left))
}

// How many bytes of a piece are read, where `room` may be of the line that it begins in; and how many may be after them.
fn part_within(read: &[u8], room: usize) -> (usize, usize)
    ensures within { result.0 ≤ length read.now }
    ensures passes { PassesBy room (take result.0 read.now) result.1 }
{
    let (mut count, mut left) = (0, room);
    for byte in read {
        if left == 0 {
            return (count, left);
        }
        left = room_behind(left, *byte);
        count += 1;
    }
    (count, left)
}

fn room_behind(room: usize, byte: u8) -> usize
    ensures { result ≡ room_behind room byte }
{
    if byte == b'\n' {
        return MOST_READ;
    }
    room.saturating_sub(1)
}

fn wants_script(subcommand: &Subcommand<'_>) -> bool
    ensures { result ≡ wants_script subcommand.now }
{
    match subcommand {
        Subcommand::Replay { .. } => true,
        Subcommand::Lives { sectors, log } | Subcommand::Explore { sectors, log } => {
            parse_number(sectors).is_some() && parse_number(log).is_some()
        }
        _ => false,
    }
}
