//! What a line asks for.

ghost use Rattle.std.specs.Prelude.{◌≡◌, IfOk};
ghost use Rattle.lsm_language.specs.Lines.{line_said, means};
ghost use Rattle.lsm_serve.specs.Asking.{IsAskable, asked_by, meaning_of, meaning_said, meaning_read, meaning_in};

use crate::mistake::{Mistake, mistake_in};
use crate::reading::MOST_BYTES;
use crate::tagging::part_line;
use lsm_device::Refusal;
use lsm_language::{Line, Unread, read_line};
use lsm_lives::Call;
use std::alloc::{AllocError, Global};

/// What is wrong with a line that asks for nothing.
#[derive(Drop)]
pub enum Wrong {
    /// It has too many bytes.
    TooLong,
    /// It is no line of a script, nor one that is served besides.
    Unreadable(Mistake),
    /// It is a line of a script, but no call that is served.
    NoCall,
}

/// What a line asks for.
#[derive(Drop)]
pub enum Command {
    /// A call.
    Call(Call),
    /// A commit whose guards or operations can't be formed: no call is made, and this refusal is the reply.
    NoBatch(Refusal),
    /// The numbers of the store.
    Numbers,
    /// The numbers of the store, after it was kept up and compacted, and what it lacks for that.
    Compaction,
    /// Nothing.
    Nothing(Wrong),
}

/// Reads what a line asks for, after its tag.
pub(crate) fn read_command(alloc: Global, line: &[u8]) -> Result<Command, AllocError>
    ensures asks { IfOk result (λ command. asked_by command ≡ meaning_of line.now) }
    ensures askable { IfOk result IsAskable }
{
    if line.len() > MOST_BYTES {
        return Ok(Command::Nothing(Wrong::TooLong));
    }
    let (_, rest) = part_line(line);
    match str::from_utf8(rest) {
        Ok(text) => read_text(alloc, text),
        Err(_) => {
            let mistake = Mistake::no_text(alloc, rest)?;
            Ok(Command::Nothing(Wrong::Unreadable(mistake)))
        }
    }
}

fn read_text(alloc: Global, text: &str) -> Result<Command, AllocError>
    ensures asks { IfOk result (λ command. asked_by command ≡ meaning_in text.now) }
    ensures askable { IfOk result IsAskable }
{
    match text {
        "stat" => Ok(Command::Numbers),
        "compact" => Ok(Command::Compaction),
        _ => read_said(alloc, text),
    }
}

// Reads what a line of a script asks for.
fn read_said(alloc: Global, text: &str) -> Result<Command, AllocError>
    ensures asks { IfOk result (λ command. asked_by command ≡ meaning_read (line_said text.now)) }
    ensures askable { IfOk result IsAskable }
{
    match read_line(alloc, text) {
        Ok(line) => Ok(command_in(line)),
        Err(Unread::Malformed) => {
            let mistake = mistake_in(alloc, text)?;
            Ok(Command::Nothing(Wrong::Unreadable(mistake)))
        }
        Err(Unread::NoMemory) => Err(AllocError),
    }
}

// What a line of a script asks for.
fn command_in(line: Line) -> Command
    ensures asks { asked_by result ≡ meaning_said (means line) }
    ensures askable { IsAskable result }
{
    match line {
        Line::Call(Call::Rotate) | Line::Work(_) | Line::Fuse(_) | Line::Crash(_) => {
            Command::Nothing(Wrong::NoCall)
        }
        Line::Call(call) => Command::Call(call),
        Line::NoBatch(refusal) => Command::NoBatch(refusal),
    }
}
