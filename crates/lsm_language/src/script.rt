//! A script: lines of text, all of which are read before any step is made.

ghost use Rattle.std.specs.Prelude.{◌≡◌, ◌==◌, map, IfOk};
ghost use Rattle.std.specs.List.{slice_split};
ghost use Rattle.lsm_language.specs.Lines.{means};
ghost use Rattle.lsm_language.specs.Words.{Reads};
ghost use Rattle.lsm_language.specs.Scripts.{ReadsText, ends_life, lines_in, may_stand, next_said, script_said, text_said, utf8_said, without_newline};

use crate::input::MOST_LINE;
use crate::line::{Line, read_line};
use crate::program_error::{ProgramError, Usage};
use crate::showing::beginning;
use crate::words::Unread;
use lsm_device::Refusal;
use std::alloc::{AllocError, Global};

/// Which lines a script may have.
#[derive(Clone, Copy)]
pub enum Kind {
    /// Steps alone.
    Steps,
    /// Lives: a line `fuse` may stand first in each, and a line `crash` ends it.
    Lives,
}

/// Reads a script. The first line that says nothing, or may not stand there, is a mistake.
pub fn read_script(alloc: Global, kind: Kind, text: &[u8]) -> Result<Vec<Line>, ProgramError>
    ensures { ReadsText (λ script. map means script.items) (script_said kind text.now) result }
{
    let lines = lines_of(alloc, text)?;
    let mut script = Vec::new(alloc);
    let mut begins = true;
    for line in &lines {
        let line = next_line(alloc, kind, begins, line, script.len() + 1)?;
        begins = is_crash(&line);
        script.push(line)?;
    }
    Ok(script)
}

// The lines of a text. A newline ends each, and may be missing after the last.
fn lines_of(alloc: Global, text: &[u8]) -> Result<Vec<&[u8]>, AllocError>
    ensures { IfOk result (λ lines. map (λ line. line.now) lines.items ≡ lines_in text.now) }
{
    if text.is_empty() {
        return Ok(Vec::new(alloc));
    }
    Ok(parts_of(alloc, without_newline(text))?)
}

// The parts of a text between newlines.
fn parts_of(alloc: Global, text: &[u8]) -> Result<Vec<&[u8]>, AllocError>
    ensures { IfOk result (λ parts. map (λ part. part.now) parts.items
        ≡ slice_split (λ b. b == 10) text.now) }
{
    text.split(|byte| *byte == b'\n').collect(alloc)
}

fn without_newline(text: &[u8]) -> &[u8]
    ensures { result.now ≡ without_newline text.now }
{
    match text.split_last() {
        Some((b'\n', rest)) => rest,
        _ => text,
    }
}

// Reads a line of this number that may stand where a life begins, or after its first line.
fn next_line(
    alloc: Global,
    kind: Kind,
    begins: bool,
    text: &[u8],
    number: usize,
) -> Result<Line, ProgramError>
    ensures { ReadsText means (next_said kind begins text.now) result }
{
    match read_text(alloc, text) {
        Ok(line) if is_allowed(kind, begins, &line) => Ok(line),
        Ok(_) => {
            let line = String::from_utf8_lossy(alloc, beginning(text))?;
            Err(ProgramError::Usage(Usage::Misplaced { number, line }))
        }
        Err(Unread::Malformed) => {
            let line = String::from_utf8_lossy(alloc, beginning(text))?;
            Err(ProgramError::Usage(Usage::Line { number, line }))
        }
        Err(Unread::NoMemory) => Err(ProgramError::Refused(Refusal::NoMemory)),
    }
}

fn read_text(alloc: Global, text: &[u8]) -> Result<Line, Unread>
    ensures { Reads means (text_said text.now) result }
{
    if text.len() > MOST_LINE {
        return Err(Unread::Malformed);
    }
    read_short(alloc, text)
}

fn read_short(alloc: Global, text: &[u8]) -> Result<Line, Unread>
    ensures { Reads means (utf8_said text.now) result }
{
    match str::from_utf8(text) {
        Ok(line) => read_line(alloc, line),
        Err(_) => Err(Unread::Malformed),
    }
}

fn is_allowed(kind: Kind, begins: bool, line: &Line) -> bool
    ensures { result ≡ may_stand kind begins (means line.now) }
{
    match (line, kind) {
        (Line::Fuse(_), Kind::Lives) => begins,
        (Line::Fuse(_) | Line::Crash(_), Kind::Steps) => false,
        _ => true,
    }
}

fn is_crash(line: &Line) -> bool
    ensures { result ≡ ends_life (means line.now) }
{
    matches!(line, Line::Crash(_))
}
