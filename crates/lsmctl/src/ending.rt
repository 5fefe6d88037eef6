//! How a run of the program ends: what is printed, and the exit status.

ghost use Rattle.std.specs.Prelude.{◌≡◌, ◌≤◌, OnOk, []};
ghost use Rattle.std.specs.Io.KnownBytes.{Appends};
ghost use Rattle.lsmctl.specs.Answers.{lines_of};
ghost use Rattle.lsmctl.specs.Endings.{Concludes, IsReported, TellsLack, answer_status, lack_line, status_after, told_lack, wanting};

use crate::answer::{Answer, Output};
use lsm_device::Refusal;
use lsm_language::{ProgramError, Usage, cause_text, failure_text, refusal_text};
use lsm_upkeep::Lack;
use std::io;
use std::io::Write;

/// The exit status of a program that did what it was asked for.
pub const DONE: u8 = 0;

/// The exit status where a check or an exploration found something wrong, where a tally is bad, where a store is not compacted to the end, or where a refusal, or a read or write that failed, ended the program.
pub const REFUSED: u8 = 1;

/// The exit status where the words or the script are wrong.
pub const USAGE: u8 = 2;

/// Writes the answer or the fault, and gives the exit status. That an answer could not be written is told on `errors`.
pub fn conclude<O: Write, E: Write>(
    answered: &Result<Answer, ProgramError>,
    output: &mut O,
    errors: &mut E,
) -> u8
    ensures concludes { Concludes answered.now record {
      output = O.contents output.old;
      output_after = O.contents output.new;
      errors = E.contents errors.old;
      errors_after = E.contents errors.new;
    } result }
    ensures status { result ≤ 2 }
{
    match answered {
        Ok(answer) => status(answered, &print_or_tell(output, errors, answer)),
        Err(fault) => status(answered, &report(errors, fault)),
    }
}

// The exit status, from what was answered and whether it could be written.
fn status(answered: &Result<Answer, ProgramError>, written: &io::Result<()>) -> u8
    ensures { result ≡ status_after answered.now written.now }
{
    if written.is_err() {
        return REFUSED;
    }
    match answered {
        Ok(answer) => answer_status(answer),
        Err(
            ProgramError::Refused(_)
            | ProgramError::Failed(_)
            | ProgramError::Unopened(_)
            | ProgramError::Input(_)
            | ProgramError::Output(_),
        ) => REFUSED,
        Err(ProgramError::Usage(_)) => USAGE,
    }
}

// The exit status of an answer that was printed.
fn answer_status(answer: &Answer) -> u8
    ensures { result ≡ answer_status answer.now.output }
{
    match &answer.output {
        Output::Found(_) | Output::Tally(false) | Output::Halfway(..) => REFUSED,
        Output::Explored(explored) if explored.wrong != 0 => REFUSED,
        _ => DONE,
    }
}

// Prints the answer and tells what it lacks, or that it can't be printed. Where that can't be told, the status is all that does.
fn print_or_tell<O: Write, E: Write>(
    output: &mut O,
    errors: &mut E,
    answer: &Answer,
) -> io::Result<()>
    ensures printed { OnOk result
        (Appends (O.contents output.old) (O.contents output.new) (lines_of answer.now)) }
    ensures lack { OnOk result
        (TellsLack answer.now.output (E.contents errors.old) (E.contents errors.new)) }
{
    match print(output, answer) {
        Ok(()) => tell_lack_in(errors, &answer.output),
        Err(error) => {
            tell(errors, &error);
            Err(error)
        }
    }
}

// Tells what a store lacks that is not compacted to the end, where the answer is of one.
fn tell_lack_in<E: Write>(errors: &mut E, output: &Output) -> io::Result<()>
    ensures { OnOk result (TellsLack output.now (E.contents errors.old) (E.contents errors.new)) }
{
    match output {
        Output::Halfway(_, lack) => tell_lack(errors, lack),
        _ => Ok(()),
    }
}

fn tell_lack<E: Write>(errors: &mut E, lack: &Lack) -> io::Result<()>
    ensures { OnOk result
        (Appends (E.contents errors.old) (E.contents errors.new) (lack_line lack.now)) }
{
    match lack {
        Lack::FlushWants(_) => tell_want(errors, lack),
        Lack::StepWants(_) => tell_want(errors, lack),
        Lack::Flush => tell_other(errors, lack),
        Lack::Step => tell_other(errors, lack),
        Lack::Memory => tell_other(errors, lack),
    }
}

// Tells that blocks are lacking, and what helps then.
fn tell_want<E: Write>(errors: &mut E, lack: &Lack) -> io::Result<()>
    ensures { OnOk result
        (Appends (E.contents errors.old) (E.contents errors.new) (told_lack lack.now wanting)) }
{
    writeln!(
        errors,
        "error: not compacted to the end: {lack}; dump and load move its rows into a larger file"
    )?;
    errors.flush()?;
    Ok(())
}

fn tell_other<E: Write>(errors: &mut E, lack: &Lack) -> io::Result<()>
    ensures { OnOk result
        (Appends (E.contents errors.old) (E.contents errors.new) (told_lack lack.now [])) }
{
    writeln!(errors, "error: not compacted to the end: {lack}")?;
    errors.flush()?;
    Ok(())
}

fn tell<E: Write>(errors: &mut E, error: &io::Error) {
    let told = writeln!(errors, "error: the answer could not be written: {error}");
    if told.is_ok() {
        let _ = errors.flush();
    }
}

fn print<O: Write>(output: &mut O, answer: &Answer) -> io::Result<()>
    ensures { OnOk result
        (Appends (O.contents output.old) (O.contents output.new) (lines_of answer.now)) }
{
    write!(output, "{answer}")?;
    output.flush()?;
    Ok(())
}

// The parser's texts end with a line feed of their own.
fn report<E: Write>(errors: &mut E, fault: &ProgramError) -> io::Result<()>
    ensures { OnOk result (IsReported fault.now (E.contents errors.old) (E.contents errors.new)) }
{
    match fault {
        ProgramError::Refused(refusal) => {
            let refused = refusal_text(refusal);
            writeln!(errors, "{refused}")?;
        }
        ProgramError::Failed(failure) => {
            let refused = refusal_text(failure.refusal());
            let text = failure_text(failure);
            writeln!(errors, "{refused}\nerror: {text}")?;
        }
        ProgramError::Unopened(cause) => {
            let refused = refusal_text(&Refusal::Io);
            let text = cause_text(cause);
            writeln!(errors, "{refused}\nerror: {text}")?;
        }
        ProgramError::Usage(Usage::Words(error)) => write!(errors, "{error}")?,
        _ => writeln!(errors, "error: {fault}")?,
    }
    errors.flush()?;
    Ok(())
}
