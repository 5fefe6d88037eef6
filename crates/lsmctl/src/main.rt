//! `lsmctl`: a store in a file, from the command line.
//!
//! | modules | what is in them |
//! |---|---|
//! | `parser` | the words after the program's name |
//! | `calls` | does what was asked for; `committing`, `dumping`, `exploring`, `loading`, `opening`, `runs`, `steps`, `tallied`: parts of that |
//! | `answer`, `reply`, `failing` | what it is answered with, and how a call failed |
//! | `ending` | prints the answer or the fault, and gives the exit status |
//! | `program` | a run on words, over a reader and two writers |
//! | `meter`, `streams` | how far a call is, and streams that are closed |
#![tactic(auto)]

ghost use Rattle.std.specs.Prelude.{◌≡◌, ◌⊎◌, ◌≤◌, IfErr};
ghost use Rattle.lsmctl.specs.Runs.{IsStarted};
ghost use Rattle.lsm_device.specs.declared.refusal.Refusal.TheVariants.{NoMemory};
ghost use Rattle.lsm_language.specs.Faults.{mistake, reason_of, refusal};

mod answer;
mod calls;
mod committing;
mod dumping;
mod ending;
mod exploring;
mod failing;
mod loading;
mod meter;
mod opening;
mod parser;
mod program;
mod reply;
mod runs;
mod steps;
mod streams;
mod tallied;

use crate::ending::conclude;
use crate::meter::Meter;
use crate::program::run;
use crate::streams::fill_closed;
use lsm_language::{ProgramError, Usage};
use lsm_progress::Progress;
use std::alloc::AllocError;
use std::env;
use std::env::Env;
use std::fs::{File, Files};
use std::io::{ErrorKind, IsTerminal, Read, Write};
use std::process::ExitCode;
use std::sync::Wait;
use std::thread::Threads;

fn main(rt: HostRuntime) -> ExitCode {
    let _held = fill_closed(&rt);
    let (mut input, mut output, mut errors) = (rt.stdin(), rt.stdout(), rt.stderr());
    let shown = rt.stderr();
    let is_terminal = shown.is_terminal();
    let mut meter = Meter::new(&rt, shown, is_terminal);
    ExitCode::from(status(&rt, &mut input, &mut output, &mut errors, &mut meter))
}

// Runs the program on the words after its name.
fn status<
    R: Files<File = File> + Env + AllocGlobal + Threads + Wait + Sync,
    I: Read,
    O: Write,
    E: Write,
    P: Progress,
>(rt: &R, input: &mut I, output: &mut O, errors: &mut E, progress: &mut P) -> u8
    // What comes of the words and the input is printed, an answer or a fault, and decides the exit status.
    ensures started { IsStarted (I.remaining input.old) record {
      output = O.contents output.old;
      output_after = O.contents output.new;
      errors = E.contents errors.old;
      errors_after = E.contents errors.new;
    } result }
    ensures status { result ≤ 2 }
{
    match words_of(rt) {
        Ok(words) => run(rt, words.as_slice(), input, output, errors, progress),
        Err(fault) => conclude(&Err(fault), output, errors),
    }
}

// The words after the program's name, each of which has to be a text.
fn words_of<R: Env + AllocGlobal>(rt: &R) -> Result<Vec<String>, ProgramError>
    ensures { IfErr result (λ e. (reason_of e ≡ mistake) ⊎ (reason_of e ≡ refusal NoMemory)) }
{
    match env::args(rt) {
        Ok(words) => Ok(words.skip(1).collect(rt.alloc())?),
        Err(error) if error.kind() == ErrorKind::OutOfMemory => Err(ProgramError::from(AllocError)),
        Err(_) => Err(ProgramError::Usage(Usage::NoText)),
    }
}
