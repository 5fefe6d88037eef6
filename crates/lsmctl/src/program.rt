//! The program over a reader and two writers.

ghost use Rattle.std.specs.Prelude.{◌≡◌, ◌≤◌, map, MatchResult};
ghost use Rattle.std.specs.Io.KnownBytes.{Keeps};
ghost use Rattle.lsm_language.specs.Faults.{reason_of};
ghost use Rattle.lsmctl.specs.Runs.{Fails, FindsMistake, HasServed, IsRun, IsServed};

use crate::answer::Answer;
use crate::calls::answer_request;
use crate::ending::conclude;
use crate::parser::asked_for;
use lsm_language::{ProgramError, Request, script_text};
use lsm_progress::Progress;
use std::convert::AsStr;
use std::fs::{File, Files};
use std::io::{Read, Write};
use std::sync::Wait;
use std::thread::Threads;

/// Runs the program on the words after its name, and gives the exit status. A script is read from `input`, an answer
/// goes to `output`, a fault to `errors`. How far a compaction, a load or an exploration is goes to `progress`.
pub fn run<
    R: Files<File = File> + AllocGlobal + Threads + Wait + Sync,
    S: AsStr,
    I: Read,
    O: Write,
    E: Write,
    P: Progress,
>(rt: &R, words: &[S], input: &mut I, output: &mut O, errors: &mut E, progress: &mut P) -> u8
    // What comes of the words and the input is printed, an answer or a fault, and decides the exit status.
    ensures runs { IsRun (map S.text words.entry.now) (I.remaining input.old) record {
      output = O.contents output.old;
      output_after = O.contents output.new;
      errors = E.contents errors.old;
      errors_after = E.contents errors.new;
    } result }
    ensures status { result ≤ 2 }

    // A run that ends with 0 did what the words and the input ask for, printed just the lines of its answer, and no fault.
    ensures done { result ≡ 0 → HasServed (map S.text words.entry.now) (I.remaining input.old)
        (O.contents output.old) (O.contents output.new) }
    ensures no_fault { result ≡ 0 → Keeps (E.contents errors.old) (E.contents errors.new) }

    // One that ends with 2 found a mistake in the words or the input, and printed no answer, but how many rows it loaded before.
    ensures mistake { result ≡ 2
        → FindsMistake (map S.text words.entry.now) (I.remaining input.old) (O.contents output.old)
        (O.contents output.new) }
{
    let answered = answer(rt, words, input, output, progress);
    conclude(&answered, output, errors)
}

// Does what the words ask for.
fn answer<
    R: Files<File = File> + AllocGlobal + Threads + Wait + Sync,
    S: AsStr,
    I: Read,
    O: Write,
    P: Progress,
>(
    rt: &R,
    words: &[S],
    input: &mut I,
    output: &mut O,
    progress: &mut P,
) -> Result<Answer, ProgramError>
    ensures { MatchResult result
        (IsServed (map S.text words.entry.now) (I.remaining input.old) (O.contents output.old)
        (O.contents output.new))
        (λ fault. Fails (map S.text words.entry.now) (I.remaining input.old) (reason_of fault)
        (O.contents output.old) (O.contents output.new)) }
{
    let asked = asked_for(rt.alloc(), words)?;
    let text = script_text(rt.alloc(), &asked, input)?;
    let request = Request::read(rt.alloc(), asked, &text)?;
    answer_request(rt, request, input, output, progress)
}
