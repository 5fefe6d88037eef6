//! Why the program did not do what it was asked for.

ghost use Rattle.std.specs.Prelude.{◌≡◌};
ghost use Rattle.lsm_device.specs.declared.refusal.Refusal.TheVariants.{NoMemory};
ghost use Rattle.lsm_language.specs.Faults.{reason_of, mistake, refusal};
ghost use Rattle.lsm_language.specs.Showing.{is_of_device};

use crate::cause::{Cause, cause_text};
use crate::failure::{Failure, failure_text};
use crate::refused::refusal_text;
use lsm_device::Refusal;
use std::alloc::{AllocError, AllocFailed, Global};
use std::io;
use thiserror::Error;

/// What is wrong with the words, or with the script.
#[derive(Debug, Drop, Error)]
pub enum Usage {
    /// The text of the parser of the words, help included.
    #[error("{0}")]
    Words(String),
    /// A word is no text, so that it can't be told which.
    #[error("a word is no UTF-8 text")]
    NoText,
    /// A word begins with a dash.
    #[error("{word:?} begins with a dash: there are no options, and no word does")]
    Dash { word: String },
    /// A word is missing.
    #[error("{0} is missing")]
    Missing(&'static str),
    /// A word is no decimal number below 2^64.
    #[error("{place} is {word:?}: expected a decimal number below 2^64, of digits alone")]
    Number { place: &'static str, word: String },
    /// A word says no bytes.
    #[error("{place} is {word:?}: expected hex, two digits a byte, or empty for no bytes")]
    Bytes { place: &'static str, word: String },
    /// A word is neither bytes nor says that there is no value.
    #[error("OLD is {word:?}: expected hex, two digits a byte, empty for no bytes, or absent for no value")]
    Old { word: String },
    /// A line of the script, counted from 1, can't be parsed.
    #[error("line {number} of the script can't be read: {line:?}")]
    Line { number: usize, line: String },
    /// A line of the input, counted from 1, is no row.
    #[error("line {number} of the input is no row KEY VALUE: {line:?}")]
    Row { number: u64, line: String },
    /// A line of the script, counted from 1, may not stand there.
    #[error("line {number} of the script may not stand there: {line:?}")]
    Misplaced { number: usize, line: String },
}

/// A mistake in the words or the input, a refusal, one that a call of a file led to, a file that can't be opened, an input that
/// could not be read, or an answer that could not be written.
#[derive(Debug, Drop, Error)]
pub enum ProgramError {
    #[error("{0}")]
    Usage(Usage),
    #[error("{text}", text = refusal_text(.0))]
    Refused(Refusal),
    #[error("{text}", text = failure_text(.0))]
    Failed(Failure),
    #[error("{text}", text = cause_text(.0))]
    Unopened(Cause),
    #[error("the input could not be read: {0}")]
    Input(io::Error),
    #[error("the answer could not be written: {0}")]
    Output(io::Error),
}

impl ProgramError {
    /// A refusal, with what the system said where a call of a file led to it and there is memory for the words.
    pub fn failed(alloc: Global, reason: Refusal, error: &io::Error) -> ProgramError
        ensures { reason_of result ≡ refusal reason }
    {
        if !is_of_device(reason) {
            return ProgramError::Refused(reason);
        }
        match Failure::new(alloc, reason, error) {
            Ok(failure) => ProgramError::Failed(failure),
            Err(_) => ProgramError::Refused(reason),
        }
    }
}

// Whether a refusal tells of a call of the device that failed.
fn is_of_device(reason: Refusal) -> bool
    ensures { result ≡ is_of_device reason }
{
    matches!(reason, Refusal::Io | Refusal::Stopped)
}

impl From<Usage> for ProgramError {
    ghost from_gives = { λ _ fault. reason_of fault ≡ mistake };

    fn from(usage: Usage) -> ProgramError {
        ProgramError::Usage(usage)
    }
}

impl From<Refusal> for ProgramError {
    ghost from_gives = { λ r fault. reason_of fault ≡ refusal r };

    fn from(reason: Refusal) -> ProgramError {
        ProgramError::Refused(reason)
    }
}

impl<T: Drop> From<AllocFailed<T>> for ProgramError {
    ghost from_gives = { λ _ fault. reason_of fault ≡ refusal NoMemory };

    fn from(_: AllocFailed<T>) -> ProgramError {
        ProgramError::Refused(Refusal::NoMemory)
    }
}

impl From<AllocError> for ProgramError {
    ghost from_gives = { λ _ fault. reason_of fault ≡ refusal NoMemory };

    fn from(_: AllocError) -> ProgramError {
        ProgramError::Refused(Refusal::NoMemory)
    }
}
