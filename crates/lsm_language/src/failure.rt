//! A call of a file that failed, as it is told.

ghost use Rattle.std.specs.Prelude.{◌≡◌, true, IfOk, string_bytes};
ghost use Rattle.lsm_language.specs.Showing.{is_of_device, is_shown};

use crate::showing::shown;
use lsm_device::Refusal;
use std::alloc::Global;
use std::fmt::Write;
use std::io;

/// A refusal that a call of a file led to, and what the system said of that call. Nothing is promised of these words but that they
/// stand in one line.
#[derive(Debug, Drop)]
pub struct Failure {
    refusal: Refusal,
    error: String,
    ghost of_device: { is_of_device refusal ≡ true },
    ghost shown: { is_shown (string_bytes error) ≡ true },
}

impl Failure {
    /// It takes memory for the words.
    pub(crate) fn new(
        alloc: Global,
        refusal: Refusal,
        error: &io::Error,
    ) -> Result<Failure, Refusal>
        requires { is_of_device refusal ≡ true }
        ensures { IfOk result (λ failure. failure.refusal ≡ refusal) }
    {
        let mut text = String::new(alloc);
        write!(text, "{error}")?;
        let error = shown(alloc, text.as_bytes())?;
        Ok(Failure { refusal, error })
    }

    /// The refusal.
    pub fn refusal(&self) -> &Refusal
        ensures { result.now ≡ self.now.refusal }
    {
        &self.refusal
    }

    /// What the system said.
    pub fn error(&self) -> &str
        ensures { result.now ≡ string_bytes self.now.error }
    {
        &self.error
    }
}

/// What the system said, in words.
pub fn failure_text(failure: &Failure) -> &str
    ensures { result.now ≡ string_bytes failure.now.error }
{
    failure.error()
}
