//! How far a call is, on standard error.

use lsm_progress::{Milestone, Progress};
use std::io::Write;
use std::rt::Clock;
use std::time::Instant;

/// For this number of seconds it shows nothing after a line, or after the start of the program.
const PAUSE: u64 = 1;

/// Shows the milestones of a call, a line each, at most one a second: on a terminal all of them, and elsewhere how many rows are loaded,
/// which whoever ends a load by a signal wants to know.
#[derive(Drop)]
pub(crate) struct Meter<'a, R: Clock, T: Write> {
    clock: &'a R,
    errors: T,
    is_terminal: bool,
    // When the last one was shown, or the program began; none where the clock can't be read.
    last: Option<Instant>,
}

impl<'a, R: Clock, T: Write> Meter<'a, R, T> {
    pub(crate) fn new(clock: &'a R, errors: T, is_terminal: bool) -> Self {
        Meter {
            clock,
            errors,
            is_terminal,
            last: Instant::now(clock).ok(),
        }
    }

    // Whether the last line is long enough ago.
    fn is_due(&self) -> bool {
        let Some(last) = self.last else {
            return false;
        };
        match last.elapsed(self.clock) {
            Ok(passed) => passed.as_secs() >= PAUSE,
            Err(_) => false,
        }
    }
}

impl<R: Clock, T: Write> Progress for Meter<'_, R, T> {
    fn reached(&mut self, milestone: Milestone) {
        let is_shown = self.is_terminal || matches!(milestone, Milestone::Loaded { .. });
        if !is_shown || !self.is_due() {
            return;
        }
        self.last = Instant::now(self.clock).ok();
        let _ = writeln!(self.errors, "{milestone}");
    }
}
