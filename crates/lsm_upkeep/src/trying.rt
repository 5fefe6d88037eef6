//! What is attempted next to finish a flush, for callers that do one piece of work at a time.

use crate::flushing::{MANY_RUNS, MOST_RUNS, MOST_TRIES, is_waiting};
use crate::pushing::PushState;
use crate::stepping::{Way, Went};
use lsm_device::Device;
use lsm_store::Store;

/// What is to be attempted.
#[derive(Clone, Copy)]
pub enum Attempt {
    /// The job that comes next is to be taken and finished: a flush that waits.
    NextJob,
    /// The next step is to be taken and finished ([`next_step`](crate::next_step)).
    Step(Way),
    /// Another log is to be opened.
    Rotate,
}

/// How far the flush that waits was tried: it goes as `flush` does.
#[derive(Clone, Copy)]
pub(crate) struct FlushState {
    tries: u32,
    last: Last,
    push: PushState,
}

/// What was attempted last.
#[derive(Clone, Copy)]
enum Last {
    /// Nothing.
    Nothing,
    /// Tables were to be brought down, since level 0 has many runs.
    Push,
    /// The flush was to be finished.
    Flush,
    /// Since it could not be, a table was to be moved.
    Move,
    /// Or was to go down.
    Sink,
    /// Or neighbours were to be joined.
    Join,
}

impl FlushState {
    /// Nothing was tried yet.
    pub fn new() -> FlushState {
        FlushState {
            tries: 0,
            last: Last::Nothing,
            push: PushState::down(None),
        }
    }

    /// What is to be attempted next, where the last attempt went so. None at the end: where no flush waits, or it can't be finished.
    pub fn next<D: Device>(&mut self, store: &Store<D>, went: Went) -> Option<Attempt> {
        match (self.last, went) {
            (Last::Nothing, _) => self.begin_try(store),
            (Last::Push, _) => self.push_or_flush(store, went),
            (_, Went::On) => {
                self.tries = self.tries.saturating_add(1);
                self.begin_try(store)
            }
            (Last::Flush, _) if store.levels().runs().len() < MOST_RUNS => {
                self.attempt(Last::Move, Attempt::Step(Way::Aside))
            }
            (Last::Flush | Last::Move, _) => self.attempt(Last::Sink, Attempt::Step(Way::Down)),
            (Last::Sink, _) => self.attempt(Last::Join, Attempt::Step(Way::Together)),
            (Last::Join, _) => None,
        }
    }

    fn attempt(&mut self, last: Last, attempt: Attempt) -> Option<Attempt> {
        self.last = last;
        Some(attempt)
    }

    fn begin_try<D: Device>(&mut self, store: &Store<D>) -> Option<Attempt> {
        if self.tries >= MOST_TRIES || !is_waiting(store) {
            return None;
        }
        if store.levels().runs().len() < MANY_RUNS {
            return self.attempt(Last::Flush, Attempt::NextJob);
        }
        self.push = PushState::down(None);
        self.push_or_flush(store, Went::On)
    }

    fn push_or_flush<D: Device>(&mut self, store: &Store<D>, went: Went) -> Option<Attempt> {
        match self.push.next(store, went) {
            Some(way) => self.attempt(Last::Push, Attempt::Step(way)),
            None => self.attempt(Last::Flush, Attempt::NextJob),
        }
    }
}
