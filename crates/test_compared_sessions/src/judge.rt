//! What the clients of a session are to be told, by a plain machine that is led too.

use crate::entries::{Entries, is_entered};
use crate::session::{Brought, Turned};
use lsm_device::Refusal;
use lsm_store::Choice;
use lsm_trail::{Numbers, Trail};
use std::alloc::{Allocator, Global};
use test_compared_steps::plain::{Answer, Machine, PARTS, Step};
use test_compared_steps::trouble::{Trouble, agree, unrefused};
use test_merge::budget::Budget;

/// The number of the snapshot that a session pins, the first after an opening.
const BASE: u64 = 1;

/// How many slots a turn asks.
const SLOTS: usize = 4;

/// What is done after the step that a harm meets and that may be made again.
#[derive(Clone, Copy, PartialEq, Eq)]
pub enum Then {
    /// It is made again.
    Again,
    /// The next one is made.
    Next,
    /// The session ends.
    End,
}

/// What harms a session: of this heap a growth is refused, or else a call of its device fails.
#[derive(Clone, Copy)]
pub struct Harm<'h> {
    pub heap: Option<&'h Budget<Global>>,
    pub then: Then,
}

/// How a client is answered.
#[derive(Clone, Copy, PartialEq, Eq)]
pub(crate) enum Heard {
    /// As the machine says.
    Same,
    /// For want of memory nothing was done.
    Unmade,
    /// A read failed.
    Failed,
    /// A write or a sync failed.
    Stopped,
}

/// The machine, the entries that the trail is to have, and the harm.
pub struct Judge<'h> {
    pub machine: Machine,
    entries: Entries,
    pub(crate) harm: Harm<'h>,
    /// Whether the growth was refused before the deed that is done now.
    is_before: bool,
    /// Whether a client was told of the harm.
    pub is_met: bool,
}

impl<'h> Drop for Judge<'h> {
    fn drop(self) {
        let Judge {
            machine: _,
            entries: _,
            harm: _,
            is_before: _,
            is_met: _,
        } = self;
    }
}

/// The job of which a result is to be built.
fn built_of(step: Option<Step>) -> Option<u64> {
    match step {
        Some(Step::Build(job, _)) => Some(job),
        _ => None,
    }
}

impl<'h> Judge<'h> {
    /// A judge of a session with `places` places in its trail.
    pub fn new(alloc: Global, machine: Machine, places: u32, harm: Harm<'h>) -> Judge<'h> {
        Judge {
            machine,
            entries: Entries::new(alloc, places),
            harm,
            is_before: false,
            is_met: false,
        }
    }

    /// Whether a growth was refused so far.
    fn has_refused(&self) -> bool {
        match self.harm.heap {
            Some(heap) => heap.has_refused(),
            None => false,
        }
    }

    /// The next deed begins.
    pub(crate) fn go_on(&mut self) {
        self.is_before = self.has_refused();
    }

    /// Memory was wanting, for the first time, and since now.
    pub(crate) fn miss(&mut self) -> Result<(), Trouble> {
        if self.is_met || self.is_before || !self.has_refused() {
            return Err(Trouble::Refusal(Refusal::NoMemory));
        }
        self.is_met = true;
        Ok(())
    }

    /// A call of the device failed, for the first time: that which was to, or since now a write for which it has no memory.
    fn fail(&mut self, step: Step) -> Result<(), Trouble> {
        let is_due = match self.harm.heap {
            Some(heap) => heap.has_refused() && !self.is_before && !self.machine.only_reads(step),
            None => true,
        };
        if self.is_met || !is_due {
            return Err(Trouble::Unasked { step });
        }
        self.is_met = true;
        Ok(())
    }

    /// What a client is to be answered.
    fn due(&mut self, step: Step) -> Answer {
        if self.entries.is_full() {
            return Answer::Refused(Refusal::TrailFull);
        }
        match step {
            Step::Release(BASE) => Answer::Refused(Refusal::NotYours),
            _ => self.machine.answer(step),
        }
    }

    fn compare(&mut self, client: u32, step: Step, found: Answer) -> Result<Heard, Trouble> {
        agree(step, found, self.due(step))?;
        if is_entered(found) {
            self.entries.add(client, step, found)?;
        }
        Ok(Heard::Same)
    }

    /// A step answers that a call of the device failed, which is entered.
    fn hear_fault(&mut self, client: u32, step: Step) -> Result<Heard, Trouble> {
        self.fail(step)?;
        self.entries
            .add(client, step, Answer::Refused(Refusal::Io))?;
        if self.machine.only_reads(step) {
            return Ok(Heard::Failed);
        }
        unrefused(step, self.machine.stop(step))?;
        Ok(Heard::Stopped)
    }

    /// Hears what a client is answered to a step.
    pub(crate) fn hear(
        &mut self,
        client: u32,
        step: Step,
        found: Answer,
    ) -> Result<Heard, Trouble> {
        match found {
            Answer::Refused(Refusal::NoMemory) => {
                self.miss()?;
                Ok(Heard::Unmade)
            }
            Answer::Refused(Refusal::Io) => self.hear_fault(client, step),
            _ => self.compare(client, step, found),
        }
    }

    /// Hears what a client is answered to the taking of a choice. Where there is no such job there is no entry, in a full trail neither.
    pub(crate) fn hear_taken(
        &mut self,
        client: u32,
        choice: Choice,
        found: Option<Answer>,
    ) -> Result<Heard, Trouble> {
        let step = Step::TakeOf(choice);
        match found {
            Some(Answer::Taken(None)) => Err(Trouble::Turn { step: Some(step) }),
            Some(answer) => self.hear(client, step, answer),
            None => {
                agree(step, Answer::Taken(None), self.machine.answer(step))?;
                Ok(Heard::Same)
            }
        }
    }

    /// The input of a job was handed out, for the result of the next number.
    fn lend(&mut self, client: u32, due: Option<Step>, lent: (u64, u64)) -> Result<(), Trouble> {
        let wanted = (built_of(due), self.entries.next_result());
        if wanted != (Some(lent.0), lent.1) || self.entries.is_full() {
            return Err(Trouble::Turn { step: due });
        }
        let number = Answer::Number(lent.1);
        self.entries
            .add(client, Step::Build(lent.0, PARTS), number)?;
        Ok(())
    }

    /// A result was built and brought, where `tables` are due. The entry of the build stands whatever comes after it.
    fn merge(&mut self, client: u32, brought: Brought, tables: Answer) -> Result<Heard, Trouble> {
        if brought.built == Answer::Refused(Refusal::NoMemory) {
            self.miss()?;
            return Ok(Heard::Unmade);
        }
        agree(Step::Build(brought.job, PARTS), brought.built, tables)?;
        self.hear(client, Step::Accept(brought.job), brought.accepted)
    }

    /// An input was handed out to a client, which brings its result later. It tells how many tables that has.
    pub(crate) fn hear_lent(&mut self, client: u32, lent: (u64, u64)) -> Result<Answer, Trouble> {
        let due = self.pass_over(client)?;
        self.lend(client, due, lent)?;
        Ok(self.machine.answer(Step::Build(lent.0, PARTS)))
    }

    /// Its result was built and brought. Where the job still waits for one, that is of the same input.
    pub(crate) fn hear_late(
        &mut self,
        client: u32,
        brought: Brought,
        tables: Answer,
    ) -> Result<Heard, Trouble> {
        let _built = self.machine.answer(Step::Build(brought.job, PARTS));
        self.merge(client, brought, tables)
    }

    /// Hears what a piece of work was answered that is to be this one.
    fn hear_piece(
        &mut self,
        client: u32,
        due: Option<Step>,
        found: Answer,
    ) -> Result<Heard, Trouble> {
        match due {
            Some(step) => self.hear(client, step, found),
            None => Err(Trouble::Turn { step: None }),
        }
    }

    /// Hears what came of an input that was handed out, where this is to be done.
    fn hear_merge(
        &mut self,
        client: u32,
        due: Option<Step>,
        brought: Brought,
    ) -> Result<Heard, Trouble> {
        self.lend(client, due, (brought.job, brought.result))?;
        let tables = self.machine.answer(Step::Build(brought.job, PARTS));
        self.merge(client, brought, tables)
    }

    /// What a turn of a client is to come to. The installs that it passes over before are entered, where there is a place.
    fn pass_over(&mut self, client: u32) -> Result<Option<Step>, Trouble> {
        for behind in 0..SLOTS {
            let Some(step) = self.machine.piece_of(client, behind) else {
                continue;
            };
            if self.entries.is_full() || !self.machine.is_put_off(step) {
                return Ok(Some(step));
            }
            let put_off = self.machine.answer(step);
            self.entries.add(client, step, put_off)?;
        }
        Ok(None)
    }

    /// Hears what a turn of a client came to.
    pub(crate) fn hear_turn(&mut self, client: u32, turned: Turned) -> Result<Heard, Trouble> {
        let due = self.pass_over(client)?;
        match turned {
            Turned::Idle if due.is_none() => Ok(Heard::Same),
            Turned::Idle => Err(Trouble::Turn { step: due }),
            Turned::Did(found) => self.hear_piece(client, due, found),
            Turned::Merged(brought) => self.hear_merge(client, due, brought),
        }
    }

    /// Whether a client reads these numbers of the history.
    pub(crate) fn has_numbers(&self, numbers: Option<Numbers>) -> Result<(), Trouble> {
        let (batches, synced) = self.machine.counts();
        let wanted = Numbers {
            calls: self.entries.calls(),
            batches,
            synced,
        };
        if self.machine.is_stopped() || numbers == Some(wanted) {
            return Ok(());
        }
        Err(Trouble::Count(batches))
    }

    /// A session begins, and pins a snapshot of this number.
    pub(crate) fn pin(&mut self, base: u64) -> Result<(), Trouble> {
        agree(
            Step::Snapshot,
            Answer::Number(base),
            self.machine.answer(Step::Snapshot),
        )
    }

    /// A session ended with a trail, and lets its snapshot go, unless the store is stopped.
    pub(crate) fn unpin<A: Allocator>(&mut self, trail: &Trail<A>) -> Result<(), Trouble> {
        if !self.entries.are_in(trail) {
            return Err(Trouble::Trail);
        }
        let _released = self.machine.answer(Step::Release(BASE));
        Ok(())
    }
}
