//! A job that holds a slot.

ghost use Rattle.std.specs.Prelude.{◌≡◌, ◌≤◌, ◌==◌, ◌++◌, ◌∷◌, [], true, false, Some, MatchOption};
ghost use Rattle.std.specs.Arc.{arc_value};
ghost use Rattle.std.specs.List.{list_any};
ghost use Rattle.lsm_levels.specs.Pick.{is_flush, is_merge, is_of_level_0, is_several, inputs};
ghost use Rattle.lsm_jobs.specs.Outputs.{AreMadeOf};
ghost use Rattle.lsm_jobs.specs.Installing.{IsWhole};
ghost use Rattle.lsm_jobs.specs.Slots.{Frozen, Writing, is_frozen, is_writing, is_written, left_at, less_left, outputs_at};

use crate::gathering::Gathering;
use crate::installing::Written;
use crate::merge::MergeTables;
use crate::outputs::Outputs;
use lsm_levels::PlacedTable;
use lsm_merge::Input;
use std::alloc::Allocator;
use std::marker::Model;
use std::sync::Arc;

/// How far a job is.
#[derive(Drop)]
pub(crate) enum Work<A: Allocator> {
    /// Its data blocks are being read.
    Reading(Gathering<A>),
    /// Its input is whole.
    Frozen(Arc<Input<A>, A>),
    /// Its outputs are being written.
    Writing(Outputs<A>),
}

/// A job that holds a slot, under its number.
#[derive(Drop)]
pub(crate) struct HeldJob<A: Allocator> {
    pub(crate) number: u64,
    /// What it takes in; none of a flush.
    pub(crate) tables: Option<MergeTables<A>>,
    pub(crate) work: Work<A>,
}

impl<A: Allocator> Model for HeldJob<A> {
    ghost use Rattle.lsm_jobs.specs.Slots.{Slot};
    ghost use Rattle.lsm_jobs.specs.Shown.{job_of, slot_shown, HasRuns};

    ghost Value = { Slot };

    ghost view = { λ h. slot_shown h.number (job_of h.tables) h.work };

    ghost invariant = { λ h. HasRuns (job_of h.tables) h.work };
}

impl<A: Allocator> HeldJob<A> {
    /// Its number.
    pub(crate) fn number(&self) -> u64
        ensures { result ≡ self.now.number }
    {
        self.number
    }

    pub(crate) fn is_flush(&self) -> bool
        ensures { result ≡ is_flush self.now.job }
    {
        self.tables.is_none()
    }

    pub(crate) fn is_of_level_0(&self) -> bool
        ensures { result ≡ is_of_level_0 self.now.job }
    {
        match &self.tables {
            Some(tables) => tables.is_of_level_0(),
            None => false,
        }
    }

    pub(crate) fn is_merge(&self) -> bool
        ensures { result ≡ is_merge self.now.job }
    {
        self.tables.is_some()
    }

    pub(crate) fn is_several(&self) -> bool
        ensures { result ≡ is_several self.now.job }
    {
        match &self.tables {
            Some(tables) => tables.is_several(),
            None => false,
        }
    }

    /// Whether it takes in the table of this number.
    pub(crate) fn takes_in(&self, number: u64) -> bool
        ensures { result ≡ list_any (λ t. t.number == number) (inputs self.now.job) }
    {
        match &self.tables {
            Some(tables) => tables.takes_in(number),
            None => false,
        }
    }

    /// Its input, where it is frozen.
    pub(crate) fn frozen(&self) -> Option<&Arc<Input<A>, A>>
        ensures { MatchOption result (is_frozen self.now.stage ≡ false)
            (λ input. (self.now.stage ≡ Frozen) × (self.now.input ≡ arc_value input.now)) }
    {
        match &self.work {
            Work::Reading(_) => None,
            Work::Frozen(input) => Some(input),
            Work::Writing(_) => None,
        }
    }

    /// Its outputs, where it is writing.
    pub(crate) fn writing(&self) -> Option<&Outputs<A>>
        ensures { MatchOption result (is_writing self.now.stage ≡ false)
            (λ outputs. self.now.stage ≡ Writing outputs.now.tables outputs.now.left) }
    {
        match &self.work {
            Work::Reading(_) => None,
            Work::Frozen(_) => None,
            Work::Writing(outputs) => Some(outputs),
        }
    }

    /// Whether all blocks of its outputs are written.
    pub(crate) fn is_written(&self) -> bool
        ensures { result ≡ is_written self.now.stage }
    {
        match &self.work {
            Work::Reading(_) => false,
            Work::Frozen(_) => false,
            Work::Writing(outputs) => outputs.left() == 0,
        }
    }

    /// Its outputs, where all of their blocks are written, and what they take the place of.
    pub(crate) fn written(&self) -> Option<Written<'_, A>>
        ensures { MatchOption result (is_written self.now.stage ≡ false)
            (λ written. IsWhole written (Some self.now)) }
    {
        if !self.is_written() {
            return None;
        }
        let outputs = self.outputs();
        match &self.tables {
            Some(tables) => Some(tables.written(outputs)),
            None => Some(Written::Flush { outputs }),
        }
    }

    /// Notes that `count` more blocks are written.
    pub(crate) fn note_written(&mut self, count: u32)
        requires { count ≤ left_at self.old.stage }
        ensures { self.new ≡ record {
          number = self.old.number;
          job = self.old.job;
          input = self.old.input;
          stage = less_left count self.old.stage;
        } }
    {
        match &mut self.work {
            Work::Reading(_) => {}
            Work::Frozen(_) => {}
            Work::Writing(outputs) => outputs.note_written(count),
        }
    }

    /// Goes over to the writing of outputs.
    pub(crate) fn set_outputs(&mut self, outputs: Outputs<A>)
        ensures { self.new ≡ record {
          number = self.old.number;
          job = self.old.job;
          input = outputs.input;
          stage = Writing outputs.tables outputs.left;
        } }
    {
        self.work = Work::Writing(outputs);
    }

    /// Its outputs, where they are placed; then they are what a merge makes of its input.
    pub(crate) fn outputs(&self) -> &[PlacedTable<A>]
        ensures same { result.now ≡ outputs_at self.now.stage }
        ensures made { is_written self.now.stage ≡ true → AreMadeOf self.now.input result.now }
    {
        match &self.work {
            Work::Reading(_) => &[],
            Work::Frozen(_) => &[],
            Work::Writing(outputs) => outputs.tables(),
        }
    }
}
