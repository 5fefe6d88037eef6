//! What an install of a job's outputs needs.

ghost use Rattle.std.specs.Prelude.{◌≡◌, IfOk, IfErr, OnOk, OnErr};
ghost use Rattle.lsm_jobs.specs.Slots.{slot_of, with_held, inputs_of, is_written};
ghost use Rattle.lsm_jobs.specs.Placing.{AreHandedOut, all_given_back};
ghost use Rattle.lsm_jobs.specs.Refusing.{IsAtStage, IsNotWritten};
ghost use Rattle.lsm_jobs.specs.Installing.{IsWhole};

use crate::slots::Slots;
use lsm_device::Refusal;
use lsm_extent::Extents;
use lsm_levels::PlacedTable;
use std::alloc::{Allocator, Global};

/// The outputs of a job whose blocks are all written, and what they take the place of.
#[derive(Drop)]
pub enum Written<'a, A: Allocator = Global> {
    /// Those of a flush come before all others.
    Flush {
        outputs: &'a [PlacedTable<A>],
    },
    /// Those of a merge replace the tables of a level, and those of the next that they met.
    Merge {
        level: usize,
        upper: &'a [PlacedTable<A>],
        lower: &'a [PlacedTable<A>],
        outputs: &'a [PlacedTable<A>],
    },
}

impl<A: Allocator> Slots<A> {
    /// The outputs of a job whose blocks are all written, with what they take the place of: the tables that a merge makes of
    /// the job's input. Fails with `NoSuchJob` exactly where no slot has the number, and with `WrongState` exactly
    /// where the job is not writing or has blocks left. It takes no memory.
    pub fn written(&self, job: u64) -> Result<Written<'_, A>, Refusal>
        ensures found { IfOk result (λ written. IsWhole written (slot_of job self.now.slots)) }
        ensures refused { IfErr result (IsNotWritten (slot_of job self.now.slots)) }
    {
        let (_place, held) = self.find(job)?;
        match held.written() {
            Some(written) => Ok(written),
            None => Err(Refusal::WrongState),
        }
    }

    /// Ends such a job, once its outputs are installed: its slot is free, and the extents of the tables that it took in are
    /// given back; those of its outputs stay handed out. Fails as `written`; then nothing has changed. It takes no
    /// memory.
    pub fn finish(&mut self, job: u64, extents: &mut Extents<A>) -> Result<(), Refusal>
        // What the job took in is handed out.
        requires { AreHandedOut (inputs_of (slot_of job self.old.slots)) extents.old }
        ensures written { OnOk result (IsAtStage is_written (slot_of job self.old.slots)) }
        ensures freed { OnOk result
            (self.new ≡ record
            { next = self.old.next; slots = with_held job None self.old.slots }) }
        ensures given_back { OnOk result
            (extents.new ≡ all_given_back (inputs_of (slot_of job self.old.slots)) extents.old) }
        ensures refused { IfErr result (IsNotWritten (slot_of job self.old.slots)) }
        ensures unchanged { OnErr result ((self.new ≡ self.old) × (extents.new ≡ extents.old)) }
    {
        let (place, held) = self.find(job)?;
        if !held.is_written() {
            return Err(Refusal::WrongState);
        }
        held.give_inputs_back(extents);
        self.slots[place] = None;
        Ok(())
    }
}
