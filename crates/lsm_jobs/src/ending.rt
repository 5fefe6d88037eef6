//! How a job ends.

ghost use Rattle.std.specs.Prelude.{◌≡◌, ◌↔◌, ◌⊎◌, IfErr, OnOk, OnErr, Err, None};
ghost use Rattle.lsm_device.specs.declared.refusal.Refusal.TheVariants.{NoSuchJob};
ghost use Rattle.lsm_levels.specs.Pick.{inputs};
ghost use Rattle.lsm_jobs.specs.Slots.{slot_of, with_held, outputs_of};
ghost use Rattle.lsm_jobs.specs.Placing.{AreHandedOut, all_given_back};

use crate::held::HeldJob;
use crate::reading::inputs;
use crate::slots::Slots;
use lsm_device::Refusal;
use lsm_extent::{Extent, Extents};
use lsm_levels::PlacedTable;
use std::alloc::Allocator;

/// Gives back the extents of tables.
pub(crate) fn give_back<A: Allocator>(tables: &[PlacedTable<A>], extents: &mut Extents<A>)
    requires { AreHandedOut tables.now extents.old }
    ensures { extents.new ≡ all_given_back tables.now extents.old }
{
    for table in tables.iter().rev() {
        extents.give(Extent {
            first: table.first_block(),
            blocks: table.blocks(),
        });
    }
}

impl<A: Allocator> HeldJob<A> {
    /// Gives back the extents of the tables that it takes in.
    pub(crate) fn give_inputs_back(&self, extents: &mut Extents<A>)
        requires { AreHandedOut (inputs self.now.job) extents.old }
        ensures { extents.new ≡ all_given_back (inputs self.now.job) extents.old }
    {
        give_back(inputs(&self.tables), extents);
    }
}

impl<A: Allocator> Slots<A> {
    /// Drops a job: its slot is free, and the extents of its outputs, where they are placed, are given back. It takes no
    /// memory. Fails with `NoSuchJob` exactly where no slot has the number; then nothing has changed.
    pub fn drop(&mut self, job: u64, extents: &mut Extents<A>) -> Result<(), Refusal>
        // What was placed for the job is handed out.
        requires { AreHandedOut (outputs_of (slot_of job self.old.slots)) extents.old }
        ensures absent { (result ≡ Err NoSuchJob) ↔ (slot_of job self.old.slots ≡ None) }
        ensures refusals { IfErr result (λ refusal. refusal ≡ NoSuchJob) }
        ensures freed { OnOk result
            (self.new ≡ record
            { next = self.old.next; slots = with_held job None self.old.slots }) }
        ensures given_back { OnOk result
            (extents.new ≡ all_given_back (outputs_of (slot_of job self.old.slots)) extents.old) }
        ensures unchanged { OnErr result ((self.new ≡ self.old) × (extents.new ≡ extents.old)) }
    {
        let (place, held) = self.find(job)?;
        give_back(held.outputs(), extents);
        self.slots[place] = None;
        Ok(())
    }
}
