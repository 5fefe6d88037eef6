//! How the outputs of a job are written.

ghost use Rattle.std.specs.Prelude.{◌≡◌, ◌≤◌, ◌+◌, ◌*◌, length, min, take, drop, IsTrue, OnOk, OnErr, is_ok, true, IfOk, IfErr};
ghost use Rattle.lsm_device.specs.Calls.{AtMost, faults_after};
ghost use Rattle.lsm_device.specs.History.{EachSince};
ghost use Rattle.lsm_device.specs.Medium.{disk};
ghost use Rattle.lsm_device.specs.Runs.{run_at, grown, HasSomeOf};
ghost use Rattle.std.specs.List.{AllByRecursion};
ghost use Rattle.lsm_device.specs.Refusals.{faultless};
ghost use Rattle.lsm_jobs.specs.Slots.{slot_of, outputs_of, to_write};
ghost use Rattle.lsm_jobs.specs.Outputs.{in_sectors, EndsWithin};
ghost use Rattle.lsm_jobs.specs.Holding.{IsWritingAt};
ghost use Rattle.lsm_jobs.specs.Writing.{WritesBlocks, JobWritesOn, next_of};
ghost use Rattle.lsm_jobs.specs.Refusing.{IsNotWriting, RefusesWrite};

use crate::outputs::Outputs;
use crate::slots::Slots;
use lsm_device::{Device, Fault, Refusal};
use std::alloc::Allocator;

/// Writes a block to the eight sectors from one on, by one call of the device.
pub(crate) fn write_block<D: Device>(
    device: &mut D,
    sector: u32,
    block: &[u8; 4_096],
) -> Result<(), Fault>
    requires { sector + 8 ≤ (D.medium device.old).size }
    ensures moments { IsTrue (D.medium device.old).lasting.tells → EachSince
        (HasSomeOf (disk (D.medium device.old)) (run_at sector (in_sectors 8 block.now)))
        (D.medium device.old).history (D.medium device.new).history }
    ensures pends { IsTrue (D.medium device.old).lasting.tells → OnOk result
        (disk (D.medium device.new)
        ≡ grown (run_at sector (in_sectors 8 block.now)) (disk (D.medium device.old))) }
    ensures faults { (D.medium device.new).calls.faults
        ≡ faults_after (is_ok result) (D.medium device.old).calls.faults }
    ensures stops { OnErr result ((D.medium device.new).calls.last_faulted ≡ true) }
    ensures calls { AtMost 0 8 0 (D.medium device.old).calls (D.medium device.new).calls }
    ensures same_size { (D.medium device.new).size ≡ (D.medium device.old).size }
    ensures same_lasting { (D.medium device.new).lasting ≡ (D.medium device.old).lasting }
{
    device.write_run(sector, block)?;
    Ok(())
}

impl<A: Allocator> Slots<A> {
    /// The place of a job that is writing, and its outputs.
    fn writing(&self, job: u64) -> Result<(usize, &Outputs<A>), Refusal>
        ensures found { IfOk result (λ found. IsWritingAt job self.now.slots found.0 found.1.now) }
        ensures refused { IfErr result (IsNotWriting (slot_of job self.now.slots)) }
    {
        let (place, held) = self.find(job)?;
        match held.writing() {
            Some(outputs) => Ok((place, outputs)),
            None => Err(Refusal::WrongState),
        }
    }

    /// Writes the next blocks of a job's outputs, at most eight, each to its place in the data area, which begins with the
    /// sector `area`; a block is eight sectors. Returns how many blocks are left. The tables are written in order, each as
    /// data blocks, filter, index and footer. It takes no memory.
    ///
    /// Fails with `NoSuchJob` exactly where no slot has the number, with `WrongState` exactly where the job is not
    /// writing, and with `Io` where a write faulted, its last; then the blocks that it was to write count as left. With no block
    /// left it makes no device call.
    pub fn write<D: Device>(&mut self, job: u64, device: &mut D, area: u32) -> Result<u32, Refusal>
        // The extents of the outputs lie in the device.
        requires { AllByRecursion (EndsWithin (D.medium device.old).size area)
            (outputs_of (slot_of job self.old.slots)) }
        ensures left { IfOk result (λ left. JobWritesOn job left self.old self.new) }
        ensures written { WritesBlocks area (next_of (slot_of job self.old.slots))
            (faultless result) (D.medium device.old) (D.medium device.new) }
        ensures calls { AtMost 0 (8 * min 8 (to_write (slot_of job self.old.slots))) 0
            (D.medium device.old).calls (D.medium device.new).calls }
        // Where no block is left the device isn't touched.
        ensures untouched { to_write (slot_of job self.old.slots) ≡ 0
            → D.medium device.new ≡ D.medium device.old }
        ensures refused { IfErr result (RefusesWrite (slot_of job self.old.slots)) }
        ensures unchanged { OnErr result (self.new ≡ self.old) }
    {
        let (place, outputs) = self.writing(job)?;
        let left = outputs.left();
        let count = left.min(8);
        outputs.write_next(device, area, count)?;
        self.note_written(place, count);
        Ok(left - count)
    }
}
