//! How a result is accepted for a job.

ghost use Rattle.std.specs.Prelude.{◌≡◌, ◌≤◌, ◌+◌, ℕ, ◌^◌, ◌⊎◌, length, IfOk, IfErr, OnOk, OnErr, Err};
ghost use Rattle.std.specs.Arc.{arc_value};
ghost use Rattle.lsm_device.specs.declared.refusal.Refusal.TheVariants.{NoMemory, NoSpace};
ghost use Rattle.lsm_extent.specs.Area.{Area};
ghost use Rattle.lsm_merge.specs.Divisions.{AreTables};
ghost use Rattle.lsm_merge.specs.Inputs.{kept_of};
ghost use Rattle.lsm_jobs.specs.Slots.{slot_of};
ghost use Rattle.lsm_jobs.specs.Holding.{IsFrozenAt};
ghost use Rattle.lsm_jobs.specs.Outputs.{placed_blocks};
ghost use Rattle.lsm_jobs.specs.Placing.{FindNoRoom, IsPlacing, IsAccepted};
ghost use Rattle.lsm_jobs.specs.Refusing.{HasInput, IsNotFrozen, RefusesInput, RefusesResult};

use crate::outputs::Outputs;
use crate::placing::place_all;
use crate::slots::Slots;
use lsm_codec::LAST_NUMBER;
use lsm_device::Refusal;
use lsm_extent::Extents;
use lsm_merge::{Built, Input};
use lsm_table::Image;
use std::alloc::Allocator;
use std::sync::Arc;

/// One more than the last number of a table.
const NUMBERS_END: u64 = LAST_NUMBER + 1;

/// The outputs of a job with this input, whose images are placed under the numbers from one on.
fn outputs_of<A: Allocator + Clone>(
    alloc: &A,
    input: &Arc<Input<A>, A>,
    images: &Arc<Vec<Image<A>, A>, A>,
    number: u64,
    extents: &mut Extents<A>,
) -> Result<Outputs<A>, Refusal>
    requires kept { AreTables (kept_of (arc_value input.now)) (arc_value images.now).items }
    requires numbers { number + length (arc_value images.now).items ≤ 2 ^ 63 + 1 }
    ensures placing { IfOk result
        (λ o. IsPlacing number (arc_value images.now).items extents.old extents.new o.tables) }
    ensures shown { IfOk result
        (λ o. (o.input ≡ arc_value input.now) × (o.left ≡ length (placed_blocks o.tables))) }
    ensures no_space { result ≡ Err NoSpace → FindNoRoom extents.old (arc_value images.now).items }
    ensures refusals { IfErr result (λ refusal. (refusal ≡ NoSpace) ⊎ (refusal ≡ NoMemory)) }
    ensures unchanged { OnErr result (extents.new ≡ extents.old) }
{
    let input = Arc::try_clone(input)?;
    let shared = Arc::try_clone(images)?;
    let free = extents.free_blocks();
    extents.partition();
    let tables = place_all(alloc, images.as_slice(), number, extents)?;
    extents.partition();
    let left = free - extents.free_blocks();
    Ok(Outputs::new(input, shared, tables, left))
}

impl<A: Allocator> Slots<A> {
    /// The place of a frozen job, and its input.
    fn frozen(&self, job: u64) -> Result<(usize, &Arc<Input<A>, A>), Refusal>
        ensures found { IfOk result
            (λ found. IsFrozenAt job self.now.slots found.0 (arc_value found.1.now)) }
        ensures refused { IfErr result (IsNotFrozen (slot_of job self.now.slots)) }
    {
        let (place, held) = self.find(job)?;
        match held.frozen() {
            Some(input) => Ok((place, input)),
            None => Err(Refusal::WrongState),
        }
    }

    /// The input of a frozen job, shared with it. Fails with `NoSuchJob` exactly where no slot has the number, with
    /// `WrongState` exactly where the job is not frozen, or with `NoMemory`. No memory is taken: that comes only of an `Arc` with 2^63
    /// handles, but no clause says so.
    pub fn input(&self, job: u64) -> Result<Arc<Input<A>, A>, Refusal>
        ensures input { IfOk result
            (λ input. HasInput (arc_value input) (slot_of job self.now.slots)) }
        ensures refused { IfErr result (RefusesInput (slot_of job self.now.slots)) }
    {
        let (_place, input) = self.frozen(job)?;
        Ok(Arc::try_clone(input)?)
    }

    /// Fails where a result was not built of the input of a frozen job: with `NoSuchJob` where no slot has the number; `WrongState` where
    /// the job is not frozen; and `ForeignResult` where the result's input is not the job's. It takes as long as reading all entries of
    /// both.
    pub fn check_result(&self, job: u64, built: &Built<A>) -> Result<(), Refusal>
        ensures own { IfOk result (λ _. HasInput built.now.input (slot_of job self.now.slots)) }
        ensures refused { (next_table : ℕ) (area : Area) → IfErr result
            (RefusesResult next_table built.now.input built.now.images area
            (slot_of job self.now.slots)) }
    {
        let (_place, input) = self.frozen(job)?;
        if !input.is_same(built.input()) {
            return Err(Refusal::ForeignResult);
        }
        Ok(())
    }

    /// Accepts a result for a frozen job: its tables are numbered from `next_table` on and placed in order, each in the
    /// lowest free run of its blocks, and all of their blocks are left to write. The images are shared with the result. It
    /// answers the number of the table after them.
    ///
    /// Fails with `NoSuchJob` where no slot has the number; `WrongState` where the job is not frozen;
    /// `ForeignResult` where the result's input is not the job's; `Exhausted` where a table would have a number above 2^63;
    /// `NoSpace` where the images don't all find room; and `NoMemory`. Each comes exactly so, but that `NoMemory` may be met
    /// before it is known that there is no room. Then nothing has changed.
    pub fn accept(
        &mut self,
        alloc: &A,
        job: u64,
        built: &Built<A>,
        extents: &mut Extents<A>,
        next_table: u64,
    ) -> Result<u64, Refusal>
    where
        A: Clone,
        requires { next_table ≤ 2 ^ 63 + 1 }
        ensures next { IfOk result (λ next. next ≡ next_table + length built.now.images) }
        ensures accepted { OnOk result
            (IsAccepted job next_table built.now.input built.now.images extents.old extents.new
            self.old self.new) }
        ensures refused { IfErr result
            (RefusesResult next_table built.now.input built.now.images extents.old
            (slot_of job self.old.slots)) }
        ensures unchanged { OnErr result ((self.new ≡ self.old) × (extents.new ≡ extents.old)) }
    {
        self.check_result(job, built)?;
        self.accept_own(alloc, job, built, extents, next_table)
    }

    /// Accepts a result that was built of the job's own input, as [`accept`](Slots::accept) does, which compares the two.
    pub fn accept_own(
        &mut self,
        alloc: &A,
        job: u64,
        built: &Built<A>,
        extents: &mut Extents<A>,
        next_table: u64,
    ) -> Result<u64, Refusal>
    where
        A: Clone,
        requires next { next_table ≤ 2 ^ 63 + 1 }
        requires own { HasInput built.now.input (slot_of job self.old.slots) }
        ensures next { IfOk result (λ next. next ≡ next_table + length built.now.images) }
        ensures accepted { OnOk result
            (IsAccepted job next_table built.now.input built.now.images extents.old extents.new
            self.old self.new) }
        ensures refused { IfErr result
            (RefusesResult next_table built.now.input built.now.images extents.old
            (slot_of job self.old.slots)) }
        ensures unchanged { OnErr result ((self.new ≡ self.old) × (extents.new ≡ extents.old)) }
    {
        let (place, input) = self.frozen(job)?;
        let images = built.images();
        let count = images.len() as u64;
        if count > NUMBERS_END - next_table {
            return Err(Refusal::Exhausted);
        }
        let outputs = outputs_of(alloc, input, images, next_table, extents)?;
        self.set_outputs(place, outputs);
        Ok(next_table + count)
    }
}
