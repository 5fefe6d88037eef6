//! How the data blocks of a job's tables are read.

ghost use Rattle.std.specs.Prelude.{◌≡◌, ◌↔◌, ◌⊎◌, ◌+◌, ◌*◌, ◌<◌, ◌≤◌, false, true, Err, None, Some, length, min, slice_set, IsTrue, IfOk, IfErr, OnErr};
ghost use Rattle.std.specs.List.{AllByRecursion, slice_index_or, list_all};
ghost use Rattle.lsm_device.specs.declared.refusal.Refusal.TheVariants.{NoMemory, Io, BadTable, NoSuchJob, WrongState};
ghost use Rattle.lsm_device.specs.Calls.{AtMost, faults_after};
ghost use Rattle.lsm_device.specs.Refusals.{faultless};
ghost use Rattle.lsm_levels.specs.Pick.{inputs};
ghost use Rattle.lsm_levels.specs.Stored.{LiesWithin, is_within};
ghost use Rattle.lsm_jobs.specs.Slots.{Slot, slot_of, is_reading, is_not_at, left_to_read, to_read};
ghost use Rattle.lsm_jobs.specs.Shown.{job_of};
ghost use Rattle.lsm_jobs.specs.Gathering.{ReadsBlocks};
ghost use Rattle.lsm_jobs.specs.Reading.{CanBeRead, JobCanBeRead, SlotReadsOn, IsBadNext, JobReadsOn};

use crate::held::{HeldJob, Work};
use crate::merge::MergeTables;
use crate::slots::Slots;
use lsm_device::{Device, Refusal};
use lsm_levels::PlacedTable;
use std::alloc::Allocator;

/// The tables that a job takes in, none of a flush.
pub(crate) fn inputs<A: Allocator>(tables: &Option<MergeTables<A>>) -> &[PlacedTable<A>]
    ensures { result.now ≡ inputs (job_of tables.now) }
{
    match tables {
        Some(tables) => tables.tables(),
        None => &[],
    }
}

/// Whether the data blocks of a table lie within the first `sectors` sectors.
fn is_within<A: Allocator>(table: &PlacedTable<A>, sectors: u32, area: u32) -> bool
    ensures { result ≡ is_within sectors area table.now }
{
    let blocks = table.table().data_blocks();
    area as u64 + 8 * (table.first_block() as u64 + blocks as u64) <= sectors as u64
}

fn all_within<A: Allocator>(tables: &[PlacedTable<A>], sectors: u32, area: u32) -> bool
    ensures { result ≡ list_all (is_within sectors area) tables.now }
{
    tables.iter().all(|table| is_within(table, sectors, area))
}

/// Whether the data blocks of tables lie within the first `sectors` sectors.
fn are_within<A: Allocator>(tables: &[PlacedTable<A>], sectors: u32, area: u32) -> bool
    ensures { IsTrue result ↔ AllByRecursion (LiesWithin sectors area) tables.now }
{
    all_within(tables, sectors, area)
}

impl<A: Allocator> HeldJob<A> {
    /// Whether it has at most 1,024 tables, and they lie within the first `sectors` sectors.
    fn can_be_read(&self, sectors: u32, area: u32) -> bool
        ensures { IsTrue result ↔ CanBeRead sectors area self.now.job }
    {
        let tables = inputs(&self.tables);
        tables.len() <= 1_024 && are_within(tables, sectors, area)
    }
}

impl<A: Allocator + Clone> HeldJob<A> {
    /// Reads the next data blocks of its tables, eight at most, and answers how many are left; with none left its input is
    /// whole. Where it is refused, the job is as it was.
    fn read<D: Device>(
        self,
        alloc: &A,
        area: u32,
        device: &mut D,
    ) -> (HeldJob<A>, Result<usize, Refusal>)
        requires { CanBeRead (D.medium device.old).size area self.job }
        ensures wrong { (result.1 ≡ Err WrongState) ↔ (is_reading self.stage ≡ false) }
        ensures reads { IfOk result.1
            (λ left. SlotReadsOn area (D.medium device.old) left self result.0) }
        ensures bad { IsTrue (D.medium device.old).lasting.tells → result.1 ≡ Err BadTable
            → IsBadNext area (D.medium device.old) self }
        ensures unchanged { OnErr result.1 (result.0 ≡ self) }
        ensures refused { IfErr result.1
            (λ refusal. (refusal ≡ WrongState)
            ⊎ ((refusal ≡ Io) ⊎ ((refusal ≡ BadTable) ⊎ (refusal ≡ NoMemory)))) }
        ensures device { ReadsBlocks (min 8 (left_to_read self.stage)) (faultless result.1)
            (D.medium device.old) (D.medium device.new) }
    {
        let HeldJob {
            number,
            tables,
            work,
        } = self;
        match work {
            Work::Reading(gathering) => {
                let (work, left) = gathering.step(alloc, inputs(&tables), area, device);
                let held = HeldJob {
                    number,
                    tables,
                    work,
                };
                (held, left)
            }
            work => {
                let held = HeldJob {
                    number,
                    tables,
                    work,
                };
                (held, Err(Refusal::WrongState))
            }
        }
    }
}

impl<A: Allocator> Slots<A> {
    /// Takes out what holds a slot.
    fn lift(&mut self, place: usize) -> Option<HeldJob<A>>
        requires { place < length self.old.slots }
        ensures held { result ≡ slice_index_or self.old.slots place None }
        ensures free { self.new
            ≡ record { next = self.old.next; slots = slice_set self.old.slots place None } }
    {
        self.slots[place].take()
    }

    /// Puts a job into a slot.
    fn lay(&mut self, place: usize, held: HeldJob<A>)
        requires { place < length self.old.slots }
        ensures { self.new ≡ record
            { next = self.old.next; slots = slice_set self.old.slots place (Some held) } }
    {
        self.slots[place] = Some(held);
    }

    /// Whether the tables of a job, where there is one, are at most 1,024, and their data blocks lie within the first
    /// `sectors` sectors.
    pub fn can_be_read(&self, job: u64, sectors: u32, area: u32) -> bool
        ensures { IsTrue result ↔ JobCanBeRead sectors area job self.now.slots }
    {
        match self.find(job) {
            Ok((_place, held)) => held.can_be_read(sectors, area),
            Err(_) => true,
        }
    }

    /// Reads the next data blocks of a merge, past any cache: of those of its tables that are left eight, or all. They come table
    /// by table, those of the upper tables first, and a run of tables is gathered as one. Returns how many are left then;
    /// with none left the job is frozen. The blocks, eight sectors each, are counted from the sector `area` on.
    ///
    /// Fails with `NoSuchJob` exactly where no slot has the number; with `WrongState` exactly where the job is not being
    /// read; and with `NoMemory`, `Io` or `BadTable` where that is met: `Io` for a read that faulted, its last; `BadTable` where
    /// bytes of a block are no entry, or where an entry doesn't come after the one before it in its run. Then the job is as
    /// it was.
    pub fn read<D: Device>(
        &mut self,
        alloc: &A,
        job: u64,
        area: u32,
        device: &mut D,
    ) -> Result<usize, Refusal>
    where
        A: Clone,
        requires { JobCanBeRead (D.medium device.old).size area job self.old.slots }

        // The next blocks are read, and each run goes on with what their bytes spell.
        ensures reads { IfOk result
            (λ left. JobReadsOn area (D.medium device.old) job left self.old self.new) }

        // Each refusal comes as it says, and leaves all as it was.
        ensures absent { (result ≡ Err NoSuchJob) ↔ (slot_of job self.old.slots ≡ None) }
        ensures wrong { (result ≡ Err WrongState)
            ↔ (is_not_at is_reading (slot_of job self.old.slots) ≡ true) }
        ensures bad { IsTrue (D.medium device.old).lasting.tells → result ≡ Err BadTable
            → (slot : Slot) → slot_of job self.old.slots ≡ Some slot
            → IsBadNext area (D.medium device.old) slot }
        ensures refused { IfErr result
            (λ refusal. (refusal ≡ NoSuchJob)
            ⊎ ((refusal ≡ WrongState)
            ⊎ ((refusal ≡ Io) ⊎ ((refusal ≡ BadTable) ⊎ (refusal ≡ NoMemory))))) }
        ensures same { OnErr result (self.new ≡ self.old) }

        // The device is only read: the blocks that are left, eight at most. Fails with Io only for a read that faulted,
        // its last. Where no block is left the device isn't touched.
        ensures faults { (D.medium device.new).calls.faults
            ≡ faults_after (faultless result) (D.medium device.old).calls.faults }
        ensures stops { IfErr result
            (λ refusal. refusal ≡ Io → IsTrue (D.medium device.new).calls.last_faulted) }
        ensures io { result ≡ Err Io → 0 < to_read (slot_of job self.old.slots) }
        ensures calls { AtMost (8 * min 8 (to_read (slot_of job self.old.slots))) 0 0
            (D.medium device.old).calls (D.medium device.new).calls }
        ensures untouched { to_read (slot_of job self.old.slots) ≡ 0
            → D.medium device.new ≡ D.medium device.old }
        ensures unchanged { IsTrue (D.medium device.old).lasting.tells
            → (D.medium device.new).history ≡ (D.medium device.old).history }
        ensures same_size { (D.medium device.new).size ≡ (D.medium device.old).size }
        ensures same_lasting { (D.medium device.new).lasting ≡ (D.medium device.old).lasting }
    {
        let (place, _held) = self.find(job)?;
        match self.lift(place) {
            Some(held) => {
                let (held, left) = held.read(alloc, area, device);
                self.lay(place, held);
                left
            }
            None => Err(Refusal::NoSuchJob),
        }
    }
}
