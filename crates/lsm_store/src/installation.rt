// An install: a job's outputs come into the levels, in the place of what it took in, and the next manifest names them.
ghost use Rattle.std.specs.Prelude.{◌≡◌, ◌⊎◌, ◌<◌, ◌≤◌, length, ◌-◌, ◌^◌, Some, None, option_map, if◌then◌else◌, IfOk, IfErr, OnOk};
ghost use Rattle.std.specs.Arc.{arc_value};
ghost use Rattle.lsm_cache.specs.Recency.{Cached};
ghost use Rattle.lsm_jobs.specs.Refusing.{IsAtStage};
ghost use Rattle.lsm_jobs.specs.Slots.{Slot, slot_of, is_written};
ghost use Rattle.lsm_open.specs.Layout.{layout_of};
ghost use Rattle.lsm_open.specs.Placements.{contents_for};
ghost use Rattle.lsm_open.specs.Recovering.{placed_in};
ghost use Rattle.lsm_open.specs.ToldTables.{records_of};
ghost use Rattle.lsm_machine.specs.Calls.{Done, reply_of};
ghost use Rattle.lsm_store.specs.InstalledJobs.{first_open};
ghost use Rattle.lsm_store.specs.InstalledMemory.{settled_layout, next_layout, IsNext, IsInstalledTo, after_install_fault};
ghost use Rattle.lsm_store.specs.Memory.{AreConsistent, IsInside, LieWithin, view_of};
ghost use Rattle.lsm_machine.specs.Work.{Install};
ghost use Rattle.lsm_machine.specs.WorkReplies.{IsUnfit};
ghost use Rattle.lsm_store.specs.Working.{Works};

use crate::fitting::fit;
use crate::install_checks::is_flush;
use crate::memory::{Memory, Status};
use crate::next_levels::next_levels;
use lsm_codec::Manifest;
use lsm_device::{Device, Refusal};
use lsm_levels::Levels;
use lsm_open::table_records;
use lsm_root::NextRoot;
use std::alloc::{AllocError, Allocator};

// What an install leaves of the levels, and whether it is a flush's.
#[derive(Drop)]
struct Installed<A: Allocator> {
    flush: bool,
    levels: Levels<A>,
}

impl<A: Allocator> Memory<A> {
    // The last batch that is in tables, once those in the closed regions are.
    fn settled_base(&self) -> u64
        ensures { result ≡ first_open self.now.count self.now.regions.open_region - 1 }
    {
        match &self.regions.open_region {
            Some(open) => open.log.first().saturating_sub(1),
            None => self.count,
        }
    }

    // The last batch that is in tables after an install.
    fn next_base(&self, flush: bool) -> u64
        ensures { result ≡ (next_layout flush self.now).base }
    {
        if flush {
            return self.settled_base();
        }
        self.regions.base
    }

    // The batches in the closed regions are in tables, where a flush was installed.
    fn settle(&mut self, flush: bool)
        ensures layout { layout_of self.new.regions
            ≡ settled_layout flush self.old.count (layout_of self.old.regions) }
        ensures waits { option_map arc_value self.new.sealed
            ≡ (if flush then None else option_map arc_value self.old.sealed) }
        ensures same { self.new
            ≡ record self.old { regions = self.new.regions; sealed = self.new.sealed } }
    {
        if !flush {
            return;
        }
        self.regions.base = self.settled_base();
        self.regions.closed.clear();
        self.sealed = None;
    }

    // A job was installed. All batches are known to be synced.
    fn install_to(&mut self, job: u64, next: Installed<A>)
        requires kept { AreConsistent self.old }
        requires next { IsNext self.old job next.flush next.levels }
        requires generation_high { self.old.regions.generation < 2 ^ 63 }
        ensures { (slot : Slot) → slot_of job self.old.jobs.slots ≡ Some slot
            → IsInstalledTo self.old job slot next.levels self.new }
    {
        self.extents.partition();
        let _runs = self.levels.runs();
        let _ended = self.jobs.finish(job, &mut self.extents);
        self.settle(next.flush);
        self.regions.generation += 1;
        self.regions.next_table = self.next_table;
        self.levels = next.levels;
        self.synced = self.count;
        self.told = self.told.then_by_flag(next.flush);
    }

    // A fault stopped the store inside the install of a flush, or of a merge.
    fn stop_in_install(&mut self, flush: bool)
        ensures { self.new ≡ after_install_fault flush self.old }
    {
        self.status = Status::Stopped;
        self.told = self.told.then_by_flag(flush);
    }
}

impl<A: Allocator + Clone> Memory<A> {
    // The levels after an install. Fails with `BadTable` where the outputs may not be put in, as those of a device
    // that told other entries than it was given may not.
    fn installed(&self, job: u64) -> Result<Installed<A>, Refusal>
        requires kept { AreConsistent self.now }
        requires written { IsAtStage is_written (slot_of job self.now.jobs.slots) }
        ensures next { IfOk result (λ next. IsNext self.now job next.flush next.levels) }
        ensures refused { IfErr result
            (λ e. (e ≡ Refusal.NoMemory)
            ⊎ ((e ≡ Refusal.BadTable) × IsUnfit (slot_of job self.now.jobs.slots))) }
    {
        let written = self.jobs.written(job)?;
        if !fit(&written) {
            return Err(Refusal::BadTable);
        }
        let flush = is_flush(&written);
        let levels = next_levels(self.allocator(), &self.levels, &written)?;
        Ok(Installed { flush, levels })
    }

    // The manifest that names the tables of the levels after an install.
    fn installed_manifest(&self, next: &Installed<A>) -> Result<Manifest<A>, AllocError>
        requires few { length next.now.levels.runs ≤ 12 }
        requires generation_high { self.now.regions.generation < 2 ^ 63 }
        ensures { IfOk result (λ manifest. manifest
            ≡ contents_for (placed_in (next_layout next.now.flush self.now) next.now.levels
            (records_of next.now.levels))) }
    {
        let alloc = self.allocator();
        let records = table_records(alloc.clone()?, &next.levels)?;
        let logs = self.regions.log_records(alloc.clone()?, next.flush)?;
        Ok(Manifest::new(
            self.regions.generation + 1,
            self.next_base(next.flush),
            self.next_table,
            next.levels.runs().len() as u8,
            logs,
            records,
        ))
    }

    // The root of the next generation, with that manifest. It takes all memory that its installation needs.
    fn installed_root(&self, next: &Installed<A>, sectors: u32) -> Result<NextRoot<A>, Refusal>
        requires within { LieWithin sectors (next_layout next.now.flush self.now) next.now.levels }
        requires generation_high { self.now.regions.generation < 2 ^ 63 }
        ensures root { IfOk result (λ root. root ≡ record {
          size = sectors;
          log = self.now.regions.log_sectors;
          manifest = contents_for
              (placed_in (next_layout next.now.flush self.now) next.now.levels
              (records_of next.now.levels));
        }) }
        ensures refused { IfErr result (λ e. e ≡ Refusal.NoMemory) }
    {
        let manifest = self.installed_manifest(next)?;
        NextRoot::prepare(
            self.allocator().clone()?,
            sectors,
            self.regions.log_sectors,
            &manifest,
        )
    }
}

/// Puts a job's outputs in the place of what it took in. All batches are synced.
pub(crate) fn install<D: Device, A: Allocator + Clone>(
    device: &mut D,
    memory: &mut Memory<A>,
    job: u64,
) -> Result<(), Refusal>
    requires kept { AreConsistent memory.old }
    requires inside { IsInside (D.medium device.old).size memory.old }
    ensures works { (cache : Cached)
        → Works (view_of (D.medium device.old) memory.old cache) (Install job)
        (reply_of (λ _. Done) result) (view_of (D.medium device.new) memory.new cache) }
    ensures numbered { OnOk result (memory.new.regions.next_table ≡ memory.old.next_table) }
    ensures kept { AreConsistent memory.new }
    ensures inside { IsInside (D.medium device.new).size memory.new }
{
    memory.check_install(job)?;
    memory.extents.partition();
    let _runs = memory.levels.runs();
    let next = memory.installed(job)?;
    let flush = next.flush;
    let root = memory.installed_root(&next, device.sectors())?;
    match root.install(device) {
        Ok(()) => {
            memory.install_to(job, next);
            Ok(())
        }
        Err(_) => {
            memory.stop_in_install(flush);
            Err(Refusal::Io)
        }
    }
}
