// The batches of the listed regions move into memory.
ghost use Rattle.std.specs.Prelude.{◌≡◌, ◌≢◌, ◌⊎◌, ◌<◌, ◌≤◌, ◌^◌, ◌+◌, ◌*◌, List, [], length, false, IsTrue, IfOk, OnOk, OnErr, IfErr, is_ok};
ghost use Rattle.lsm_codec.specs.Manifests.{IsManifest};
ghost use Rattle.std.specs.List.{AllByRecursion};
ghost use Rattle.lsm_codec.specs.Map.{Operation};
ghost use Rattle.lsm_codec.specs.Versions.{IsEntry};
ghost use Rattle.lsm_device.specs.Calls.{faults_after, AtMost};
ghost use Rattle.lsm_device.specs.Disk.{seen};
ghost use Rattle.lsm_device.specs.Medium.{disk};
ghost use Rattle.lsm_device.specs.Refusals.{faultless};
ghost use Rattle.lsm_mem.specs.EntryOrder.{with_batches};
ghost use Rattle.lsm_mem.specs.Versions.{NumberedBelow};
ghost use Rattle.lsm_root.specs.CrashState.{last_number};
ghost use Rattle.lsm_open.specs.LogRegions.{first_region, batches_at, follow_on};
ghost use Rattle.lsm_open.specs.Reopening.{HasReplayed, GoesOn, HasCome};

use crate::regions::region_start;
use lsm_codec::{Batch, LogRecord, Manifest};
use lsm_device::{Device, Refusal};
use lsm_log::replay;
use lsm_mem::Mem;
use std::alloc::{AllocError, Allocator};

/// What the regions replayed so far gave: the log records of those that hold batches, the versions, and the number of the
/// last batch.
#[derive(Drop)]
pub struct Replayed<A: Allocator> {
    pub closed: Vec<LogRecord, A>,
    pub mem: Mem<A>,
    pub count: u64,
}

// Adds batches, numbered from `count` + 1 on.
fn insert_all<A: Allocator + Clone>(
    mem: &mut Mem<A>,
    count: u64,
    batches: Vec<Batch<A>, A>,
) -> Result<(), AllocError>
    requires numbered { NumberedBelow (count + 1) mem.old }
    requires room { count + length batches.items ≤ 2 ^ 63 }
    ensures inserted { OnOk result (mem.new ≡ with_batches count batches.items mem.old) }
    ensures numbered { OnOk result (NumberedBelow (count + length batches.items + 1) mem.new) }
    ensures entries { OnOk result
        (AllByRecursion IsEntry mem.old → AllByRecursion IsEntry mem.new) }
{
    let mut number = count;
    for batch in batches {
        number += 1;
        mem.insert(&batch, number)?;
    }
    Ok(())
}

impl<A: Allocator + Clone> Replayed<A> {
    // No region is replayed yet, and these batches came before.
    fn new(alloc: &A, count: u64) -> Result<Replayed<A>, AllocError>
        ensures count { IfOk result (λ r. r.count ≡ count) }
        ensures closed { IfOk result (λ r. r.closed.items ≡ []) }
        ensures mem { IfOk result (λ r. r.mem ≡ []) }
    {
        Ok(Replayed {
            closed: Vec::new(alloc.clone()?),
            mem: Mem::new(alloc.clone()?)?,
            count,
        })
    }

    // Takes in the batches of the region of a log record, which come next.
    fn take_in(&mut self, listed: &LogRecord, batches: Vec<Batch<A>, A>) -> Result<(), AllocError>
        requires first { listed.now.first_batch ≡ self.old.count + 1 }
        requires numbered { NumberedBelow (self.old.count + 1) self.old.mem }
        requires room { self.old.count + length batches.items ≤ 2 ^ 63 }
        ensures { OnOk result (HasReplayed listed.now batches.items self.old self.new) }
    {
        if batches.is_empty() {
            return Ok(());
        }
        let count = batches.len() as u64;
        insert_all(&mut self.mem, self.count, batches)?;
        self.count += count;
        self.closed.push(*listed)?;
        Ok(())
    }

    // Replays the region of a log record, whose first batch must come next.
    fn add_region<D: Device>(
        &mut self,
        alloc: &A,
        device: &mut D,
        log_sectors: u16,
        listed: &LogRecord,
    ) -> Result<(), Refusal>
        requires log_high { log_sectors ≤ 2048 }
        requires region { listed.now.region ≤ 2 }
        requires inside { first_region + 3 * log_sectors ≤ (D.medium device.old).size }
        requires numbered { NumberedBelow (self.old.count + 1) self.old.mem }
        requires count_high { self.old.count ≤ 2 ^ 63 }
        ensures replayed { IfOk result
            (λ _. (batches : List (List Operation))
            × HasReplayed listed.now batches self.old self.new
            × (IsTrue (D.medium device.old).lasting.tells
            → batches ≡ batches_at log_sectors (seen (disk (D.medium device.old)))
            listed.now)) }
        ensures refused { IfErr result
            (λ refusal. ((refusal ≡ Refusal.BadManifest)
            × (listed.now.first_batch ≢ self.old.count + 1))
            ⊎ ((refusal ≡ Refusal.NoMemory) ⊎ (refusal ≡ Refusal.Io))) }
        ensures unchanged { IsTrue (D.medium device.old).lasting.tells
            → (D.medium device.new).history ≡ (D.medium device.old).history }
        ensures calls { AtMost log_sectors 0 0 (D.medium device.old).calls
            (D.medium device.new).calls }
        ensures faults { (D.medium device.new).calls.faults
            ≡ faults_after (faultless result) (D.medium device.old).calls.faults }
        ensures stops { IfErr result
            (λ refusal. refusal ≡ Refusal.Io → IsTrue (D.medium device.new).calls.last_faulted) }
        ensures same_size { (D.medium device.new).size ≡ (D.medium device.old).size }
        ensures same_lasting { (D.medium device.new).lasting ≡ (D.medium device.old).lasting }
    {
        if listed.first_batch != self.count + 1 {
            return Err(Refusal::BadManifest);
        }
        let batches = replay_region(alloc, device, log_sectors, listed)?;
        self.take_in(listed, batches)?;
        Ok(())
    }

    // Replays the regions of a manifest in order, where none is replayed yet.
    fn add_regions<D: Device>(
        &mut self,
        alloc: &A,
        device: &mut D,
        log_sectors: u16,
        manifest: &Manifest<A>,
    ) -> Result<(), Refusal>
        requires log_high { log_sectors ≤ 2048 }
        requires fits { IsManifest manifest.now }
        requires inside { first_region + 3 * log_sectors ≤ (D.medium device.old).size }
        requires count { self.old.count ≡ manifest.now.base }
        requires closed { self.old.closed.items ≡ [] }
        requires mem { self.old.mem ≡ [] }
        ensures come { OnOk result (HasCome manifest.now self.new.count self.new.closed.items []) }
        ensures numbered { OnOk result (NumberedBelow (self.new.count + 1) self.new.mem) }
        ensures entries { OnOk result (AllByRecursion IsEntry self.new.mem) }
        ensures replayed { IsTrue (D.medium device.old).lasting.tells → OnOk result
            (GoesOn log_sectors (seen (disk (D.medium device.old))) manifest.now self.new []) }
        ensures refused { IfErr result (λ refusal. ((refusal ≡ Refusal.BadManifest)
            × (IsTrue (D.medium device.old).lasting.tells
            → follow_on log_sectors (seen (disk (D.medium device.old)))
            (manifest.now.base + 1) manifest.now.logs ≡ false))
            ⊎ ((refusal ≡ Refusal.NoMemory) ⊎ (refusal ≡ Refusal.Io))) }
        ensures unchanged { IsTrue (D.medium device.old).lasting.tells
            → (D.medium device.new).history ≡ (D.medium device.old).history }
        ensures calls { AtMost (3 * log_sectors) 0 0 (D.medium device.old).calls
            (D.medium device.new).calls }
        ensures faults { (D.medium device.new).calls.faults
            ≡ faults_after (faultless result) (D.medium device.old).calls.faults }
        ensures stops { IfErr result
            (λ refusal. refusal ≡ Refusal.Io → IsTrue (D.medium device.new).calls.last_faulted) }
        ensures same_size { (D.medium device.new).size ≡ (D.medium device.old).size }
        ensures same_lasting { (D.medium device.new).lasting ≡ (D.medium device.old).lasting }
    {
        let logs = manifest.logs();
        for listed in logs {
            self.add_region(alloc, device, log_sectors, listed)?;
        }
        Ok(())
    }
}

// The batches of the region of a log record.
fn replay_region<A: Allocator + Clone, D: Device>(
    alloc: &A,
    device: &mut D,
    log_sectors: u16,
    listed: &LogRecord,
) -> Result<Vec<Batch<A>, A>, Refusal>
    requires log_high { log_sectors ≤ 2048 }
    requires region { listed.now.region ≤ 2 }
    requires inside { first_region + 3 * log_sectors ≤ (D.medium device.old).size }
    ensures replayed { IsTrue (D.medium device.old).lasting.tells → IfOk result (λ batches.
        batches.items ≡ batches_at log_sectors (seen (disk (D.medium device.old))) listed.now) }
    ensures numbers { IfOk result
        (λ batches. 1 ≤ length batches.items
        → listed.now.first_batch + length batches.items ≤ 2 ^ 63 + 1) }
    ensures refused { IfErr result
        (λ refusal. (refusal ≡ Refusal.NoMemory) ⊎ (refusal ≡ Refusal.Io)) }
    ensures unchanged { IsTrue (D.medium device.old).lasting.tells
        → (D.medium device.new).history ≡ (D.medium device.old).history }
    ensures calls { AtMost log_sectors 0 0 (D.medium device.old).calls (D.medium device.new).calls }
    ensures faults { (D.medium device.new).calls.faults
        ≡ faults_after (faultless result) (D.medium device.old).calls.faults }
    ensures stops { IfErr result
        (λ refusal. refusal ≡ Refusal.Io → IsTrue (D.medium device.new).calls.last_faulted) }
    ensures same_size { (D.medium device.new).size ≡ (D.medium device.old).size }
    ensures same_lasting { (D.medium device.new).lasting ≡ (D.medium device.old).lasting }
{
    let start = region_start(log_sectors, listed.region);
    let sectors = log_sectors as u32;
    Ok(replay(
        alloc.clone()?,
        device,
        start,
        sectors,
        listed.epoch,
        listed.first_batch,
    )?)
}

/// Replays the regions of a manifest in order, on a device of which the manifest's regions are a part.
///
/// Fails with `BadManifest` where a region's first batch is not the next one; with `NoMemory`; and with `Io` where a
/// read failed, which was its last. It writes nothing, and reads each sector of the regions once at most.
pub fn replay_regions<A: Allocator + Clone, D: Device>(
    alloc: &A,
    device: &mut D,
    log_sectors: u16,
    manifest: &Manifest<A>,
) -> Result<Replayed<A>, Refusal>
    requires log_high { log_sectors ≤ 2048 }
    requires fits { IsManifest manifest.now }
    requires inside { first_region + 3 * log_sectors ≤ (D.medium device.old).size }
    ensures come { IfOk result (λ r. HasCome manifest.now r.count r.closed.items []) }
    ensures numbered { IfOk result (λ r. NumberedBelow (r.count + 1) r.mem) }
    ensures entries { IfOk result (λ r. AllByRecursion IsEntry r.mem) }
    ensures replayed { IsTrue (D.medium device.old).lasting.tells → IfOk result (λ r.
        GoesOn log_sectors (seen (disk (D.medium device.old))) manifest.now r []) }
    ensures refused { IfErr result (λ refusal. ((refusal ≡ Refusal.BadManifest)
        × (IsTrue (D.medium device.old).lasting.tells
        → follow_on log_sectors (seen (disk (D.medium device.old)))
        (manifest.now.base + 1) manifest.now.logs ≡ false))
        ⊎ ((refusal ≡ Refusal.NoMemory) ⊎ (refusal ≡ Refusal.Io))) }
    ensures unchanged { IsTrue (D.medium device.old).lasting.tells
        → (D.medium device.new).history ≡ (D.medium device.old).history }
    ensures calls { AtMost (3 * log_sectors) 0 0 (D.medium device.old).calls
        (D.medium device.new).calls }
    ensures faults { (D.medium device.new).calls.faults
        ≡ faults_after (faultless result) (D.medium device.old).calls.faults }
    ensures stops { IfErr result
        (λ refusal. refusal ≡ Refusal.Io → IsTrue (D.medium device.new).calls.last_faulted) }
    ensures same_size { (D.medium device.new).size ≡ (D.medium device.old).size }
    ensures same_lasting { (D.medium device.new).lasting ≡ (D.medium device.old).lasting }
{
    let mut replayed = Replayed::new(alloc, manifest.base())?;
    replayed.add_regions(alloc, device, log_sectors, manifest)?;
    Ok(replayed)
}
