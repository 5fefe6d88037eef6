// Batches are appended to an open log.
ghost use Rattle.std.specs.Prelude.{◌≡◌, ◌⊎◌, ◌↔◌, ◌<◌, ◌≤◌, ◌^◌, ◌+◌, ◌-◌, ◌*◌, [], ◌∷◌, ◌++◌, List, ℕ, length, take, drop, true, IsTrue, OnOk, OnErr, IfErr, Err, is_ok};
ghost use Rattle.lsm_codec.specs.BatchText.{IsBatch, sectors_of};
ghost use Rattle.lsm_codec.specs.LogSectors.{log_sector};
ghost use Rattle.lsm_device.specs.Calls.{AtMost, WriteFaultsAmong, after_writes, faults_after};
ghost use Rattle.lsm_device.specs.Disk.{seen};
ghost use Rattle.lsm_device.specs.History.{EachSince};
ghost use Rattle.lsm_device.specs.Medium.{disk};
ghost use Rattle.lsm_device.specs.Outcomes.{Leaves};
ghost use Rattle.lsm_device.specs.Refusals.{faultless};
ghost use Rattle.lsm_device.specs.Runs.{run_at, grown, pieces, HasSomeOf};
ghost use Rattle.lsm_log.specs.Batches.{IsBetween, batch_sectors};
ghost use Rattle.lsm_log.specs.Opened.{IsOpen, IsGrownBy, TakesBatch, batches_in};

use crate::Log;
use lsm_codec::{Batch, LogSector};
use lsm_device::{Device, Fault, Refusal, SECTOR_BYTES};
use std::alloc::Allocator;

/// The bytes of a batch's text that a sector holds.
const PAYLOAD: usize = 480;

/// How many sectors one call of the device writes at most.
const RUN_SECTORS: u16 = 16;

const RUN_BYTES: usize = 8_192;

/// How many sectors a batch takes, at most 128.
fn sectors_of<A: Allocator>(batch: &Batch<A>) -> u32
    ensures value { result ≡ sectors_of batch.now }
    ensures few { result ≤ 128 }
    ensures whole { IsBatch batch.now }
{
    batch.text_len().div_ceil(PAYLOAD) as u32
}

impl Log {
    /// How many sectors are left.
    pub fn room(&self) -> u32
        ensures { result ≡ self.now.sectors - self.now.used }
    {
        self.sectors - self.used
    }

    /// Whether there is room for the batch.
    pub fn fits<A: Allocator>(&self, batch: &Batch<A>) -> bool
        ensures { IsTrue result ↔ (self.now.used + sectors_of batch.now ≤ self.now.sectors) }
    {
        sectors_of(batch) <= self.room()
    }

    /// Appends a batch, and takes no memory. The next sync makes it durable.
    /// The log is full where the batch's sectors don't fit the region. Once a device call has failed, nothing more is
    /// promised of the log than what a crash may leave.
    pub fn append<D: Device, A: Allocator>(
        &mut self,
        device: &mut D,
        batch: &Batch<A>,
    ) -> Result<(), Refusal>
        requires number { self.old.next ≤ 2 ^ 63 }
        requires within { self.old.start + self.old.sectors ≤ (D.medium device.old).size }

        // Where the log is open on this disk, a crash at any moment leaves all durable batches, and of the others and
        // this one a prefix.
        ensures any_moment { let old = disk (D.medium device.old) in IsTrue
            (D.medium device.old).lasting.tells → IsOpen self.old (disk (D.medium device.old))
            → EachSince
            (Leaves (λ image. IsBetween (batches_in self.old old.stands)
            (batches_in self.old (seen old) ++ batch.now ∷ []) (batches_in self.old image)))
            (D.medium device.old).history (D.medium device.new).history }

        // Nothing but sectors of the log's epoch is written, and only within the region.
        ensures written { IsTrue (D.medium device.old).lasting.tells
            → IsOpen self.old (disk (D.medium device.old))
            → EachSince (IsGrownBy self.old (disk (D.medium device.old)))
            (D.medium device.old).history (D.medium device.new).history }

        // Reads return this batch after the others, and the durable batches are the same.
        ensures open { IsTrue (D.medium device.old).lasting.tells
            → IsOpen self.old (disk (D.medium device.old))
            → OnOk result (IsOpen self.new (disk (D.medium device.new))) }
        ensures appended { IsTrue (D.medium device.old).lasting.tells
            → IsOpen self.old (disk (D.medium device.old)) → OnOk result
            (batches_in self.new (seen (disk (D.medium device.new)))
            ≡ batches_in self.old (seen (disk (D.medium device.old))) ++ batch.now ∷ []) }
        ensures stands { IsTrue (D.medium device.old).lasting.tells
            → IsOpen self.old (disk (D.medium device.old)) → OnOk result
            (batches_in self.new (disk (D.medium device.new)).stands
            ≡ batches_in self.old (disk (D.medium device.old)).stands) }
        ensures takes { OnOk result (TakesBatch batch.now self.old self.new) }

        // `LogFull` exactly where its sectors don't fit; else the only error is `Io`, of a device call that failed, its last.
        ensures full { (result ≡ Err Refusal.LogFull)
            ↔ (self.old.sectors < self.old.used + sectors_of batch.now) }
        ensures full_changes_nothing { result ≡ Err Refusal.LogFull → device.new ≡ device.old }
        ensures refused { IfErr result (λ refusal. (refusal ≡ Refusal.LogFull)
            ⊎ ((refusal ≡ Refusal.Io) × ((D.medium device.new).calls.last_faulted ≡ true))) }
        ensures err { OnErr result (self.new ≡ self.old) }
        ensures faults { (D.medium device.new).calls.faults
            ≡ faults_after (faultless result) (D.medium device.old).calls.faults }

        // Its sectors are written, 128 or fewer, and no other device call is made; `Io` comes from one of these writes.
        ensures counted { OnOk result
            ((D.medium device.new).calls
            ≡ after_writes (sectors_of batch.now) (D.medium device.old).calls) }
        ensures faulted { result ≡ Err Refusal.Io
            → WriteFaultsAmong (sectors_of batch.now) (D.medium device.old).calls
            (D.medium device.new).calls }
        ensures calls { AtMost 0 (sectors_of batch.now) 0 (D.medium device.old).calls
            (D.medium device.new).calls }
        ensures few { sectors_of batch.now ≤ 128 }
        ensures same_size { (D.medium device.new).size ≡ (D.medium device.old).size }
        ensures same_lasting { (D.medium device.new).lasting ≡ (D.medium device.old).lasting }
    {
        let parts = sectors_of(batch);
        if self.room() < parts {
            return Err(Refusal::LogFull);
        }
        self.write_parts(device, batch, parts as u16)?;
        self.used += parts;
        self.next += 1;
        Ok(())
    }

    // Writes the sectors of a batch after those that the log has.
    fn write_parts<D: Device, A: Allocator>(
        &self,
        device: &mut D,
        batch: &Batch<A>,
        parts: u16,
    ) -> Result<(), Fault>
        requires count { parts ≡ sectors_of batch.now }
        requires room { self.now.used + parts ≤ self.now.sectors }
        requires within { self.now.start + self.now.sectors ≤ (D.medium device.old).size }
        ensures moments { IsTrue (D.medium device.old).lasting.tells → EachSince
            (HasSomeOf (disk (D.medium device.old))
            (run_at (self.now.start + self.now.used)
            (batch_sectors self.now.epoch self.now.next batch.now)))
            (D.medium device.old).history (D.medium device.new).history }
        ensures whole { IsTrue (D.medium device.old).lasting.tells → OnOk result
            (disk (D.medium device.new)
            ≡ grown (run_at (self.now.start + self.now.used)
            (batch_sectors self.now.epoch self.now.next batch.now))
            (disk (D.medium device.old))) }
        ensures counted { OnOk result
            ((D.medium device.new).calls ≡ after_writes parts (D.medium device.old).calls) }
        ensures faulted { OnErr result
            (WriteFaultsAmong parts (D.medium device.old).calls (D.medium device.new).calls) }
        ensures same_size { (D.medium device.new).size ≡ (D.medium device.old).size }
        ensures same_lasting { (D.medium device.new).lasting ≡ (D.medium device.old).lasting }
    {
        if parts == 1 {
            let sector = self.sector_of_part(batch.text(), 0, 1);
            device.write(self.start + self.used, &sector)?;
            return Ok(());
        }
        self.write_runs(device, batch, parts)?;
        Ok(())
    }

    // Writes the sectors of a batch as runs, each by one call of the device. For a batch of one sector the array isn't needed.
    fn write_runs<D: Device, A: Allocator>(
        &self,
        device: &mut D,
        batch: &Batch<A>,
        parts: u16,
    ) -> Result<(), Fault>
        requires count { parts ≡ sectors_of batch.now }
        requires room { self.now.used + parts ≤ self.now.sectors }
        requires within { self.now.start + self.now.sectors ≤ (D.medium device.old).size }
        ensures moments { IsTrue (D.medium device.old).lasting.tells → EachSince
            (HasSomeOf (disk (D.medium device.old))
            (run_at (self.now.start + self.now.used)
            (batch_sectors self.now.epoch self.now.next batch.now)))
            (D.medium device.old).history (D.medium device.new).history }
        ensures whole { IsTrue (D.medium device.old).lasting.tells → OnOk result
            (disk (D.medium device.new)
            ≡ grown (run_at (self.now.start + self.now.used)
            (batch_sectors self.now.epoch self.now.next batch.now))
            (disk (D.medium device.old))) }
        ensures counted { OnOk result
            ((D.medium device.new).calls ≡ after_writes parts (D.medium device.old).calls) }
        ensures faulted { OnErr result
            (WriteFaultsAmong parts (D.medium device.old).calls (D.medium device.new).calls) }
        ensures same_size { (D.medium device.new).size ≡ (D.medium device.old).size }
        ensures same_lasting { (D.medium device.new).lasting ≡ (D.medium device.old).lasting }
    {
        let mut run = [0; RUN_BYTES];
        for turn in 0..parts.div_ceil(RUN_SECTORS) {
            let from = RUN_SECTORS * turn;
            let count = (parts - from).min(RUN_SECTORS);
            self.lay_parts(batch, from, count, parts, &mut run);
            let at = self.start + self.used + from as u32;
            device.write_run(at, &run[..SECTOR_BYTES * count as usize])?;
        }
        Ok(())
    }

    // Writes the sectors of `count` consecutive parts into `run`.
    fn lay_parts<A: Allocator>(
        &self,
        batch: &Batch<A>,
        from: u16,
        count: u16,
        parts: u16,
        run: &mut [u8; RUN_BYTES],
    )
        requires parts { parts ≡ sectors_of batch.now }
        requires within { from + count ≤ parts }
        requires few { count ≤ 16 }
        ensures { pieces count run.new
            ≡ take count (drop from (batch_sectors self.now.epoch self.now.next batch.now)) }
    {
        let text = batch.text();
        for i in 0..count {
            let sector = self.sector_of_part(text, from + i, parts);
            let at = SECTOR_BYTES * i as usize;
            run[at..at + SECTOR_BYTES].copy_from_slice(&sector);
        }
    }

    // The sector of one part of the next batch.
    fn sector_of_part(&self, text: &[u8], part: u16, parts: u16) -> [u8; 512]
        requires below { part < parts }
        requires few { parts ≤ 128 }
        requires some { 480 * part < length text.now }
        ensures { result ≡ log_sector
            (record {
              epoch = self.now.epoch;
              batch = self.now.next;
              part = part;
              parts = parts;
              payload = take 480 (drop (480 * part) text.now);
            }) }
    {
        let from = PAYLOAD * part as usize;
        let to = text.len().min(from + PAYLOAD);
        let sector = LogSector {
            epoch: self.epoch,
            batch: self.next,
            part,
            parts,
            payload: &text[from..to],
        };
        sector.encode()
    }
}
