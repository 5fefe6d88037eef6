// The batches of a region are read back.
ghost use Rattle.std.specs.Prelude.{◌≡◌, ◌⊎◌, ◌<◌, ◌≤◌, ◌^◌, ◌+◌, ◌/◌, List, ℕ, length, true, IsTrue, IfOk, OnOk, IfErr, option_map};
ghost use Rattle.lsm_codec.specs.LogSectors.{lent_part};
ghost use Rattle.lsm_device.specs.Areas.{area};
ghost use Rattle.lsm_device.specs.Calls.{AtMost, faults_after};
ghost use Rattle.lsm_device.specs.Disk.{seen};
ghost use Rattle.lsm_device.specs.Medium.{disk};
ghost use Rattle.lsm_device.specs.Refusals.{faultless};
ghost use Rattle.lsm_device.specs.Runs.{pieces};
ghost use Rattle.lsm_log.specs.ReadSoFar.{batches_with, awaited_in, HasEnded, HasTaken, HaveTaken};
ghost use Rattle.lsm_log.specs.Longest.{IsLongest};
ghost use Rattle.lsm_log.specs.Opened.{AreNumbers};
ghost use Rattle.lsm_log.specs.Replay.{is_awaited as is_awaited_part, awaited, replay as replay_of};

use crate::read_batches::ReadBatches;
use lsm_codec::{Batch, LogSector};
use lsm_device::{Device, Refusal, SECTOR_BYTES, piece};
use std::alloc::{AllocError, Allocator};

/// How many sectors one call of the device reads at most.
const RUN_SECTORS: u32 = 16;

const RUN_BYTES: usize = 8_192;

impl<A: Allocator + Clone> ReadBatches<A> {
    fn is_awaited(&self, sector: &LogSector) -> bool
        ensures { result ≡ is_awaited_part self.now.epoch self.now.number self.now.part
            self.now.parts (lent_part sector.now) }
    {
        sector.epoch == self.epoch
            && (sector.batch == self.number
                && (sector.part == self.part && (self.part == 0 || sector.parts == self.parts)))
    }

    // No batch is read yet, and the first part of the first batch is awaited.
    fn new(alloc: &A, epoch: u64, first: u64) -> Result<ReadBatches<A>, AllocError>
        ensures begins { IfOk result
            (λ g. (sectors : List (List ℕ))
            → (batches_with g sectors ≡ replay_of epoch first sectors)
            × (awaited_in g sectors ≡ awaited epoch first sectors)) }
        ensures first { IfOk result (λ g. g.first ≡ first) }
    {
        Ok(ReadBatches {
            epoch,
            first,
            batches: Vec::new(alloc.clone()?),
            number: first,
            part: 0,
            parts: 0,
            text: Vec::new(alloc.clone()?),
        })
    }

    // All parts of a batch are read: it is added to the others, unless their text is invalid.
    fn end_batch(&mut self, alloc: &A) -> Result<bool, Refusal>
        requires { self.old.number ≤ 2 ^ 63 }
        ensures ended { IfOk result (λ ended. HasEnded ended self.old self.new) }
        ensures same_first { self.new.first ≡ self.old.first }
        ensures refused { IfErr result (λ refusal. refusal ≡ Refusal.NoMemory) }
    {
        let Some(batch) = Batch::decode(alloc.clone()?, &self.text)? else {
            return Ok(false); // It is damaged.
        };
        self.batches.push(batch)?;
        self.number += 1;
        self.part = 0;
        self.parts = 0;
        self.text.clear();
        Ok(true)
    }

    // Takes the sector if it is the awaited one.
    fn take(&mut self, alloc: &A, bytes: &[u8; 512]) -> Result<bool, Refusal>
        ensures taken { IfOk result (λ taken. HasTaken taken bytes.now self.old self.new) }
        ensures same_first { self.new.first ≡ self.old.first }
        ensures refused { IfErr result (λ refusal. refusal ≡ Refusal.NoMemory) }
    {
        let Some(sector) = LogSector::decode(bytes) else {
            return Ok(false);
        };
        if !self.is_awaited(&sector) {
            return Ok(false);
        }
        self.text.extend_from_slice(sector.payload)?;
        if sector.part + 1 == sector.parts {
            return Ok(self.end_batch(alloc)?);
        }
        self.part = sector.part + 1;
        self.parts = sector.parts;
        Ok(true)
    }

    // Takes sectors one after the other, up to the first that is not the awaited one.
    fn take_run(&mut self, alloc: &A, bytes: &[u8]) -> Result<bool, Refusal>
        ensures taken { IfOk result
            (λ taken. HaveTaken taken (pieces (length bytes.now / 512) bytes.now) self.old
            self.new) }
        ensures same_first { self.new.first ≡ self.old.first }
        ensures refused { IfErr result (λ refusal. refusal ≡ Refusal.NoMemory) }
    {
        for i in 0..bytes.len() / SECTOR_BYTES {
            if !self.take(alloc, &piece(bytes, i))? {
                return Ok(false);
            }
        }
        Ok(true)
    }

    // Reads sectors from the first on, as many by a call as the device gives, sixteen at most, up to those with the first that
    // is not the awaited one.
    fn read_region<D: Device>(
        &mut self,
        alloc: &A,
        device: &mut D,
        start: u32,
        sectors: u32,
    ) -> Result<(), Refusal>
        requires { start + sectors ≤ (D.medium device.old).size }
        ensures read { IsTrue (D.medium device.old).lasting.tells → OnOk result
            (self.new.batches.items
            ≡ batches_with self.old (area start sectors (seen (disk (D.medium device.old))))) }
        ensures same_first { self.new.first ≡ self.old.first }
        ensures refused { IfErr result (λ refusal. (refusal ≡ Refusal.NoMemory)
            ⊎ ((refusal ≡ Refusal.Io) × ((D.medium device.new).calls.last_faulted ≡ true))) }
        ensures faults { (D.medium device.new).calls.faults
            ≡ faults_after (faultless result) (D.medium device.old).calls.faults }
        ensures calls { AtMost sectors 0 0 (D.medium device.old).calls (D.medium device.new).calls }
        ensures reads { IsTrue (D.medium device.old).lasting.tells
            → AtMost (awaited_in self.old (area start sectors (seen (disk (D.medium device.old))))
            + 1) 0 0
            (D.medium device.old).calls (D.medium device.new).calls }
        ensures unchanged { IsTrue (D.medium device.old).lasting.tells
            → (D.medium device.new).history ≡ (D.medium device.old).history }
        ensures same_size { (D.medium device.new).size ≡ (D.medium device.old).size }
        ensures same_lasting { (D.medium device.new).lasting ≡ (D.medium device.old).lasting }
    {
        let mut run = [0; RUN_BYTES];
        let mut done = 0;
        while done < sectors {
            let size = SECTOR_BYTES * (sectors - done).min(RUN_SECTORS) as usize;
            let read = device.read_some(start + done, &mut run[..size])?;
            if !self.take_run(alloc, &run[..SECTOR_BYTES * read as usize])? {
                return Ok(());
            }
            done += read;
        }
        Ok(())
    }
}

/// The batches of an epoch in a region: `first`, `first + 1` .., each with all its parts in consecutive sectors, from the
/// region's first sector on. The first sector that is not the awaited one ends it, and so does a text that spells no batch.
pub fn replay<D: Device, A: Allocator + Clone>(
    alloc: A,
    device: &mut D,
    start: u32,
    sectors: u32,
    epoch: u64,
    first: u64,
) -> Result<Vec<Batch<A>, A>, Refusal>
    requires { start + sectors ≤ (D.medium device.old).size }
    ensures replayed { IsTrue (D.medium device.old).lasting.tells → IfOk result (λ batches.
        batches.items ≡ replay_of epoch first
        (area start sectors (seen (disk (D.medium device.old))))) }

    // The last batch has a number that a batch may have.
    ensures numbers { IfOk result
        (λ batches. 1 ≤ length batches.items → first + length batches.items ≤ 2 ^ 63 + 1) }

    // It fails only for want of memory, and for a read that failed, its last call.
    ensures refused { IfErr result (λ refusal. (refusal ≡ Refusal.NoMemory)
        ⊎ ((refusal ≡ Refusal.Io) × ((D.medium device.new).calls.last_faulted ≡ true))) }
    ensures faults { (D.medium device.new).calls.faults
        ≡ faults_after (faultless result) (D.medium device.old).calls.faults }

    // It reads the awaited sectors and at most one more, and nothing else is done to the device.
    ensures calls { AtMost sectors 0 0 (D.medium device.old).calls (D.medium device.new).calls }
    ensures reads { IsTrue (D.medium device.old).lasting.tells
        → AtMost (awaited epoch first (area start sectors (seen (disk (D.medium device.old)))) + 1)
        0 0
        (D.medium device.old).calls (D.medium device.new).calls }
    ensures unchanged { IsTrue (D.medium device.old).lasting.tells
        → (D.medium device.new).history ≡ (D.medium device.old).history }
    ensures same_size { (D.medium device.new).size ≡ (D.medium device.old).size }
    ensures same_lasting { (D.medium device.new).lasting ≡ (D.medium device.old).lasting }
{
    let mut gathered = ReadBatches::new(&alloc, epoch, first)?;
    gathered.read_region(&alloc, device, start, sectors)?;
    Ok(gathered.batches)
}

/// A replay gives the longest run of batches that the sectors begin with: none of them lacks a part, and after them
/// there are not all sectors of another one.
pub fn replay_is_longest()
    ensures { (epoch first : ℕ) (sectors : List (List ℕ)) → AreNumbers epoch first 0
        → IsLongest epoch first sectors (replay_of epoch first sectors) }
{}
