// A device over a mapping, for one call.
ghost use Rattle.std.specs.Prelude.{◌≡◌, ◌↔◌, ◌<◌, ◌≤◌, ◌^◌, ◌+◌, ◌*◌, All, IsTrue, IsFalse, is_ok, length, take, drop};
ghost use Rattle.lsm_device.specs.Calls.{after_reads, ReadFaultsAmong};
ghost use Rattle.lsm_mapped.specs.Disks.{IsPast, IsWithin};
ghost use Rattle.lsm_mapped.specs.Journals.{Fills, records_in};

use crate::journal::Journal;
use crate::past::Past;
use lsm_device::{Calls, Device, Fault, SECTOR_BYTES};
use std::mem;

/// The host's mapping of a file, and room for a journal of what a call writes. Contracts see the disks that the file has had, of
/// which the mapping shows the last, and those that it has had once the records of the journal are made on it. Where the mapping ends
/// before the sectors do, it is as if zeros followed.
///
/// A read of sectors that the mapping doesn't have is a fault, and so is a write or a sync for which the journal has no room. A read
/// after a write is a fault too, since the mapping doesn't have that write yet: no call of a store makes one.
#[derive(Drop)]
pub struct MappedDevice<'a> {
    image: &'a [u8],
    // The host's own reference: while it is kept here, whoever lent it knows what it is left with.
    bytes: &'a mut [u8],
    journal: Journal,
    past: Past,
    sectors: u32,
    calls: Calls,
    ghost fits: { sectors < 2 ^ 32 },
    ghost had: { IsPast sectors image.now past.disks },
    ghost fills: { Fills journal bytes.now },
    ghost within: { All (IsWithin sectors) (records_in journal bytes.now) },
}

impl<'a> MappedDevice<'a> {
    ghost use Rattle.std.specs.Prelude.{[], List, false};
    ghost use Rattle.lsm_device.specs.Disk.{Disk};
    ghost use Rattle.lsm_mapped.specs.Devices.{past_on, records_on};
    ghost use Rattle.lsm_mapped.specs.Disks.{IsFilledWith, after_records, lasting_of, mapped};
    ghost use Rattle.lsm_mapped.specs.Records.{syncs_in, writes_in};

    /// The device of `sectors` sectors over a mapping that shows the last of its disks, with an empty journal.
    pub fn new(image: &'a [u8], journal: &'a mut [u8], sectors: u32) -> MappedDevice<'a>
        ghost past: { List Disk }
        requires { IsPast sectors image.now past }
        ensures size { (⟦<MappedDevice<'a> as Device>⟧.medium result).size ≡ sectors }
        ensures medium { ⟦<MappedDevice<'a> as Device>⟧.medium result
            ≡ mapped sectors past journal.entry.ghost_name }
        ensures records { records_on result ≡ [] }
        ensures image { result.image ≡ image.entry }
        ensures unwritten { result.journal.wrote ≡ false }
        ensures bytes { result.bytes.now ≡ journal.old }
    {
        MappedDevice {
            image,
            bytes: journal,
            journal: Journal::EMPTY,
            past: Past::of(),
            sectors,
            calls: Calls::NONE,
        }
    }

    /// How many bytes of the journal are filled: with the text of its records, and nothing else.
    pub fn used(&self) -> usize
        ensures filled { IsFilledWith (⟦<MappedDevice<'a> as Device>⟧.medium self.now).size result
            self.now.bytes.now (records_on self.now) }
        ensures within { result ≤ length self.now.bytes.now }

        // Its history is the disks before, and those that it has had once the records are made: one for each write and each sync.
        ensures lasting { (⟦<MappedDevice<'a> as Device>⟧.medium self.now).lasting
            ≡ lasting_of self.now.bytes.ghost_name (past_on self.now) }
        ensures made { (⟦<MappedDevice<'a> as Device>⟧.medium self.now).history
            ≡ after_records (records_on self.now) (past_on self.now) }
        ensures many { length (⟦<MappedDevice<'a> as Device>⟧.medium self.now).history
            ≡ length (past_on self.now) + writes_in (records_on self.now)
            + syncs_in (records_on self.now) }
    {
        self.journal.used()
    }

    /// Takes the device out, and leaves one that has no sectors and no journal.
    pub fn take(&mut self) -> MappedDevice<'a>
        ensures device { result ≡ self.old }
        ensures left { (⟦<MappedDevice<'a> as Device>⟧.medium self.new).size ≡ 0 }
    {
        mem::replace(self, MappedDevice::new(&[], &mut [], 0))
    }
}

fn answer(ok: bool) -> Result<(), Fault>
    ensures { is_ok result ≡ ok }
{
    if ok { Ok(()) } else { Err(Fault) }
}

// Copies sectors of the mapping that lie side by side, where it has them all.
fn copy_run(image: &[u8], at: u32, out: &mut [u8]) -> bool
    ensures there { IsTrue result ↔ (512 * at + length out.old ≤ length image.now) }
    ensures bytes { IsTrue result → out.new ≡ take (length out.old) (drop (512 * at) image.now) }
{
    let from = SECTOR_BYTES * at as usize;
    if image.len() < from || image.len() - from < out.len() {
        return false;
    }
    out.copy_from_slice(&image[from..from + out.len()]);
    true
}

// Copies a sector of the mapping, where it has it.
fn copy(image: &[u8], at: u32, out: &mut [u8; 512]) -> bool
    ensures there { IsTrue result ↔ (512 * at + 512 ≤ length image.now) }
    ensures bytes { IsTrue result → out.new ≡ take 512 (drop (512 * at) image.now) }
{
    copy_run(image, at, out)
}

impl<'a> Device for MappedDevice<'a> {
    ghost use Rattle.std.specs.Prelude.{◌≡◌, ◌↔◌, ◌<◌, ◌≤◌, ◌⊎◌, ◌+◌, ◌*◌, ◌/◌, ◌%◌, false, true, length, IsTrue, OnOk, OnErr, is_ok, slice_get, Some};
    ghost use Rattle.std.specs.List.{concat};
    ghost use Rattle.lsm_device.specs.Areas.{area};
    ghost use Rattle.lsm_device.specs.Calls.{after_read, after_reads, after_write, after_sync, ReadFaultsAmong};
    ghost use Rattle.lsm_device.specs.Disk.{seen, appended, synced};
    ghost use Rattle.lsm_device.specs.History.{Becomes};
    ghost use Rattle.lsm_device.specs.Medium.{disk};
    ghost use Rattle.lsm_mapped.specs.Devices.{fuses_on_kept, history_on_sound, medium_on, records_on};
    ghost use Rattle.lsm_mapped.specs.Records.{text_of, with_sync, with_write};

    ghost medium = { medium_on };

    ghost sound = { λ d t. history_on_sound d };

    ghost keeps_fuses = { λ d t. fuses_on_kept d };

    ghost small = { λ d. d.fits };

    fn sectors(&self) -> u32 {
        self.sectors
    }

    fn read(&mut self, at: u32, out: &mut [u8; 512]) -> Result<(), Fault>
        requires { at < (medium_on self.old).size }
        ensures bytes { OnOk result
            (slice_get (seen (disk (medium_on self.old))) at ≡ Some out.new) }
        ensures unchanged { (medium_on self.new).history ≡ (medium_on self.old).history }
        ensures counted { (medium_on self.new).calls
            ≡ after_read (is_ok result) (medium_on self.old).calls }
        ensures same_size { (medium_on self.new).size ≡ (medium_on self.old).size }
        ensures same_lasting { (medium_on self.new).lasting ≡ (medium_on self.old).lasting }

        // It answers Ok where no write was tried and the mapping has the sector.
        ensures answers { IsTrue (is_ok result)
            ↔ ((self.old.journal.wrote ≡ false) × (512 * at + 512 ≤ length self.old.image.now)) }
        ensures same_journal { self.new.journal ≡ self.old.journal }
        ensures same_bytes { self.new.bytes ≡ self.old.bytes }
        ensures same_image { self.new.image ≡ self.old.image }
    {
        let ok = !self.journal.has_write() && copy(self.image, at, out);
        self.calls.count_read(ok);
        answer(ok)
    }

    // One copy gives them all.
    fn read_run(&mut self, at: u32, out: &mut [u8]) -> Result<(), Fault>
        requires whole { length out.old % 512 ≡ 0 }
        requires some { 512 ≤ length out.old }
        requires within { at + length out.old / 512 ≤ (medium_on self.old).size }
        ensures bytes { OnOk result
            (out.new ≡ concat (area at (length out.old / 512) (seen (disk (medium_on self.old))))) }
        ensures unchanged { (medium_on self.new).history ≡ (medium_on self.old).history }
        ensures counted { OnOk result
            ((medium_on self.new).calls
            ≡ after_reads (length out.old / 512) (medium_on self.old).calls) }
        ensures faulted { OnErr result
            (ReadFaultsAmong (length out.old / 512) (medium_on self.old).calls
            (medium_on self.new).calls) }
        ensures same_size { (medium_on self.new).size ≡ (medium_on self.old).size }
        ensures same_lasting { (medium_on self.new).lasting ≡ (medium_on self.old).lasting }

        // It answers Ok where no write was tried and the mapping has all of them.
        ensures answers { IsTrue (is_ok result)
            ↔ ((self.old.journal.wrote ≡ false)
            × (512 * at + length out.old ≤ length self.old.image.now)) }
        ensures same_journal { self.new.journal ≡ self.old.journal }
        ensures same_bytes { self.new.bytes ≡ self.old.bytes }
        ensures same_image { self.new.image ≡ self.old.image }
    {
        let count = out.len() / SECTOR_BYTES;
        let ok = !self.journal.has_write() && copy_run(self.image, at, out);
        self.calls.count_read_run(count, ok);
        answer(ok)
    }

    fn write(&mut self, at: u32, bytes: &[u8; 512]) -> Result<(), Fault>
        requires { at < (medium_on self.old).size }
        ensures pends { OnOk result
            (Becomes (appended (record { at = at; bytes = bytes.now }) (disk (medium_on self.old)))
            (medium_on self.old).history (medium_on self.new).history) }
        ensures may_pend { OnErr result
            (((medium_on self.new).history ≡ (medium_on self.old).history)
            ⊎ Becomes (appended (record { at = at; bytes = bytes.now }) (disk (medium_on self.old)))
            (medium_on self.old).history (medium_on self.new).history) }
        ensures counted { (medium_on self.new).calls
            ≡ after_write (is_ok result) (medium_on self.old).calls }
        ensures same_size { (medium_on self.new).size ≡ (medium_on self.old).size }
        ensures same_lasting { (medium_on self.new).lasting ≡ (medium_on self.old).lasting }

        // It answers Ok where the journal has room, and only then it changes the records, and pends.
        ensures answers { IsTrue (is_ok result)
            ↔ (length (text_of (with_write at bytes.now (records_on self.old)))
            ≤ length self.old.bytes.now) }
        ensures written { OnOk result
            (records_on self.new ≡ with_write at bytes.now (records_on self.old)) }
        ensures refused { OnErr result (records_on self.new ≡ records_on self.old) }
        ensures same_room { length self.new.bytes.now ≡ length self.old.bytes.now }
        ensures same_image { self.new.image ≡ self.old.image }

        // That a write was tried is kept, and no read is answered then.
        ensures tried { self.new.journal.wrote ≡ true }
    {
        let ok = self.journal.write(self.bytes, at, bytes);
        self.calls.count_write(ok);
        answer(ok)
    }

    fn sync(&mut self) -> Result<(), Fault>
        ensures stands { OnOk result
            (Becomes (synced (disk (medium_on self.old))) (medium_on self.old).history
            (medium_on self.new).history) }
        ensures unchanged { OnErr result
            ((medium_on self.new).history ≡ (medium_on self.old).history) }
        ensures counted { (medium_on self.new).calls
            ≡ after_sync (is_ok result) (medium_on self.old).calls }
        ensures same_size { (medium_on self.new).size ≡ (medium_on self.old).size }
        ensures same_lasting { (medium_on self.new).lasting ≡ (medium_on self.old).lasting }

        // It answers Ok where the journal has room, and only then it changes the records.
        ensures answers { IsTrue (is_ok result)
            ↔ (length (text_of (with_sync (records_on self.old))) ≤ length self.old.bytes.now) }
        ensures recorded { OnOk result (records_on self.new ≡ with_sync (records_on self.old)) }
        ensures refused { OnErr result (records_on self.new ≡ records_on self.old) }
        ensures same_room { length self.new.bytes.now ≡ length self.old.bytes.now }
        ensures same_image { self.new.image ≡ self.old.image }
        ensures same_wrote { self.new.journal.wrote ≡ self.old.journal.wrote }
    {
        let ok = self.journal.sync(self.bytes);
        self.calls.count_sync(ok);
        answer(ok)
    }
}
