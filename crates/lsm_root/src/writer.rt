// The next root is written.
ghost use Rattle.std.specs.Prelude.{◌≡◌, ◌≤◌, ◌+◌, ◌*◌, ◌%◌, length, IsTrue, OnOk, OnErr, is_ok};
ghost use Rattle.lsm_device.specs.Calls.{faults_after, AtMost};
ghost use Rattle.lsm_device.specs.Disk.{appended, synced};
ghost use Rattle.lsm_device.specs.History.{EachSince};
ghost use Rattle.lsm_device.specs.Medium.{disk};
ghost use Rattle.lsm_device.specs.Runs.{run_at, grown, pieces, HasSomeOf};
ghost use Rattle.lsm_root.specs.Counted.{CallsMade};
ghost use Rattle.lsm_root.specs.Installed.{IsStage};
ghost use Rattle.lsm_root.specs.Layout.{place};

use lsm_device::{Device, Fault, SECTOR_BYTES};

pub(crate) const SUPERBLOCKS: u32 = 2;

pub(crate) const AREA_SECTORS: u32 = 64;

// Writes the text, a sector for each 512 bytes, by one call of the device.
fn write_text<D: Device>(device: &mut D, at: u32, text: &[u8], parts: u16) -> Result<(), Fault>
    requires size { length text.now ≡ 512 * parts }
    requires some { 1 ≤ parts }
    requires within { at + parts ≤ (D.medium device.old).size }
    ensures moments { IsTrue (D.medium device.old).lasting.tells → EachSince
        (HasSomeOf (disk (D.medium device.old)) (run_at at (pieces parts text.now)))
        (D.medium device.old).history (D.medium device.new).history }
    ensures all { IsTrue (D.medium device.old).lasting.tells → OnOk result
        (disk (D.medium device.new)
        ≡ grown (run_at at (pieces parts text.now)) (disk (D.medium device.old))) }
    ensures counts { AtMost 0 parts 0 (D.medium device.old).calls (D.medium device.new).calls }
    ensures made { OnOk result
        (CallsMade parts 0 (D.medium device.old).calls (D.medium device.new).calls) }
    ensures faults { (D.medium device.new).calls.faults
        ≡ faults_after (is_ok result) (D.medium device.old).calls.faults }
    ensures stops { OnErr result (IsTrue (D.medium device.new).calls.last_faulted) }
    ensures same_size { (D.medium device.new).size ≡ (D.medium device.old).size }
    ensures same_lasting { (D.medium device.new).lasting ≡ (D.medium device.old).lasting }
{
    prove!(text.len() == SECTOR_BYTES * parts as usize);
    device.write_run(at, text)?;
    Ok(())
}

// Writes and syncs the manifest's text, and then the superblock.
pub(crate) fn switch<D: Device>(
    device: &mut D,
    generation: u64,
    text: &[u8],
    parts: u16,
    superblock: &[u8; 512],
) -> Result<(), Fault>
    requires size { length text.now ≡ 512 * parts }
    requires some { 1 ≤ parts }
    requires few { parts ≤ 41 }
    requires large { 130 ≤ (D.medium device.old).size }
    ensures moments { IsTrue (D.medium device.old).lasting.tells → EachSince
        (IsStage (disk (D.medium device.old)) (run_at (place generation) (pieces parts text.now))
        (record { at = generation % 2; bytes = superblock.now }))
        (D.medium device.old).history (D.medium device.new).history }
    ensures all { IsTrue (D.medium device.old).lasting.tells → OnOk result
        (disk (D.medium device.new)
        ≡ synced (appended (record { at = generation % 2; bytes = superblock.now })
        (synced (grown (run_at (place generation) (pieces parts text.now))
        (disk (D.medium device.old)))))) }
    ensures counts { AtMost 0 42 2 (D.medium device.old).calls (D.medium device.new).calls }
    ensures made { OnOk result
        (CallsMade (parts + 1) 2 (D.medium device.old).calls (D.medium device.new).calls) }
    ensures faults { (D.medium device.new).calls.faults
        ≡ faults_after (is_ok result) (D.medium device.old).calls.faults }
    ensures stops { OnErr result (IsTrue (D.medium device.new).calls.last_faulted) }
    ensures same_size { (D.medium device.new).size ≡ (D.medium device.old).size }
    ensures same_lasting { (D.medium device.new).lasting ≡ (D.medium device.old).lasting }
{
    let slot = (generation % 2) as u32;
    write_text(device, SUPERBLOCKS + AREA_SECTORS * slot, text, parts)?;
    device.sync()?; // The manifest is durable.
    device.write(slot, superblock)?;
    device.sync()?; // So is the superblock.
    Ok(())
}
