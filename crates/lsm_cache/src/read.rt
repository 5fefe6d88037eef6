//! A block is read from a device.

ghost use Rattle.std.specs.Prelude.{◌≡◌, ◌+◌, ◌≤◌, IsTrue, OnOk, OnErr};
ghost use Rattle.lsm_device.specs.Disk.{seen};
ghost use Rattle.lsm_device.specs.Medium.{disk};
ghost use Rattle.lsm_cache.specs.Reads.{block_at, after_reads, FaultsAmong};

use lsm_device::{Device, Fault};

/// Reads the block in the eight sectors from `sector` on, past any cache, by one call of the device. After a fault
/// `out` may have changed.
pub fn read_block<D: Device>(
    device: &mut D,
    sector: u32,
    out: &mut [u8; 4_096],
) -> Result<(), Fault>
    requires { sector + 8 ≤ (D.medium device.old).size }
    ensures given { IsTrue (D.medium device.old).lasting.tells
        → OnOk result (out.new ≡ block_at (seen (disk (D.medium device.old))) sector) }
    ensures counted { OnOk result
        ((D.medium device.new).calls ≡ after_reads 8 (D.medium device.old).calls) }
    ensures faulted { OnErr result
        (FaultsAmong 8 (D.medium device.old).calls (D.medium device.new).calls) }
    ensures unchanged { IsTrue (D.medium device.old).lasting.tells
        → (D.medium device.new).history ≡ (D.medium device.old).history }
    ensures same_size { (D.medium device.new).size ≡ (D.medium device.old).size }
    ensures same_lasting { (D.medium device.new).lasting ≡ (D.medium device.old).lasting }
{
    device.read_run(sector, out)?;
    Ok(())
}
