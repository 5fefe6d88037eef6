// The epochs of log sectors.
ghost use Rattle.std.specs.Prelude.{◌≡◌, ◌≤◌, ◌<◌, ◌+◌, ◌*◌, Some, slice_get, option_map, IsTrue, IfOk, OnOk, IfErr, MatchBool};
ghost use Rattle.lsm_device.specs.Areas.{area};
ghost use Rattle.lsm_device.specs.Disk.{seen};
ghost use Rattle.lsm_device.specs.Medium.{disk};
ghost use Rattle.lsm_device.specs.Refusals.{faultless};
ghost use Rattle.lsm_log.specs.Opened.{is_above, HasNoneAbove};
ghost use Rattle.lsm_open.specs.LogRegions.{first_region};
ghost use Rattle.lsm_open.specs.ReadParts.{ReadsAtMost};
ghost use Rattle.lsm_check.specs.Counted.{ReadsBetween};

use lsm_codec::{LogSector, ROOT_SECTORS};
use lsm_device::{Device, Refusal};

// Whether a sector is one of a log whose epoch is above the generation.
fn is_above(sector: &[u8; 512], generation: u64) -> bool
    ensures { result ≡ is_above generation sector.now }
{
    match LogSector::decode(sector) {
        Some(part) => part.epoch > generation,
        None => false,
    }
}

// Reads a sector, and tells whether it is one of a log whose epoch is above the generation.
fn reads_above<D: Device>(device: &mut D, at: u32, generation: u64) -> Result<bool, Refusal>
    requires { at < (D.medium device.old).size }
    ensures told { IsTrue (D.medium device.old).lasting.tells
        → IfOk result (λ above. option_map (is_above generation)
        (slice_get (seen (disk (D.medium device.old))) at) ≡ Some above) }
    ensures refused { IfErr result (λ refusal. refusal ≡ Refusal.Io) }
    ensures device { ReadsAtMost 1 (faultless result) (D.medium device.old) (D.medium device.new) }
    ensures whole { OnOk result
        (ReadsBetween 1 1 (D.medium device.old).calls (D.medium device.new).calls) }
{
    let mut sector = [0; 512];
    device.read(at, &mut sector)?;
    Ok(is_above(&sector, generation))
}

/// Whether no sector of the log regions is of an epoch above the generation. It reads each of them once at most, and takes no
/// memory.
pub(crate) fn has_none_above<D: Device>(
    device: &mut D,
    log_sectors: u16,
    generation: u64,
) -> Result<bool, Refusal>
    requires { first_region + 3 * log_sectors ≤ (D.medium device.old).size }
    ensures told { IsTrue (D.medium device.old).lasting.tells → IfOk result (λ none. MatchBool none
        (HasNoneAbove generation
        (area first_region (3 * log_sectors) (seen (disk (D.medium device.old)))))
        (¬ HasNoneAbove generation
        (area first_region (3 * log_sectors) (seen (disk (D.medium device.old)))))) }
    ensures refused { IfErr result (λ refusal. refusal ≡ Refusal.Io) }
    ensures device { ReadsAtMost (3 * log_sectors) (faultless result) (D.medium device.old)
        (D.medium device.new) }
    ensures whole { IfOk result
        (λ none. IsTrue none → ReadsBetween (3 * log_sectors) (3 * log_sectors)
        (D.medium device.old).calls (D.medium device.new).calls) }
{
    for i in 0..3 * log_sectors as u32 {
        if reads_above(device, ROOT_SECTORS + i, generation)? {
            return Ok(false);
        }
    }
    Ok(true)
}
