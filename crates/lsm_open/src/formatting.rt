// A device is made an empty store.
ghost use Rattle.std.specs.Prelude.{◌≡◌, ◌⊎◌, ◌↔◌, ◌≤◌, ◌+◌, ◌*◌, replicate, IsTrue, IfOk, OnOk, OnErr, IfErr, Err, is_ok};
ghost use Rattle.lsm_codec.specs.Formats.{blank};
ghost use Rattle.lsm_device.specs.Calls.{faults_after, AtMost};
ghost use Rattle.lsm_device.specs.Disk.{synced};
ghost use Rattle.lsm_device.specs.Medium.{disk};
ghost use Rattle.lsm_device.specs.Refusals.{faultless, is_no_fault};
ghost use Rattle.lsm_device.specs.Runs.{run_at, grown};
ghost use Rattle.lsm_root.specs.Counted.{CallsMade};
ghost use Rattle.lsm_root.specs.Layout.{IsGeometry};
ghost use Rattle.lsm_device.specs.Outcomes.{Leaves};
ghost use Rattle.lsm_root.specs.CrashState.{formatted as empty_store};
ghost use Rattle.lsm_open.specs.Image.{StandFor};
ghost use Rattle.lsm_open.specs.Formatted.{empty_manifest, IsFormatted, handed_back, without_device};

use lsm_codec::{Manifest, ROOT_SECTORS};
use lsm_device::{Device, Fault, Refusal, SECTOR_BYTES};
use lsm_root::{NextRoot, is_geometry};
use std::alloc::Allocator;

/// How many sectors of zeros one call of the device writes.
const ZERO_SECTORS: u32 = 128;

const LOG_REGIONS: u32 = 3;

// Zeroes the first sectors, 64 KiB by a call of the device, and makes that stand.
fn zero_front<D: Device>(device: &mut D, count: u32) -> Result<(), Fault>
    requires within { count ≤ (D.medium device.old).size }
    ensures zeroed { IsTrue (D.medium device.old).lasting.tells → OnOk result
        (disk (D.medium device.new)
        ≡ synced (grown (run_at 0 (replicate count blank)) (disk (D.medium device.old)))) }
    ensures counts { AtMost 0 count 1 (D.medium device.old).calls (D.medium device.new).calls }
    ensures made { OnOk result
        (CallsMade count 1 (D.medium device.old).calls (D.medium device.new).calls) }
    ensures faults { (D.medium device.new).calls.faults
        ≡ faults_after (is_ok result) (D.medium device.old).calls.faults }
    ensures stops { OnErr result (IsTrue (D.medium device.new).calls.last_faulted) }
    ensures same_size { (D.medium device.new).size ≡ (D.medium device.old).size }
    ensures same_lasting { (D.medium device.new).lasting ≡ (D.medium device.old).lasting }
{
    let zeros = [0; 65_536];
    for turn in 0..count.div_ceil(ZERO_SECTORS) {
        let at = ZERO_SECTORS * turn;
        let size = SECTOR_BYTES * (count - at).min(ZERO_SECTORS) as usize;
        device.write_run(at, &zeros[..size])?;
    }
    device.sync()?;
    Ok(())
}

// The root of an empty store, for a device of `sectors` sectors.
fn empty_root<A: Allocator + Clone>(
    alloc: A,
    sectors: u32,
    log_sectors: u16,
) -> Result<NextRoot<A>, Refusal>
    requires geometry { IsGeometry sectors log_sectors }
    ensures root { IfOk result
        (λ root. root ≡ record { size = sectors; log = log_sectors; manifest = empty_manifest }) }
    ensures refused { IfErr result (λ refusal. refusal ≡ Refusal.NoMemory) }
{
    let logs = Vec::new(alloc.clone()?);
    let tables = Vec::new(alloc.clone()?);
    let manifest = Manifest::new(1, 0, 1, 0, logs, tables);
    Ok(NextRoot::prepare(alloc, sectors, log_sectors, &manifest)?)
}

// Zeroes all that a store is found by, and installs the root of an empty one. It takes no memory.
fn write_empty<A: Allocator, D: Device>(
    device: &mut D,
    log_sectors: u16,
    root: &NextRoot<A>,
) -> Result<(), Fault>
    requires geometry { IsGeometry (D.medium device.old).size log_sectors }
    requires root { root.now ≡ record {
      size = (D.medium device.old).size;
      log = log_sectors;
      manifest = empty_manifest;
    } }
    ensures formatted { IsTrue (D.medium device.old).lasting.tells
        → OnOk result (IsFormatted log_sectors (disk (D.medium device.new))) }
    ensures counts { AtMost 0 (172 + 3 * log_sectors) 3 (D.medium device.old).calls
        (D.medium device.new).calls }
    ensures made { OnOk result
        (CallsMade (132 + 3 * log_sectors) 3 (D.medium device.old).calls
        (D.medium device.new).calls) }
    ensures faults { (D.medium device.new).calls.faults
        ≡ faults_after (is_ok result) (D.medium device.old).calls.faults }
    ensures stops { OnErr result (IsTrue (D.medium device.new).calls.last_faulted) }
    ensures same_size { (D.medium device.new).size ≡ (D.medium device.old).size }
    ensures same_lasting { (D.medium device.new).lasting ≡ (D.medium device.old).lasting }
{
    zero_front(device, ROOT_SECTORS + LOG_REGIONS * log_sectors as u32)?;
    root.install(device)?;
    Ok(())
}

// Makes a device within the limits an empty store. All memory is taken before the device is called.
fn make_empty<A: Allocator + Clone, D: Device>(
    alloc: A,
    device: &mut D,
    log_sectors: u16,
) -> Result<(), Refusal>
    requires geometry { IsGeometry (D.medium device.old).size log_sectors }
    ensures formatted { IsTrue (D.medium device.old).lasting.tells
        → OnOk result (IsFormatted log_sectors (disk (D.medium device.new))) }
    ensures refused { IfErr result
        (λ refusal. (refusal ≡ Refusal.NoMemory) ⊎ (refusal ≡ Refusal.Io)) }
    ensures untouched { IfErr result
        (λ refusal. IsTrue (is_no_fault refusal) → device.new ≡ device.old) }
    ensures counts { AtMost 0 (172 + 3 * log_sectors) 3 (D.medium device.old).calls
        (D.medium device.new).calls }
    ensures made { OnOk result
        (CallsMade (132 + 3 * log_sectors) 3 (D.medium device.old).calls
        (D.medium device.new).calls) }
    ensures faults { (D.medium device.new).calls.faults
        ≡ faults_after (faultless result) (D.medium device.old).calls.faults }
    ensures stops { IfErr result
        (λ refusal. refusal ≡ Refusal.Io → IsTrue (D.medium device.new).calls.last_faulted) }
    ensures same_size { (D.medium device.new).size ≡ (D.medium device.old).size }
    ensures same_lasting { (D.medium device.new).lasting ≡ (D.medium device.old).lasting }
{
    let root = empty_root(alloc, device.sectors(), log_sectors)?;
    write_empty(device, log_sectors, &root)?;
    Ok(())
}

/// Makes the device an empty store of generation 1, with log regions of `log_sectors` sectors: zeroes all sectors of its
/// superblocks, manifests and log regions, and installs an empty manifest. Whatever stood there before is gone.
///
/// Fails with `BadGeometry`, before any device call, just where the device hasn't 8,192 to 1,048,576 sectors or a log region
/// hasn't 128 to 2,048; then with `NoMemory`, also before any device call; and with `Io` where a device call failed. An error
/// hands the device back; after `Io` it may hold anything.
pub fn format<A: Allocator + Clone, D: Device>(
    alloc: A,
    device: D,
    log_sectors: u16,
) -> Result<D, (Refusal, D)>
    ensures formatted { IsTrue (D.medium device).lasting.tells
        → IfOk result (λ made. IsFormatted log_sectors (disk (D.medium made))) }

    // So a crash leaves the empty store of generation 1.
    ensures leaves { IsTrue (D.medium device).lasting.tells
        → IfOk result (λ made. Leaves (StandFor log_sectors empty_store) (disk (D.medium made))) }
    ensures bad_geometry { (without_device result ≡ Err Refusal.BadGeometry)
        ↔ (IsGeometry (D.medium device).size log_sectors → ⊥) }

    // Only a device call that failed refuses once the device was called: all memory is taken before.
    ensures untouched { IfErr (without_device result)
        (λ refusal. IsTrue (is_no_fault refusal) → handed_back result ≡ device) }
    ensures refused { IfErr (without_device result)
        (λ refusal. (refusal ≡ Refusal.BadGeometry)
        ⊎ ((refusal ≡ Refusal.NoMemory) ⊎ (refusal ≡ Refusal.Io))) }
    ensures counts { AtMost 0 (172 + 3 * log_sectors) 3 (D.medium device).calls
        (D.medium (handed_back result)).calls }
    ensures made { IfOk result
        (λ made. CallsMade (132 + 3 * log_sectors) 3 (D.medium device).calls
        (D.medium made).calls) }
    ensures faults { (D.medium (handed_back result)).calls.faults
        ≡ faults_after (faultless (without_device result)) (D.medium device).calls.faults }
    ensures stops { IfErr (without_device result)
        (λ refusal. refusal ≡ Refusal.Io
        → IsTrue (D.medium (handed_back result)).calls.last_faulted) }
    ensures same_size { (D.medium (handed_back result)).size ≡ (D.medium device).size }
    ensures same_lasting { (D.medium (handed_back result)).lasting ≡ (D.medium device).lasting }
{
    let mut device = device;
    if !is_geometry(device.sectors(), log_sectors) {
        return Err((Refusal::BadGeometry, device));
    }
    match make_empty(alloc, &mut device, log_sectors) {
        Ok(()) => Ok(device),
        Err(refusal) => Err((refusal, device)),
    }
}
