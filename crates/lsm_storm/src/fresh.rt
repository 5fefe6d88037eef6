// The store that a storm is about.
ghost use Rattle.std.specs.Prelude.{IfErr, IfOk};
ghost use Rattle.lsm_device.specs.Medium.{disk};
ghost use Rattle.lsm_device.specs.Memory.{medium_in};
ghost use Rattle.lsm_device.specs.Outcomes.{Leaves};
ghost use Rattle.lsm_root.specs.CrashState.{formatted as empty_store};
ghost use Rattle.lsm_open.specs.Image.{StandFor};
ghost use Rattle.lsm_storm.specs.Storms.{IsFresh, IsSessionRefusal};

use lsm_device::{MemDevice, Refusal};
use lsm_lives::CACHE_BLOCKS;
use lsm_open::format;
use lsm_store::Store;
use std::alloc::Global;

const SECTORS: u32 = 65_536;

const LOG_SECTORS: u16 = 2_048;

// A device in memory with an empty store.
fn formatted(alloc: Global) -> Result<MemDevice, Refusal>
    ensures leaves { IfOk result
        (λ device. Leaves (StandFor 2048 empty_store) (disk (medium_in device))) }
    ensures refused { IfErr result IsSessionRefusal }
{
    let device = MemDevice::new(alloc, SECTORS)?;
    match format(alloc, device, LOG_SECTORS) {
        Ok(device) => Ok(device),
        Err((refusal, _)) => Err(refusal),
    }
}

/// Opens an empty store in memory.
pub(crate) fn fresh(alloc: Global) -> Result<Store<MemDevice>, Refusal>
    ensures opened { IfOk result IsFresh }
    ensures refused { IfErr result IsSessionRefusal }
{
    let device = formatted(alloc)?;
    match Store::open(alloc, device, CACHE_BLOCKS) {
        Ok(store) => Ok(store),
        Err((refusal, _)) => Err(refusal),
    }
}
