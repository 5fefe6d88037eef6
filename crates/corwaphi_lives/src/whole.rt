// Lives of a `Db` from the format of a device on.
ghost use Rattle.std.specs.Prelude.{map, IfOk};
ghost use Rattle.lsm_device.specs.Medium.{disk};
ghost use Rattle.lsm_device.specs.Memory.{medium_in};
ghost use Rattle.lsm_lives.specs.Batches.{replies_by};
ghost use Rattle.corwaphi_lives.specs.Batches.{KeepsDbBatches};
ghost use Rattle.corwaphi_lives.specs.Calls.{calls_by};
ghost use Rattle.corwaphi_lives.specs.Devices.{KeepsDbBatchesOn};
ghost use Rattle.corwaphi_lives.specs.Leading.{life_of, AreLedOn};

use crate::calls::DbLife;
use crate::living::lives;
use corwaphi::{MemDevice, Refusal, format};
use lsm_lives::Reply;

/// Formats a new device in memory, and leads lives of a `Db` on it, each from an opening to a crash: the theorem over crashes for a `Db`,
/// without a premise. A life sets the fuse, opens the `Db`, makes the calls and crashes. Its replies are first the number of batches that its
/// opening found, or the refusal of that, and then those of the calls; where the opening was refused, each of these is `Stopped`.
///
/// Fails where the device or the format does, and with `NoMemory` before the first life where there is no place for all replies.
pub fn lives_of_db<R: AllocGlobal>(
    rt: &R,
    sectors: u32,
    log_sectors: u16,
    given: &[DbLife],
) -> Result<(Vec<Vec<Reply>>, MemDevice), Refusal>
    // In the words of calls, replies, batches and maps: each life begins with the map after a beginning of the accepted batches, with every
    // acknowledged one, and each reply is one that the map allows, or that there is no room for a batch.
    ensures batches { IfOk result
        (λ answer. KeepsDbBatches log_sectors (calls_by given.now) (replies_by answer.0.items)) }

    // The device at the end holds the map that is kept.
    ensures device { IfOk result
        (λ answer. KeepsDbBatchesOn log_sectors (calls_by given.now) (replies_by answer.0.items)
        (disk (medium_in answer.1))) }

    // And the replies come of just this device: it was formatted, and in each life the fuse was set, the `Db` was opened, each call did what
    // it does, and the crash kept what the mask says.
    ensures led { IfOk result
        (λ answer. AreLedOn sectors log_sectors (map life_of given.now) (replies_by answer.0.items)
        (medium_in answer.1)) }
{
    let device = MemDevice::new(rt.alloc(), sectors)?;
    let device = match format(rt.alloc(), device, log_sectors) {
        Ok(device) => device,
        Err((refusal, _)) => return Err(refusal),
    };
    lives(rt, device, given)
}
