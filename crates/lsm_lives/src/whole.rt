// Lives from the format of a device on.
ghost use Rattle.std.specs.Prelude.{[], map, IfOk};
ghost use Rattle.lsm_device.specs.Medium.{disk};
ghost use Rattle.lsm_device.specs.Memory.{medium_in};
ghost use Rattle.lsm_lives.specs.Batches.{acts_by, replies_by, KeepsBatches};
ghost use Rattle.lsm_lives.specs.Devices.{KeepsBatchesOn, AreLedOn};
ghost use Rattle.lsm_lives.specs.Leading.{life_of};
ghost use Rattle.lsm_lives.specs.Living.{asked_by, told_by, KeepPromise};
ghost use Rattle.lsm_root.specs.CrashState.{formatted};

use crate::calls::Reply;
use crate::living::{Life, lives};
use lsm_device::{MemDevice, Refusal};
use lsm_open::format;
use std::alloc::Global;
use std::thread::Threads;

/// Formats a new device, and leads lives on it: the theorem over crashes, without a premise.
///
/// Fails where the device or the format does, and with `NoMemory` before the first life where there is no place for all
/// replies.
pub fn lives_from_format<R: Threads + Sync>(
    rt: &R,
    alloc: Global,
    sectors: u32,
    log_sectors: u16,
    given: &[Life],
) -> Result<(Vec<Vec<Reply>>, MemDevice), Refusal>
    // Ring 1, in the words of calls, replies, batches and maps: each life begins with the map after a beginning of the accepted
    // batches, with every acknowledged one, and each reply to a call is one that the map allows.
    ensures batches { IfOk result
        (λ answer. KeepsBatches log_sectors [] formatted (acts_by given.now)
        (replies_by answer.0.items)) }

    // Ring 2: the device at the end holds the map that is kept; and the replies come of the crashes and faults of just this device.
    ensures device { IfOk result
        (λ answer. KeepsBatchesOn log_sectors [] formatted (acts_by given.now)
        (replies_by answer.0.items) (disk (medium_in answer.1))) }
    ensures led { IfOk result
        (λ answer. AreLedOn sectors log_sectors formatted (map life_of given.now)
        (told_by answer.0.items) (medium_in answer.1)) }

    // Ring 3: all that, and the replies to pieces of work are those of the jobs.
    ensures promise { IfOk result
        (λ answer. KeepPromise log_sectors [] formatted (asked_by given.now)
        (told_by answer.0.items) (disk (medium_in answer.1))) }
{
    let device = MemDevice::new(alloc, sectors)?;
    let device = match format(alloc, device, log_sectors) {
        Ok(device) => device,
        Err((refusal, _)) => return Err(refusal),
    };
    match lives(rt, alloc, device, given) {
        Ok(answer) => Ok(answer),
        Err((refusal, _)) => Err(refusal),
    }
}
