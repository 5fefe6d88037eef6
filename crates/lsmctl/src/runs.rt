//! The steps of scripts, made.

ghost use Rattle.std.specs.Prelude.{◌≡◌, map, IfErr, IfOk};
ghost use Rattle.lsm_device.specs.declared.refusal.Refusal.TheVariants.{NoMemory};
ghost use Rattle.lsm_device.specs.Medium.{disk};
ghost use Rattle.lsm_device.specs.Memory.{medium_in};
ghost use Rattle.lsm_device.specs.Outcomes.{Leaves};
ghost use Rattle.lsm_root.specs.CrashState.{formatted as empty_store};
ghost use Rattle.lsm_open.specs.Image.{StandFor};
ghost use Rattle.lsm_lives.specs.Calls.{asked_of};
ghost use Rattle.lsmctl.specs.Steps.{lives_said, told_lives};
ghost use Rattle.lsmctl.specs.Answers.{HasLives, HasReplies};

use crate::answer::Output;
use crate::reply::{push_lives, push_replies};
use crate::steps::{Lives, Steps, lives_of};
use lsm_device::{Device, MemDevice, Refusal};
use lsm_language::{Geometry, Line};
use lsm_store::Store;
use std::alloc::{AllocError, Global};
use std::thread::Threads;

/// Makes steps on a store. A line answers each. Fails only with `NoMemory`, which may be after the steps.
pub fn replay<R: Threads + Sync, D: Device>(
    rt: &R,
    alloc: Global,
    store: &mut Store<D>,
    steps: &Steps,
) -> Result<Output, Refusal>
    ensures tells { IfOk result
        (HasReplies (map asked_of steps.now.steps.items) steps.now.told.items store.old store.new) }
    ensures refused { IfErr result (λ e. e ≡ NoMemory) }
{
    let replies = lsm_lives::replay(rt, alloc, store, &steps.steps)?;
    let mut text = String::new(alloc);
    push_replies(alloc, &mut text, &steps.told, &replies)?;
    Ok(Output::Lines(text))
}

/// Makes the lives of a script on an empty store in memory. A line answers each opening and each step. Fails only with
/// `NoMemory`.
pub fn lives<R: Threads + Sync>(
    rt: &R,
    alloc: Global,
    geometry: Geometry,
    script: Vec<Line>,
) -> Result<Output, Refusal>
    ensures tells { IfOk result
        (HasLives geometry.sectors geometry.log_sectors (lives_said script.items)
        (told_lives script.items)) }
    ensures refused { IfErr result (λ e. e ≡ NoMemory) }
{
    let Lives { lives, told } = lives_of(alloc, script)?;
    let device = formatted(alloc, geometry)?;
    let replies = match lsm_lives::lives(rt, alloc, device, &lives) {
        Ok((replies, _)) => replies,
        Err((refusal, _)) => return Err(refusal),
    };
    let mut text = String::new(alloc);
    push_lives(alloc, &mut text, &told, &replies)?;
    Ok(Output::Lines(text))
}

// A device in memory with an empty store. Without a fuse it fails only where memory for its writes is refused.
fn formatted(alloc: Global, geometry: Geometry) -> Result<MemDevice, AllocError>
    ensures leaves { IfOk result
        (λ device. Leaves (StandFor geometry.log_sectors empty_store) (disk (medium_in device))) }
    ensures size { IfOk result (λ device. (medium_in device).size ≡ geometry.sectors) }
{
    let device = MemDevice::new(alloc, geometry.sectors())?;
    match lsm_open::format(alloc, device, geometry.log_sectors()) {
        Ok(device) => Ok(device),
        Err(_) => Err(AllocError),
    }
}
