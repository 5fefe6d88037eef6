//! Every crash of a script, explored.

ghost use Rattle.std.specs.Prelude.{◌≡◌, [], map, IfErr, IfOk};
ghost use Rattle.lsm_device.specs.declared.refusal.Refusal.TheVariants.{NoMemory};
ghost use Rattle.lsm_lives.specs.Calls.{asked_of};
ghost use Rattle.lsmctl.specs.Answers.{HasExplored};
ghost use Rattle.lsmctl.specs.Steps.{steps_after};

use crate::answer::{Answer, Output};
use crate::steps::steps_of;
use lsm_device::Refusal;
use lsm_language::{Geometry, Line};
use lsm_progress::Progress;
use std::alloc::Global;
use std::thread::Threads;

/// Explores every crash of a life of the steps of a script, and every crash of the openings after it. Fails only with
/// `NoMemory`.
pub(crate) fn explore<R: Threads + Sync, P: Progress>(
    rt: &R,
    alloc: Global,
    geometry: Geometry,
    script: Vec<Line>,
    progress: &mut P,
) -> Result<Answer, Refusal>
    ensures gives { IfOk result
        (λ answer. HasExplored geometry.sectors geometry.log_sectors
        (map asked_of (steps_after [] script.items)) answer.output) }
    ensures refused { IfErr result (λ e. e ≡ NoMemory) }
{
    let steps = steps_of(alloc, script)?;
    let explored = lsm_explore::explore(
        rt,
        alloc,
        geometry.sectors(),
        geometry.log_sectors(),
        &steps.steps,
        true,
        progress,
    )?;
    Ok(Answer {
        output: Output::Explored(explored),
        file: None,
    })
}
