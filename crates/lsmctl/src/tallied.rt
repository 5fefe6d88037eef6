//! Clients that count together, in memory.

ghost use Rattle.std.specs.Prelude.{IfErr, IfOk};
ghost use Rattle.lsm_storm.specs.Storms.{IsSessionRefusal};
ghost use Rattle.lsmctl.specs.Answers.{HasCountedTogether};

use crate::answer::{Answer, Output};
use lsm_device::Refusal;
use lsm_language::Load;
use std::alloc::Global;
use std::sync::Wait;
use std::thread::Threads;

/// Lets clients raise one counter, and tells whether it is the number of their accepted commits.
pub(crate) fn tally<R: Threads + Wait + Sync>(
    rt: &R,
    alloc: Global,
    load: Load,
) -> Result<Answer, Refusal>
    ensures gives { IfOk result (λ answer. HasCountedTogether load.clients answer.output) }
    ensures refused { IfErr result IsSessionRefusal }
{
    let tally = lsm_storm::tally(rt, alloc, load)?;
    Ok(Answer {
        output: Output::Tally(tally.count == tally.accepted),
        file: None,
    })
}
