// Lives on a device, and a check of what they leave.
ghost use Rattle.std.specs.Prelude.{ℕ, List, IfErr};
ghost use Rattle.lsm_codec.specs.Map.{Operation};
ghost use Rattle.lsm_device.specs.Medium.{disk};
ghost use Rattle.lsm_device.specs.Memory.{medium_in};
ghost use Rattle.lsm_device.specs.Outcomes.{Leaves};
ghost use Rattle.lsm_root.specs.CrashState.{CrashState};
ghost use Rattle.lsm_open.specs.Image.{StandFor};
ghost use Rattle.lsm_machine.specs.Lives.{IsAfter};
ghost use Rattle.lsm_check.specs.Images.{IsNoVerdict};

use lsm_check::{Finding, Report, check};
use lsm_device::MemDevice;
use lsm_lives::{Life, lives};
use std::alloc::Global;
use std::thread::Threads;

// Checks a device that is handed over.
fn checked(alloc: Global, device: MemDevice) -> Result<Report, Finding>
    ensures { (log_sectors : ℕ) (left : CrashState)
        → Leaves (StandFor log_sectors left) (disk (medium_in device)) → IfErr result IsNoVerdict }
{
    let mut device = device;
    let report = check(alloc, &mut device)?;
    Ok(report)
}

/// Leads lives on a device, and checks what they leave. Where the device holds what a format or other lives left, that is the
/// image of a store again, whatever the lives do and whatever the crashes keep: nothing is found wrong.
pub fn check_after_lives<R: Threads + Sync>(
    rt: &R,
    alloc: Global,
    device: MemDevice,
    given: &[Life],
) -> Result<Report, Finding>
    ensures { (log_sectors : ℕ) (before : List (List Operation)) (opened : CrashState)
        → IsAfter before opened → Leaves (StandFor log_sectors opened) (disk (medium_in device))
        → IfErr result IsNoVerdict }
{
    match lives(rt, alloc, device, given) {
        Ok((_replies, device)) => checked(alloc, device),
        Err((refusal, _device)) => Err(Finding::Refused(refusal)),
    }
}
