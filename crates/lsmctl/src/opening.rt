//! The store in a file.

ghost use Rattle.std.specs.Prelude.{◌≡◌, ◌⊎◌, IfErr, IfOk};
ghost use Rattle.lsm_device.specs.Calls.{no_calls};
ghost use Rattle.lsm_device.specs.declared.refusal.Refusal.TheVariants.{NoMemory, Io};
ghost use Rattle.lsm_language.specs.Faults.{IsRefusalBy, reason_of};
ghost use Rattle.lsm_open.specs.Recovering.{IsOpeningRefusal};
ghost use Rattle.lsmctl.specs.Answers.{WasOpened};

use crate::failing::{by_system, failed, unmade, unopened};
use lsm_device::{Device, FileDevice, Replacement};
use lsm_language::ProgramError;
use lsm_lives::CACHE_BLOCKS;
use lsm_store::Store;
use std::fs::{File, Files};

/// Opens the store in a file.
pub(crate) fn open<R: Files<File = File> + AllocGlobal>(
    rt: &R,
    file: &str,
) -> Result<Store<FileDevice>, ProgramError>
    ensures opened { IfOk result WasOpened }
    ensures refused { IfErr result (λ e. IsRefusalBy IsOpeningRefusal (reason_of e)) }
{
    let device = match FileDevice::try_open(rt, file) {
        Ok(device) => device,
        Err(error) => return Err(unopened(rt, file, &error)),
    };
    match Store::open(rt.alloc(), device, CACHE_BLOCKS) {
        Ok(store) => Ok(store),
        Err((refusal, device)) => Err(failed(rt.alloc(), refusal, &device)),
    }
}

/// Opens a file to read it alone, also one that may not be written.
pub(crate) fn open_read_only<R: Files<File = File> + AllocGlobal>(
    rt: &R,
    file: &str,
) -> Result<FileDevice, ProgramError>
    ensures unused { IfOk result (λ d. (⟦<FileDevice as Device>⟧.medium d).calls ≡ no_calls) }
    ensures refused { IfErr result
        (λ e. IsRefusalBy (λ r. (r ≡ NoMemory) ⊎ (r ≡ Io)) (reason_of e)) }
{
    match FileDevice::open_read_only(rt, file) {
        Ok(device) => Ok(device),
        Err(error) => Err(unopened(rt, file, &error)),
    }
}

/// Makes a device of zero sectors in the folder of the file that it will replace.
pub(crate) fn create_beside<R: Files<File = File> + AllocGlobal>(
    rt: &R,
    file: &str,
    sectors: u32,
) -> Result<(FileDevice, Replacement), ProgramError>
    ensures size { IfOk result (λ made. (⟦<FileDevice as Device>⟧.medium made.0).size ≡ sectors) }
    ensures unused { IfOk result
        (λ made. (⟦<FileDevice as Device>⟧.medium made.0).calls ≡ no_calls) }
    ensures refused { IfErr result
        (λ e. IsRefusalBy (λ r. (r ≡ NoMemory) ⊎ (r ≡ Io)) (reason_of e)) }
{
    match FileDevice::create_beside(rt, file, sectors) {
        Ok(made) => Ok(made),
        Err(error) => Err(unmade(rt, file, &error)),
    }
}

/// Gives a new file its place.
pub(crate) fn put_in_place<R: Files<File = File> + AllocGlobal>(
    rt: &R,
    replacement: Replacement,
) -> Result<(), ProgramError>
    ensures refused { IfErr result (λ e. IsRefusalBy (λ r. r ≡ Io) (reason_of e)) }
{
    match replacement.finish(rt) {
        Ok(()) => Ok(()),
        Err(error) => Err(by_system(rt.alloc(), &error)),
    }
}
