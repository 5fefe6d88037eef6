//! Calls of a file that failed: which refusal they led to, and what the system said.

ghost use Rattle.std.specs.Prelude.{◌≡◌, ◌⊎◌};
ghost use Rattle.lsm_device.specs.declared.refusal.Refusal.TheVariants.{NoMemory, Io};
ghost use Rattle.lsm_language.specs.Faults.{IsRefusalBy, reason_of, refusal};

use lsm_device::{FileDevice, OpenError, Refusal};
use lsm_language::{Cause, ProgramError};
use std::alloc::Global;
use std::fs::{File, Files, OpenOptions};
use std::io::{Error, ErrorKind};
use std::path::Path;

/// A refusal of calls on a file, with what the system said where one of the file's own failed.
pub(crate) fn failed(alloc: Global, reason: Refusal, device: &FileDevice) -> ProgramError
    ensures { reason_of result ≡ refusal reason }
{
    match device.last_error() {
        Some(error) => ProgramError::failed(alloc, reason, &error),
        None => ProgramError::Refused(reason),
    }
}

/// A fault of calls on a file, with what the system said if it is a refusal and one of the file's own calls failed.
pub(crate) fn with_error(alloc: Global, fault: ProgramError, device: &FileDevice) -> ProgramError
    ensures { reason_of result ≡ reason_of fault }
{
    match fault {
        ProgramError::Refused(reason) => failed(alloc, reason, device),
        other => other,
    }
}

/// Why a file can't be opened as a device.
pub(crate) fn unopened<R: Files<File = File> + AllocGlobal>(
    rt: &R,
    path: &str,
    error: &OpenError,
) -> ProgramError
    ensures { IsRefusalBy (λ e. (e ≡ NoMemory) ⊎ (e ≡ Io)) (reason_of result) }
{
    match error {
        OpenError::Failed(error) if error.kind() == ErrorKind::NotFound && has_folder(rt, path) => {
            ProgramError::Unopened(Cause::Missing)
        }
        OpenError::Failed(error) if error.kind() == ErrorKind::PermissionDenied => {
            ProgramError::Unopened(Cause::Denied)
        }
        OpenError::Uneven => ProgramError::Unopened(Cause::Uneven),
        _ => unmade(rt, path, error),
    }
}

/// Why a file can't be made as a device.
pub(crate) fn unmade<R: Files<File = File> + AllocGlobal>(
    rt: &R,
    path: &str,
    error: &OpenError,
) -> ProgramError
    ensures { IsRefusalBy (λ e. (e ≡ NoMemory) ⊎ (e ≡ Io)) (reason_of result) }
{
    match error {
        OpenError::InUse => ProgramError::Unopened(Cause::InUse),
        OpenError::Folder => ProgramError::Unopened(Cause::Folder),
        OpenError::NotAFile => ProgramError::Unopened(Cause::NotAFile),
        OpenError::TooLarge => ProgramError::Unopened(Cause::TooLarge),
        // A block device of another size.
        OpenError::Uneven => ProgramError::Refused(Refusal::Io),
        OpenError::NoMemory => ProgramError::Refused(Refusal::NoMemory),
        OpenError::Failed(error) if error.kind() == ErrorKind::NotFound && !has_folder(rt, path) =>
            { ProgramError::Unopened(Cause::NoFolder) }
        OpenError::Failed(error) => by_system(rt.alloc(), error),
    }
}

/// A call of the system that failed.
pub(crate) fn by_system(alloc: Global, error: &Error) -> ProgramError
    ensures { reason_of result ≡ refusal Io }
{
    ProgramError::failed(alloc, Refusal::Io, error)
}

// Whether the folder of a file is there.
fn has_folder<R: Files<File = File>>(files: &R, path: &str) -> bool {
    match Path::new(path).parent() {
        Some(folder) if !folder.as_str().is_empty() => {
            OpenOptions::new()
                .read(true)
                .open(files, folder.as_str())
                .is_ok()
        }
        _ => true,
    }
}
