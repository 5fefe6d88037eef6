//! Opens and locks files for devices.

use crate::OpenError;
use crate::device::SECTOR_BYTES;
use std::fs::{File, Files, Metadata, OpenOptions, TryLockError};
use std::io::{ErrorKind, Seek, SeekFrom};
use std::os::fd::AsRawFd;
use std::os::unix::fs::{FileTypeExt, MetadataExt};
use std::path::Path;
use std::{fs, io};

/// The least descriptor that a device keeps. Those below are the standard streams: what is printed may go to them.
const LEAST_DESCRIPTOR: i32 = 3;

/// Opens a regular file or a block device, and takes its lock, without waiting.
pub(crate) fn open_locked<R: Files<File = File>>(
    files: &R,
    path: &str,
    how: &OpenOptions,
    is_shared: bool,
) -> Result<File, OpenError> {
    // Opening a FIFO may wait for its other end, so its kind is checked before; and once more after, since another file may have
    // taken its place.
    if let Ok(metadata) = fs::metadata(files, path) {
        check_kind(&metadata)?;
    }
    let file = how.open(files, path).map_err(OpenError::Failed)?;
    locked(files, path, file, is_shared)
}

/// Makes a new file, and takes its lock. Where the system refuses a call for the lock, other than because somebody else has
/// it, the file is removed.
pub(crate) fn make_locked<R: Files<File = File>>(files: &R, path: &str) -> Result<File, OpenError> {
    let mut how = OpenOptions::new();
    how.read(true).write(true).create_new(true);
    let file = how.open(files, path).map_err(OpenError::Failed)?;
    let made = locked(files, path, file, false);
    if let Err(OpenError::Failed(_)) = &made {
        let _ = fs::remove_file(files, path);
    }
    made
}

/// An open file, once its kind is known and its lock is taken.
fn locked<R: Files<File = File>>(
    files: &R,
    path: &str,
    file: File,
    is_shared: bool,
) -> Result<File, OpenError> {
    let file = above_streams(file)?;
    check_kind(&file.metadata().map_err(OpenError::Failed)?)?;
    lock(&file, is_shared)?;
    check_name(files, path, &file)?;
    Ok(file)
}

/// The same file, by a descriptor that is not a standard stream's.
fn above_streams(file: File) -> Result<File, OpenError> {
    if file.as_raw_fd() >= LEAST_DESCRIPTOR {
        return Ok(file);
    }
    file.try_clone().map_err(OpenError::Failed)
}

/// Only a regular file or a block device is a place for sectors.
fn check_kind(metadata: &Metadata) -> Result<(), OpenError> {
    let kind = metadata.file_type();
    if kind.is_dir() {
        return Err(OpenError::Folder);
    }
    if kind.is_file() || kind.is_block_device() {
        return Ok(());
    }
    Err(OpenError::NotAFile)
}

/// Locks a file until it is closed: exclusively for one device, or shared by readers.
fn lock(file: &File, is_shared: bool) -> Result<(), OpenError> {
    let locked = if is_shared {
        file.try_lock_shared()
    } else {
        file.try_lock()
    };
    match locked {
        Ok(()) => Ok(()),
        Err(TryLockError::WouldBlock) => Err(OpenError::InUse),
        Err(TryLockError::Error(error)) => Err(OpenError::Failed(error)),
    }
}

/// Checks that the path still names the open file: before the lock was taken another process may have replaced or removed it. Nobody
/// would find again what is written to such a file.
fn check_name<R: Files<File = File>>(files: &R, path: &str, file: &File) -> Result<(), OpenError> {
    let opened = file.metadata().map_err(OpenError::Failed)?;
    match fs::metadata(files, path) {
        Ok(named) if named.dev() == opened.dev() && named.ino() == opened.ino() => Ok(()),
        Ok(_) => Err(OpenError::InUse),
        Err(error) if error.kind() == ErrorKind::NotFound => Err(OpenError::InUse),
        Err(error) => Err(OpenError::Failed(error)),
    }
}

/// How many sectors a file has.
pub(crate) fn sectors_of(file: &mut File) -> Result<u32, OpenError> {
    // The metadata of a block device has no length, so the end is sought.
    let bytes = file.seek(SeekFrom::End(0)).map_err(OpenError::Failed)?;
    if bytes % SECTOR_BYTES as u64 != 0 {
        return Err(OpenError::Uneven);
    }
    match u32::try_from(bytes / SECTOR_BYTES as u64) {
        Ok(count) => Ok(count),
        Err(_) => Err(OpenError::TooLarge),
    }
}

/// Syncs the folder that holds a file, and with it the file's name.
pub(crate) fn sync_folder<R: Files<File = File>>(files: &R, path: &str) -> io::Result<()> {
    let folder = match Path::new(path).parent() {
        Some(parent) if !parent.as_str().is_empty() => parent.as_str(),
        _ => ".",
    };
    let folder = OpenOptions::new().read(true).open(files, folder)?;
    folder.sync_all()
}
