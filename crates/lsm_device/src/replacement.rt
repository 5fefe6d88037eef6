//! A new file that takes the place of an old one only once it is whole.

ghost use Rattle.std.specs.Prelude.{◌≡◌, IfOk, false};
ghost use Rattle.lsm_device.specs.Calls.{no_calls};

use crate::opening::{make_locked, open_locked, sync_folder};
use crate::{Device, FileDevice, OpenError};
use std::fs::{File, Files, OpenOptions};
use std::io::ErrorKind;
use std::os::unix::fs::FileTypeExt;
use std::{fs, io};

/// What the name of a new file ends with until it takes its place.
const SUFFIX: &str = ".corwaphi-new";

/// What holds the path until the new file is whole, with its lock: the old file, or an empty one where there was none, so that
/// nobody else makes a file there meanwhile.
#[derive(Drop)]
struct Holder {
    file: File,
    is_new: bool,
}

/// The path that a new file is to take, and what holds it until then.
#[derive(Drop)]
pub struct Replacement {
    // None for a block device.
    holder: Option<Holder>,
    place: String,
    // The name of the new file; `None` for a block device, which is made in place.
    beside: Option<String>,
}

impl FileDevice {
    /// Makes a file of zero sectors next to the one that it will replace, in the same folder, and syncs it. The old file, if there is
    /// one, stays as it is, and nobody else gets it meanwhile; where there is none, an empty one keeps the place. [`Replacement::finish`]
    /// puts the new file in its place, and [`Replacement::give_up`] removes it. Where it can't be made nothing is left of it. A block
    /// device has no file next to it: it is made at once, in place.
    ///
    /// A symbolic link is followed. The new file has the permissions of the old one; it has the owner of a new file, and other hard
    /// links to the old file keep what they had. What a killed process left of such a new file is removed by the next one; the empty
    /// file that kept its place stays, and another new file takes its place.
    pub fn create_beside<R: Files<File = File> + AllocGlobal>(
        rt: &R,
        path: &str,
        sectors: u32,
    ) -> Result<(FileDevice, Replacement), OpenError>
        ensures size { IfOk result
            (λ made. (⟦<FileDevice as Device>⟧.medium made.0).size ≡ sectors) }
        ensures no_calls { IfOk result
            (λ made. (⟦<FileDevice as Device>⟧.medium made.0).calls ≡ no_calls) }
        ensures tells_nothing { IfOk result
            (λ made. (⟦<FileDevice as Device>⟧.medium made.0).lasting.tells ≡ false) }
    {
        let place = place_of(rt, path)?;
        let beside = name_beside(rt, &place)?;
        let holder = Holder::take(rt, &place)?;
        if holder.is_block_device() {
            // Its lock would keep this very device out.
            drop(holder);
            return create_there(rt, place, sectors);
        }
        match created(rt, &beside, &holder, sectors) {
            Ok(device) => Ok((
                device,
                Replacement {
                    holder: Some(holder),
                    place,
                    beside: Some(beside),
                },
            )),
            Err(error) => {
                holder.give_up(rt, &place);
                Err(error)
            }
        }
    }
}

impl Holder {
    fn take<R: Files<File = File>>(files: &R, place: &str) -> Result<Holder, OpenError> {
        let mut how = OpenOptions::new();
        how.read(true).write(true);
        match open_locked(files, place, &how, false) {
            Ok(file) => Ok(Holder {
                file,
                is_new: false,
            }),
            Err(OpenError::Failed(error)) if error.kind() == ErrorKind::NotFound => {
                Holder::make(files, place)
            }
            Err(error) => Err(error),
        }
    }

    fn make<R: Files<File = File>>(files: &R, place: &str) -> Result<Holder, OpenError> {
        match make_locked(files, place) {
            Ok(file) => Ok(Holder { file, is_new: true }),
            // Another one has come first.
            Err(OpenError::Failed(error)) if error.kind() == ErrorKind::AlreadyExists => {
                Err(OpenError::InUse)
            }
            Err(error) => Err(error),
        }
    }

    fn is_block_device(&self) -> bool {
        match self.file.metadata() {
            Ok(metadata) => metadata.file_type().is_block_device(),
            Err(_) => false,
        }
    }

    // Leaves the place as it was. Its lock is held until then, so that nobody else's file is removed.
    fn give_up<R: Files<File = File>>(self, files: &R, place: &str) {
        if self.is_new {
            let _ = fs::remove_file(files, place);
        }
    }
}

impl Replacement {
    /// Gives the new file the name of the old one, which is gone then, and syncs the folder, so that the name lasts. Where the name can't
    /// be given the new file is removed, and the old one stays; where the folder can't be synced the new one has its place, but
    /// perhaps not after a power cut.
    pub fn finish<R: Files<File = File>>(self, files: &R) -> io::Result<()> {
        let Some(beside) = &self.beside else {
            return Ok(());
        };
        let renamed = fs::rename(files, beside.as_str(), self.place.as_str());
        if renamed.is_err() {
            self.give_up(files);
            return renamed;
        }
        sync_folder(files, &self.place)
    }

    /// Removes the new file. The old one stays as it was.
    pub fn give_up<R: Files<File = File>>(self, files: &R) {
        let Replacement {
            holder,
            place,
            beside,
        } = self;
        if let Some(beside) = beside {
            let _ = fs::remove_file(files, beside.as_str());
        }
        if let Some(holder) = holder {
            holder.give_up(files, &place);
        }
    }
}

// The path with symbolic links followed, where the file exists; else the path itself.
fn place_of<R: Files<File = File> + AllocGlobal>(rt: &R, path: &str) -> Result<String, OpenError> {
    let found = fs::canonicalize(rt, path);
    match found {
        Ok(place) => copy_of(rt, place.as_str()),
        Err(error) if error.kind() == ErrorKind::NotFound => copy_of(rt, path),
        Err(error) if error.kind() == ErrorKind::OutOfMemory => Err(OpenError::NoMemory),
        Err(error) => Err(OpenError::Failed(error)),
    }
}

fn copy_of<R: AllocGlobal>(rt: &R, text: &str) -> Result<String, OpenError> {
    String::from_str(rt.alloc(), text).map_err(|_| OpenError::NoMemory)
}

fn name_beside<R: AllocGlobal>(rt: &R, place: &str) -> Result<String, OpenError> {
    let mut name = copy_of(rt, place)?;
    match name.push_str(SUFFIX) {
        Ok(()) => Ok(name),
        Err(_) => Err(OpenError::NoMemory),
    }
}

fn create_there<R: Files<File = File>>(
    files: &R,
    place: String,
    sectors: u32,
) -> Result<(FileDevice, Replacement), OpenError>
    ensures size { IfOk result (λ made. (⟦<FileDevice as Device>⟧.medium made.0).size ≡ sectors) }
    ensures no_calls { IfOk result
        (λ made. (⟦<FileDevice as Device>⟧.medium made.0).calls ≡ no_calls) }
{
    let device = FileDevice::try_create(files, &place, sectors)?;
    Ok((
        device,
        Replacement {
            holder: None,
            place,
            beside: None,
        },
    ))
}

// The new file, with sectors of zeros.
fn created<R: Files<File = File>>(
    files: &R,
    beside: &str,
    holder: &Holder,
    sectors: u32,
) -> Result<FileDevice, OpenError>
    ensures size { IfOk result (λ d. (⟦<FileDevice as Device>⟧.medium d).size ≡ sectors) }
    ensures no_calls { IfOk result (λ d. (⟦<FileDevice as Device>⟧.medium d).calls ≡ no_calls) }
{
    let file = new_file(files, beside)?;
    let made = filled(file, holder, sectors);
    if made.is_err() {
        let _ = fs::remove_file(files, beside);
    }
    made
}

// Makes a new file, and takes its lock. One that exists is what a killed process left, unless another one has its lock.
fn new_file<R: Files<File = File>>(files: &R, beside: &str) -> Result<File, OpenError> {
    match make_locked(files, beside) {
        Err(OpenError::Failed(error)) if error.kind() == ErrorKind::AlreadyExists => {
            remove_left(files, beside)?;
            make_locked(files, beside)
        }
        made => made,
    }
}

// Removes what a killed process left. Its lock is held until the name is gone, so that no other process makes its file under it.
fn remove_left<R: Files<File = File>>(files: &R, beside: &str) -> Result<(), OpenError> {
    let mut how = OpenOptions::new();
    how.read(true).write(true);
    let _left = open_locked(files, beside, &how, false)?;
    fs::remove_file(files, beside).map_err(OpenError::Failed)
}

// The device of a new file, which has the permissions of the old one.
fn filled(file: File, holder: &Holder, sectors: u32) -> Result<FileDevice, OpenError>
    ensures size { IfOk result (λ d. (⟦<FileDevice as Device>⟧.medium d).size ≡ sectors) }
    ensures no_calls { IfOk result (λ d. (⟦<FileDevice as Device>⟧.medium d).calls ≡ no_calls) }
{
    let metadata = holder.file.metadata().map_err(OpenError::Failed)?;
    file.set_permissions(metadata.permissions())
        .map_err(OpenError::Failed)?;
    FileDevice::zeroed(file, sectors)
}
