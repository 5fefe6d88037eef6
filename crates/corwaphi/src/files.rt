//! Stores in files.

ghost use Rattle.std.specs.Prelude.{◌≡◌, ◌⊎◌, IfOk};
ghost use Rattle.corwaphi.specs.Opening.{OpensDb, WasMade, WasOpened};

use crate::{Db, OpenDbError, Options};
use lsm_device::{Device, FileDevice, OpenError, Replacement};
use lsm_open::format;
use std::fs::{File, Files};
use std::io::ErrorKind;

impl Db<FileDevice> {
    /// Makes a store in a file, of the size and with the log regions that the options say, and opens it. One that is there is replaced,
    /// and what it held is gone, but only once the new one is whole: until then the old one is as it was. Nobody else gets the file
    /// meanwhile.
    ///
    /// Fails with the cause: what keeps the file from being made; `BadGeometry` for sectors or log sectors outside the limits;
    /// `BadLimit` for a cache outside 1 to 4,096 blocks; `NoMemory`; and `Io`.
    pub fn create<R: Files<File = File> + AllocGlobal>(
        rt: &R,
        path: &str,
        options: Options,
    ) -> Result<Db<FileDevice>, OpenDbError>
        ensures { IfOk result (λ db. WasMade options.sectors options.cache db) }
    {
        match made(rt, path, options) {
            Ok(device) => over(rt, device, options),
            Err(error) => Err(error),
        }
    }

    /// Opens the store in a file, as [`on`](Db::on) does. Nobody else gets the file until the store is let go. The options for a new store
    /// are not asked.
    ///
    /// Fails with the cause: what keeps the file from being opened, or the refusal of [`on`](Db::on).
    pub fn open<R: Files<File = File> + AllocGlobal>(
        rt: &R,
        path: &str,
        options: Options,
    ) -> Result<Db<FileDevice>, OpenDbError>
        ensures { IfOk result (λ db. WasOpened options.cache db) }
    {
        match FileDevice::try_open(rt, path) {
            Ok(device) => over(rt, device, options),
            Err(error) => Err(OpenDbError::File(error)),
        }
    }

    /// Opens the store in a file, or makes one where no file is: [`open`](Db::open), and where that finds no such file
    /// [`create`](Db::create). A file that is there and holds no store stays as it is. Of two programs that do so at once where no file
    /// is, one may be told that the file is in use; but where the other one has let its new store go already, that one is replaced.
    pub fn open_or_create<R: Files<File = File> + AllocGlobal>(
        rt: &R,
        path: &str,
        options: Options,
    ) -> Result<Db<FileDevice>, OpenDbError>
        ensures { IfOk result (λ db. WasOpened options.cache db
            ⊎ WasMade options.sectors options.cache db) }
    {
        let opened = Db::open(rt, path, options);
        if is_missing(&opened) {
            return Db::create(rt, path, options);
        }
        opened
    }
}

// Whether there was no file to open.
fn is_missing(opened: &Result<Db<FileDevice>, OpenDbError>) -> bool {
    match opened {
        Err(OpenDbError::File(OpenError::Failed(error))) => error.kind() == ErrorKind::NotFound,
        _ => false,
    }
}

// Makes an empty store in a file.
fn made<R: Files<File = File> + AllocGlobal>(
    rt: &R,
    path: &str,
    options: Options,
) -> Result<FileDevice, OpenDbError>
    ensures { IfOk result (λ device. (⟦<FileDevice as Device>⟧.medium device).size
        ≡ options.sectors) }
{
    let (device, replacement) = FileDevice::create_beside(rt, path, options.sectors)?;
    match formatted(rt, device, options.log_sectors, replacement) {
        Ok(device) => Ok(device),
        Err(error) => Err(error),
    }
}

// Opens the store on the device of a file, which is let go where it is refused.
fn over<R: AllocGlobal>(
    rt: &R,
    device: FileDevice,
    options: Options,
) -> Result<Db<FileDevice>, OpenDbError>
    ensures { IfOk result
        (λ db. OpensDb options.cache (⟦<FileDevice as Device>⟧.medium device) db) }
{
    match Db::on(rt, device, options) {
        Ok(db) => Ok(db),
        Err(refused) => Err(OpenDbError::from(refused)),
    }
}

// Makes an empty store on a new file, which is put in its place then; or else removed.
fn formatted<R: Files<File = File> + AllocGlobal>(
    rt: &R,
    device: FileDevice,
    log_sectors: u16,
    replacement: Replacement,
) -> Result<FileDevice, OpenDbError>
    ensures { IfOk result (λ made. (⟦<FileDevice as Device>⟧.medium made).size
        ≡ (⟦<FileDevice as Device>⟧.medium device).size) }
{
    match format(rt.alloc(), device, log_sectors) {
        Ok(device) => {
            replacement.finish(rt).map_err(OpenDbError::Place)?;
            Ok(device)
        }
        Err((refusal, _)) => {
            replacement.give_up(rt);
            Err(OpenDbError::Store(refusal))
        }
    }
}
