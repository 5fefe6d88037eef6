//! Tests of the device in a file. What a failed or short write, a sync and a create do to a real file is seen by the
//! program's tests, `tests/files.sh`; which files are refused, by `tests/runs.sh` and `tests/words.sh`.

use crate::device::sectors::{are, byte_of, put};
use lsm_device::{Device, Fault, FileDevice, OpenError};
use std::fs;
use std::fs::{File, Files, OpenOptions};
use std::process::Abort;
use std::test::Fail;

/// A new file of so many sectors.
fn made<R: Abort + Files<File = File>>(rt: &R, path: &str, sectors: u32) -> FileDevice {
    FileDevice::create(rt, path, sectors).expect(rt, "a new file")
}

/// Whether the file is opened, and its sectors are filled with these bytes.
fn holds<R: Files<File = File>>(rt: &R, path: &str, bytes: &[u8]) -> bool {
    match FileDevice::open(rt, path) {
        Ok(mut device) => device.sectors() as usize == bytes.len() && are(&mut device, bytes),
        Err(Fault) => false,
    }
}

/// Writes three sectors of ones, twos and threes from sector 2 on, by one call.
fn put_three(device: &mut FileDevice) -> Result<(), Fault> {
    let mut bytes = [0; 1_536];
    for (at, byte) in bytes.iter_mut().enumerate() {
        *byte = (at / 512 % 3) as u8 + 1;
    }
    if device.sectors() < 5 {
        return Err(Fault);
    }
    device.write_run(2, &bytes)
}

/// The first bytes of three sectors from one on, read by one call.
fn three_from(device: &mut FileDevice, at: u32) -> Result<[u8; 3], Fault> {
    let mut out = [9; 1_536];
    if at as u64 + 3 > device.sectors() as u64 {
        return Err(Fault);
    }
    device.read_run(at, &mut out)?;
    Ok([out[0], out[512], out[1_024]])
}

/// How many of three sectors from one on are read ahead, and the first byte.
fn some_from(device: &mut FileDevice, at: u32) -> Result<(u32, u8), Fault> {
    let mut out = [9; 1_536];
    if at as u64 + 3 > device.sectors() as u64 {
        return Err(Fault);
    }
    let count = device.read_some(at, &mut out)?;
    Ok((count, out[0]))
}

/// Whether the three are written, and read one by one and as parts of runs.
fn keeps_three(device: &mut FileDevice) -> bool {
    put_three(device).is_ok()
        && device.sync().is_ok()
        && are(device, &[0, 0, 1, 2, 3, 0])
        && three_from(device, 1) == Ok([0, 1, 2])
        && some_from(device, 3) == Ok((3, 2))
}

#[test]
fn a_file_keeps_what_was_written_until_it_is_made_anew(rt: HostRuntime) -> Result<(), Fail> {
    let path = "a_file_keeps_what_was_written_until_it_is_made_anew.img";
    let kept = keeps_three(&mut made(&rt, path, 6));
    assert!(rt; kept && holds(&rt, path, &[0, 0, 1, 2, 3, 0]));
    drop(made(&rt, path, 4));
    assert!(rt; holds(&rt, path, &[0; 4]));
    fs::remove_file(&rt, path)?;
    Ok(())
}

/// Cuts a file of six sectors down to four and a part, while a device has it.
fn cut<R: Abort + Files<File = File>>(rt: &R, path: &str) {
    let file = OpenOptions::new()
        .write(true)
        .open(rt, path)
        .expect(rt, "the file");
    file.set_len(4 * 512 + 100).expect(rt, "another length");
}

/// Whether the sectors that are left are read, and no others. What can be read of a run is read alone.
fn reads_what_is_left(device: &mut FileDevice) -> bool {
    byte_of(device, 4) == Err(Fault)
        && byte_of(device, 3) == Ok(2)
        && three_from(device, 2) == Err(Fault)
        && some_from(device, 2) == Ok((1, 1))
}

#[test]
fn a_file_that_was_cut_while_open_gives_faults(rt: HostRuntime) -> Result<(), Fail> {
    let path = "a_file_that_was_cut_while_open_gives_faults.img";
    let mut device = made(&rt, path, 6);
    let written = put_three(&mut device).is_ok();
    cut(&rt, path);
    assert!(rt; written && reads_what_is_left(&mut device));
    drop(device);
    fs::remove_file(&rt, path)?;
    Ok(())
}

/// Whether no second device gets a file that one has, and it is told to be in use.
fn keeps_others_out<R: Files<File = File> + AllocGlobal>(rt: &R, path: &str) -> bool {
    FileDevice::open(rt, path).is_err()
        && FileDevice::create(rt, path, 2).is_err()
        && matches!(FileDevice::try_open(rt, path), Err(OpenError::InUse))
        && matches!(FileDevice::open_read_only(rt, path), Err(OpenError::InUse))
        && matches!(
            FileDevice::create_beside(rt, path, 2),
            Err(OpenError::InUse)
        )
}

#[test]
fn a_file_is_one_device_s_at_a_time(rt: HostRuntime) -> Result<(), Fail> {
    let path = "a_file_is_one_device_s_at_a_time.img";
    let mut device = made(&rt, path, 3);
    let written = put(&mut device, 1, 1).is_ok();
    assert!(rt; written && keeps_others_out(&rt, path) && are(&mut device, &[0, 1, 0]));
    drop(device);
    assert!(rt; holds(&rt, path, &[0, 1, 0]));
    fs::remove_file(&rt, path)?;
    Ok(())
}

/// Whether two devices read a file at the same time, none writes, and what the system says of the write is told.
fn is_read_by_two<R: Files<File = File>>(rt: &R, path: &str, bytes: &[u8]) -> bool {
    let one = FileDevice::open_read_only(rt, path);
    let two = FileDevice::open_read_only(rt, path);
    let (Ok(mut one), Ok(mut two)) = (one, two) else {
        return false;
    };
    let untold = one.last_error().is_none();
    are(&mut one, bytes)
        && are(&mut two, bytes)
        && untold
        && put(&mut one, 0, 9).is_err()
        && one.last_error().is_some()
        && FileDevice::open(rt, path).is_err()
}

#[test]
fn a_file_that_is_only_read_has_many_readers(rt: HostRuntime) -> Result<(), Fail> {
    let path = "a_file_that_is_only_read_has_many_readers.img";
    let written = put(&mut made(&rt, path, 2), 1, 7).is_ok();
    assert!(rt; written && is_read_by_two(&rt, path, &[0, 7]) && holds(&rt, path, &[0, 7]));
    fs::remove_file(&rt, path)?;
    Ok(())
}

/// Makes a file beside the one of a path, fills its first sector, and puts it there or gives it up.
fn replace<R: Abort + Files<File = File> + AllocGlobal>(rt: &R, path: &str, is_kept: bool) {
    let (mut device, replacement) = match FileDevice::create_beside(rt, path, 2) {
        Ok(made) => made,
        Err(_) => panic!(rt; "no file beside the old one"),
    };
    put(&mut device, 0, 5).expect(rt, "a write");
    if is_kept {
        replacement.finish(rt).expect(rt, "the new name");
    } else {
        replacement.give_up(rt);
    }
}

#[test]
fn a_new_file_takes_the_place_of_an_old_one_once_it_is_whole(rt: HostRuntime) -> Result<(), Fail> {
    let path = "a_new_file_takes_the_place_of_an_old_one_once_it_is_whole.img";
    let written = put(&mut made(&rt, path, 3), 2, 1).is_ok();
    replace(&rt, path, false);
    assert!(rt; written && holds(&rt, path, &[0, 0, 1]));
    replace(&rt, path, true);
    assert!(rt; holds(&rt, path, &[5, 0]));
    fs::remove_file(&rt, path)?;
    // Where there is none it is the first.
    replace(&rt, path, true);
    assert!(rt; holds(&rt, path, &[5, 0]));
    fs::remove_file(&rt, path)?;
    Ok(())
}
