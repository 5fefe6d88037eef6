//! Sectors that tests fill and look at.

use lsm_device::{Device, Fault};

/// Fills a sector with a byte.
pub fn put<D: Device>(device: &mut D, at: u32, byte: u8) -> Result<(), Fault> {
    if at >= device.sectors() {
        return Err(Fault);
    }
    device.write(at, &[byte; 512])
}

/// The byte that a sector begins and ends with. One of two such bytes is a fault.
pub fn byte_of<D: Device>(device: &mut D, at: u32) -> Result<u8, Fault> {
    let mut out = [0; 512];
    if at >= device.sectors() {
        return Err(Fault);
    }
    device.read(at, &mut out)?;
    if out[0] == out[511] {
        Ok(out[0])
    } else {
        Err(Fault)
    }
}

/// Whether the sectors from the first on are filled with these bytes, one for each.
pub fn are<D: Device>(device: &mut D, bytes: &[u8]) -> bool {
    let mut at = 0u32;
    for byte in bytes {
        if byte_of(device, at) != Ok(*byte) {
            return false;
        }
        at = at.wrapping_add(1);
    }
    true
}

/// Ones stand in sectors 0 and 1. Twos pend to sector 0, threes to sector 2, and fours to sector 0.
pub fn three_pend<D: Device>(device: &mut D) -> Result<(), Fault> {
    put(device, 0, 1)?;
    put(device, 1, 1)?;
    device.sync()?;
    put(device, 0, 2)?;
    put(device, 2, 3)?;
    put(device, 0, 4)
}

/// Each mask over the three, and what the sectors are filled with after the crash.
pub const MASKS: &[(&[bool], [u8; 3])] = &[
    (&[false, false, false], [1, 1, 0]),
    (&[false, false, true], [4, 1, 0]),
    (&[false, true, false], [1, 1, 3]),
    (&[false, true, true], [4, 1, 3]),
    (&[true, false, false], [2, 1, 0]),
    (&[true, false, true], [4, 1, 0]),
    (&[true, true, false], [2, 1, 3]),
    (&[true, true, true], [4, 1, 3]),
    (&[], [1, 1, 0]),
    (&[true], [2, 1, 0]),
];

/// How many of so many writes to a sector answer Ok, the first with 1, the next with 2 and so on.
pub fn passing_writes<D: Device>(device: &mut D, writes: u8) -> u8 {
    let mut passed = 0u8;
    for byte in 0..writes {
        if put(device, 0, byte.wrapping_add(1)).is_ok() {
            passed = passed.wrapping_add(1);
        }
    }
    passed
}
