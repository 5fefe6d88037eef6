//! Devices of tests.

use hex::decode_to_slice;
use lsm_device::{Device, MemDevice};
use std::alloc::Global;
use std::process::Abort;

pub(crate) const SECTORS: u32 = 8_192;

/// A device of zeros.
pub(crate) fn zeros<R: Abort>(rt: &R, alloc: Global) -> MemDevice {
    MemDevice::new(alloc, SECTORS).expect(rt, "a device")
}

/// A sector that begins with these bytes, in hex, and goes on with zeros.
pub(crate) fn sector_of<R: Abort>(rt: &R, text: &str) -> [u8; 512] {
    let mut sector = [0; 512];
    let bytes = text.len() / 2;
    assert!(rt; bytes <= 512);
    decode_to_slice(text, &mut sector[..bytes]).expect(rt, "hex");
    sector
}

pub(crate) fn put<R: Abort>(rt: &R, device: &mut MemDevice, at: u32, bytes: &[u8; 512]) {
    assert!(rt; at < device.sectors());
    device.write(at, bytes).expect(rt, "a write");
}

pub(crate) fn sector<R: Abort>(rt: &R, device: &mut MemDevice, at: u32) -> [u8; 512] {
    assert!(rt; at < device.sectors());
    let mut out = [0; 512];
    device.read(at, &mut out).expect(rt, "a read");
    out
}

/// A device after a crash that keeps these pending writes.
pub(crate) fn crash(device: MemDevice, keep: &[bool]) -> MemDevice {
    device.crash(keep)
}
