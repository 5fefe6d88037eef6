//! Devices in memory, whose calls tell the prover nothing.

use lsm_device::{Device, MemDevice, Refusal};
use lsm_open::format;
use std::alloc::{Allocator, Global};

/// The sectors of a device.
pub const SECTORS: u32 = 8_192;

/// The most writes that pend.
const PENDING: usize = 1_024;

/// Of 64 pending writes one after another those that a crash keeps, and likewise of the next 64: the first by the lowest bit.
pub type Mask = u64;

/// Keeps the first pending write, the third and so on.
const THIRDS: Mask = 0x5555_5555_5555_5555;

/// The crashes that are tried: they keep none of the pending writes, all, the first, the third and so on, or the others.
pub const MASKS: &[Mask] = &[0, u64::MAX, THIRDS, !THIRDS];

/// The crash of a number: each of the four in turn.
pub fn mask_of(n: u64) -> Mask {
    match n % 4 {
        0 => 0,
        1 => u64::MAX,
        2 => THIRDS,
        _ => !THIRDS,
    }
}

/// A device in memory.
pub struct Disk<B: Allocator = Global> {
    pub device: MemDevice<B>,
}

// One call at each exit, in the place of all that a device is made of.
impl<B: Allocator> Drop for Disk<B> {
    fn drop(self) {
        let Disk { device: _ } = self;
    }
}

/// A device with an empty store.
pub fn formatted(alloc: Global, log: u16) -> Result<Disk, Refusal> {
    match format(alloc, MemDevice::new(alloc, SECTORS)?, log) {
        Ok(device) => Ok(Disk { device }),
        Err((refusal, _)) => Err(refusal),
    }
}

impl<B: Allocator> Disk<B> {
    /// A device of zeros.
    pub(crate) fn new(alloc: B) -> Result<Disk<B>, Refusal>
    where
        B: Clone,
    {
        let device = MemDevice::new(alloc, SECTORS)?;
        Ok(Disk { device })
    }

    /// Reads a sector, where there is one.
    pub fn read(&mut self, at: u32, out: &mut [u8; 512]) -> bool {
        if at >= self.device.sectors() {
            return false;
        }
        self.device.read(at, out).is_ok()
    }

    /// Writes a sector, where there is one.
    pub fn write(&mut self, at: u32, bytes: &[u8; 512]) -> bool {
        if at >= self.device.sectors() {
            return false;
        }
        self.device.write(at, bytes).is_ok()
    }

    /// Syncs it, and tells whether it did.
    pub fn sync(&mut self) -> bool {
        self.device.sync().is_ok()
    }

    /// How many writes it has had.
    pub fn writes(&self) -> u64 {
        self.device.writes()
    }

    /// How many writes and syncs it has had.
    pub fn changes(&self) -> u64 {
        self.device.writes().wrapping_add(self.device.syncs())
    }

    /// How many calls it has had.
    pub fn calls(&self) -> u64 {
        self.device.reads().wrapping_add(self.changes())
    }

    /// Lets all writes and syncs fail after the next n.
    pub fn fuse(&mut self, n: u64) {
        self.device.fuse(n);
    }

    /// Lets the call with this number fail, counted from 0.
    pub fn fail(&mut self, n: u64, kept: bool) {
        self.device.fail(n, kept);
    }

    /// The device after a crash.
    pub fn crashed(self, mask: Mask) -> Disk<B> {
        let mut keep = [false; PENDING];
        let mut left = mask;
        for place in 0..PENDING {
            keep[place] = left % 2 == 1;
            left = left.rotate_right(1);
        }
        Disk {
            device: self.into_device().crash(&keep),
        }
    }

    pub(crate) fn into_device(self) -> MemDevice<B> {
        let Disk { device } = self;
        device
    }
}
