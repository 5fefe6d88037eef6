//! A device of tests.

use lsm_device::{Device, Fault, MemDevice};
use std::alloc::Global;
use std::process::Abort;

/// A device that tells contracts nothing.
#[derive(Drop)]
pub struct Silenced<D: Drop> {
    device: D,
}

/// One in memory.
pub type Quiet = Silenced<MemDevice>;

impl Silenced<MemDevice> {
    pub fn new<R: Abort>(rt: &R, alloc: Global, sectors: u32) -> Quiet {
        Silenced {
            device: MemDevice::new(alloc, sectors).expect(rt, "memory"),
        }
    }

    pub fn crash(self, keep: &[bool]) -> Quiet {
        Silenced {
            device: self.device.crash(keep),
        }
    }

    pub fn fuse(&mut self, n: u64) {
        self.device.fuse(n);
    }

    /// The reads, the writes and the syncs.
    pub fn calls(&self) -> (u64, u64, u64) {
        (
            self.device.reads(),
            self.device.writes(),
            self.device.syncs(),
        )
    }

    /// A sector, of zeros where it can't be read.
    pub fn sector(&mut self, at: u32) -> [u8; 512] {
        let mut sector = [0; 512];
        if at >= self.device.sectors() || self.device.read(at, &mut sector).is_err() {
            return [0; 512];
        }
        sector
    }

    /// Whether a sector is written.
    pub fn put(&mut self, at: u32, sector: &[u8; 512]) -> bool {
        at < self.device.sectors() && self.device.write(at, sector).is_ok()
    }
}

impl<D: Device + Drop> Device for Silenced<D> {
    ghost use Rattle.std.specs.Prelude.{[]};
    ghost use Rattle.std.proofs.lemmas.Bool.{false≢true};
    ghost use Rattle.lsm_device.specs.Medium.{silent};

    ghost medium = { λ d. record { size = (D.medium d.device).size; lasting = silent; calls = (D.medium d.device).calls; history = [] } };

    ghost sound = { λ d t. absurd (false≢true t) };

    ghost keeps_fuses = { λ d t. absurd (false≢true t) };

    ghost small = { λ d. D.small d.device };

    fn sectors(&self) -> u32 {
        self.device.sectors()
    }

    fn read(&mut self, at: u32, out: &mut [u8; 512]) -> Result<(), Fault> {
        self.device.read(at, out)
    }

    fn write(&mut self, at: u32, bytes: &[u8; 512]) -> Result<(), Fault> {
        self.device.write(at, bytes)
    }

    fn sync(&mut self) -> Result<(), Fault> {
        self.device.sync()
    }
}
