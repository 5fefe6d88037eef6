// The device of a store between two calls.
ghost use Rattle.std.specs.Prelude.{◌≡◌, ◌<◌, ◌^◌};

use lsm_device::{Calls, Device, Fault};

/// A device of a size that holds nothing: each call of it is a fault.
#[derive(Drop)]
pub struct ParkedDevice {
    sectors: u32,
    calls: Calls,
    ghost fits: { sectors < 2 ^ 32 },
}

impl ParkedDevice {
    /// The device of `sectors` sectors.
    pub fn new(sectors: u32) -> ParkedDevice
        ensures size { (⟦<ParkedDevice as Device>⟧.medium result).size ≡ sectors }
    {
        ParkedDevice {
            sectors,
            calls: Calls::NONE,
        }
    }
}

impl Device for ParkedDevice {
    ghost use Rattle.std.specs.Prelude.{false, []};
    ghost use Rattle.std.proofs.lemmas.Bool.{false≢true};
    ghost use Rattle.lsm_device.specs.Medium.{silent};

    ghost medium = { λ d. record { size = d.sectors; lasting = silent; calls = d.calls; history = [] } };

    ghost sound = { λ d t. absurd (false≢true t) };

    ghost keeps_fuses = { λ d t. absurd (false≢true t) };

    ghost small = { λ d. d.fits };

    fn sectors(&self) -> u32 {
        self.sectors
    }

    fn read(&mut self, _at: u32, _out: &mut [u8; 512]) -> Result<(), Fault> {
        self.calls.count_read(false);
        Err(Fault)
    }

    fn write(&mut self, _at: u32, _bytes: &[u8; 512]) -> Result<(), Fault> {
        self.calls.count_write(false);
        Err(Fault)
    }

    fn sync(&mut self) -> Result<(), Fault> {
        self.calls.count_sync(false);
        Err(Fault)
    }
}
