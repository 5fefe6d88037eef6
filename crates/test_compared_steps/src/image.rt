//! What stands on a device.

use crate::disk::{Disk, SECTORS};
use lsm_device::Refusal;
use std::alloc::{Allocator, Global};

/// A sector that is not zero.
#[derive(Clone, Copy)]
pub struct Sector {
    pub at: u32,
    pub bytes: [u8; 512],
}

/// What stands on a device.
#[derive(Drop)]
pub struct PlainImage {
    pub sectors: Vec<Sector>,
}

impl PlainImage {
    /// What reads on a device.
    pub fn of(alloc: Global, disk: &mut Disk) -> Result<PlainImage, Refusal> {
        let mut sectors = Vec::new(alloc);
        for at in 0..SECTORS {
            let mut bytes = [0; 512];
            if !disk.read(at, &mut bytes) {
                return Err(Refusal::Io);
            }
            if bytes != [0; 512] {
                sectors.push(Sector { at, bytes })?;
            }
        }
        Ok(PlainImage { sectors })
    }

    /// One number of all that stands from a sector on.
    pub fn sum_from(&self, first: u32) -> u64 {
        let mut sum = 0_u64;
        for sector in self.sectors.iter() {
            if sector.at >= first {
                sum ^= u64::from(sector.at);
                for byte in sector.bytes {
                    sum = (sum ^ u64::from(byte)).wrapping_mul(0x0000_0100_0000_01b3);
                }
            }
        }
        sum
    }

    fn put_on<B: Allocator>(&self, disk: &mut Disk<B>) -> bool {
        for sector in self.sectors.iter() {
            if !disk.write(sector.at, &sector.bytes) {
                return false;
            }
        }
        disk.sync()
    }

    /// A device on which it stands.
    pub fn disk<B: Allocator + Clone>(&self, alloc: B) -> Result<Disk<B>, Refusal> {
        let mut disk = Disk::new(alloc)?;
        if self.put_on(&mut disk) {
            return Ok(disk);
        }
        Err(Refusal::Io)
    }
}
