//! Sizes that a store may have.

ghost use Rattle.std.specs.Prelude.{◌≡◌, MatchResult, IsTrue, false};
ghost use Rattle.lsm_codec.specs.Geometry.{data_blocks_of};
ghost use Rattle.lsm_device.specs.declared.refusal.Refusal.TheVariants.{BadGeometry};
ghost use Rattle.lsm_root.specs.Layout.{IsGeometry};
ghost use Rattle.lsm_language.specs.Limits.{is_geometry};

use lsm_codec::{LEAST_LOG_SECTORS, LEAST_SECTORS, MOST_LOG_SECTORS, MOST_SECTORS, data_blocks};
use lsm_device::Refusal;

/// The sectors of a device and of each of its three log regions, within the limits.
#[derive(Clone, Copy)]
pub struct Geometry {
    sectors: u32,
    log_sectors: u16,
    ghost within: { IsGeometry sectors log_sectors },
}

impl Geometry {
    /// Refuses sizes outside the limits, and with them all that the types of the calls can't hold.
    pub fn new(sectors: u64, log_sectors: u64) -> Result<Geometry, Refusal>
        ensures { MatchResult result
            (λ g. IsTrue (is_geometry sectors log_sectors) × (g.sectors ≡ sectors)
            × (g.log_sectors ≡ log_sectors))
            (λ e. (is_geometry sectors log_sectors ≡ false) × (e ≡ BadGeometry)) }
    {
        let (least, most) = (LEAST_SECTORS as u64, MOST_SECTORS as u64);
        let (least_log, most_log) = (LEAST_LOG_SECTORS as u64, MOST_LOG_SECTORS as u64);
        if !(least..=most).contains(&sectors) || !(least_log..=most_log).contains(&log_sectors) {
            return Err(Refusal::BadGeometry);
        }
        Ok(Geometry {
            sectors: sectors as u32,
            log_sectors: log_sectors as u16,
        })
    }

    /// The sectors of the device.
    pub fn sectors(self) -> u32
        ensures { result ≡ self.sectors }
    {
        self.sectors
    }

    /// The sectors of one log region.
    pub fn log_sectors(self) -> u16
        ensures { result ≡ self.log_sectors }
    {
        self.log_sectors
    }

    /// The data blocks after superblocks, manifests and log regions.
    pub fn data_blocks(self) -> u32
        ensures { result ≡ data_blocks_of self.sectors self.log_sectors }
    {
        data_blocks(self.sectors, self.log_sectors)
    }
}
