// The sectors that a crash left.
ghost use Rattle.std.specs.Prelude.{◌≡◌, ◌⊎◌, ◌<◌, ◌≤◌, ◌^◌, IfOk, IfErr, OnOk, IsTrue, All, length};
ghost use Rattle.lsm_device.specs.Calls.{AtMost, after_reads, faults_after};
ghost use Rattle.lsm_device.specs.Disk.{IsSector, seen};
ghost use Rattle.lsm_device.specs.Medium.{disk};
ghost use Rattle.lsm_device.specs.Refusals.{faultless};
ghost use Rattle.lsm_image.specs.Media.{begun, medium_in};

use crate::device::ImageDevice;
use crate::laid::Laid;
use lsm_device::{Calls, Device, Refusal};
use std::alloc::{AllocError, Allocator, Global};
use std::marker::Model;

/// The sectors of a device as they read, one after another, by one read of each. It fails with `NoMemory`, and with `Io` where
/// a read failed, which was its last.
pub fn sectors_of<A: Allocator, D: Device>(
    alloc: A,
    device: &mut D,
) -> Result<Vec<[u8; 512], A>, Refusal>
    requires { IsTrue (D.medium device.old).lasting.tells }
    ensures sectors { IfOk result (λ sectors. sectors.items ≡ seen (disk (D.medium device.old))) }
    ensures unchanged { (D.medium device.new).history ≡ (D.medium device.old).history }
    ensures refused { IfErr result
        (λ refusal. (refusal ≡ Refusal.NoMemory) ⊎ (refusal ≡ Refusal.Io)) }
    ensures counted { OnOk result
        ((D.medium device.new).calls
        ≡ after_reads (D.medium device.old).size (D.medium device.old).calls) }
    ensures counts { AtMost (D.medium device.old).size 0 0 (D.medium device.old).calls
        (D.medium device.new).calls }
    ensures faults { (D.medium device.new).calls.faults
        ≡ faults_after (faultless result) (D.medium device.old).calls.faults }
    ensures stops { IfErr result
        (λ refusal. refusal ≡ Refusal.Io → IsTrue (D.medium device.new).calls.last_faulted) }
    ensures same_size { (D.medium device.new).size ≡ (D.medium device.old).size }
    ensures same_lasting { (D.medium device.new).lasting ≡ (D.medium device.old).lasting }
{
    let count = device.sectors();
    let mut sectors = Vec::with_capacity(alloc, count as usize)?;
    for at in 0..count {
        let mut bytes = [0; 512];
        device.read(at, &mut bytes)?;
        sectors.push(bytes)?;
    }
    Ok(sectors)
}

/// The sectors that a crash left, kept as the sectors that they differ from, and the writes made on these. Contracts see the
/// sectors. To copy one costs as much as the writes, however large the device is.
#[derive(Drop)]
pub struct Image<'a, A: Allocator = Global> {
    pub(crate) base: &'a [[u8; 512]],
    pub(crate) laid: Vec<Laid, A>,
}

impl<'a, A: Allocator> Model for Image<'a, A> {
    ghost use Rattle.std.specs.Prelude.{List, ℕ};
    ghost use Rattle.lsm_image.specs.Laid.{image_of, IsImage};

    ghost Value = { List (List ℕ) };

    ghost view = { λ i. image_of i.base.now i.laid.items };

    ghost invariant = { λ i. IsImage i.base.now i.laid.items };
}

impl<'a, A: Allocator + Clone> Image<'a, A> {
    /// These sectors themselves.
    pub fn of(alloc: A, sectors: &'a [[u8; 512]]) -> Image<'a, A>
        requires size { length sectors.now < 2 ^ 32 }
        requires whole { All IsSector sectors.now }
        ensures { result ≡ sectors.now }
    {
        Image {
            base: sectors,
            laid: Vec::new(alloc),
        }
    }

    /// A device that holds the image, with nothing pending. With a fuse, this number of its writes and syncs answer Ok, and each
    /// later one faults; a write that it faults on pends.
    pub fn device(&self, alloc: A, fuse: Option<u64>) -> Result<ImageDevice<'a, A>, AllocError>
        ensures { IfOk result (λ device. medium_in device ≡ begun self.now fuse) }
    {
        let laid = Vec::from_slice(alloc.clone()?, &self.laid)?;
        Ok(ImageDevice {
            base: self.base,
            laid,
            made: Vec::new(alloc),
            standing: 0,
            fuse,
            calls: Calls::NONE,
        })
    }
}
