// A device in memory that begins on an image.
ghost use Rattle.std.specs.Prelude.{◌≡◌, ◌<◌, ◌≤◌, ◌∷◌, IfOk, Some, is_ok, map, length};
ghost use Rattle.std.specs.Bool.{OnTrue, OnFalse};
ghost use Rattle.lsm_device.specs.Disk.{image, appended, synced};
ghost use Rattle.lsm_device.specs.History.{Becomes};
ghost use Rattle.lsm_device.specs.Made.{GoTogether};
ghost use Rattle.lsm_device.specs.Medium.{disk, KeepsFuse};
ghost use Rattle.lsm_image.specs.Laid.{image_of, made_of, now_of, IsImage};

use crate::image::Image;
use crate::laid::{Laid, add_kept, lay_over};
use lsm_device::{Calls, Device, Fault};
use std::alloc::{AllocError, Allocator, Global};

/// A device in memory that began on an image, and keeps the writes that were made on it since. It tells contracts what it
/// holds. What a crash would leave of it is an image again, and the device stays as it is; so every crash of one moment can be
/// looked at, and each costs as much as the writes.
#[derive(Drop)]
pub struct ImageDevice<'a, A: Allocator = Global> {
    pub(crate) base: &'a [[u8; 512]],
    pub(crate) laid: Vec<Laid, A>,
    pub(crate) made: Vec<Laid, A>,
    pub(crate) standing: usize,
    pub(crate) fuse: Option<u64>,
    pub(crate) calls: Calls,
    ghost is_image: { IsImage base.now laid.items },
    ghost go_together: { GoTogether (image_of base.now laid.items) (now_of base.now laid.items made.items) (map made_of made.items) standing },
    ghost keeps_fuse: { KeepsFuse fuse calls },
}

impl<'a, A: Allocator> ImageDevice<'a, A> {
    ghost use Rattle.lsm_image.specs.Media.{medium_in, goes_well};

    /// How many writes pend.
    pub fn pending(&self) -> usize
        ensures { result ≡ length (disk (medium_in self.now)).pending }
    {
        self.made.len() - self.standing
    }

    /// Its calls so far.
    pub fn calls(&self) -> Calls
        ensures { result ≡ (medium_in self.now).calls }
    {
        self.calls
    }

    /// What a crash leaves now: of the pending writes it keeps, in their order, those whose place in `keep` is true. A place
    /// that is missing is false.
    pub fn left(&self, alloc: A, keep: &[bool]) -> Result<Image<'a, A>, AllocError>
        ensures { IfOk result (λ left. left ≡ image keep.now (disk (medium_in self.now))) }
    {
        let (stand, pend) = self.made.split_at(self.standing);
        let mut laid = Vec::from_slice(alloc, &self.laid)?;
        laid.extend_from_slice(stand)?;
        add_kept(&mut laid, pend, keep)?;
        Ok(Image {
            base: self.base,
            laid,
        })
    }

    // Whether the next write or sync answers Ok.
    fn goes_well(&self) -> bool
        ensures { result ≡ goes_well (medium_in self.now) }
    {
        match self.fuse {
            Some(fuse) => self.calls.passed < fuse,
            None => true,
        }
    }

    // Adds a write, where there is memory for it.
    fn append(&mut self, at: u32, bytes: &[u8; 512]) -> bool
        requires { at < (medium_in self.old).size }
        ensures appended { OnTrue result ((medium_in self.new).history
            ≡ appended (record { at = at; bytes = bytes.now }) (disk (medium_in self.old))
            ∷ (medium_in self.old).history) }
        ensures not_appended { OnFalse result
            ((medium_in self.new).history ≡ (medium_in self.old).history) }
        ensures same_size { (medium_in self.new).size ≡ (medium_in self.old).size }
        ensures same_calls { (medium_in self.new).calls ≡ (medium_in self.old).calls }
        ensures same_lasting { (medium_in self.new).lasting ≡ (medium_in self.old).lasting }
    {
        let write = Laid {
            at,
            bytes: *bytes,
            sync_followed: false,
        };
        if self.made.push(write).is_err() {
            return false;
        }
        true
    }

    // Makes all pending writes durable.
    fn settle(&mut self)
        ensures stands { Becomes (synced (disk (medium_in self.old))) (medium_in self.old).history
            (medium_in self.new).history }
        ensures same_size { (medium_in self.new).size ≡ (medium_in self.old).size }
        ensures same_calls { (medium_in self.new).calls ≡ (medium_in self.old).calls }
        ensures same_lasting { (medium_in self.new).lasting ≡ (medium_in self.old).lasting }
    {
        if self.standing < self.made.len() {
            let last = self.made.len() - 1;
            self.made[last].sync_followed = true;
            self.standing = self.made.len();
        }
    }
}

// The result of a call: Ok if it succeeded, else a fault.
fn answer(ok: bool) -> Result<(), Fault>
    ensures { is_ok result ≡ ok }
{
    if ok { Ok(()) } else { Err(Fault) }
}

impl<'a, A: Allocator> Device for ImageDevice<'a, A> {
    ghost use Rattle.std.specs.Prelude.{◌≡◌, ◌<◌, ◌⊎◌, true, IsTrue, OnOk, OnErr, is_ok, slice_get, Some};
    ghost use Rattle.lsm_device.specs.Calls.{after_read, after_write, after_sync};
    ghost use Rattle.lsm_device.specs.Disk.{seen, appended, synced};
    ghost use Rattle.lsm_device.specs.History.{Becomes};
    ghost use Rattle.lsm_device.specs.Medium.{disk};
    ghost use Rattle.lsm_image.specs.Media.{medium_in, goes_well, history_sound, fuses_kept, size_small};

    ghost medium = { medium_in };

    ghost sound = { λ d t. history_sound d };

    ghost keeps_fuses = { λ d t. fuses_kept d };

    ghost small = { λ d. size_small d };

    fn sectors(&self) -> u32 {
        self.base.len() as u32
    }

    fn read(&mut self, at: u32, out: &mut [u8; 512]) -> Result<(), Fault>
        requires { at < (medium_in self.old).size }
        ensures bytes { OnOk result
            (slice_get (seen (disk (medium_in self.old))) at ≡ Some out.new) }
        ensures unchanged { (medium_in self.new).history ≡ (medium_in self.old).history }
        ensures counted { (medium_in self.new).calls
            ≡ after_read (is_ok result) (medium_in self.old).calls }
        ensures same_size { (medium_in self.new).size ≡ (medium_in self.old).size }
        ensures same_lasting { (medium_in self.new).lasting ≡ (medium_in self.old).lasting }

        // It always answers Ok.
        ensures answers { is_ok result ≡ true }
    {
        *out = self.base[at as usize];
        lay_over(out, &self.laid, at);
        lay_over(out, &self.made, at);
        self.calls.count_read(true);
        Ok(())
    }

    fn write(&mut self, at: u32, bytes: &[u8; 512]) -> Result<(), Fault>
        requires { at < (medium_in self.old).size }
        ensures pends { OnOk result
            (Becomes (appended (record { at = at; bytes = bytes.now }) (disk (medium_in self.old)))
            (medium_in self.old).history (medium_in self.new).history) }
        ensures may_pend { OnErr result
            (((medium_in self.new).history ≡ (medium_in self.old).history)
            ⊎ Becomes (appended (record { at = at; bytes = bytes.now }) (disk (medium_in self.old)))
            (medium_in self.old).history (medium_in self.new).history) }
        ensures counted { (medium_in self.new).calls
            ≡ after_write (is_ok result) (medium_in self.old).calls }
        ensures same_size { (medium_in self.new).size ≡ (medium_in self.old).size }
        ensures same_lasting { (medium_in self.new).lasting ≡ (medium_in self.old).lasting }

        // It answers Ok as the fuse says, unless memory for the write is refused: then nothing pends.
        ensures goes_well { OnOk result (IsTrue (goes_well (medium_in self.old))) }
        ensures no_memory { IsTrue (goes_well (medium_in self.old))
            → OnErr result ((medium_in self.new).history ≡ (medium_in self.old).history) }
    {
        let goes_well = self.goes_well();
        let appended = self.append(at, bytes);
        let ok = goes_well && appended;
        self.calls.count_write(ok);
        answer(ok)
    }

    fn sync(&mut self) -> Result<(), Fault>
        ensures stands { OnOk result
            (Becomes (synced (disk (medium_in self.old))) (medium_in self.old).history
            (medium_in self.new).history) }
        ensures unchanged { OnErr result
            ((medium_in self.new).history ≡ (medium_in self.old).history) }
        ensures counted { (medium_in self.new).calls
            ≡ after_sync (is_ok result) (medium_in self.old).calls }
        ensures same_size { (medium_in self.new).size ≡ (medium_in self.old).size }
        ensures same_lasting { (medium_in self.new).lasting ≡ (medium_in self.old).lasting }

        // It answers as the fuse says.
        ensures answers { is_ok result ≡ goes_well (medium_in self.old) }
    {
        let ok = self.goes_well();
        if ok {
            self.settle();
        }
        self.calls.count_sync(ok);
        answer(ok)
    }
}
