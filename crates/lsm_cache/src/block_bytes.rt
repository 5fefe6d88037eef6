//! The bytes of a block that was asked for.

ghost use Rattle.std.specs.Prelude.{◌≡◌, ◌+◌, ◌≤◌, ℕ, replicate, Ok, None, IsTrue, IfOk, IfSome, OnOk, OnErr};
ghost use Rattle.std.specs.Arc.{arc_value};
ghost use Rattle.lsm_device.specs.Disk.{seen};
ghost use Rattle.lsm_device.specs.Medium.{disk};
ghost use Rattle.lsm_cache.specs.Recency.{read_or_zeros};
ghost use Rattle.lsm_cache.specs.Reads.{block_at, after_reads, FaultsAmong};

use crate::read::read_block;
use lsm_device::{Device, Fault};
use std::alloc::{AllocError, Allocator, Global};
use std::marker::Model;
use std::sync::Arc;

/// What is shown before any block is.
static ZEROS: [u8; 4_096] = [0; 4_096];

/// The bytes of a block that was asked for, in memory that is shared with the cache, so that they are not copied. A block for which there
/// was no such memory has room of its own.
#[derive(Drop)]
pub struct BlockBytes<A: Allocator = Global> {
    kept: Option<Arc<[u8; 4_096], A>>,
    own: Option<[u8; 4_096]>,
}

impl<A: Allocator> Model for BlockBytes<A> {
    ghost use Rattle.std.specs.Prelude.{ℕ, List};
    ghost use Rattle.lsm_cache.specs.Recency.{kept_or, read_or_zeros};

    ghost Value = { List ℕ };

    ghost view = { λ b. kept_or (read_or_zeros b.own) b.kept };
}

/// Reads a block into memory that can be shared. None where there is none; then the device isn't asked.
fn read_shared<D: Device, A: Allocator + Clone>(
    alloc: &A,
    device: &mut D,
    sector: u32,
) -> Result<Option<Arc<[u8; 4_096], A>>, Fault>
    requires { sector + 8 ≤ (D.medium device.old).size }
    ensures given { IsTrue (D.medium device.old).lasting.tells → IfOk result (λ read. IfSome read
        (λ bytes. arc_value bytes ≡ block_at (seen (disk (D.medium device.old))) sector)) }
    ensures counted { IfOk result (λ read. IfSome read
        (λ bytes. (D.medium device.new).calls ≡ after_reads 8 (D.medium device.old).calls)) }
    ensures unread { result ≡ Ok None → device.new ≡ device.old }
    ensures faulted { OnErr result
        (FaultsAmong 8 (D.medium device.old).calls (D.medium device.new).calls) }
    ensures unchanged { IsTrue (D.medium device.old).lasting.tells
        → (D.medium device.new).history ≡ (D.medium device.old).history }
    ensures same_size { (D.medium device.new).size ≡ (D.medium device.old).size }
    ensures same_lasting { (D.medium device.new).lasting ≡ (D.medium device.old).lasting }
{
    let Ok(alloc) = alloc.clone() else {
        return Ok(None);
    };
    let Ok(mut shared) = Arc::new(alloc, [0; 4_096]) else {
        return Ok(None);
    };
    let Some(bytes) = Arc::get_mut(&mut shared) else {
        return Ok(None);
    };
    read_block(device, sector, bytes)?;
    Ok(Some(shared))
}

fn bytes_or_zeros(bytes: &Option<[u8; 4_096]>) -> &[u8; 4_096]
    ensures { result.now ≡ read_or_zeros bytes.now }
{
    match bytes {
        Some(bytes) => bytes,
        None => &ZEROS,
    }
}

impl<A: Allocator> BlockBytes<A> {
    /// Zeros. It takes no memory.
    pub fn new() -> BlockBytes<A>
        ensures { result ≡ replicate {A = ℕ} 4096 0 }
    {
        BlockBytes {
            kept: None,
            own: None,
        }
    }

    /// The bytes.
    pub fn as_array(&self) -> &[u8; 4_096]
        ensures { result.now ≡ self.now }
    {
        match &self.kept {
            Some(bytes) => bytes,
            None => bytes_or_zeros(&self.own),
        }
    }

    /// Memory that can be shared with these bytes, where they have it.
    pub(crate) fn shared(&self) -> Result<Arc<[u8; 4_096], A>, AllocError>
        ensures { IfOk result (λ bytes. arc_value bytes ≡ self.now) }
    {
        match &self.kept {
            Some(bytes) => Ok(bytes.clone()?),
            None => Err(AllocError),
        }
    }

    /// Becomes the bytes of a block that the cache keeps.
    pub(crate) fn show(&mut self, kept: &Arc<[u8; 4_096], A>)
        ensures { self.new ≡ arc_value kept.now }
    {
        match kept.clone() {
            Ok(kept) => self.kept = Some(kept),
            Err(_) => {
                self.own = Some(**kept);
                self.kept = None;
            }
        }
    }

    /// Reads a block, as [`read_block`] does, into memory that a cache can keep if there is some.
    pub(crate) fn read<D: Device>(
        &mut self,
        alloc: &A,
        device: &mut D,
        sector: u32,
    ) -> Result<(), Fault>
    where
        A: Clone,
        requires { sector + 8 ≤ (D.medium device.old).size }
        ensures given { IsTrue (D.medium device.old).lasting.tells
            → OnOk result (self.new ≡ block_at (seen (disk (D.medium device.old))) sector) }
        ensures counted { OnOk result
            ((D.medium device.new).calls ≡ after_reads 8 (D.medium device.old).calls) }
        ensures faulted { OnErr result
            (FaultsAmong 8 (D.medium device.old).calls (D.medium device.new).calls) }
        ensures unchanged { IsTrue (D.medium device.old).lasting.tells
            → (D.medium device.new).history ≡ (D.medium device.old).history }
        ensures same_size { (D.medium device.new).size ≡ (D.medium device.old).size }
        ensures same_lasting { (D.medium device.new).lasting ≡ (D.medium device.old).lasting }
    {
        self.kept = read_shared(alloc, device, sector)?;
        if self.kept.is_some() {
            return Ok(());
        }
        let mut own = [0; 4_096];
        read_block(device, sector, &mut own)?;
        self.own = Some(own);
        Ok(())
    }
}
