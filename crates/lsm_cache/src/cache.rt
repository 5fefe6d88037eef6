//! The cache.

ghost use Rattle.std.specs.Prelude.{◌≡◌, ◌+◌, ◌≤◌, ◌<◌, ◌⊎◌, ℕ, Option, [], None, Some, IsTrue, IfOk, IfSome, OnOk, OnErr, IfErr};
ghost use Rattle.std.specs.Bool.{OnTrue, OnFalse};
ghost use Rattle.lsm_device.specs.Calls.{AtMost, faults_after};
ghost use Rattle.lsm_device.specs.Disk.{seen};
ghost use Rattle.lsm_device.specs.Medium.{disk};
ghost use Rattle.lsm_device.specs.Refusals.{faultless};
ghost use Rattle.lsm_cache.specs.Recency.{named_block, bytes_of, sectors_read, asked, refused, IsAsked};
ghost use Rattle.lsm_cache.specs.Reads.{block_at, after_reads, FaultsAmong};
ghost use Rattle.lsm_cache.specs.Fresh.{IsFresh, IsNumberedBelow};
ghost use Rattle.lsm_cache.specs.declared.name.BlockName.{BlockName as Name};

use crate::BlockName;
use crate::block_bytes::BlockBytes;
use lru::{DefaultHasher, LruCache};
use lsm_device::{Device, Refusal};
use std::alloc::{AllocError, Allocator, Global};
use std::marker::Model;
use std::num::NonZeroUsize;
use std::sync::Arc;

/// The blocks that were asked for last, with their bytes. Each block has memory of its own, which is shared with who asked for it.
#[derive(Drop)]
pub struct Cache<A: Allocator = Global> {
    blocks: LruCache<BlockName, Arc<[u8; 4_096], A>, DefaultHasher, A>,
    refusals: u64,
}

impl<A: Allocator> Model for Cache<A> {
    ghost use Rattle.std.specs.Prelude.{map};
    ghost use Rattle.lsm_cache.specs.Recency.{Cached, named_bytes};

    ghost Value = { Cached };

    ghost view = { λ c. record { blocks = map named_bytes c.blocks.entries; capacity = c.blocks.cap; refusals = c.refusals } };
}

impl<A: Allocator + Clone> Cache<A> {
    /// A cache that keeps no block yet, and at most this many, from 1 to 4,096. It takes memory for their names alone.
    pub fn new(alloc: A, capacity: u16) -> Result<Cache<A>, AllocError>
        requires low { 1 ≤ capacity }
        requires high { capacity ≤ 4096 }
        ensures { IfOk result (λ c. c ≡ record { blocks = []; capacity = capacity; refusals = 0 }) }
    {
        let capacity = NonZeroUsize::new(capacity as usize).unwrap();
        let blocks = LruCache::new(alloc, capacity)?;
        Ok(Cache {
            blocks,
            refusals: 0,
        })
    }

    /// Reads a block of a table, which is in the eight sectors from `sector` on: from the cache, or else from the device. It
    /// is then the most recently used block, and where there are too many the least recently used one is evicted. A block for
    /// which there is no memory is read all the same, but not kept, and counted among the refusals. A read that faults ends
    /// the call with `Io`; then `out` may have changed, and the cache has not. A block that
    /// is kept takes no memory.
    pub fn get<D: Device>(
        &mut self,
        table: u64,
        block: u8,
        sector: u32,
        device: &mut D,
        out: &mut [u8; 4_096],
    ) -> Result<(), Refusal>
        requires { sector + 8 ≤ (D.medium device.old).size }

        // A block that is kept is read from the cache, whatever the device holds, and any other from the device.
        ensures kept { OnOk result
            (IfSome (bytes_of (named_block table block) self.old) (λ bytes. out.new ≡ bytes)) }
        ensures read { IsTrue (D.medium device.old).lasting.tells
            → OnOk result (bytes_of (named_block table block) self.old ≡ None
            → out.new ≡ block_at (seen (disk (D.medium device.old))) sector) }

        // It is then the most recently used block, unless memory for it was refused.
        ensures keeps { OnOk result (IsAsked (named_block table block) out.new self.old self.new) }
        ensures stays { OnErr result (self.new ≡ self.old) }
        ensures same_capacity { self.new.capacity ≡ self.old.capacity }

        // Where the kept blocks are those of the device, so is this one, and they are so after the call.
        ensures answers { (place : Name → Option ℕ) → place (named_block table block) ≡ Some sector
            → IsTrue (D.medium device.old).lasting.tells
            → IsFresh place (seen (disk (D.medium device.old))) self.old
            → OnOk result (out.new ≡ block_at (seen (disk (D.medium device.old))) sector) }
        ensures fresh { (place : Name → Option ℕ) → place (named_block table block) ≡ Some sector
            → IsTrue (D.medium device.old).lasting.tells
            → IsFresh place (seen (disk (D.medium device.old))) self.old
            → IsFresh place (seen (disk (D.medium device.new))) self.new }
        ensures numbered { (number : ℕ) → table < number → IsNumberedBelow number self.old
            → IsNumberedBelow number self.new }

        // It fails only where a read faulted, its last call, of a block that isn't kept.
        ensures refused { IfErr result (λ refusal. refusal ≡ Refusal.Io) }
        ensures absent { OnErr result (bytes_of (named_block table block) self.old ≡ None) }
        ensures faulted { OnErr result
            (FaultsAmong 8 (D.medium device.old).calls (D.medium device.new).calls) }
        ensures faults { (D.medium device.new).calls.faults
            ≡ faults_after (faultless result) (D.medium device.old).calls.faults }
        ensures stops { OnErr result (IsTrue (D.medium device.new).calls.last_faulted) }

        // A block that isn't kept is read, and nothing else is done to the device.
        ensures counted { OnOk result
            ((D.medium device.new).calls
            ≡ after_reads (sectors_read (named_block table block) self.old)
            (D.medium device.old).calls) }
        ensures calls { AtMost 8 0 0 (D.medium device.old).calls (D.medium device.new).calls }
        ensures unchanged { IsTrue (D.medium device.old).lasting.tells
            → (D.medium device.new).history ≡ (D.medium device.old).history }
        ensures same_size { (D.medium device.new).size ≡ (D.medium device.old).size }
        ensures same_lasting { (D.medium device.new).lasting ≡ (D.medium device.old).lasting }
    {
        let mut bytes = BlockBytes::new();
        self.ask(BlockName { table, block }, sector, device, &mut bytes)?;
        *out = *bytes.as_array();
        Ok(())
    }

    /// As [`Cache::get`], but a block that is kept isn't copied: its bytes are shared.
    pub fn ask<D: Device>(
        &mut self,
        name: BlockName,
        sector: u32,
        device: &mut D,
        out: &mut BlockBytes<A>,
    ) -> Result<(), Refusal>
        requires { sector + 8 ≤ (D.medium device.old).size }

        // A block that is kept is that of the cache, whatever the device holds, and any other is read from the device.
        ensures kept { OnOk result (IfSome (bytes_of name self.old) (λ bytes. out.new ≡ bytes)) }
        ensures read { IsTrue (D.medium device.old).lasting.tells
            → OnOk result (bytes_of name self.old ≡ None
            → out.new ≡ block_at (seen (disk (D.medium device.old))) sector) }

        // It is then the most recently used block, unless memory for it was refused.
        ensures keeps { OnOk result (IsAsked name out.new self.old self.new) }
        ensures stays { OnErr result (self.new ≡ self.old) }

        // It fails only where a read faulted, its last call, of a block that isn't kept.
        ensures refused { IfErr result (λ refusal. refusal ≡ Refusal.Io) }
        ensures absent { OnErr result (bytes_of name self.old ≡ None) }
        ensures faulted { OnErr result
            (FaultsAmong 8 (D.medium device.old).calls (D.medium device.new).calls) }

        // A block that isn't kept is read, and nothing else is done to the device.
        ensures counted { OnOk result
            ((D.medium device.new).calls
            ≡ after_reads (sectors_read name self.old) (D.medium device.old).calls) }
        ensures unchanged { IsTrue (D.medium device.old).lasting.tells
            → (D.medium device.new).history ≡ (D.medium device.old).history }
        ensures same_size { (D.medium device.new).size ≡ (D.medium device.old).size }
        ensures same_lasting { (D.medium device.new).lasting ≡ (D.medium device.old).lasting }
    {
        if self.find(name, out) {
            return Ok(());
        }
        out.read(self.blocks.allocator(), device, sector)?;
        self.keep(name, out);
        Ok(())
    }

    /// How often memory for a block was refused. The number wraps.
    pub fn refusals(&self) -> u64
        ensures { result ≡ self.now.refusals }
    {
        self.refusals
    }

    /// Shows a block that is kept, which is then the most recently used one. Returns whether it is kept.
    fn find(&mut self, name: BlockName, out: &mut BlockBytes<A>) -> bool
        ensures found { OnTrue result (bytes_of name self.old ≡ Some out.new) }
        ensures keeps { OnTrue result (self.new ≡ asked name out.new self.old) }
        ensures absent { OnFalse result (bytes_of name self.old ≡ None) }
        ensures stays { OnFalse result (self.new ≡ self.old) }
    {
        // The cache has no name twice.
        prove!(self.blocks.len() <= self.blocks.cap().get());
        if let Some(bytes) = self.blocks.get(&name) {
            out.show(bytes);
            return true;
        }
        false
    }

    /// Keeps a block that is not kept yet, where there is memory for it.
    fn keep(&mut self, name: BlockName, bytes: &BlockBytes<A>)
        requires { bytes_of name self.old ≡ None }
        ensures { (self.new ≡ asked name bytes.now self.old) ⊎ (self.new ≡ refused self.old) }
    {
        if self.put(name, bytes).is_err() {
            self.refusals = self.refusals.wrapping_add(1);
        }
    }

    /// Keeps it, or changes nothing.
    fn put(&mut self, name: BlockName, bytes: &BlockBytes<A>) -> Result<(), AllocError>
        requires { bytes_of name self.old ≡ None }
        ensures keeps { OnOk result (self.new ≡ asked name bytes.now self.old) }
        ensures stays { OnErr result (self.new ≡ self.old) }
    {
        prove!(self.blocks.cap().get() > 0);
        let block = bytes.shared()?;
        self.blocks.put(name, block)?;
        Ok(())
    }
}
