//! The memory table of a log that is closed.

ghost use Rattle.std.specs.Prelude.{◌≡◌, ◌++◌, [], IfOk, OnOk, IfErr, option_map, option_and_then, filter, filter_map};
ghost use Rattle.std.specs.Arc.{arc_value};
ghost use Rattle.std.specs.List.{AllByRecursion};
ghost use Rattle.std.specs.Ordering.{is_le};
ghost use Rattle.std.specs.FinMap as finite;
ghost use Rattle.lsm_codec.specs.Keys.{byte_order};
ghost use Rattle.lsm_codec.specs.References.{shown};
ghost use Rattle.lsm_codec.specs.Versions.{newest, IsEntry, AreOrdered};
ghost use Rattle.lsm_mem.specs.Versions.{map_of};
ghost use Rattle.lsm_mem.specs.Sizes.{Covers, no_size};
ghost use Rattle.lsm_mem.specs.Ranges.{newest_each, from_key, put_pair, HaveAscendingKeys};

use crate::iter::Range;
use crate::mem::Mem;
use crate::size::MemSize;
use crate::walk::AllVersions;
use lsm_codec::{Entry, Gathered, VersionRef};
use std::alloc::{AllocError, Allocator, Global};
use std::marker::Model;
use std::sync::Arc;

/// The bytes that fill a block of memory which entries share. It has room for one version more.
const GATHERED_BYTES: usize = 16_384;

/// Room for the versions whose entries share the next block of memory.
fn gathering<A: Allocator + Clone>(alloc: &A) -> Result<Gathered<A>, AllocError>
    ensures { IfOk result (λ gathered. gathered ≡ []) }
{
    Gathered::with_capacity(alloc.clone()?, GATHERED_BYTES + 2_303, 64)
}

/// Moves the versions that were gathered to the entries, if they fill their block of memory.
fn move_if_full<A: Allocator + Clone>(
    alloc: &A,
    gathered: &mut Gathered<A>,
    entries: &mut Vec<Entry<A>, A>,
) -> Result<(), AllocError>
    ensures { OnOk result (entries.new.items ++ gathered.new ≡ entries.old.items ++ gathered.old) }
{
    if gathered.bytes() < GATHERED_BYTES {
        return Ok(());
    }
    let full = std::mem::replace(gathered, gathering(alloc)?);
    entries.append(&mut full.into_entries()?)?;
    Ok(())
}

/// Every version of every key, of a memory table that takes no more batches. Contracts see the list of versions, by key
/// and of a key the newest first.
#[derive(Drop)]
pub struct Sealed<A: Allocator = Global> {
    mem: Mem<A>,
}

impl<A: Allocator> Model for Sealed<A> {
    ghost use Rattle.std.specs.Prelude.{List};
    ghost use Rattle.lsm_codec.specs.Versions.{Version};

    ghost Value = { List Version };

    ghost view = { λ s. s.mem };
}

impl<A: Allocator + Clone> Mem<A> {
    /// Ends the table's growth, so that it can be shared. It copies no version. Where memory is refused, the table is handed
    /// back.
    pub fn seal(self) -> Result<Arc<Sealed<A>, A>, Mem<A>>
        ensures sealed { IfOk result (λ sealed. arc_value sealed ≡ self) }
        ensures handed_back { IfErr result (λ mem. mem ≡ self) }
    {
        let Ok(alloc) = self.allocator().clone() else {
            return Err(self);
        };
        match Arc::new(alloc, Sealed { mem: self }) {
            Ok(sealed) => Ok(sealed),
            Err(refused) => Err(refused.value.mem),
        }
    }
}

impl<A: Allocator> Sealed<A> {
    /// The newest version of a key that is numbered at most `at`.
    pub fn get(&self, key: &[u8], at: u64) -> Option<VersionRef<'_>>
        ensures version { option_map shown result ≡ newest key.now at self.now }

        // Its value is what the map at `at` has at the key.
        ensures value { option_and_then (λ v. v.value) (option_map shown result)
            ≡ finite.get (map_of self.now at) key.now }
    {
        self.mem.get(key, at)
    }

    /// The newest versions at `at` of the key `from` and of the keys after it, in order. Memory is asked for a copy of `from`
    /// alone.
    pub fn range(&self, from: &[u8], at: u64) -> Result<Range<'_, A>, AllocError>
    where
        A: Clone,
        ensures versions { IfOk result
            (λ range. range ≡ from_key from.now (newest_each at self.now)) }
        ensures ascending { IfOk result (λ range. HaveAscendingKeys range) }

        // The puts among them are the pairs of the map at `at` from this key on.
        ensures pairs { IfOk result
            (λ range. filter_map put_pair range
            ≡ filter (λ pair. is_le (byte_order from.now pair.0))
            (finite.entries (map_of self.now at))) }
    {
        Ok(self.mem.range(from, at)?)
    }

    /// All versions, in the order of entries. It takes no memory.
    pub fn versions(&self) -> AllVersions<'_, A>
        ensures all { result ≡ self.now }
        ensures ordered { AreOrdered self.now }
    {
        self.mem.versions()
    }

    /// How large the versions are at most.
    pub fn size(&self) -> MemSize
        ensures covers { Covers self.now result }
        ensures none { self.now ≡ [] → result ≡ no_size }
    {
        self.mem.size()
    }

    /// Copies of all versions, in the order of entries: the run that a flush is made of.
    pub fn entries(&self, alloc: A) -> Result<Vec<Entry<A>, A>, AllocError>
    where
        A: Clone,
        requires { AllByRecursion IsEntry self.now }
        ensures all { IfOk result (λ entries. entries.items ≡ self.now) }
        ensures ordered { IfOk result (λ entries. AreOrdered entries.items) }
    {
        let mut entries = Vec::new(alloc.clone()?);
        let mut gathered = gathering(&alloc)?;
        for version in self.versions() {
            move_if_full(&alloc, &mut gathered, &mut entries)?;
            gathered.push(version)?;
        }
        entries.append(&mut gathered.into_entries()?)?;
        Ok(entries)
    }
}
