// The entries of a table are read, block by block.
ghost use Rattle.std.specs.Prelude.{◌≡◌, ◌⊎◌, ◌≤◌, ◌<◌, ◌+◌, ◌*◌, true, Some, None, length, IsTrue, IfOk, OnOk, IfErr};
ghost use Rattle.lsm_cache.specs.Reads.{block_at};
ghost use Rattle.lsm_codec.specs.Entries.{block_of};
ghost use Rattle.lsm_device.specs.Disk.{seen};
ghost use Rattle.lsm_device.specs.Medium.{disk};
ghost use Rattle.lsm_device.specs.Refusals.{faultless};
ghost use Rattle.lsm_levels.specs.Stored.{LiesWithin, IsStored};
ghost use Rattle.lsm_open.specs.ReadParts.{ReadsAtMost};
ghost use Rattle.lsm_check.specs.Counted.{ReadsBetween};
ghost use Rattle.lsm_check.specs.Found.{IsBlockRefusal, IsOfTable};
ghost use Rattle.lsm_check.specs.Images.{IsNoVerdict, IsNoMemoryOrIo, is_faultless};
ghost use Rattle.lsm_check.specs.Sound.{AreRead, ends_with};

use crate::finding::Finding;
use lsm_cache::read_block;
use lsm_codec::{Edge, Entry};
use lsm_device::{Device, Refusal};
use lsm_levels::PlacedTable;
use lsm_table::decode_data_block;
use std::alloc::Allocator;

// The entries that the bytes of a block spell. `BadTable` exactly where they spell none.
fn decode<A: Allocator + Clone>(alloc: &A, block: &[u8; 4_096]) -> Result<Vec<Entry<A>, A>, Refusal>
    ensures spelled { IfOk result (λ entries. block_of block.now ≡ Some entries.items) }
    ensures refused { IfErr result
        (λ refusal. (refusal ≡ Refusal.NoMemory)
        ⊎ ((refusal ≡ Refusal.BadTable) × (block_of block.now ≡ None))) }
{
    Ok(decode_data_block(alloc, block)?)
}

// The entries of the data block that begins with a sector.
fn read_entries<D: Device, A: Allocator + Clone>(
    alloc: &A,
    device: &mut D,
    sector: u32,
) -> Result<Vec<Entry<A>, A>, Refusal>
    requires { sector + 8 ≤ (D.medium device.old).size }
    ensures spelled { IsTrue (D.medium device.old).lasting.tells → IfOk result (λ entries.
        block_of (block_at (seen (disk (D.medium device.old))) sector) ≡ Some entries.items) }
    ensures refused { IfErr result
        (λ refusal. IsNoMemoryOrIo refusal ⊎ ((refusal ≡ Refusal.BadTable)
        × (IsTrue (D.medium device.old).lasting.tells
        → block_of (block_at (seen (disk (D.medium device.old))) sector) ≡ None))) }
    ensures device { ReadsAtMost 8 (faultless result) (D.medium device.old) (D.medium device.new) }
    ensures whole { OnOk result
        (ReadsBetween 8 8 (D.medium device.old).calls (D.medium device.new).calls) }
{
    let mut block = [0; 4_096];
    read_block(device, sector, &mut block)?;
    Ok(decode(alloc, &block)?)
}

// Whether the last of these entries has the key and the number of an edge.
fn ends_with<A: Allocator>(entries: &[Entry<A>], edge: &Edge<A>) -> bool
    ensures { result ≡ ends_with entries.now edge.now }
{
    match entries.last() {
        Some(last) => last.number() == edge.number() && last.key().cmp(edge.key()).is_eq(),
        None => false,
    }
}

// Reads the data block of a table at a place, and adds its entries. Returns whether this block ends as the table's index
// tells, and those before it did.
fn add_block<D: Device, A: Allocator + Clone>(
    alloc: &A,
    device: &mut D,
    area: u32,
    table: &PlacedTable<A>,
    place: usize,
    before: bool,
    entries: &mut Vec<Entry<A>, A>,
) -> Result<bool, Refusal>
    requires within { LiesWithin (D.medium device.old).size area table.now }
    requires place { place < length table.now.outline.edges }
    ensures read { IsTrue (D.medium device.old).lasting.tells
        → IfOk result (λ ends. ends ≡ true → (before ≡ true
        → AreRead (seen (disk (D.medium device.old))) area place table.now entries.old.items)
        → AreRead (seen (disk (D.medium device.old))) area
        (place + 1) table.now entries.new.items) }
    ensures stored { IsTrue (D.medium device.old).lasting.tells
        → IsStored (seen (disk (D.medium device.old))) area table.now → before ≡ true
        → IfOk result (λ ends. ends ≡ true) }
    ensures fair { IsTrue (D.medium device.old).lasting.tells
        → IsStored (seen (disk (D.medium device.old))) area table.now
        → IfErr result IsNoMemoryOrIo }
    ensures refused { IfErr result IsBlockRefusal }
    ensures device { ReadsAtMost 8 (faultless result) (D.medium device.old) (D.medium device.new) }
    ensures whole { OnOk result
        (ReadsBetween 8 8 (D.medium device.old).calls (D.medium device.new).calls) }
{
    let edges = table.table().edges();
    let sector = area + 8 * (table.first_block() + place as u32);
    let mut block = read_entries(alloc, device, sector)?;
    let ends = ends_with(&block, &edges[place]);
    entries.append(&mut block)?;
    Ok(before & ends)
}

/// Reads the entries of a table, which are those that its data blocks spell, each of which ends as the table's index tells. All
/// blocks are read before one with another end is told, so that one that spells no entries is told first.
pub(crate) fn entries_of<D: Device, A: Allocator + Clone>(
    alloc: &A,
    device: &mut D,
    area: u32,
    table: &PlacedTable<A>,
) -> Result<Vec<Entry<A>, A>, Finding>
    requires { LiesWithin (D.medium device.old).size area table.now }
    ensures read { IsTrue (D.medium device.old).lasting.tells → IfOk result (λ entries.
        AreRead (seen (disk (D.medium device.old))) area (length table.now.outline.edges) table.now
        entries.items) }
    ensures fair { IsTrue (D.medium device.old).lasting.tells
        → IsStored (seen (disk (D.medium device.old))) area table.now → IfErr result IsNoVerdict }
    ensures refused { IfErr result (IsOfTable table.now.number) }
    ensures device { ReadsAtMost 512 (is_faultless result) (D.medium device.old)
        (D.medium device.new) }
    ensures whole { OnOk result
        (ReadsBetween (8 * length table.now.outline.edges) 512 (D.medium device.old).calls
        (D.medium device.new).calls) }
{
    let mut entries = Vec::new(alloc.clone()?);
    let mut ends = true;
    for place in 0..table.table().data_blocks() {
        ends = add_block(alloc, device, area, table, place, ends, &mut entries)?;
    }
    if !ends {
        return Err(Finding::Entries(table.number()));
    }
    Ok(entries)
}
