//! Data blocks of tables are read, and their entries added to a run.

ghost use Rattle.std.specs.Prelude.{◌≡◌, ◌↔◌, ◌⊎◌, ◌≤◌, ◌+◌, ◌-◌, ◌*◌, min, ◌++◌, ◌∷◌, [], List, Err, length, take, drop, IsTrue, IfErr, OnOk};
ghost use Rattle.std.specs.List.{AllByRecursion};
ghost use Rattle.std.specs.Ordering.{is_lt};
ghost use Rattle.lsm_device.specs.declared.refusal.Refusal.TheVariants.{NoMemory, Io, BadTable};
ghost use Rattle.lsm_device.specs.Disk.{seen};
ghost use Rattle.lsm_device.specs.Medium.{disk};
ghost use Rattle.lsm_device.specs.Refusals.{faultless};
ghost use Rattle.lsm_codec.specs.Versions.{Version, AreOrdered, entry_order};
ghost use Rattle.lsm_codec.specs.Entries.{entries_in};
ghost use Rattle.lsm_levels.specs.Stored.{LiesWithin, blocks_from};
ghost use Rattle.lsm_jobs.specs.Gathering.{data_blocks, blocks_in, items_in, GoesOn, IsLonger, ReadsBlocks};

use lsm_cache::read_block;
use lsm_codec::Entry;
use lsm_device::{Device, Refusal};
use lsm_levels::PlacedTable;
use lsm_table::decode_data_block;
use std::alloc::Allocator;
use std::cmp::Ordering;

/// How many data blocks tables have.
pub(crate) fn data_blocks<A: Allocator>(tables: &[PlacedTable<A>]) -> usize
    requires { length tables.now ≤ 1024 }
    ensures count { result ≡ data_blocks tables.now }
    ensures few { result ≤ 64 * length tables.now }
{
    let mut blocks = 0;
    for table in tables {
        blocks += table.table().data_blocks();
    }
    blocks
}

/// Whether an entry is before another one, in the order of entries.
fn is_before<A: Allocator>(entry: &Entry<A>, other: &Entry<A>) -> bool
    ensures { result ≡ is_lt (entry_order entry.now other.now) }
{
    match entry.key().cmp(other.key()) {
        Ordering::Less => true,
        Ordering::Equal => entry.number() > other.number(),
        Ordering::Greater => false,
    }
}

/// Whether an entry comes after the last one of a run.
fn comes_after<A: Allocator>(run: &[Entry<A>], entry: &Entry<A>) -> bool
    requires { AreOrdered run.now }
    ensures { IsTrue result ↔ AreOrdered (run.now ++ entry.now ∷ []) }
{
    match run.last() {
        Some(last) => is_before(last, entry),
        None => true,
    }
}

/// Adds a block's entries to a run. `BadTable` exactly where its bytes are no data block, or where an entry doesn't come after
/// the one before it in the run; then, and where memory is refused, those before may have been added.
fn add_block<A: Allocator + Clone>(
    alloc: &A,
    run: &mut Vec<Entry<A>, A>,
    block: &[u8; 4_096],
) -> Result<(), Refusal>
    requires { AreOrdered run.old.items }
    ensures goes_on { OnOk result (GoesOn run.old.items (entries_in block.now) run.new.items) }
    ensures bad { result ≡ Err BadTable → (new : List Version)
        → GoesOn run.old.items (entries_in block.now) new → ⊥ }
    ensures longer { IsLonger run.old.items run.new.items }
    ensures ordered { AreOrdered run.new.items }
    ensures refused { IfErr result (λ refusal. (refusal ≡ BadTable) ⊎ (refusal ≡ NoMemory)) }
{
    for entry in decode_data_block(alloc, block)? {
        if !comes_after(run, &entry) {
            return Err(Refusal::BadTable);
        }
        run.push(entry)?;
    }
    Ok(())
}

/// Reads `blocks` blocks from a sector on, and adds their entries to a run.
fn read_blocks<D: Device, A: Allocator + Clone>(
    alloc: &A,
    run: &mut Vec<Entry<A>, A>,
    sector: u32,
    blocks: u32,
    device: &mut D,
) -> Result<(), Refusal>
    requires ordered { AreOrdered run.old.items }
    requires within { sector + 8 * blocks ≤ (D.medium device.old).size }
    ensures goes_on { IsTrue (D.medium device.old).lasting.tells → OnOk result
        (GoesOn run.old.items
        (items_in (blocks_from (seen (disk (D.medium device.old))) sector blocks))
        run.new.items) }
    ensures bad { IsTrue (D.medium device.old).lasting.tells → result ≡ Err BadTable
        → (new : List Version)
        → GoesOn run.old.items
        (items_in (blocks_from (seen (disk (D.medium device.old))) sector blocks)) new → ⊥ }
    ensures longer { IsLonger run.old.items run.new.items }
    ensures ordered { AreOrdered run.new.items }
    ensures refused { IfErr result
        (λ refusal. (refusal ≡ Io) ⊎ ((refusal ≡ BadTable) ⊎ (refusal ≡ NoMemory))) }
    ensures device { ReadsBlocks blocks (faultless result) (D.medium device.old)
        (D.medium device.new) }
{
    for i in 0..blocks {
        let mut bytes = [0; 4_096];
        read_block(device, sector + 8 * i, &mut bytes)?;
        add_block(alloc, run, &bytes)?;
    }
    Ok(())
}

/// Reads at most `most` data blocks of tables after the first `done`, and adds their entries to a run.
pub(crate) fn read_tables<D: Device, A: Allocator + Clone>(
    alloc: &A,
    run: &mut Vec<Entry<A>, A>,
    tables: &[PlacedTable<A>],
    area: u32,
    done: usize,
    most: usize,
    device: &mut D,
) -> Result<(), Refusal>
    requires ordered { AreOrdered run.old.items }
    requires within { AllByRecursion (LiesWithin (D.medium device.old).size area) tables.now }
    ensures goes_on { IsTrue (D.medium device.old).lasting.tells → OnOk result
        (GoesOn run.old.items
        (items_in (take most
        (drop done (blocks_in (seen (disk (D.medium device.old))) area tables.now))))
        run.new.items) }
    ensures bad { IsTrue (D.medium device.old).lasting.tells → result ≡ Err BadTable
        → (new : List Version)
        → GoesOn run.old.items
        (items_in (take most
        (drop done (blocks_in (seen (disk (D.medium device.old))) area tables.now)))) new
        → ⊥ }
    ensures longer { IsLonger run.old.items run.new.items }
    ensures ordered { AreOrdered run.new.items }
    ensures refused { IfErr result
        (λ refusal. (refusal ≡ Io) ⊎ ((refusal ≡ BadTable) ⊎ (refusal ≡ NoMemory))) }
    ensures device { ReadsBlocks (min most (data_blocks tables.now - done)) (faultless result)
        (D.medium device.old) (D.medium device.new) }
{
    let mut skip = done;
    let mut left = most;
    for table in tables {
        let blocks = table.table().data_blocks();
        let first = skip.min(blocks);
        let count = left.min(blocks - first);
        let sector = area + 8 * (table.first_block() + first as u32);
        read_blocks(alloc, run, sector, count as u32, device)?;
        skip -= first;
        left -= count;
    }
    Ok(())
}
