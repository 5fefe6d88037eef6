// The tables that a manifest names are opened.
ghost use Rattle.std.specs.Prelude.{◌≡◌, ◌⊎◌, ◌≤◌, ◌<◌, ◌+◌, ◌*◌, ◌++◌, ◌∷◌, ℕ, List, [], All, length, filter, Some, IsTrue, IfOk, OnOk, IfErr, MatchResult};
ghost use Rattle.std.specs.List.{flat_map};
ghost use Rattle.lsm_cache.specs.Reads.{block_at};
ghost use Rattle.lsm_codec.specs.Geometry.{data_blocks_of};
ghost use Rattle.lsm_codec.specs.Manifests.{IsManifestOf};
ghost use Rattle.lsm_codec.specs.declared.superblock.FormatVersion.TheVariants.{Two};
ghost use Rattle.lsm_codec.specs.Pairs.{Pairwise};
ghost use Rattle.lsm_codec.specs.TableRecords.{HasRuns, AreApart, extent_end};
ghost use Rattle.lsm_codec.specs.Versions.{Version};
ghost use Rattle.lsm_device.specs.Calls.{faults_after, AtMost};
ghost use Rattle.lsm_device.specs.Disk.{seen};
ghost use Rattle.lsm_device.specs.Medium.{disk};
ghost use Rattle.lsm_device.specs.Refusals.{faultless};
ghost use Rattle.lsm_levels.specs.Held.{AreRuns};
ghost use Rattle.lsm_levels.specs.Levels.{places};
ghost use Rattle.lsm_levels.specs.Stored.{AreWithin, AreNumberedBelow, blocks_from};
ghost use Rattle.lsm_open.specs.Tables.{first_data, blocks_at, AreTables};
ghost use Rattle.lsm_open.specs.ToldTables.{told_with, told_tables, told_run, told_levels, run_place, run_records, blocks_beside_data, beside_data_from, IsRefusedFor, IsTableRefusal, IsReadable, IsNamedBy, AreOutlined, AreNamedBy, IsRunRead, AreRunsRead, HaveNamed, Held, AreThose, ReadsBlocks};
ghost use Rattle.lsm_root.specs.Layout.{IsGeometry, LieInside};
ghost use Rattle.lsm_table.specs.Outlines.{outline_of};
ghost use Rattle.lsm_table.specs.Stored.{outline_at};

use crate::regions::region_start;
use lsm_cache::read_block;
use lsm_codec::{Manifest, TableRecord, data_blocks};
use lsm_device::{Device, Refusal};
use lsm_extent::Extents;
use lsm_extent::laws::extent_laws;
use lsm_levels::{Levels, PlacedTable, Run, is_run};
use lsm_table::laws::outline_law;
use std::alloc::{AllocError, Allocator};

const BLOCK_BYTES: usize = 4_096;

// The first sector of the data area.
pub(crate) fn data_area(log_sectors: u16) -> u32
    requires { log_sectors ≤ 2048 }
    ensures { result ≡ first_data log_sectors }
{
    region_start(log_sectors, 3)
}

// Reads a block of the data area.
pub(crate) fn read_data_block<D: Device>(
    device: &mut D,
    area: u32,
    block: u32,
    out: &mut [u8; 4_096],
) -> Result<(), Refusal>
    requires { area + 8 * (block + 1) ≤ (D.medium device.old).size }
    ensures given { IsTrue (D.medium device.old).lasting.tells
        → OnOk result (out.new ≡ block_at (seen (disk (D.medium device.old))) (area + 8 * block)) }
    ensures refused { IfErr result (λ refusal. refusal ≡ Refusal.Io) }
    ensures device { ReadsBlocks 1 (faultless result) (D.medium device.old) (D.medium device.new) }
{
    read_block(device, area + 8 * block, out)?;
    Ok(())
}

// The bytes of `blocks` blocks of the data area, from block `first` on.
fn read_data_blocks<A: Allocator, D: Device>(
    alloc: A,
    device: &mut D,
    area: u32,
    first: u32,
    blocks: u32,
) -> Result<Vec<u8, A>, Refusal>
    requires inside { area + 8 * (first + blocks) ≤ (D.medium device.old).size }
    requires few { blocks ≤ 5 }
    ensures given { IsTrue (D.medium device.old).lasting.tells → IfOk result (λ bytes.
        bytes.items ≡ flat_map (λ b. b)
        (blocks_from (seen (disk (D.medium device.old))) (area + 8 * first) blocks)) }
    ensures refused { IfErr result
        (λ refusal. (refusal ≡ Refusal.NoMemory) ⊎ (refusal ≡ Refusal.Io)) }
    ensures device { ReadsBlocks blocks (faultless result) (D.medium device.old)
        (D.medium device.new) }
{
    let mut bytes = Vec::with_capacity(alloc, BLOCK_BYTES * blocks as usize)?;
    let mut block = [0; BLOCK_BYTES];
    for i in 0..blocks {
        read_data_block(device, area, first + i, &mut block)?;
        bytes.extend_from_slice(&block)?;
    }
    Ok(bytes)
}

// Reads footer, index and filter of the table of a record, and no data block. Returns the bytes of the index.
fn read_described<A: Allocator + Clone, D: Device>(
    alloc: &A,
    device: &mut D,
    log_sectors: u16,
    listed: TableRecord,
    footer: &mut [u8; 4_096],
    filter: &mut [u8; 4_096],
) -> Result<Vec<u8, A>, Refusal>
    requires log_high { log_sectors ≤ 2048 }
    requires readable { IsReadable log_sectors (D.medium device.old).size listed }
    ensures given { IsTrue (D.medium device.old).lasting.tells → IfOk result (λ index.
        outline_of listed footer.new index.items filter.new
        ≡ outline_at listed
        (blocks_at log_sectors (seen (disk (D.medium device.old))) listed)) }
    ensures refused { IfErr result
        (λ refusal. (refusal ≡ Refusal.NoMemory) ⊎ (refusal ≡ Refusal.Io)) }
    ensures device { ReadsBlocks (listed.index_blocks + 2) (faultless result) (D.medium device.old)
        (D.medium device.new) }
{
    let area = data_area(log_sectors);
    let filter_at = listed.first_block + listed.data_blocks as u32;
    let indexes = listed.index_blocks as u32;
    read_data_block(device, area, filter_at, filter)?;
    let index = read_data_blocks(alloc.clone()?, device, area, filter_at + 1, indexes)?;
    read_data_block(device, area, filter_at + 1 + indexes, footer)?;
    Ok(index)
}

// Opens the table of a record, as a table with these versions. `BadTable` where the record tells no deletes.
fn read_table<A: Allocator + Clone, D: Device>(
    alloc: &A,
    device: &mut D,
    log_sectors: u16,
    listed: TableRecord,
) -> Result<PlacedTable<A>, Refusal>
    ghost versions: { List Version }
    requires log_high { log_sectors ≤ 2048 }
    requires readable { IsReadable log_sectors (D.medium device.old).size listed }
    ensures told { IsTrue (D.medium device.old).lasting.tells → MatchResult result
        (λ t. told_with versions log_sectors (seen (disk (D.medium device.old))) listed ≡ Some t)
        (IsRefusedFor (told_with versions log_sectors (seen (disk (D.medium device.old))) listed)) }
    ensures named { IfOk result (IsNamedBy listed) }
    ensures refused { IfErr result IsTableRefusal }
    ensures device { ReadsBlocks (listed.index_blocks + 2) (faultless result) (D.medium device.old)
        (D.medium device.new) }
{
    outline_law();
    let Some(deletes) = listed.deletes else {
        return Err(Refusal::BadTable);
    };
    let mut footer = [0; 4_096];
    let mut filter = [0; 4_096];
    let index = read_described(alloc, device, log_sectors, listed, &mut footer, &mut filter)?;
    Ok(PlacedTable::open(alloc.clone()?, listed, deletes, &footer, &index, &filter)?)
}

// Opens the tables of these records, one after the other.
fn read_listed<A: Allocator + Clone, D: Device>(
    alloc: &A,
    device: &mut D,
    log_sectors: u16,
    listed: &[TableRecord],
) -> Result<Vec<PlacedTable<A>, A>, Refusal>
    requires log_high { log_sectors ≤ 2048 }
    requires readable { All (IsReadable log_sectors (D.medium device.old).size) listed.now }
    ensures told { IsTrue (D.medium device.old).lasting.tells → MatchResult result
        (λ tables. told_tables log_sectors (seen (disk (D.medium device.old))) listed.now
        ≡ Some tables.items)
        (IsRefusedFor (told_tables log_sectors (seen (disk (D.medium device.old))) listed.now)) }
    ensures named { IfOk result (λ tables. AreNamedBy listed.now tables.items) }
    ensures refused { IfErr result IsTableRefusal }
    ensures device { ReadsBlocks (blocks_beside_data listed.now) (faultless result)
        (D.medium device.old) (D.medium device.new) }
{
    let mut tables = Vec::with_capacity(alloc.clone()?, listed.len())?;
    for table in listed {
        tables.push(read_table(alloc, device, log_sectors, *table)?)?;
    }
    Ok(tables)
}

// The place of a record's run, where level 0 has `runs` runs.
fn run_place(runs: u8, listed: &TableRecord) -> usize
    ensures { result ≡ run_place runs listed.now.run listed.now.level }
{
    match listed.level {
        0 => listed.run as usize,
        level => runs as usize + (level as usize - 1),
    }
}

// Adds a record where it is wanted.
fn push_if<A: Allocator>(
    listed: &mut Vec<TableRecord, A>,
    is_wanted: bool,
    table: TableRecord,
) -> Result<(), AllocError>
    ensures { OnOk result (listed.new.items
        ≡ listed.old.items ++ filter (λ t. is_wanted) (table ∷ [])) }
{
    if is_wanted {
        listed.push(table)?;
    }
    Ok(())
}

// The records of the tables in the run at a place.
fn run_records<A: Allocator>(
    alloc: A,
    manifest: &Manifest<A>,
    place: usize,
) -> Result<Vec<TableRecord, A>, AllocError>
    ensures { IfOk result (λ listed. listed.items ≡ run_records manifest.now place) }
{
    let runs = manifest.runs();
    let tables = manifest.tables();
    let mut listed = Vec::new(alloc);
    for table in tables {
        push_if(&mut listed, run_place(runs, table) == place, *table)?;
    }
    Ok(listed)
}

// Opens the tables of the run at a place.
fn read_run<A: Allocator + Clone, D: Device>(
    alloc: &A,
    device: &mut D,
    log_sectors: u16,
    manifest: &Manifest<A>,
    place: usize,
) -> Result<Run<A>, Refusal>
    requires log_high { log_sectors ≤ 2048 }
    requires readable { All (IsReadable log_sectors (D.medium device.old).size)
        manifest.now.tables }
    ensures read { IfOk result
        (IsRunRead log_sectors (D.medium device.old).lasting.tells
        (seen (disk (D.medium device.old))) manifest.now place) }
    ensures none { IsTrue (D.medium device.old).lasting.tells
        → IfErr result (IsRefusedFor
        (told_run log_sectors (seen (disk (D.medium device.old))) manifest.now place)) }
    ensures refused { IfErr result IsTableRefusal }
    ensures device { ReadsBlocks (blocks_beside_data (run_records manifest.now place))
        (faultless result) (D.medium device.old) (D.medium device.new) }
{
    let listed = run_records(alloc.clone()?, manifest, place)?;
    let tables = read_listed(alloc, device, log_sectors, &listed)?;
    if !is_run(&tables) {
        return Err(Refusal::BadTable);
    }
    Ok(Run::from_tables(tables))
}

// Opens the tables of levels 1 to 4, the deepest first.
fn read_deeper<A: Allocator + Clone, D: Device>(
    alloc: &A,
    device: &mut D,
    log_sectors: u16,
    manifest: &Manifest<A>,
) -> Result<Levels<A>, Refusal>
    requires log_high { log_sectors ≤ 2048 }
    requires readable { All (IsReadable log_sectors (D.medium device.old).size)
        manifest.now.tables }
    ensures runs { IfOk result (λ levels. levels.runs ≡ []) }
    ensures four { IfOk result (λ levels. length levels.deeper ≡ 4) }
    ensures read { IfOk result
        (λ levels. AreRunsRead log_sectors (D.medium device.old).lasting.tells
        (seen (disk (D.medium device.old))) manifest.now manifest.now.runs levels.deeper) }
    ensures none { IsTrue (D.medium device.old).lasting.tells
        → IfErr result (IsRefusedFor
        (told_levels log_sectors (seen (disk (D.medium device.old))) manifest.now)) }
    ensures refused { IfErr result IsTableRefusal }
    ensures device { ReadsBlocks (beside_data_from manifest.now manifest.now.runs)
        (faultless result) (D.medium device.old) (D.medium device.new) }
{
    let runs = manifest.runs() as usize;
    let mut levels = Levels::new(alloc.clone()?)?;
    for done in 0..4_usize {
        let place = 3 - done;
        let run = read_run(alloc, device, log_sectors, manifest, runs + place)?;
        levels.set_level(place + 1, run);
    }
    Ok(levels)
}

// Opens the tables of the runs of level 0, the oldest first.
fn read_newer<A: Allocator + Clone, D: Device>(
    alloc: &A,
    device: &mut D,
    log_sectors: u16,
    manifest: &Manifest<A>,
    levels: &mut Levels<A>,
) -> Result<(), Refusal>
    requires log_high { log_sectors ≤ 2048 }
    requires readable { All (IsReadable log_sectors (D.medium device.old).size)
        manifest.now.tables }
    requires has { HasRuns manifest.now.runs manifest.now.tables }
    requires none { levels.old.runs ≡ [] }
    requires deeper { AreRunsRead log_sectors (D.medium device.old).lasting.tells
        (seen (disk (D.medium device.old))) manifest.now manifest.now.runs levels.old.deeper }
    ensures runs { OnOk result (length levels.new.runs ≡ manifest.now.runs) }
    ensures same { levels.new.deeper ≡ levels.old.deeper }
    ensures read { OnOk result
        (AreRunsRead log_sectors (D.medium device.old).lasting.tells
        (seen (disk (D.medium device.old))) manifest.now 0 (places levels.new)) }
    ensures none { IsTrue (D.medium device.old).lasting.tells
        → IfErr result (IsRefusedFor
        (told_levels log_sectors (seen (disk (D.medium device.old))) manifest.now)) }
    ensures refused { IfErr result IsTableRefusal }
    ensures device { (reads : ℕ)
        × (reads + beside_data_from manifest.now manifest.now.runs
        ≤ blocks_beside_data manifest.now.tables)
        × ReadsBlocks reads (faultless result) (D.medium device.old) (D.medium device.new) }
{
    let runs = manifest.runs() as usize;
    for done in 0..runs {
        let run = read_run(alloc, device, log_sectors, manifest, runs - 1 - done)?;
        levels.add_run(run)?;
    }
    Ok(())
}

// Hands out the extents of tables.
fn claim_extents<A: Allocator>(
    extents: &mut Extents<A>,
    tables: &[TableRecord],
) -> Result<(), Refusal>
    requires none { extents.old.held ≡ [] }
    requires inside { All (λ t. extent_end t ≤ extents.old.blocks) tables.now }
    requires apart { Pairwise AreApart tables.now }
    ensures held { OnOk result (Held extents.old.blocks tables.now extents.new) }
    ensures memory { IfErr result (λ refusal. refusal ≡ Refusal.NoMemory) }
{
    extent_laws();
    for table in tables {
        extents.claim(table.first_block, table.extent_blocks())?;
    }
    Ok(())
}

/// What an opening makes of the tables that a manifest names: the levels that they stand in, and the blocks that they
/// occupy.
#[derive(Drop)]
pub struct TablesRead<A: Allocator> {
    pub levels: Levels<A>,
    /// Which blocks of the data area are handed out: theirs.
    pub extents: Extents<A>,
}

/// Opens the tables that a manifest names: of each footer, index and filter are read, and no data block. Their extents are
/// handed out.
///
/// Fails with `BadTable` where these are not those of the table that the record names, or where tables of a run are
/// out of order; with `NoMemory`; and with `Io` where a read failed, which was its last. It writes nothing, and reads each of
/// these blocks once at most: 56 sectors a table at most.
pub fn read_tables<A: Allocator + Clone, D: Device>(
    alloc: &A,
    device: &mut D,
    log_sectors: u16,
    manifest: &Manifest<A>,
) -> Result<TablesRead<A>, Refusal>
    requires geometry { IsGeometry (D.medium device.old).size log_sectors }
    requires fits { IsManifestOf Two manifest.now }
    requires inside { LieInside (D.medium device.old).size log_sectors manifest.now.tables }

    // Of any sectors: Ok exactly where each table is told and each run is one, with just these levels; BadTable exactly where
    // not.
    ensures told { IsTrue (D.medium device.old).lasting.tells → MatchResult result
        (λ t. told_levels log_sectors (seen (disk (D.medium device.old))) manifest.now
        ≡ Some t.levels)
        (IsRefusedFor (told_levels log_sectors (seen (disk (D.medium device.old))) manifest.now)) }

    // Whatever the device holds, and whether it tells so or not, levels have just the tables that the manifest names, in runs,
    // these lie within the device, each is that of its outline, and their extents are handed out alone.
    ensures named { IfOk result (λ t. HaveNamed manifest.now t.levels) }
    ensures runs { IfOk result (λ t. AreRuns t.levels) }
    ensures within { IfOk result
        (λ t. AreWithin (D.medium device.old).size (first_data log_sectors) (places t.levels)) }
    ensures outlined { IfOk result (λ t. AreOutlined (places t.levels)) }
    ensures numbered { IfOk result
        (λ t. AreNumberedBelow manifest.now.next_table (places t.levels)) }
    ensures extents { IfOk result
        (λ t. Held (data_blocks_of (D.medium device.old).size log_sectors) manifest.now.tables
        t.extents) }

    // Tables that stand are not refused so, and they stand in the levels, in the order of versions.
    ensures stored { IsTrue (D.medium device.old).lasting.tells
        → AreTables log_sectors manifest.now.base manifest.now.tables
        (seen (disk (D.medium device.old)))
        → MatchResult result
        (λ t. AreThose log_sectors manifest.now.base (seen (disk (D.medium device.old)))
        manifest.now.tables t.levels)
        (λ e. (e ≡ Refusal.NoMemory) ⊎ (e ≡ Refusal.Io)) }
    ensures refused { IfErr result IsTableRefusal }

    // The device is only read: filter, index and footer of each table at most once. It fails with Io only after a read that
    // faulted, its last.
    ensures reads { AtMost (8 * blocks_beside_data manifest.now.tables) 0 0
        (D.medium device.old).calls (D.medium device.new).calls }
    ensures unchanged { IsTrue (D.medium device.old).lasting.tells
        → (D.medium device.new).history ≡ (D.medium device.old).history }
    ensures calls { AtMost (56 * length manifest.now.tables) 0 0 (D.medium device.old).calls
        (D.medium device.new).calls }
    ensures faults { (D.medium device.new).calls.faults
        ≡ faults_after (faultless result) (D.medium device.old).calls.faults }
    ensures stops { IfErr result
        (λ refusal. refusal ≡ Refusal.Io → IsTrue (D.medium device.new).calls.last_faulted) }
    ensures same_size { (D.medium device.new).size ≡ (D.medium device.old).size }
    ensures same_lasting { (D.medium device.new).lasting ≡ (D.medium device.old).lasting }
{
    let blocks = data_blocks(device.sectors(), log_sectors);
    let mut extents = Extents::new(alloc.clone()?, blocks);
    claim_extents(&mut extents, manifest.tables())?;
    let mut levels = read_deeper(alloc, device, log_sectors, manifest)?;
    read_newer(alloc, device, log_sectors, manifest, &mut levels)?;
    let _runs = levels.runs();
    Ok(TablesRead { levels, extents })
}
