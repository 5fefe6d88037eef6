// The deletes of tables are counted where a manifest doesn't tell them.
ghost use Rattle.std.specs.Prelude.{◌≡◌, ◌⊎◌, ◌≤◌, ◌+◌, ◌*◌, ◌^◌, ◌++◌, ℕ, All, length, map, option_map, IsTrue, IfOk, IfErr, IfSome, MatchResult, Some};
ghost use Rattle.lsm_codec.specs.Entries.{block_of};
ghost use Rattle.lsm_codec.specs.Manifests.{IsManifest, IsManifestOf};
ghost use Rattle.lsm_codec.specs.TableRecords.{HasSizes, IsOfVersion};
ghost use Rattle.lsm_codec.specs.Versions.{one_if_none};
ghost use Rattle.lsm_codec.specs.declared.superblock.FormatVersion.TheVariants.{Two};
ghost use Rattle.lsm_device.specs.Calls.{AtMost};
ghost use Rattle.lsm_device.specs.Disk.{seen};
ghost use Rattle.lsm_device.specs.Medium.{disk};
ghost use Rattle.lsm_device.specs.Refusals.{faultless};
ghost use Rattle.lsm_root.specs.CrashState.{CrashState};
ghost use Rattle.lsm_open.specs.Counting.{IsCountedRoot, counted_more, deletes_counted, deletes_of, counted_records, counted, uncounted_blocks, uncounted_by, all_uncounted, all_data, without_deletes, with_tables};
ghost use Rattle.lsm_open.specs.Image.{StandFor};
ghost use Rattle.lsm_open.specs.RefusedOpenings.{opening_refusal};
ghost use Rattle.lsm_open.specs.ReadParts.{ReadsAtMost};
ghost use Rattle.lsm_open.specs.Tables.{blocks_at};
ghost use Rattle.lsm_open.specs.ToldTables.{IsRefusedFor, IsTableRefusal, IsReadable, ReadsBlocks};
ghost use Rattle.lsm_root.specs.Installed.{IsNext};
ghost use Rattle.lsm_root.specs.Layout.{IsGeometry, LieInside};
ghost use Rattle.lsm_root.specs.Loaded.{refusal_of};
ghost use Rattle.lsm_root.specs.Roots.{Root, superblock_in, root_of};
ghost use Rattle.lsm_table.specs.Stored.{table_in};

use crate::tables::{data_area, read_data_block};
use lsm_codec::{Manifest, TableRecord, VersionRef};
use lsm_device::{Device, Refusal};
use lsm_root::{Loaded, load};
use lsm_table::Entries;
use std::alloc::Allocator;

// How many entries were read, and how many of them are deletes.
#[derive(Clone, Copy)]
pub(crate) struct Count {
    pub entries: u32,
    pub deletes: u32,
}

// 1 where there is no value.
fn one_if_none(version: &VersionRef<'_>) -> u32
    ensures value { result ≡ one_if_none (option_map (λ value. value.now) version.now.value) }
    ensures few { result ≤ 1 }
{
    match version.value {
        Some(_value) => 0,
        None => 1,
    }
}

// The count with one entry more.
fn with_entry(count: Count, version: &VersionRef<'_>) -> Count
    requires few { count.entries ≤ 2 ^ 20 }
    requires among { count.deletes ≤ count.entries }
    ensures entries { result.entries ≡ count.entries + 1 }
    ensures still_among { result.deletes ≤ result.entries }
    ensures deletes { result.deletes
        ≡ count.deletes + one_if_none (option_map (λ value. value.now) version.now.value) }
{
    Count {
        entries: count.entries + 1,
        deletes: count.deletes + one_if_none(version),
    }
}

// The count with the entries that the bytes of a block spell, if they spell some.
fn with_block(count: Count, block: &[u8; 4_096]) -> Option<Count>
    requires small { count.entries ≤ 2 ^ 19 }
    requires among { count.deletes ≤ count.entries }
    ensures counted { result ≡ option_map (counted_more count) (block_of block.now) }
    ensures few { IfSome result (λ more. more.entries ≤ count.entries + 4097) }
    ensures still_among { IfSome result (λ more. more.deletes ≤ more.entries) }
{
    let mut more = count;
    for item in Entries::new(block) {
        let Ok(version) = item else {
            return None;
        };
        more = with_entry(more, &version);
    }
    Some(more)
}

// The deletes among the entries of a table, counted in its data blocks. `BadTable` where these spell no entries, or not as many
// as the record says.
fn count_deletes<D: Device>(
    device: &mut D,
    log_sectors: u16,
    listed: TableRecord,
) -> Result<u16, Refusal>
    requires log_high { log_sectors ≤ 2048 }
    requires readable { IsReadable log_sectors (D.medium device.old).size listed }
    ensures told { IsTrue (D.medium device.old).lasting.tells → MatchResult result
        (λ deletes. deletes_counted listed.entries
        (table_in listed.data_blocks
        (blocks_at log_sectors (seen (disk (D.medium device.old))) listed)) ≡ Some deletes)
        (IsRefusedFor (deletes_counted listed.entries
        (table_in listed.data_blocks
        (blocks_at log_sectors (seen (disk (D.medium device.old))) listed)))) }
    ensures among { IfOk result (λ deletes. deletes ≤ listed.entries) }
    ensures refused { IfErr result (λ e. (e ≡ Refusal.BadTable) ⊎ (e ≡ Refusal.Io)) }
    ensures device { ReadsBlocks listed.data_blocks (faultless result) (D.medium device.old)
        (D.medium device.new) }
{
    let area = data_area(log_sectors);
    let mut count = Count {
        entries: 0,
        deletes: 0,
    };
    let mut block = [0; 4_096];
    for i in 0..listed.data_blocks as u32 {
        read_data_block(device, area, listed.first_block + i, &mut block)?;
        let Some(more) = with_block(count, &block) else {
            return Err(Refusal::BadTable);
        };
        count = more;
    }
    if count.entries != listed.entries as u32 {
        return Err(Refusal::BadTable);
    }
    Ok(count.deletes as u16)
}

// The deletes of a record's table: those that it tells, or else those that are counted.
fn deletes_of<D: Device>(
    device: &mut D,
    log_sectors: u16,
    listed: TableRecord,
) -> Result<u16, Refusal>
    requires log_high { log_sectors ≤ 2048 }
    requires readable { IsReadable log_sectors (D.medium device.old).size listed }
    ensures told { IsTrue (D.medium device.old).lasting.tells → MatchResult result
        (λ deletes. deletes_of log_sectors (seen (disk (D.medium device.old))) listed
        ≡ Some deletes)
        (IsRefusedFor (deletes_of log_sectors (seen (disk (D.medium device.old))) listed)) }
    ensures among { IfOk result (λ deletes. deletes ≤ listed.entries) }
    ensures refused { IfErr result (λ e. (e ≡ Refusal.BadTable) ⊎ (e ≡ Refusal.Io)) }
    ensures device { ReadsBlocks (uncounted_blocks listed) (faultless result) (D.medium device.old)
        (D.medium device.new) }
{
    match listed.deletes {
        Some(deletes) => Ok(deletes),
        None => Ok(count_deletes(device, log_sectors, listed)?),
    }
}

// These records, each with the deletes of its table.
fn count_records<A: Allocator, D: Device>(
    alloc: A,
    device: &mut D,
    log_sectors: u16,
    listed: &[TableRecord],
) -> Result<Vec<TableRecord, A>, Refusal>
    requires log_high { log_sectors ≤ 2048 }
    requires readable { All (IsReadable log_sectors (D.medium device.old).size) listed.now }
    ensures told { IsTrue (D.medium device.old).lasting.tells → MatchResult result
        (λ records. counted_records log_sectors (seen (disk (D.medium device.old))) listed.now
        ≡ Some records.items)
        (IsRefusedFor (counted_records log_sectors (seen (disk (D.medium device.old)))
        listed.now)) }
    ensures same { IfOk result
        (λ records. map without_deletes records.items ≡ map without_deletes listed.now) }
    ensures sized { IfOk result (λ records. All HasSizes records.items) }
    ensures version { IfOk result (λ records. All (IsOfVersion Two) records.items) }
    ensures refused { IfErr result IsTableRefusal }
    ensures device { ReadsBlocks (all_uncounted listed.now) (faultless result) (D.medium device.old)
        (D.medium device.new) }
{
    let mut records = Vec::with_capacity(alloc, listed.len())?;
    for table in listed {
        let deletes = deletes_of(device, log_sectors, *table)?;
        let mut record = *table;
        record.deletes = Some(deletes);
        records.push(record)?;
    }
    Ok(records)
}

// A manifest as version 2 of the format says it: with the deletes of each table. Where a record doesn't tell them, as in
// version 1, each of its table's data blocks is read once, and they are counted; of other tables none is read.
//
// Fails with `BadTable` where these blocks spell no entries, or not as many as the record says; with `NoMemory`; and
// with `Io` where a read failed, which was its last. It writes nothing.
fn count_tables<A: Allocator + Clone, D: Device>(
    alloc: &A,
    device: &mut D,
    log_sectors: u16,
    manifest: Manifest<A>,
) -> Result<Manifest<A>, Refusal>
    requires geometry { IsGeometry (D.medium device.old).size log_sectors }
    requires fits { IsManifest manifest }
    requires inside { LieInside (D.medium device.old).size log_sectors manifest.tables }

    // Of any sectors: Ok exactly where each table is counted, with just this manifest; BadTable exactly where not.
    ensures told { IsTrue (D.medium device.old).lasting.tells → MatchResult result
        (λ m. counted log_sectors (seen (disk (D.medium device.old))) manifest ≡ Some m)
        (IsRefusedFor (counted log_sectors (seen (disk (D.medium device.old))) manifest)) }

    // Whatever the device holds, and whether it tells so or not, it is a manifest of version 2, the same but for the deletes.
    ensures fits { IfOk result (IsManifestOf Two) }
    ensures inside { IfOk result (λ m. LieInside (D.medium device.old).size log_sectors m.tables) }
    ensures same { IfOk result (λ m. m ≡ with_tables manifest m.tables) }
    ensures tables { IfOk result
        (λ m. map without_deletes m.tables ≡ map without_deletes manifest.tables) }
    ensures refused { IfErr result IsTableRefusal }

    // The device is only read, and only where a record doesn't tell the deletes.
    ensures device { ReadsBlocks (all_uncounted manifest.tables) (faultless result)
        (D.medium device.old) (D.medium device.new) }
{
    let tables = count_records(alloc.clone()?, device, log_sectors, manifest.tables())?;
    Ok(manifest.with_tables(tables))
}

/// Reads the root, and counts the deletes of each table whose record doesn't tell them: what an opening and a check begin with,
/// in either version of the format. It writes nothing.
pub fn load_counted<A: Allocator + Clone, D: Device>(
    alloc: &A,
    device: &mut D,
) -> Result<Loaded<A>, Refusal>
    ensures loaded { IsTrue (D.medium device.old).lasting.tells
        → IfOk result (λ l. IsCountedRoot l.log_sectors l.manifest
        (seen (disk (D.medium device.old)))) }
    ensures refusal { IsTrue (D.medium device.old).lasting.tells
        → IfErr result (λ e. (opening_refusal (seen (disk (D.medium device.old))) ≡ Some e)
        ⊎ ((e ≡ Refusal.NoMemory) ⊎ (e ≡ Refusal.Io))) }
    ensures fits { IfOk result
        (λ l. IsGeometry (D.medium device.old).size l.log_sectors × IsManifestOf Two l.manifest) }
    ensures inside { IfOk result
        (λ l. LieInside (D.medium device.old).size l.log_sectors l.manifest.tables) }
    ensures next { IsTrue (D.medium device.old).lasting.tells → IfOk result (λ l.
        IsNext (D.medium device.old).size l.log_sectors (l.manifest.generation + 1)
        (superblock_in (seen (disk (D.medium device.old))))) }
    ensures fair { (log_sectors : ℕ) (left : CrashState)
        → IsTrue (D.medium device.old).lasting.tells
        → StandFor log_sectors left (seen (disk (D.medium device.old)))
        → IfErr result (λ e. (e ≡ Refusal.NoMemory) ⊎ (e ≡ Refusal.Io)) }
    ensures refused { IfErr result
        (λ e. ((root : Root) × (refusal_of root ≡ Some e)) ⊎ IsTableRefusal e) }

    // It reads the root, and data blocks only of tables whose records tell no deletes: of a device that tells what it holds whatever
    // is answered. Of another device it is known after Ok that it reads at most all data blocks of the tables that are named.
    ensures reads { IsTrue (D.medium device.old).lasting.tells
        → AtMost (66 + 8 * uncounted_by (root_of (seen (disk (D.medium device.old))))) 0 0
        (D.medium device.old).calls (D.medium device.new).calls }
    ensures most { IfOk result
        (λ l. AtMost (66 + 8 * all_data l.manifest.tables) 0 0 (D.medium device.old).calls
        (D.medium device.new).calls) }
    ensures device { ReadsAtMost 524354 (faultless result) (D.medium device.old)
        (D.medium device.new) }
{
    let loaded = load(alloc.clone()?, device)?;
    let log_sectors = loaded.log_sectors;
    let manifest = count_tables(alloc, device, log_sectors, loaded.manifest)?;
    Ok(Loaded {
        log_sectors,
        manifest,
    })
}
