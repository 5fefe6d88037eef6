// A device is checked.
ghost use Rattle.std.specs.Prelude.{◌≡◌, ◌≤◌, ◌+◌, ◌*◌, ℕ, length, IsTrue, IfOk, OnOk, IfErr, Err};
ghost use Rattle.lsm_codec.specs.Geometry.{data_blocks_of};
ghost use Rattle.lsm_codec.specs.Manifests.{IsManifest};
ghost use Rattle.lsm_device.specs.Calls.{AtMost};
ghost use Rattle.lsm_device.specs.Disk.{seen};
ghost use Rattle.lsm_device.specs.Medium.{disk};
ghost use Rattle.lsm_device.specs.Refusals.{faultless};
ghost use Rattle.lsm_open.specs.Counting.{uncounted_by};
ghost use Rattle.lsm_root.specs.CrashState.{CrashState};
ghost use Rattle.lsm_open.specs.Image.{StandFor};
ghost use Rattle.lsm_open.specs.LogRegions.{first_region};
ghost use Rattle.lsm_open.specs.ReadParts.{ReadsAtMost};
ghost use Rattle.lsm_open.specs.ToldTables.{Held};
ghost use Rattle.lsm_root.specs.Layout.{IsDeviceSize};
ghost use Rattle.lsm_root.specs.Roots.{root_of};
ghost use Rattle.lsm_check.specs.Counted.{ReadsBetween, IsReadFor};
ghost use Rattle.lsm_check.specs.Found.{FindsRefusal, FindsLaterSector, IsReadRefusal, IsFoundIn};
ghost use Rattle.lsm_check.specs.Images.{blocks_in_none, IsImage, IsNoVerdict, IsNoMemoryOrIo, IsCheckRefusal, IsCheckFinding, is_faultless};
ghost use Rattle.lsm_check.specs.Named.{AreNamed, AreToldBy, HasBatches, IsRegionsRefusal};

use crate::epochs::has_none_above;
use crate::finding::Finding;
use crate::levels::check_levels;
use crate::report::Report;
use lsm_codec::{ROOT_SECTORS, is_device_size};
use lsm_device::{Device, Refusal};
use lsm_open::{TablesRead, load_counted, read_tables, replay_regions};
use lsm_root::Loaded;
use lsm_root::laws::root_laws;
use std::alloc::Allocator;

// What an opening reads: the root, with each table counted, the tables that its manifest names, and how many batches there are.
#[derive(Drop)]
struct Named<A: Allocator> {
    loaded: Loaded<A>,
    tables: TablesRead<A>,
    batches: u64,
}

// How many batches there are in tables and in the listed regions, where these follow on, and no log sector is of a later
// generation.
fn count_batches<A: Allocator + Clone, D: Device>(
    alloc: &A,
    device: &mut D,
    loaded: &Loaded<A>,
) -> Result<u64, Refusal>
    requires log_high { loaded.now.log_sectors ≤ 2048 }
    requires fits { IsManifest loaded.now.manifest }
    requires inside { first_region + 3 * loaded.now.log_sectors ≤ (D.medium device.old).size }
    ensures counted { IsTrue (D.medium device.old).lasting.tells → IfOk result
        (HasBatches loaded.now.log_sectors (seen (disk (D.medium device.old)))
        loaded.now.manifest) }
    ensures fair { (batches : ℕ) → IsTrue (D.medium device.old).lasting.tells
        → HasBatches loaded.now.log_sectors (seen (disk (D.medium device.old))) loaded.now.manifest
        batches → IfErr result IsNoMemoryOrIo }
    ensures refusal { IsTrue (D.medium device.old).lasting.tells → IfErr result
        (IsRegionsRefusal loaded.now.log_sectors (seen (disk (D.medium device.old)))
        loaded.now.manifest) }
    ensures refused { IfErr result IsCheckRefusal }
    ensures device { ReadsAtMost (6 * loaded.now.log_sectors) (faultless result)
        (D.medium device.old) (D.medium device.new) }
    ensures whole { OnOk result
        (ReadsBetween (3 * loaded.now.log_sectors) (6 * loaded.now.log_sectors)
        (D.medium device.old).calls (D.medium device.new).calls) }
{
    let replayed = replay_regions(alloc, device, loaded.log_sectors, &loaded.manifest)?;
    let count = replayed.count;
    let fresh = has_none_above(device, loaded.log_sectors, loaded.manifest.generation())?;
    if !fresh {
        return Err(Refusal::BadManifest);
    }
    Ok(count)
}

// Reads what an opening reads: data blocks only of tables whose records tell no deletes.
fn read_named<A: Allocator + Clone, D: Device>(
    alloc: &A,
    device: &mut D,
) -> Result<Named<A>, Refusal>
    ensures named { IfOk result
        (λ n. AreNamed (D.medium device.old).size n.loaded.log_sectors n.loaded.manifest
        n.tables.levels n.tables.extents) }
    ensures told { IsTrue (D.medium device.old).lasting.tells → IfOk result (λ n.
        AreToldBy n.loaded.log_sectors (seen (disk (D.medium device.old))) n.loaded.manifest
        n.tables.levels n.batches) }
    ensures fair { (log_sectors : ℕ) (left : CrashState)
        → IsTrue (D.medium device.old).lasting.tells
        → StandFor log_sectors left (seen (disk (D.medium device.old)))
        → IfErr result IsNoMemoryOrIo }
    ensures refusal { IsTrue (D.medium device.old).lasting.tells
        → IfErr result (IsReadRefusal (seen (disk (D.medium device.old)))) }
    ensures refused { IfErr result IsCheckRefusal }
    ensures reads { IsTrue (D.medium device.old).lasting.tells
        → AtMost (69698 + 8 * uncounted_by (root_of (seen (disk (D.medium device.old))))) 0 0
        (D.medium device.old).calls (D.medium device.new).calls }
    ensures device { ReadsAtMost 593986 (faultless result) (D.medium device.old)
        (D.medium device.new) }
    ensures whole { IfOk result
        (λ n. ReadsBetween (3 * n.loaded.log_sectors) 593986 (D.medium device.old).calls
        (D.medium device.new).calls) }
{
    let loaded = load_counted(alloc, device)?;
    let tables = read_tables(alloc, device, loaded.log_sectors, &loaded.manifest)?;
    let batches = count_batches(alloc, device, &loaded)?;
    Ok(Named {
        loaded,
        tables,
        batches,
    })
}

// The numbers of what was read, where the tables have `entries` entries.
fn report_of<A: Allocator>(named: &Named<A>, entries: u64) -> Report
    ensures generation { result.generation ≡ named.now.loaded.manifest.generation }
    ensures batches { result.batches ≡ named.now.batches }
    ensures tables { result.tables ≡ length named.now.loaded.manifest.tables }
    ensures entries { result.entries ≡ entries }
    ensures free_blocks { (size : ℕ)
        → Held (data_blocks_of size named.now.loaded.log_sectors) named.now.loaded.manifest.tables
        named.now.tables.extents
        → result.free_blocks ≡ blocks_in_none (data_blocks_of size named.now.loaded.log_sectors)
        named.now.loaded.manifest.tables }
{
    let manifest = &named.loaded.manifest;
    Report {
        generation: manifest.generation(),
        batches: named.batches,
        tables: manifest.tables().len(),
        entries,
        free_blocks: named.tables.extents.free_blocks(),
    }
}

// Checks a device of a fair size.
fn check_all<A: Allocator + Clone, D: Device>(alloc: &A, device: &mut D) -> Result<Report, Finding>
    ensures yes { IsTrue (D.medium device.old).lasting.tells
        → IfOk result (IsImage (D.medium device.old).size (seen (disk (D.medium device.old)))) }
    ensures image { (log_sectors : ℕ) (left : CrashState)
        → IsTrue (D.medium device.old).lasting.tells
        → StandFor log_sectors left (seen (disk (D.medium device.old)))
        → IfErr result IsNoVerdict }
    ensures first { IsTrue (D.medium device.old).lasting.tells
        → FindsRefusal (seen (disk (D.medium device.old))) result }
    ensures later { IsTrue (D.medium device.old).lasting.tells
        → FindsLaterSector (seen (disk (D.medium device.old))) result }
    ensures found { IsTrue (D.medium device.old).lasting.tells
        → IfErr result (IsFoundIn (seen (disk (D.medium device.old)))) }
    ensures refused { IfErr result IsCheckFinding }
    ensures reads { IsTrue (D.medium device.old).lasting.tells
        → AtMost (593986 + 8 * uncounted_by (root_of (seen (disk (D.medium device.old))))) 0 0
        (D.medium device.old).calls (D.medium device.new).calls }
    ensures device { ReadsAtMost 1118274 (is_faultless result) (D.medium device.old)
        (D.medium device.new) }
    ensures whole { IsReadFor (D.medium device.old).size (D.medium device.old).calls
        (D.medium device.new).calls result }
{
    let named = read_named(alloc, device)?;
    let area = ROOT_SECTORS + 3 * named.loaded.log_sectors as u32;
    let base = named.loaded.manifest.base();
    let entries = check_levels(alloc, device, area, &named.tables.levels, base)?;
    Ok(report_of(&named, entries))
}

/// Checks whether a device holds, as it reads, the image of a store, in either version of the format, and returns the numbers of
/// the image. It only reads, without a write or a sync, and reads each data block of each table once, and once before where its
/// record tells no deletes. Memory holds the entries of one table at a time, what an opening keeps of tables, and all keys of
/// the tables.
///
/// It finds first what an opening would fail with, in its order, but for the last generation: `BadGeometry` before any device call
/// where the device has fewer than 8,192 sectors or more than 1,048,576; what the root says; `BadTable` for a table whose record
/// tells no deletes and whose data blocks encode no entries, or not as many as the record says; `BadTable` for a table that
/// doesn't open; `BadManifest` for a region whose first batch is not the next one, and for a log sector of a later generation.
/// Then it goes over the tables in the order of the manifest, and of each it finds the first of these: `BadTable`, where any of
/// its data blocks encodes no entries; `Entries`, `Order`, `Filter`, `Versions`. An allocation that fails is `NoMemory` and a read
/// that failed, its last, `Io`.
pub fn check<A: Allocator + Clone, D: Device>(alloc: A, device: &mut D) -> Result<Report, Finding>
    // After a yes the sectors are the image of a store, so that an opening recovers it, and these are its numbers.
    ensures yes { IsTrue (D.medium device.old).lasting.tells
        → IfOk result (IsImage (D.medium device.old).size (seen (disk (D.medium device.old)))) }

    // Of the image of a store it finds nothing wrong.
    ensures image { (log_sectors : ℕ) (left : CrashState)
        → IsTrue (D.medium device.old).lasting.tells
        → StandFor log_sectors left (seen (disk (D.medium device.old)))
        → IfErr result IsNoVerdict }
    ensures size { (IsDeviceSize (D.medium device.old).size → ⊥)
        → (result ≡ Err (Finding.Refused Refusal.BadGeometry)) × (device.new ≡ device.old) }

    // What an opening is refused with for what the device holds, but for the last generation, is found first, if there is a verdict;
    // and then a log sector of a later generation.
    ensures first { IsTrue (D.medium device.old).lasting.tells
        → IsDeviceSize (D.medium device.old).size
        → FindsRefusal (seen (disk (D.medium device.old))) result }
    ensures later { IsTrue (D.medium device.old).lasting.tells
        → IsDeviceSize (D.medium device.old).size
        → FindsLaterSector (seen (disk (D.medium device.old))) result }

    // A refusal is that of an opening, or of a log sector of a later generation. All else is found only after both, of a table that
    // the manifest names: its number is told, or BadTable.
    ensures found { IsTrue (D.medium device.old).lasting.tells
        → IsDeviceSize (D.medium device.old).size
        → IfErr result (IsFoundIn (seen (disk (D.medium device.old)))) }

    // Of any device, whether it tells what it holds or not, a refusal is one of these.
    ensures refused { IfErr result IsCheckFinding }

    // The device is only read, and a read faulted exactly where it answers Io, its last. Data blocks of tables whose records tell
    // no deletes are read twice at most, as in version 1 of the format all are, and in version 2 none. A yes has read all regions
    // and data blocks.
    ensures reads { IsTrue (D.medium device.old).lasting.tells
        → AtMost (593986 + 8 * uncounted_by (root_of (seen (disk (D.medium device.old))))) 0 0
        (D.medium device.old).calls (D.medium device.new).calls }
    ensures device { ReadsAtMost 1118274 (is_faultless result) (D.medium device.old)
        (D.medium device.new) }
    ensures whole { IsReadFor (D.medium device.old).size (D.medium device.old).calls
        (D.medium device.new).calls result }
{
    root_laws();
    if !is_device_size(device.sectors()) {
        return Err(Finding::Refused(Refusal::BadGeometry));
    }
    let report = check_all(&alloc, device)?;
    Ok(report)
}
