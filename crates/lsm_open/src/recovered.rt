// A store is recovered from its device, with the tables that its manifest names.
ghost use Rattle.std.specs.Prelude.{◌≡◌, ◌≢◌, ◌⊎◌, ◌↔◌, ◌<◌, ◌≤◌, ◌^◌, ◌+◌, ◌*◌, ◌==◌, ℕ, [], true, false, Some, None, length, option_map, if◌then◌else◌, IsTrue, IfOk, OnOk, OnErr, IfErr, Err, is_ok, MatchResult};
ghost use Rattle.std.specs.Arc.{arc_value};
ghost use Rattle.lsm_codec.specs.Versions.{AreOrdered};
ghost use Rattle.lsm_device.specs.Calls.{after_sync, faults_after, AtMost};
ghost use Rattle.lsm_device.specs.Disk.{seen, synced};
ghost use Rattle.lsm_device.specs.History.{Becomes, EachSince};
ghost use Rattle.lsm_device.specs.Medium.{disk};
ghost use Rattle.lsm_device.specs.Outcomes.{Leaves};
ghost use Rattle.lsm_device.specs.Refusals.{is_no_fault, faultless};
ghost use Rattle.lsm_open.specs.Answered.{OpensUnless};
ghost use Rattle.lsm_root.specs.CrashState.{CrashState, last_number, left_by_opening, MayRefuseOpening};
ghost use Rattle.lsm_open.specs.Image.{StandFor};
ghost use Rattle.lsm_open.specs.Layout.{layout_of};
ghost use Rattle.lsm_open.specs.RefusedOpenings.{opening_refusal};
ghost use Rattle.lsm_open.specs.Placements.{contents_for};
ghost use Rattle.lsm_open.specs.ReadParts.{sectors_read_by, sectors_read_most, AreRead, AreToldBy, ReadsAtMost};
ghost use Rattle.lsm_open.specs.Recovering.{placed_in, IsReopened, IsRecovered, AreWithinLimits, IsOpeningRefusal, BeginsWithSync, HasWritten, StandForOne, CrashesWhileOpening, FailsToOpen};
ghost use Rattle.lsm_mem.specs.Versions.{sealed_versions};
ghost use Rattle.lsm_root.specs.Layout.{IsDeviceSize};
ghost use Rattle.lsm_root.specs.Roots.{root_of};

use crate::counting::load_counted;
use crate::regions::Regions;
use crate::reopened::reopen;
use crate::replayed::{Replayed, replay_regions};
use crate::tables::read_tables;
use lsm_codec::{LAST_NUMBER, LogRecord, Manifest, TableRecord, is_device_size};
use lsm_device::{Device, Refusal};
use lsm_extent::Extents;
use lsm_levels::Levels;
use lsm_mem::{Mem, Sealed};
use lsm_root::Loaded;
use lsm_root::laws::root_laws;
use std::alloc::{Allocator, Global};
use std::sync::Arc;

/// A store's parts, tables and all, as an opening recovers them.
#[derive(Drop)]
pub struct Recovered<D: Device, A: Allocator = Global> {
    pub device: D,
    /// Where the batches after the base lie on the device.
    pub regions: Regions<A>,
    /// The tables that hold the batches up to the base, as the manifest names them, the newer places first.
    pub records: Vec<TableRecord, A>,
    /// Those tables, as keys are looked up in them.
    pub levels: Levels<A>,
    /// Which blocks of the data area are handed out: theirs.
    pub extents: Extents<A>,
    /// What the batches in the closed regions made of their keys, where a region is closed.
    pub sealed: Option<Arc<Sealed<A>, A>>,
    /// The number of the last batch, 0 where there is none.
    pub count: u64,
}

// The same without the device.
#[derive(Drop)]
struct RecoveredParts<A: Allocator> {
    regions: Regions<A>,
    records: Vec<TableRecord, A>,
    levels: Levels<A>,
    extents: Extents<A>,
    sealed: Option<Arc<Sealed<A>, A>>,
    count: u64,
}

// What an opening keeps in memory of a replay.
#[derive(Drop)]
struct Kept<A: Allocator> {
    records: Vec<TableRecord, A>,
    closed: Vec<LogRecord, A>,
    sealed: Option<Arc<Sealed<A>, A>>,
    count: u64,
}

// What an opening reads before it writes.
#[derive(Drop)]
struct Read<A: Allocator> {
    loaded: Loaded<A>,
    levels: Levels<A>,
    extents: Extents<A>,
    kept: Kept<A>,
}

// Seals memory where a region is closed.
fn seal_closed<A: Allocator + Clone>(
    mem: Mem<A>,
    closed: &[LogRecord],
) -> Result<Option<Arc<Sealed<A>, A>>, Refusal>
    ensures sealed { IfOk result
        (λ s. option_map arc_value s ≡ (if length closed.now == 0 then None else Some mem)) }
    ensures ordered { IfOk result (λ s. AreOrdered (sealed_versions (option_map arc_value s))) }
    ensures refused { IfErr result (λ refusal. refusal ≡ Refusal.NoMemory) }
{
    let _versions = mem.versions();
    if closed.is_empty() {
        return Ok(None);
    }
    match mem.seal() {
        Ok(sealed) => Ok(Some(sealed)),
        Err(_refused) => Err(Refusal::NoMemory),
    }
}

// What is kept of a replay of a manifest's regions, where there is a generation after the manifest's.
fn keep<A: Allocator + Clone>(
    alloc: &A,
    manifest: &Manifest<A>,
    replayed: Replayed<A>,
) -> Result<Kept<A>, Refusal>
    ensures has_next { IfOk result (λ k. manifest.now.generation ≢ last_number) }
    ensures records { IfOk result (λ k. k.records.items ≡ manifest.now.tables) }
    ensures closed { IfOk result (λ k. k.closed.items ≡ replayed.closed.items) }
    ensures count { IfOk result (λ k. k.count ≡ replayed.count) }
    ensures sealed { IfOk result
        (λ k. option_map arc_value k.sealed
        ≡ (if length replayed.closed.items == 0 then None else Some replayed.mem)) }
    ensures ordered { IfOk result
        (λ k. AreOrdered (sealed_versions (option_map arc_value k.sealed))) }
    ensures refused { IfErr result
        (λ refusal. ((refusal ≡ Refusal.Exhausted) × (manifest.now.generation ≡ last_number))
        ⊎ (refusal ≡ Refusal.NoMemory)) }
{
    if manifest.generation() == LAST_NUMBER {
        return Err(Refusal::Exhausted);
    }
    let mut records = Vec::new(alloc.clone()?);
    records.extend_from_slice(manifest.tables())?;
    let sealed = seal_closed(replayed.mem, &replayed.closed)?;
    Ok(Kept {
        records,
        closed: replayed.closed,
        sealed,
        count: replayed.count,
    })
}

// Reads the root, the tables that its manifest names, which are counted where it doesn't tell their deletes, and its regions.
// All that is kept of them is in memory then.
fn read_parts<A: Allocator + Clone, D: Device>(
    alloc: &A,
    device: &mut D,
) -> Result<Read<A>, Refusal>
    ensures refusal { IsTrue (D.medium device.old).lasting.tells
        → OpensUnless (opening_refusal (seen (disk (D.medium device.old)))) result }
    ensures read { IfOk result
        (λ r. AreRead (D.medium device.old).size r.loaded.log_sectors r.loaded.manifest
        r.kept.closed.items r.kept.count (option_map arc_value r.kept.sealed) r.levels
        r.extents) }
    ensures records { IfOk result (λ r. r.kept.records.items ≡ r.loaded.manifest.tables) }
    ensures told { IsTrue (D.medium device.old).lasting.tells → IfOk result (λ r.
        AreToldBy (D.medium device.old).size r.loaded.log_sectors
        (seen (disk (D.medium device.old))) r.loaded.manifest r.kept.closed.items r.kept.count
        (option_map arc_value r.kept.sealed) r.levels) }
    ensures fair { (log_sectors : ℕ) (left : CrashState)
        → IsTrue (D.medium device.old).lasting.tells
        → StandFor log_sectors left (seen (disk (D.medium device.old)))
        → IfErr result (MayRefuseOpening left) }
    ensures refused { IfErr result IsOpeningRefusal }
    ensures reads { IsTrue (D.medium device.old).lasting.tells
        → AtMost (sectors_read_by (root_of (seen (disk (D.medium device.old))))) 0 0
        (D.medium device.old).calls (D.medium device.new).calls }
    ensures most { IfOk result
        (λ r. AtMost (sectors_read_most r.loaded.log_sectors r.loaded.manifest.tables) 0 0
        (D.medium device.old).calls (D.medium device.new).calls) }
    ensures device { ReadsAtMost 587842 (faultless result) (D.medium device.old)
        (D.medium device.new) }
{
    let loaded = load_counted(alloc, device)?;
    let tables = read_tables(alloc, device, loaded.log_sectors, &loaded.manifest)?;
    let replayed = replay_regions(alloc, device, loaded.log_sectors, &loaded.manifest)?;
    let kept = keep(alloc, &loaded.manifest, replayed)?;
    Ok(Read {
        loaded,
        levels: tables.levels,
        extents: tables.extents,
        kept,
    })
}

// Recovers the parts from a device where nothing pends.
fn recover_settled<A: Allocator + Clone, D: Device>(
    alloc: A,
    device: &mut D,
) -> Result<RecoveredParts<A>, Refusal>
    requires rests { IsTrue (D.medium device.old).lasting.tells
        → (disk (D.medium device.old)).pending ≡ [] }
    ensures refusal { IsTrue (D.medium device.old).lasting.tells
        → OpensUnless (opening_refusal (seen (disk (D.medium device.old)))) result }
    ensures within { IfOk result
        (λ p. AreWithinLimits (D.medium device.old).size
        (placed_in (layout_of p.regions) p.levels p.records.items) p.count
        (option_map arc_value p.sealed) p.levels p.extents) }
    ensures reopened { IsTrue (D.medium device.old).lasting.tells → IfOk result (λ p.
        IsReopened (seen (disk (D.medium device.old)))
        (placed_in (layout_of p.regions) p.levels p.records.items) p.count
        (option_map arc_value p.sealed) p.levels (disk (D.medium device.new))) }
    ensures recovered { (log_sectors : ℕ) (left : CrashState)
        → IsTrue (D.medium device.old).lasting.tells
        → StandFor log_sectors left (seen (disk (D.medium device.old)))
        → IfOk result (λ p. IsRecovered log_sectors left
        (placed_in (layout_of p.regions) p.levels p.records.items) p.count
        (option_map arc_value p.sealed) p.levels (disk (D.medium device.new))) }
    ensures any_moment { (log_sectors : ℕ) (left : CrashState)
        → IsTrue (D.medium device.old).lasting.tells
        → StandFor log_sectors left (seen (disk (D.medium device.old)))
        → EachSince (Leaves (StandForOne log_sectors (left_by_opening left)))
        (D.medium device.old).history (D.medium device.new).history }
    ensures fair { (log_sectors : ℕ) (left : CrashState)
        → IsTrue (D.medium device.old).lasting.tells
        → StandFor log_sectors left (seen (disk (D.medium device.old)))
        → IfErr result (MayRefuseOpening left) }
    ensures refused { IfErr result IsOpeningRefusal }
    ensures unwritten { IfErr result
        (λ refusal. IsTrue (is_no_fault refusal)
        → AtMost 587842 0 0 (D.medium device.old).calls (D.medium device.new).calls) }
    ensures unchanged { IsTrue (D.medium device.old).lasting.tells
        → IfErr result (λ refusal. IsTrue (is_no_fault refusal)
        → (D.medium device.new).history ≡ (D.medium device.old).history) }
    ensures made { IfOk result
        (λ p. HasWritten (contents_for (placed_in (layout_of p.regions) p.levels p.records.items)) 2
        (D.medium device.old).calls (D.medium device.new).calls) }
    ensures reads { IsTrue (D.medium device.old).lasting.tells
        → AtMost (sectors_read_by (root_of (seen (disk (D.medium device.old))))) 42 2
        (D.medium device.old).calls (D.medium device.new).calls }
    ensures most { IfOk result
        (λ p. AtMost (sectors_read_most p.regions.log_sectors p.records.items) 42 2
        (D.medium device.old).calls (D.medium device.new).calls) }
    ensures calls { AtMost 587842 42 2 (D.medium device.old).calls (D.medium device.new).calls }
    ensures faults { (D.medium device.new).calls.faults
        ≡ faults_after (faultless result) (D.medium device.old).calls.faults }
    ensures stops { IfErr result
        (λ refusal. refusal ≡ Refusal.Io → IsTrue (D.medium device.new).calls.last_faulted) }
    ensures same_size { (D.medium device.new).size ≡ (D.medium device.old).size }
    ensures same_lasting { (D.medium device.new).lasting ≡ (D.medium device.old).lasting }
{
    root_laws();
    let read = read_parts(&alloc, device)?;
    let kept = read.kept;
    let regions = reopen(alloc, device, &read.loaded, kept.closed, kept.count)?;
    Ok(RecoveredParts {
        regions,
        records: kept.records,
        levels: read.levels,
        extents: read.extents,
        sealed: kept.sealed,
        count: kept.count,
    })
}

// The first call of an opening, a sync, on a device of a fair size.
fn begin<D: Device>(device: &mut D) -> Result<(), Refusal>
    ensures size { (IsDeviceSize (D.medium device.old).size → ⊥)
        → (result ≡ Err Refusal.BadGeometry) × (device.new ≡ device.old) }
    ensures stands { IsTrue (D.medium device.old).lasting.tells → OnOk result
        (Becomes (synced (disk (D.medium device.old))) (D.medium device.old).history
        (D.medium device.new).history) }
    ensures unchanged { IsTrue (D.medium device.old).lasting.tells
        → OnErr result ((D.medium device.new).history ≡ (D.medium device.old).history) }
    ensures refused { IfErr result
        (λ refusal. ((refusal ≡ Refusal.BadGeometry)
        × (IsDeviceSize (D.medium device.old).size → ⊥)) ⊎ (refusal ≡ Refusal.Io)) }
    ensures counted { IsDeviceSize (D.medium device.old).size
        → (D.medium device.new).calls ≡ after_sync (is_ok result) (D.medium device.old).calls }
    ensures made { OnOk result
        ((D.medium device.new).calls ≡ after_sync true (D.medium device.old).calls) }
    ensures calls { AtMost 0 0 1 (D.medium device.old).calls (D.medium device.new).calls }
    ensures faults { (D.medium device.new).calls.faults
        ≡ faults_after (faultless result) (D.medium device.old).calls.faults }
    ensures stops { IfErr result
        (λ refusal. refusal ≡ Refusal.Io → IsTrue (D.medium device.new).calls.last_faulted) }
    ensures same_size { (D.medium device.new).size ≡ (D.medium device.old).size }
    ensures same_lasting { (D.medium device.new).lasting ≡ (D.medium device.old).lasting }
{
    if !is_device_size(device.sectors()) {
        return Err(Refusal::BadGeometry);
    }
    device.sync()?;
    Ok(())
}

// Recovers the parts.
fn recover_parts<A: Allocator + Clone, D: Device>(
    alloc: A,
    device: &mut D,
) -> Result<RecoveredParts<A>, Refusal>
    ensures size { (IsDeviceSize (D.medium device.old).size → ⊥)
        → (result ≡ Err Refusal.BadGeometry) × (device.new ≡ device.old) }
    ensures refusal { IsTrue (D.medium device.old).lasting.tells
        → IsDeviceSize (D.medium device.old).size
        → OpensUnless (opening_refusal (seen (disk (D.medium device.old)))) result }
    ensures within { IfOk result
        (λ p. AreWithinLimits (D.medium device.old).size
        (placed_in (layout_of p.regions) p.levels p.records.items) p.count
        (option_map arc_value p.sealed) p.levels p.extents) }
    ensures reopened { IsTrue (D.medium device.old).lasting.tells → IfOk result (λ p.
        IsReopened (seen (disk (D.medium device.old)))
        (placed_in (layout_of p.regions) p.levels p.records.items) p.count
        (option_map arc_value p.sealed) p.levels (disk (D.medium device.new))) }
    ensures recovered { (log_sectors : ℕ) (left : CrashState)
        → IsTrue (D.medium device.old).lasting.tells
        → StandFor log_sectors left (seen (disk (D.medium device.old)))
        → IfOk result (λ p. IsRecovered log_sectors left
        (placed_in (layout_of p.regions) p.levels p.records.items) p.count
        (option_map arc_value p.sealed) p.levels (disk (D.medium device.new))) }
    ensures any_moment { (log_sectors : ℕ) (left : CrashState)
        → IsTrue (D.medium device.old).lasting.tells
        → StandFor log_sectors left (seen (disk (D.medium device.old)))
        → OnOk result (CrashesWhileOpening (D.medium device.old) log_sectors left
        (D.medium device.new)) }
    ensures fails { (log_sectors : ℕ) (left : CrashState)
        → IsTrue (D.medium device.old).lasting.tells
        → StandFor log_sectors left (seen (disk (D.medium device.old)))
        → IfErr result (λ refusal. FailsToOpen (D.medium device.old) log_sectors left refusal
        (D.medium device.new)) }
    ensures refused { IfErr result IsOpeningRefusal }
    ensures unwritten { IfErr result
        (λ refusal. IsTrue (is_no_fault refusal)
        → AtMost 587842 0 1 (D.medium device.old).calls (D.medium device.new).calls) }
    ensures settled { IsTrue (D.medium device.old).lasting.tells
        → IsDeviceSize (D.medium device.old).size
        → IfErr result (λ refusal. IsTrue (is_no_fault refusal)
        → Becomes (synced (disk (D.medium device.old))) (D.medium device.old).history
        (D.medium device.new).history) }
    ensures begins { IsDeviceSize (D.medium device.old).size
        → BeginsWithSync (D.medium device.old).calls (D.medium device.new).calls }
    ensures made { IfOk result
        (λ p. HasWritten (contents_for (placed_in (layout_of p.regions) p.levels p.records.items)) 3
        (D.medium device.old).calls (D.medium device.new).calls) }
    ensures reads { IsTrue (D.medium device.old).lasting.tells
        → AtMost (sectors_read_by (root_of (seen (disk (D.medium device.old))))) 42 3
        (D.medium device.old).calls (D.medium device.new).calls }
    ensures most { IfOk result
        (λ p. AtMost (sectors_read_most p.regions.log_sectors p.records.items) 42 3
        (D.medium device.old).calls (D.medium device.new).calls) }
    ensures calls { AtMost 587842 42 3 (D.medium device.old).calls (D.medium device.new).calls }
    ensures faults { (D.medium device.new).calls.faults
        ≡ faults_after (faultless result) (D.medium device.old).calls.faults }
    ensures stops { IfErr result
        (λ refusal. refusal ≡ Refusal.Io → IsTrue (D.medium device.new).calls.last_faulted) }
    ensures same_size { (D.medium device.new).size ≡ (D.medium device.old).size }
    ensures same_lasting { (D.medium device.new).lasting ≡ (D.medium device.old).lasting }
{
    root_laws();
    begin(device)?;
    let parts = recover_settled(alloc, device)?;
    Ok(parts)
}

/// Recovers a store's parts from its device, with the tables that its manifest names. It begins with a sync, loads the root, counts
/// the deletes of tables whose records don't tell them, opens the tables and replays the listed regions in order. A region that
/// gave no batch is free; the least free one opens under the next generation as its epoch, and with none free no log is open. What
/// the replayed batches made of their keys is sealed. It installs that generation, in version 2 of the format, with the same tables,
/// and a refusal hands the device back. All memory is taken before it writes.
///
/// Fails with `BadGeometry` before any device call where the device has fewer than 8,192 sectors or more than
/// 1,048,576; with `NotAStore`, `BadSuper`, `BadGeometry` or `BadManifest` as the root says; with `BadTable` where the manifest
/// names a table that can't be counted or doesn't open, or the tables of a run are out of order; with `BadManifest` where a region's first batch is
/// not the next one; with `Exhausted` in the last generation; with `NoMemory`; and with `Io` where a device call failed, which
/// was its last. `NoMemory` and `Io` end it where it meets them; of the others the first in this order is answered.
pub fn recover<A: Allocator + Clone, D: Device>(
    alloc: A,
    device: D,
) -> Result<Recovered<D, A>, (Refusal, D)>
    // Just where the size is outside the limits it fails with BadGeometry before any device call, and then nothing else is
    // answered, NoMemory neither.
    ensures size { (result ≡ Err (Refusal.BadGeometry, device))
        ↔ (IsDeviceSize (D.medium device).size → ⊥) }

    // Of any sectors it returns Ok only where no refusal holds, and an Err is the one that holds, or NoMemory, or a
    // fault.
    ensures refusal { IsTrue (D.medium device).lasting.tells → IsDeviceSize (D.medium device).size
        → MatchResult result
        (λ r. opening_refusal (seen (disk (D.medium device))) ≡ None)
        (λ e. (opening_refusal (seen (disk (D.medium device))) ≡ Some e.0)
        ⊎ ((e.0 ≡ Refusal.NoMemory) ⊎ (e.0 ≡ Refusal.Io))) }

    // Whatever the device holds, and whether it tells so or not, an Err is one of these; and after Ok the parts are within
    // the limits, and just their manifest was written.
    ensures refused { IfErr result (λ e. IsOpeningRefusal e.0) }
    ensures made { IfOk result
        (λ r. HasWritten (contents_for (placed_in (layout_of r.regions) r.levels r.records.items)) 3
        (D.medium device).calls (D.medium r.device).calls) }
    ensures within { IfOk result
        (λ r. AreWithinLimits (D.medium device).size
        (placed_in (layout_of r.regions) r.levels r.records.items) r.count
        (option_map arc_value r.sealed) r.levels r.extents) }

    // Where a manifest stands, base, tables and next table number stay, and memory has just the versions of the batches in
    // the listed regions.
    ensures reopened { IsTrue (D.medium device).lasting.tells → IfOk result (λ r.
        IsReopened (seen (disk (D.medium device)))
        (placed_in (layout_of r.regions) r.levels r.records.items) r.count
        (option_map arc_value r.sealed) r.levels (disk (D.medium r.device))) }

    // Of what a crash left it recovers the store, and is refused only fairly.
    ensures recovered { (log_sectors : ℕ) (left : CrashState)
        → IsTrue (D.medium device).lasting.tells
        → StandFor log_sectors left (seen (disk (D.medium device)))
        → IfOk result (λ r. IsRecovered log_sectors left
        (placed_in (layout_of r.regions) r.levels r.records.items) r.count
        (option_map arc_value r.sealed) r.levels (disk (D.medium r.device))) }
    ensures any_moment { (log_sectors : ℕ) (left : CrashState)
        → IsTrue (D.medium device).lasting.tells
        → StandFor log_sectors left (seen (disk (D.medium device)))
        → IfOk result (λ r. CrashesWhileOpening (D.medium device) log_sectors left
        (D.medium r.device)) }
    ensures fails { (log_sectors : ℕ) (left : CrashState) → IsTrue (D.medium device).lasting.tells
        → StandFor log_sectors left (seen (disk (D.medium device)))
        → IfErr result (λ e. FailsToOpen (D.medium device) log_sectors left e.0 (D.medium e.1)) }

    // A refusal that tells of no fault has written nothing. It made one sync at most, and exactly for a size outside the
    // limits none.
    ensures unwritten { IfErr result
        (λ e. IsTrue (is_no_fault e.0)
        → AtMost 587842 0 1 (D.medium device).calls (D.medium e.1).calls) }
    ensures settled { IsTrue (D.medium device).lasting.tells → IsDeviceSize (D.medium device).size
        → IfErr result (λ e. IsTrue (is_no_fault e.0)
        → Becomes (synced (disk (D.medium device))) (D.medium device).history
        (D.medium e.1).history) }
    ensures begins { IsDeviceSize (D.medium device).size → MatchResult result
        (λ r. BeginsWithSync (D.medium device).calls (D.medium r.device).calls)
        (λ e. BeginsWithSync (D.medium device).calls (D.medium e.1).calls) }

    // A device call faulted exactly where it returns Io, and then the last.
    ensures faults { MatchResult result
        (λ r. (D.medium r.device).calls.faults ≡ (D.medium device).calls.faults)
        (λ e. (D.medium e.1).calls.faults
        ≡ faults_after (is_no_fault e.0) (D.medium device).calls.faults) }
    ensures stops { IfErr result
        (λ e. e.0 ≡ Refusal.Io → IsTrue (D.medium e.1).calls.last_faulted) }

    // Of the tables it reads footer, index and filter, and data blocks only of those whose records tell no deletes: in version 1
    // of the format each once, to count them, and in version 2 none. So it is of a device that tells what it holds, whatever is
    // answered. Of another device it is known after Ok that it reads at most all these blocks of the tables that are answered.
    ensures reads { IsTrue (D.medium device).lasting.tells → MatchResult result
        (λ r. AtMost (sectors_read_by (root_of (seen (disk (D.medium device))))) 42 3
        (D.medium device).calls (D.medium r.device).calls)
        (λ e. AtMost (sectors_read_by (root_of (seen (disk (D.medium device))))) 42 3
        (D.medium device).calls (D.medium e.1).calls) }
    ensures most { IfOk result
        (λ r. AtMost (sectors_read_most r.regions.log_sectors r.records.items) 42 3
        (D.medium device).calls (D.medium r.device).calls) }
    ensures calls { MatchResult result
        (λ r. AtMost 587842 42 3 (D.medium device).calls (D.medium r.device).calls)
        (λ e. AtMost 587842 42 3 (D.medium device).calls (D.medium e.1).calls) }
    ensures same_size { MatchResult result (λ r. (D.medium r.device).size ≡ (D.medium device).size)
        (λ e. (D.medium e.1).size ≡ (D.medium device).size) }
    ensures same_lasting { MatchResult result
        (λ r. (D.medium r.device).lasting ≡ (D.medium device).lasting)
        (λ e. (D.medium e.1).lasting ≡ (D.medium device).lasting) }
{
    let mut device = device;
    match recover_parts(alloc, &mut device) {
        Ok(parts) => Ok(Recovered {
            device,
            regions: parts.regions,
            records: parts.records,
            levels: parts.levels,
            extents: parts.extents,
            sealed: parts.sealed,
            count: parts.count,
        }),
        Err(refusal) => Err((refusal, device)),
    }
}
