// The log of the next generation is opened.
ghost use Rattle.std.specs.Prelude.{Option, ◌≡◌, ◌≢◌, ◌⊎◌, ◌<◌, ◌≤◌, ◌^◌, ◌+◌, [], IsTrue, IfOk, OnOk, IfErr, option_map};
ghost use Rattle.lsm_codec.specs.Manifests.{IsManifestOf, sector_count};
ghost use Rattle.lsm_codec.specs.declared.superblock.FormatVersion.TheVariants.{Two};
ghost use Rattle.lsm_device.specs.Calls.{faults_after, AtMost};
ghost use Rattle.lsm_device.specs.History.{EachSince};
ghost use Rattle.lsm_device.specs.Medium.{disk};
ghost use Rattle.lsm_device.specs.Outcomes.{Leaves};
ghost use Rattle.lsm_device.specs.Refusals.{faultless, is_no_fault};
ghost use Rattle.lsm_root.specs.CrashState.{last_number};
ghost use Rattle.lsm_open.specs.Layout.{layout_of};
ghost use Rattle.lsm_open.specs.Reopening.{is_free, least_free, next_contents, IsNewIfOpen, IsNextLayout, HasCome};
ghost use Rattle.lsm_open.specs.Switching.{IsInLeastFree};
ghost use Rattle.lsm_open.specs.declared.regions.OpenRegion.{OpenRegion};
ghost use Rattle.lsm_root.specs.Counted.{CallsMade};
ghost use Rattle.lsm_root.specs.Installed.{IsReady, IsOldOrNew, IsInstalled};
ghost use Rattle.lsm_root.specs.Layout.{IsGeometry, LieInside};
ghost use Rattle.lsm_root.specs.Roots.{Stands};

use crate::regions::{OpenRegion, Regions, region_start};
use lsm_codec::LogRecord;
use lsm_device::{Device, Refusal};
use lsm_log::Log;
use lsm_root::{Loaded, install};
use std::alloc::Allocator;

fn is_free(region: u8, logs: &[LogRecord]) -> bool
    ensures { result ≡ is_free region logs.now }
{
    logs.iter().all(|listed| listed.region != region)
}

// The least region that no log record is of, if one is free.
fn least_free(logs: &[LogRecord]) -> Option<u8>
    ensures { result ≡ least_free logs.now }
{
    if is_free(0, logs) {
        Some(0)
    } else if is_free(1, logs) {
        Some(1)
    } else if is_free(2, logs) {
        Some(2)
    } else {
        None
    }
}

/// A log with no batch yet in the least free region, if one is free.
pub(crate) fn open_least_free(
    log_sectors: u16,
    closed: &[LogRecord],
    epoch: u64,
    count: u64,
) -> Option<OpenRegion>
    requires log_high { log_sectors ≤ 2048 }
    requires count_high { count ≤ 2 ^ 63 }
    ensures least { option_map (λ o. o.region) result ≡ least_free closed.now }
    ensures new_log { IsNewIfOpen log_sectors epoch count result }
{
    let region = least_free(closed)?;
    let start = region_start(log_sectors, region);
    let log = Log::new(start, log_sectors as u32, epoch, count + 1);
    Some(OpenRegion { region, log })
}

// The regions in the generation after a manifest's, at `count` batches: a log is open in the least free one, if one is free.
fn next_regions<A: Allocator>(
    loaded: &Loaded<A>,
    closed: Vec<LogRecord, A>,
    count: u64,
) -> Regions<A>
    requires log_high { loaded.now.log_sectors ≤ 2048 }
    requires generation_high { loaded.now.manifest.generation ≤ 2 ^ 63 }
    requires count_high { count ≤ 2 ^ 63 }
    ensures layout { IsNextLayout loaded.now.log_sectors loaded.now.manifest count
        (layout_of result) }
    ensures kept { result.closed.items ≡ closed.items }
{
    let generation = loaded.manifest.generation() + 1;
    let open_region = open_least_free(loaded.log_sectors, &closed, generation, count);
    Regions {
        log_sectors: loaded.log_sectors,
        generation,
        base: loaded.manifest.base(),
        next_table: loaded.manifest.next_table(),
        closed,
        open_region,
    }
}

/// Opens the least free region, if one is free, for the batches after `count`, and installs the next generation's manifest,
/// which says so and names the same tables.
pub(crate) fn reopen<A: Allocator + Clone, D: Device>(
    alloc: A,
    device: &mut D,
    loaded: &Loaded<A>,
    closed: Vec<LogRecord, A>,
    count: u64,
) -> Result<Regions<A>, Refusal>
    requires geometry { IsGeometry (D.medium device.old).size loaded.now.log_sectors }
    requires fits { IsManifestOf Two loaded.now.manifest }
    requires inside { LieInside (D.medium device.old).size loaded.now.log_sectors
        loaded.now.manifest.tables }
    requires has_next { loaded.now.manifest.generation ≢ last_number }
    requires come { HasCome loaded.now.manifest count closed.items [] }
    requires ready { IsTrue (D.medium device.old).lasting.tells
        → IsReady (D.medium device.old).size loaded.now.log_sectors
        (loaded.now.manifest.generation + 1) (disk (D.medium device.old)) }

    // A log may be open in the least free region, whether it comes to be installed or not.
    ensures may_open { (o : Option OpenRegion)
        × IsInLeastFree loaded.now.log_sectors (loaded.now.manifest.generation + 1) count
        closed.items o }
    ensures layout { IfOk result
        (λ r. IsNextLayout loaded.now.log_sectors loaded.now.manifest count (layout_of r)) }
    ensures kept { IfOk result (λ r. r.closed.items ≡ closed.items) }
    ensures any_moment { IsTrue (D.medium device.old).lasting.tells → EachSince
        (Leaves (IsOldOrNew (disk (D.medium device.old))
        (Stands loaded.now.log_sectors
        (next_contents loaded.now.manifest closed.items count))))
        (D.medium device.old).history (D.medium device.new).history }
    ensures installed { IsTrue (D.medium device.old).lasting.tells → OnOk result
        (IsInstalled (disk (D.medium device.old))
        (Stands loaded.now.log_sectors (next_contents loaded.now.manifest closed.items count))
        (disk (D.medium device.new))) }
    ensures refused { IfErr result
        (λ refusal. (refusal ≡ Refusal.NoMemory) ⊎ (refusal ≡ Refusal.Io)) }

    // Unless a call of it failed, the device wasn't called.
    ensures untouched { IfErr result
        (λ refusal. IsTrue (is_no_fault refusal) → device.new ≡ device.old) }
    ensures made { OnOk result
        (CallsMade (sector_count (next_contents loaded.now.manifest closed.items count) + 1) 2
        (D.medium device.old).calls (D.medium device.new).calls) }
    ensures calls { AtMost 0 42 2 (D.medium device.old).calls (D.medium device.new).calls }
    ensures faults { (D.medium device.new).calls.faults
        ≡ faults_after (faultless result) (D.medium device.old).calls.faults }
    ensures stops { IfErr result
        (λ refusal. refusal ≡ Refusal.Io → IsTrue (D.medium device.new).calls.last_faulted) }
    ensures same_size { (D.medium device.new).size ≡ (D.medium device.old).size }
    ensures same_lasting { (D.medium device.new).lasting ≡ (D.medium device.old).lasting }
{
    let regions = next_regions(loaded, closed, count);
    let named = &loaded.manifest;
    let manifest = regions.manifest(alloc.clone()?, named.runs(), named.tables())?;
    install(alloc, device, loaded.log_sectors, &manifest)?;
    Ok(regions)
}
