//! The runs of tables: a run ends where the next table doesn't begin after its last one.

ghost use Rattle.std.specs.Prelude.{◌≡◌, ◌⊎◌, ◌<◌, ◌≤◌, ◌-◌, [], map, List, Err, length, IsTrue, IfOk, IfErr, OnOk};
ghost use Rattle.std.specs.List.{AllByRecursion};
ghost use Rattle.lsm_device.specs.declared.refusal.Refusal.TheVariants.{NoMemory, Io, BadTable};
ghost use Rattle.lsm_device.specs.Disk.{seen};
ghost use Rattle.lsm_device.specs.Medium.{disk};
ghost use Rattle.lsm_device.specs.Refusals.{faultless};
ghost use Rattle.lsm_codec.specs.Versions.{Version};
ghost use Rattle.lsm_merge.specs.Inputs.{AreRuns, items_of};
ghost use Rattle.lsm_levels.specs.Stored.{LiesWithin};
ghost use Rattle.lsm_jobs.specs.Gathering.{ends_run, run_length, ascending_runs, fronts, RunsGoOn, ReadsBlocks};

use crate::blocks::{data_blocks, read_tables};
use lsm_codec::Entry;
use lsm_device::{Device, Refusal};
use lsm_levels::PlacedTable;
use std::alloc::{AllocError, Allocator};

/// Whether a table is the last of its run, where these come after it.
fn ends_run<A: Allocator>(table: &PlacedTable<A>, others: &[PlacedTable<A>]) -> bool
    ensures { result ≡ ends_run table.now others.now }
{
    match others {
        [] => true,
        [next, ..] => !table.last().cmp(next.first()).is_lt(),
    }
}

/// How many tables the first run has.
fn run_length<A: Allocator>(tables: &[PlacedTable<A>]) -> usize
    ensures { result ≡ run_length tables.now }
{
    for (i, table) in tables.iter().enumerate() {
        if ends_run(table, &tables[i + 1..]) {
            return i + 1;
        }
    }
    tables.len()
}

/// A list for each run, without an entry.
pub(crate) fn empty_runs<A: Allocator + Clone>(
    alloc: &A,
    tables: &[PlacedTable<A>],
) -> Result<Vec<Vec<Entry<A>, A>, A>, AllocError>
    ensures { IfOk result (λ runs. items_of runs.items
        ≡ map (λ run. []) (ascending_runs tables.now)) }
{
    let mut runs = Vec::new(alloc.clone()?);
    for (i, table) in tables.iter().enumerate() {
        if ends_run(table, &tables[i + 1..]) {
            runs.push(Vec::new(alloc.clone()?))?;
        }
    }
    Ok(runs)
}

/// How many entries each run has.
pub(crate) fn lengths<A: Allocator>(
    alloc: A,
    runs: &[Vec<Entry<A>, A>],
) -> Result<Vec<usize, A>, AllocError>
    ensures { IfOk result (λ lengths. lengths.items ≡ map length (items_of runs.now)) }
{
    let mut lengths = Vec::new(alloc);
    for run in runs {
        lengths.push(run.len())?;
    }
    Ok(lengths)
}

/// Cuts each run back to the length at its index.
pub(crate) fn cut_back<A: Allocator>(runs: &mut [Vec<Entry<A>, A>], lengths: &[usize])
    requires { length lengths.now ≡ length runs.old }
    ensures cut { items_of runs.new ≡ fronts lengths.now (items_of runs.old) }
    ensures same_count { length runs.new ≡ length runs.old }
{
    for i in 0..lengths.len() {
        runs[i].truncate(lengths[i]);
    }
}

/// Reads the data blocks of tables from one place on up to another, and adds their entries to their runs.
pub(crate) fn read_runs<D: Device, A: Allocator + Clone>(
    alloc: &A,
    runs: &mut [Vec<Entry<A>, A>],
    tables: &[PlacedTable<A>],
    area: u32,
    from: usize,
    to: usize,
    device: &mut D,
) -> Result<(), Refusal>
    requires few { length tables.now ≤ 1024 }
    requires count { length runs.old ≡ length (ascending_runs tables.now) }
    requires ordered { AreRuns (items_of runs.old) }
    requires within { AllByRecursion (LiesWithin (D.medium device.old).size area) tables.now }
    ensures goes_on { IsTrue (D.medium device.old).lasting.tells → OnOk result
        (RunsGoOn (seen (disk (D.medium device.old))) area from to (ascending_runs tables.now)
        (items_of runs.old) (items_of runs.new)) }
    ensures bad { IsTrue (D.medium device.old).lasting.tells → result ≡ Err BadTable
        → (new : List (List Version))
        → RunsGoOn (seen (disk (D.medium device.old))) area from to (ascending_runs tables.now)
        (items_of runs.old) new → ⊥ }
    ensures longer { fronts (map length (items_of runs.old)) (items_of runs.new)
        ≡ items_of runs.old }
    ensures same_count { length runs.new ≡ length runs.old }
    ensures ordered { AreRuns (items_of runs.new) }
    ensures refused { IfErr result
        (λ refusal. (refusal ≡ Io) ⊎ ((refusal ≡ BadTable) ⊎ (refusal ≡ NoMemory))) }
    ensures device { ReadsBlocks (to - from) (faultless result) (D.medium device.old)
        (D.medium device.new) }
{
    let mut behind = tables;
    let mut from = from;
    let mut to = to;
    for i in 0..runs.len() {
        let (own, others) = behind.split_at(run_length(behind));
        read_tables(
            alloc,
            &mut runs[i],
            own,
            area,
            from,
            to.saturating_sub(from),
            device,
        )?;
        let blocks = data_blocks(own);
        from = from.saturating_sub(blocks);
        to = to.saturating_sub(blocks);
        behind = others;
    }
    Ok(())
}
