// All tables are checked.
ghost use Rattle.std.specs.Prelude.{◌≡◌, ◌≤◌, ◌<◌, ◌+◌, ◌*◌, ◌^◌, ◌++◌, List, length, IsTrue, IfOk, IfErr, OnOk};
ghost use Rattle.std.specs.List.{AllByRecursion};
ghost use Rattle.lsm_device.specs.Disk.{seen};
ghost use Rattle.lsm_device.specs.Medium.{disk};
ghost use Rattle.lsm_levels.specs.Levels.{all_tables, places};
ghost use Rattle.lsm_levels.specs.Stored.{LiesWithin, AreWithin};
ghost use Rattle.lsm_levels.specs.Tables.{Table, versions_of};
ghost use Rattle.lsm_open.specs.ReadParts.{ReadsAtMost};
ghost use Rattle.lsm_check.specs.Counted.{ReadsBetween, data_blocks_in};
ghost use Rattle.lsm_check.specs.Found.{IsOfTables, numbers_in};
ghost use Rattle.lsm_check.specs.Images.{IsNoVerdict, is_faultless};
ghost use Rattle.lsm_check.specs.Sound.{IsTold, AreSound, AreSeen};

use crate::finding::Finding;
use crate::seen::Seen;
use crate::table::check_table;
use lsm_device::Device;
use lsm_levels::{Levels, PlacedTable, Run};
use std::alloc::Allocator;

// Checks the tables of a run, which come after those seen so far.
fn check_run<D: Device, A: Allocator + Clone>(
    alloc: &A,
    device: &mut D,
    area: u32,
    run: &[PlacedTable<A>],
    base: u64,
    so_far: &mut Seen<A>,
) -> Result<(), Finding>
    requires within { AllByRecursion (LiesWithin (D.medium device.old).size area) run.now }
    requires few { so_far.old.entries + 3200 * length run.now < 2 ^ 64 }
    ensures sound { (done : List Table) → IsTrue (D.medium device.old).lasting.tells
        → AllByRecursion (IsTold (seen (disk (D.medium device.old))) area) run.now
        → AreSeen (seen (disk (D.medium device.old))) area base done so_far.old
        → OnOk result (AreSeen (seen (disk (D.medium device.old))) area base
        (done ++ run.now) so_far.new) }
    ensures fair { (done rest : List Table) → IsTrue (D.medium device.old).lasting.tells
        → AreSeen (seen (disk (D.medium device.old))) area base done so_far.old
        → AreSound (seen (disk (D.medium device.old))) area base ((done ++ run.now) ++ rest)
        → IfErr result IsNoVerdict }
    ensures few { OnOk result (so_far.new.entries ≤ so_far.old.entries + 3200 * length run.now) }
    ensures refused { IfErr result (IsOfTables (numbers_in run.now)) }
    ensures device { ReadsAtMost (512 * length run.now) (is_faultless result) (D.medium device.old)
        (D.medium device.new) }
    ensures whole { OnOk result
        (ReadsBetween (8 * data_blocks_in run.now) (512 * length run.now)
        (D.medium device.old).calls (D.medium device.new).calls) }
{
    for table in run {
        check_table(alloc, device, area, table, base, so_far)?;
    }
    Ok(())
}

// Checks the tables of runs, which come after those seen so far.
fn check_runs<D: Device, A: Allocator + Clone>(
    alloc: &A,
    device: &mut D,
    area: u32,
    runs: &[Run<A>],
    base: u64,
    so_far: &mut Seen<A>,
) -> Result<(), Finding>
    requires within { AreWithin (D.medium device.old).size area runs.now }
    requires few { so_far.old.entries + 3200 * length (all_tables runs.now) < 2 ^ 64 }
    ensures sound { (done : List Table) → IsTrue (D.medium device.old).lasting.tells
        → AllByRecursion (IsTold (seen (disk (D.medium device.old))) area) (all_tables runs.now)
        → AreSeen (seen (disk (D.medium device.old))) area base done so_far.old
        → OnOk result (AreSeen (seen (disk (D.medium device.old))) area base
        (done ++ all_tables runs.now) so_far.new) }
    ensures fair { (done rest : List Table) → IsTrue (D.medium device.old).lasting.tells
        → AreSeen (seen (disk (D.medium device.old))) area base done so_far.old
        → AreSound (seen (disk (D.medium device.old))) area base
        ((done ++ all_tables runs.now) ++ rest) → IfErr result IsNoVerdict }
    ensures few { OnOk result (so_far.new.entries
        ≤ so_far.old.entries + 3200 * length (all_tables runs.now)) }
    ensures refused { IfErr result (IsOfTables (numbers_in (all_tables runs.now))) }
    ensures device { ReadsAtMost (512 * length (all_tables runs.now)) (is_faultless result)
        (D.medium device.old) (D.medium device.new) }
    ensures whole { OnOk result
        (ReadsBetween (8 * data_blocks_in (all_tables runs.now))
        (512 * length (all_tables runs.now)) (D.medium device.old).calls
        (D.medium device.new).calls) }
{
    for run in runs {
        check_run(alloc, device, area, run.tables(), base, so_far)?;
    }
    Ok(())
}

/// Checks all tables of levels, the newer places first, and returns how many entries they have. It reads each of their data
/// blocks once.
pub(crate) fn check_levels<D: Device, A: Allocator + Clone>(
    alloc: &A,
    device: &mut D,
    area: u32,
    levels: &Levels<A>,
    base: u64,
) -> Result<u64, Finding>
    requires within { AreWithin (D.medium device.old).size area (places levels.now) }
    requires few { length (all_tables (places levels.now)) ≤ 1024 }
    ensures sound { IsTrue (D.medium device.old).lasting.tells
        → AllByRecursion (IsTold (seen (disk (D.medium device.old))) area)
        (all_tables (places levels.now)) → IfOk result (λ entries.
        AreSound (seen (disk (D.medium device.old))) area base (all_tables (places levels.now))
        × (entries ≡ length (versions_of (all_tables (places levels.now))))) }
    ensures fair { IsTrue (D.medium device.old).lasting.tells
        → AreSound (seen (disk (D.medium device.old))) area base (all_tables (places levels.now))
        → IfErr result IsNoVerdict }
    ensures refused { IfErr result (IsOfTables (numbers_in (all_tables (places levels.now)))) }
    ensures device { ReadsAtMost 524288 (is_faultless result) (D.medium device.old)
        (D.medium device.new) }
    ensures whole { OnOk result
        (ReadsBetween (8 * data_blocks_in (all_tables (places levels.now))) 524288
        (D.medium device.old).calls (D.medium device.new).calls) }
{
    let mut so_far = Seen::new(alloc.clone()?);
    check_runs(alloc, device, area, levels.runs(), base, &mut so_far)?;
    check_runs(alloc, device, area, levels.deeper(), base, &mut so_far)?;
    Ok(so_far.entries())
}
