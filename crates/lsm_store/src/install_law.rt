// Laws of installs: what a job's outputs and the tables of the levels give of the manifest that comes next.
ghost use Rattle.std.specs.Prelude.{◌≡◌, ◌≤◌, ℕ, ◌+◌, ◌^◌, Bool, List, ◌++◌, length, All, Some};
ghost use Rattle.std.specs.List.{AllByRecursion};
ghost use Rattle.lsm_codec.specs.Geometry.{data_blocks_of};
ghost use Rattle.lsm_device.specs.Disk.{Disk, seen};
ghost use Rattle.lsm_extent.specs.Area.{IsPartition};
ghost use Rattle.lsm_jobs.specs.Outputs.{AreMadeOf};
ghost use Rattle.lsm_jobs.specs.Slots.{Slot, Slots, Writing, slot_of, outputs_at};
ghost use Rattle.lsm_levels.specs.Held.{AreRuns, IsHeld, AreOutputs};
ghost use Rattle.lsm_levels.specs.Levels.{Levels, all_tables, places};
ghost use Rattle.lsm_levels.specs.NamedBlocks.{AreNumberedApart};
ghost use Rattle.lsm_levels.specs.Pick.{Job, Flush, Merge, installed_levels};
ghost use Rattle.lsm_levels.specs.Stored.{IsStored, AreStored};
ghost use Rattle.lsm_levels.specs.Tables.{Table, versions_of};
ghost use Rattle.lsm_mem.specs.Versions.{NumberedAtMost};
ghost use Rattle.lsm_root.specs.CrashState.{last_number};
ghost use Rattle.lsm_open.specs.Layout.{Layout};
ghost use Rattle.lsm_open.specs.Placements.{Placement};
ghost use Rattle.lsm_open.specs.Switching.{AreFlushed, AreMerged};
ghost use Rattle.lsm_open.specs.Tables.{first_data, IsTableAt};
ghost use Rattle.lsm_open.specs.ToldTables.{records_of};
ghost use Rattle.lsm_open.specs.Writing.{PlacedTable, tables_of};
ghost use Rattle.lsm_store.specs.InstalledJobs.{output_records, placed_for, HasPlaced, AreSealedIn, parts_of, installed_in, installed_layout};
ghost use Rattle.lsm_machine.specs.Accounts.{AreNumbered, tables_placed};
ghost use Rattle.lsm_store.specs.Memory.{HaveTables, LieWithin};
ghost use Rattle.lsm_machine.specs.State.{State};
ghost use Rattle.lsm_store.specs.StoredTables.{IsStoredWithJobs};
ghost use Rattle.lsm_machine.specs.TableLimits.{AreFew};
ghost use Rattle.lsm_machine.specs.Work.{WorkView};
ghost use Rattle.lsm_machine.specs.WorkEffects.{with_installed};
ghost use Rattle.lsm_machine.specs.WorkRefusals.{held};
ghost use Rattle.lsm_machine.specs.WorkSound.{IsSound};
ghost use Rattle.lsm_machine.specs.Machine.{Machine};

/// The outputs of a job whose blocks are all written stand: in the levels, and each for its record in the manifest that
/// comes next.
pub fn written_outputs_stand()
    ensures placed { (slots : Slots) (job : ℕ) (slot : Slot) → slot_of job slots ≡ Some slot
        → HasPlaced slots job slot }
    ensures records { (slot : Slot)
        → tables_of (placed_for slot) ≡ output_records slot.job (outputs_at slot.stage) }
    ensures stored { (p : Placement) (xs ys : List PlacedTable) (s : State) (d : Disk) (slot : Slot)
        (outputs : List Table) → IsStoredWithJobs p (xs ++ (placed_for slot ++ ys)) s d
        → slot.stage ≡ Writing outputs 0 → AreMadeOf slot.input outputs
        → AllByRecursion (λ t. t.number ≤ 2 ^ 63) outputs
        → AllByRecursion (IsStored (seen d) (first_data p.logs.log_sectors)) outputs }
    ensures named { (p : Placement) (xs ys : List PlacedTable) (s : State) (d : Disk) (slot : Slot)
        (outputs : List Table) → IsStoredWithJobs p (xs ++ (placed_for slot ++ ys)) s d
        → slot.stage ≡ Writing outputs 0 → AreMadeOf slot.input outputs
        → AllByRecursion (λ t. t.number ≤ 2 ^ 63) outputs
        → (base : ℕ) → NumberedAtMost base (versions_of outputs)
        → All (IsTableAt p.logs.log_sectors base (seen d)) (output_records slot.job outputs) }
{}

/// After an install the records of the tables in the levels are those that the next placement names, in as many runs.
pub fn installed_records_are_placed()
    ensures records { (p : Placement) (d : Disk) (levels : Levels) (bottom : Bool) (job : Job)
        (next_table : ℕ) (new : List Table) → AreRuns levels → IsHeld levels bottom job
        → records_of levels ≡ p.tables
        → records_of (installed_levels levels job new)
        ≡ (installed_in p d levels job next_table new).tables }
    ensures runs { (p : Placement) (d : Disk) (levels : Levels) (job : Job) (next_table : ℕ)
        (new : List Table) → length levels.runs ≡ p.runs
        → length (installed_levels levels job new).runs
        ≡ (installed_in p d levels job next_table new).runs }
{}

/// A flush whose blocks are all written may be installed: its tables are of the batches in the closed regions.
pub fn written_flushes_are_flushed()
    ensures { (m : Machine) (p : Placement) (xs ys : List PlacedTable) (d : Disk) (job : ℕ)
        (slot : Slot) (outputs : List Table) → IsSound m
        → IsStoredWithJobs p (xs ++ (placed_for slot ++ ys)) m.state d
        → AreSealedIn p (seen d) m.work.sealed → held m job ≡ Some slot → slot.job ≡ Flush
        → slot.stage ≡ Writing outputs 0 → AreMadeOf slot.input outputs
        → AllByRecursion (λ t. t.number ≤ 2 ^ 63) outputs
        → AreFlushed p (seen d) (output_records Flush outputs) }
{}

/// A merge whose blocks are all written may be installed: its tables are of what it keeps of its inputs.
pub fn written_merges_are_merged()
    ensures { (m : Machine) (p : Placement) (xs ys : List PlacedTable) (d : Disk) (job : ℕ)
        (slot : Slot) (outputs : List Table) (i : ℕ) (upper lower : List Table) → IsSound m
        → IsStoredWithJobs p (xs ++ (placed_for slot ++ ys)) m.state d
        → records_of m.work.levels ≡ p.tables
        → AreStored (seen d) (first_data p.logs.log_sectors) (places m.work.levels)
        → held m job ≡ Some slot → slot.job ≡ Merge i upper lower → slot.stage ≡ Writing outputs 0
        → AreMadeOf slot.input outputs → AllByRecursion (λ t. t.number ≤ 2 ^ 63) outputs
        → AreMerged p (seen d) (parts_of m.work.levels i upper lower)
        (output_records (Merge i upper lower) outputs) }
{}

/// What the next manifest says after an install is within the limits, whatever the device holds: where there are at most 12
/// runs of level 0 and 1,024 tables then, and numbers don't run out. The tables in levels have numbers of their own then, and
/// the outputs' are within the limits.
pub fn installed_manifests_are_manifests()
    ensures within { (size count : ℕ) (l : Layout) (w : WorkView) (number : ℕ) (slot : Slot)
        → AreRuns w.levels → HaveTables w.levels w.jobs w.area
        → AreNumbered w.next_table (tables_placed w) → slot_of number w.jobs.slots ≡ Some slot
        → AreMadeOf slot.input (outputs_at slot.stage) → AreOutputs slot.job (outputs_at slot.stage)
        → IsPartition w.area → LieWithin size l w.levels
        → w.area.blocks ≡ data_blocks_of size l.log_sectors
        → count ≤ last_number → l.generation + 1 ≤ last_number → l.next_table ≤ w.next_table
        → w.next_table ≤ last_number + 1 → AreFew (with_installed w number slot).levels
        → LieWithin size (installed_layout l count w.next_table slot.job)
        (with_installed w number slot).levels }
    ensures apart { (w : WorkView) (number : ℕ) (slot : Slot) → AreRuns w.levels
        → HaveTables w.levels w.jobs w.area → AreNumbered w.next_table (tables_placed w)
        → slot_of number w.jobs.slots ≡ Some slot
        → AreMadeOf slot.input (outputs_at slot.stage) → AreOutputs slot.job (outputs_at slot.stage)
        → AreNumberedApart (all_tables (places (with_installed w number slot).levels)) }
    ensures numbers { (w : WorkView) (number : ℕ) (slot : Slot)
        → AreNumbered w.next_table (tables_placed w) → slot_of number w.jobs.slots ≡ Some slot
        → w.next_table ≤ last_number + 1
        → AllByRecursion (λ t. t.number ≤ 2 ^ 63) (outputs_at slot.stage) }
{}
