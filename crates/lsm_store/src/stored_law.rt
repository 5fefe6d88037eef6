// Laws of a store with tables: what its own writes leave of them.
ghost use Rattle.std.specs.Prelude.{◌≡◌, ◌≤◌, ℕ, ◌+◌, Bool, true, false, List, [], ◌∷◌, ◌++◌, length, take, drop, All, Option, Some};
ghost use Rattle.std.specs.List.{AllByRecursion};
ghost use Rattle.lsm_codec.specs.Manifests.{IsManifest};
ghost use Rattle.lsm_codec.specs.Map.{Operation};
ghost use Rattle.lsm_codec.specs.Versions.{Version};
ghost use Rattle.lsm_codec.specs.declared.table_record.TableRecord.{TableRecord};
ghost use Rattle.lsm_device.specs.Disk.{Disk, Write, seen, synced};
ghost use Rattle.lsm_device.specs.History.{present, Becomes, EachSince};
ghost use Rattle.lsm_device.specs.Outcomes.{Leaves};
ghost use Rattle.lsm_device.specs.Runs.{run_at, grown, HasSomeOf};
ghost use Rattle.lsm_jobs.specs.Slots.{Slot};
ghost use Rattle.lsm_jobs.specs.StoredJobs.{HasStored};
ghost use Rattle.lsm_levels.specs.Held.{IsHeld};
ghost use Rattle.lsm_levels.specs.Levels.{Levels, all_tables, places};
ghost use Rattle.lsm_levels.specs.NamedBlocks.{AreNumberedApart, HasSameBlocks};
ghost use Rattle.lsm_levels.specs.Pick.{Job, installed_levels};
ghost use Rattle.lsm_levels.specs.Stored.{IsStored as IsStoredTable, AreStored};
ghost use Rattle.lsm_levels.specs.Tables.{Table};
ghost use Rattle.lsm_log.specs.Batches.{IsBetween};
ghost use Rattle.lsm_log.specs.Opened.{IsOpen, IsGrownBy, TakesBatch, batches_in};
ghost use Rattle.lsm_root.specs.CrashState.{CrashState, last_number};
ghost use Rattle.lsm_open.specs.Image.{StandFor, versions_in};
ghost use Rattle.lsm_open.specs.Layout.{open_records};
ghost use Rattle.lsm_open.specs.Placements.{Placement, contents_for, closed_in, IsFreeWrite};
ghost use Rattle.lsm_open.specs.Recovering.{StandForOne, IsRecovered};
ghost use Rattle.lsm_open.specs.Switching.{rotated_placement, flushed, AreFlushed, merged, Parts, with_outputs, AreMerged, IsInLeastFree};
ghost use Rattle.lsm_merge.specs.Inputs.{AreRuns};
ghost use Rattle.lsm_open.specs.Tables.{first_data, extent_start};
ghost use Rattle.lsm_open.specs.ToldTables.{records_of};
ghost use Rattle.lsm_open.specs.Writing.{PlacedTable, tables_of, MayBePlaced};
ghost use Rattle.lsm_open.specs.declared.regions.OpenRegion.{OpenRegion};
ghost use Rattle.lsm_root.specs.Installed.{IsReady, IsOldOrNew, IsInstalled};
ghost use Rattle.lsm_root.specs.Roots.{Root, Stands};
ghost use Rattle.lsm_machine.specs.Calls.{Commit, Sync};
ghost use Rattle.lsm_machine.specs.Crash.{may_leave, last_crash_state, left_besides, reopened};
ghost use Rattle.lsm_machine.specs.Effects.{after, rotated, installed};
ghost use Rattle.lsm_machine.specs.RecoveryPoints.{batch_count};
ghost use Rattle.lsm_machine.specs.Run.{stopped_in};
ghost use Rattle.lsm_machine.specs.State.{OpenLog, State, map_at};
ghost use Rattle.lsm_machine.specs.StateMaps.{points_of};
ghost use Rattle.lsm_store.specs.StoredTables.{IsStoredIn, IsStoredWithJobs, KeepsExtents, with_log, with_next, MayGoOn};
ghost use Rattle.lsm_machine.specs.declared.asked.At.{At};

/// Every crash of a running store's device leaves what its state may leave, also where a fault stops it that leaves the device
/// so, and reads give its present map. Its recovery points are the maps of all versions that reads give, at their counts.
pub fn stored_tables_leave()
    ensures crashes { (p : Placement) (s : State) (d : Disk) → IsStoredIn p s d
        → Leaves (StandForOne s.log_sectors (may_leave s)) d }
    ensures reads { (p : Placement) (s : State) (d : Disk) → IsStoredIn p s d
        → StandFor s.log_sectors (last_crash_state s) (seen d) }
    ensures stopped { (p : Placement) (s : State) (d : Disk) (besides : List CrashState)
        → IsStoredIn p s d
        → Leaves (StandForOne s.log_sectors (may_leave (record s { stopped = Some besides }))) d }
    ensures maps { (p : Placement) (s : State) (d : Disk) → IsStoredIn p s d
        → s.points ≡ points_of (versions_in p.logs.log_sectors (seen d) (contents_for p))
        (batch_count s.points) s.points.synced }
{}

/// An append to the open log keeps a running store, in the state after the commit. At each moment of it a crash leaves what
/// the commit may leave, and so it is where a fault ended it. Reads give what they gave in the tables.
pub fn commits_keep_tables()
    ensures moments { (p : Placement) (s : State) (o : OpenRegion) (batch : List Operation)
        (old new : List Disk) → IsStoredIn p s (present old) → p.logs.open_region ≡ Some o
        → EachSince (Leaves
        (λ image. IsBetween (batches_in o.log (present old).stands)
        (batches_in o.log (seen (present old)) ++ batch ∷ []) (batches_in o.log image))) old
        new
        → EachSince (IsGrownBy o.log (present old)) old new
        → EachSince (Leaves
        (StandForOne s.log_sectors (may_leave s ++ left_besides s (Commit batch)))) old
        new }
    ensures stopped { (p : Placement) (s : State) (o : OpenRegion) (batch : List Operation)
        (old new : List Disk) → IsStoredIn p s (present old) → p.logs.open_region ≡ Some o
        → EachSince (Leaves
        (λ image. IsBetween (batches_in o.log (present old).stands)
        (batches_in o.log (seen (present old)) ++ batch ∷ []) (batches_in o.log image))) old
        new
        → EachSince (IsGrownBy o.log (present old)) old new
        → Leaves (StandForOne s.log_sectors (may_leave (stopped_in s (Commit batch))))
        (present new) }
    ensures stored { (p : Placement) (s : State) (o x : OpenRegion) (batch : List Operation)
        (old new : List Disk) → IsStoredIn p s (present old) → p.logs.open_region ≡ Some o
        → EachSince (IsGrownBy o.log (present old)) old new → x.region ≡ o.region
        → TakesBatch batch o.log x.log → IsOpen x.log (present new)
        → batches_in x.log (seen (present new)) ≡ batches_in o.log (seen (present old)) ++ batch
        ∷ [] → batches_in x.log (present new).stands ≡ batches_in o.log (present old).stands
        → IsStoredIn (with_log p x) (after s (Commit batch)) (present new) }
    ensures extents { (p : Placement) (s : State) (o : OpenRegion) (old new : Disk)
        → IsStoredIn p s old → p.logs.open_region ≡ Some o → IsGrownBy o.log old new
        → KeepsExtents p old new }
{}

/// A sync of the device keeps a running store, in the state after the call, and crashes leave what they may before it.
pub fn syncs_keep_tables()
    ensures stored { (p : Placement) (s : State) (d : Disk) → IsStoredIn p s d
        → IsStoredIn p (after s Sync) (synced d) }
    ensures moments { (p : Placement) (s : State) (old new : List Disk)
        → IsStoredIn p s (present old) → Becomes (synced (present old)) old new
        → EachSince (Leaves (StandForOne s.log_sectors (may_leave s))) old new }
{}

/// Writes to blocks of no table keep a running store, in the same state, and at each moment of them a crash leaves what it may
/// leave. Reads give what they gave in the tables.
pub fn free_writes_keep_tables()
    ensures stored { (p : Placement) (s : State) (d : Disk) (writes : List Write)
        → All (IsFreeWrite p) writes → IsStoredIn p s d → IsStoredIn p s (grown writes d) }
    ensures moments { (p : Placement) (s : State) (writes : List Write) (old new : List Disk)
        → All (IsFreeWrite p) writes → IsStoredIn p s (present old)
        → EachSince (HasSomeOf (present old) writes) old new
        → EachSince (Leaves (StandForOne s.log_sectors (may_leave s))) old new }
    ensures extents { (p : Placement) (d : Disk) (writes : List Write) → All (IsFreeWrite p) writes
        → KeepsExtents p d (grown writes d) }
{}

/// The next generation may be installed. An installation of a placement in which a store may go on leaves at each moment
/// what the state before it may leave, or the present map of the state after it, also where a fault ended it; and after
/// it the store runs in that placement and state. Reads give what they gave in all extents. The map that a read asks
/// stays, whatever it asks.
pub fn installs_keep_tables()
    ensures ready { (p : Placement) (s : State) (d : Disk) → IsStoredIn p s d
        → IsReady (length d.stands) p.logs.log_sectors (p.logs.generation + 1) d }
    ensures moments { (p q : Placement) (s t : State) (old new : List Disk)
        → IsStoredIn p s (present old) → q.logs.log_sectors ≡ p.logs.log_sectors
        → MayGoOn q t (present old)
        → EachSince (Leaves (IsOldOrNew (present old) (Stands p.logs.log_sectors (contents_for q))))
        old new
        → EachSince (Leaves (StandForOne s.log_sectors (may_leave s ++ last_crash_state t ∷ [])))
        old new }
    ensures stopped { (p q : Placement) (s t : State) (old new : List Disk)
        → IsStoredIn p s (present old) → q.logs.log_sectors ≡ p.logs.log_sectors
        → MayGoOn q t (present old)
        → EachSince (Leaves (IsOldOrNew (present old) (Stands p.logs.log_sectors (contents_for q))))
        old new
        → Leaves (StandForOne s.log_sectors
        (may_leave (record s { stopped = Some (last_crash_state t ∷ []) }))) (present new) }
    ensures stored { (p q : Placement) (s t : State) (start d : Disk) → IsStoredIn p s start
        → q.logs.log_sectors ≡ p.logs.log_sectors → MayGoOn q t start
        → IsInstalled start (Stands p.logs.log_sectors (contents_for q)) d → IsStoredIn q t d }
    ensures extents { (p : Placement) (root : Root) (start d : Disk) → IsInstalled start root d
        → KeepsExtents p start d }
    ensures maps { (flush : Bool) (s : State) (at : At)
        → map_at (installed flush s) at ≡ map_at s at }
{}

/// A store may go on after a rotation, where no closed region waits and the open log, if there is one, is used: the open log's
/// region is closed, and a new log is open in the least free one. Its manifest is one, with any later number for the next table;
/// a store may go on with any, and what jobs have placed stays.
pub fn rotations_keep_tables()
    ensures next { (p : Placement) (s : State) (d : Disk) (o : OpenRegion) → IsStoredIn p s d
        → s.closed ≡ 0 → ((log : OpenLog) → s.open_log ≡ Some log → 1 ≤ log.used)
        → s.generation + 1 ≤ last_number
        → IsInLeastFree p.logs.log_sectors (s.generation + 1) (batch_count s.points)
        (open_records p.logs.open_region) (Some o)
        → MayGoOn (rotated_placement p o) (rotated s) d }
    ensures fits { (p : Placement) (s : State) (d : Disk) (o : OpenRegion) (n : ℕ)
        → IsStoredIn p s d → s.closed ≡ 0 → ((log : OpenLog) → s.open_log ≡ Some log → 1 ≤ log.used)
        → s.generation + 1 ≤ last_number
        → IsInLeastFree p.logs.log_sectors (s.generation + 1) (batch_count s.points)
        (open_records p.logs.open_region) (Some o)
        → p.logs.next_table ≤ n → n ≤ last_number + 1
        → IsManifest (contents_for (with_next n (rotated_placement p o))) }
    ensures numbered { (q : Placement) (t : State) (d : Disk) (n : ℕ) → MayGoOn q t d
        → MayGoOn (with_next n q) t d }
    ensures jobs { (p : Placement) (placed : List PlacedTable) (s t : State) (o : OpenRegion)
        (n : ℕ) (start d : Disk) → IsStoredWithJobs p placed s start
        → IsInstalled start
        (Stands p.logs.log_sectors (contents_for (with_next n (rotated_placement p o)))) d
        → IsStoredIn (with_next n (rotated_placement p o)) t d
        → IsStoredWithJobs (with_next n (rotated_placement p o)) placed t d }
    ensures maps { (s : State) (at : At) → map_at (rotated s) at ≡ map_at s at }
{}

/// A store may go on after a flush whose tables are written, with the batches of the closed regions in tables; and after a merge
/// whose tables are written.
pub fn jobs_may_go_on()
    ensures flush { (p : Placement) (s : State) (d : Disk) (next_table : ℕ) (new : List TableRecord)
        → IsStoredIn p s d → AreFlushed p (seen d) new
        → MayGoOn (flushed p (length (closed_in p (seen d))) next_table new) (installed true s) d }
    ensures merge { (p : Placement) (s : State) (d : Disk) (next_table runs : ℕ) (x : Parts)
        (new : List TableRecord) → IsStoredIn p s d → AreMerged p (seen d) x new
        → MayGoOn (merged p next_table runs (with_outputs x new)) (installed false s) d }
{}

/// What jobs have placed stays with a running store: as one more is placed, as the next sectors of one are written, as a job is
/// dropped, under commits, syncs and rotations, and under an installation that takes over what one job has placed.
pub fn jobs_keep_tables()
    ensures placed { (p : Placement) (placed : List PlacedTable) (s : State) (d : Disk)
        (x : PlacedTable) → MayBePlaced p placed d x → IsStoredWithJobs p placed s d
        → IsStoredWithJobs p (placed ++ x ∷ []) s d }
    ensures written { (p : Placement) (xs : List PlacedTable) (x : PlacedTable)
        (ys : List PlacedTable) (s : State) (d : Disk) (m : ℕ) → x.done + m ≤ length x.image
        → IsStoredWithJobs p (xs ++ x ∷ ys) s d
        → IsStoredWithJobs p (xs ++ record x { done = x.done + m } ∷ ys) s
        (grown (run_at (extent_start p.logs.log_sectors x.table + x.done)
        (take m (drop x.done x.image))) d) }
    ensures moments { (p : Placement) (xs : List PlacedTable) (x : PlacedTable)
        (ys : List PlacedTable) (s : State) (m : ℕ) (old new : List Disk)
        → x.done + m ≤ length x.image → IsStoredWithJobs p (xs ++ x ∷ ys) s (present old)
        → EachSince (HasSomeOf (present old)
        (run_at (extent_start p.logs.log_sectors x.table + x.done)
        (take m (drop x.done x.image)))) old new
        → EachSince (Leaves (StandForOne s.log_sectors (may_leave s))) old new }
    ensures dropped { (p : Placement) (xs own ys : List PlacedTable) (s : State) (d : Disk)
        → IsStoredWithJobs p (xs ++ (own ++ ys)) s d → IsStoredWithJobs p (xs ++ ys) s d }
    ensures committed { (p : Placement) (placed : List PlacedTable) (s t : State) (o x : OpenRegion)
        (old new : Disk) → IsStoredWithJobs p placed s old → p.logs.open_region ≡ Some o
        → IsGrownBy o.log old new
        → IsStoredIn (with_log p x) t new → IsStoredWithJobs (with_log p x) placed t new }
    ensures synced { (p : Placement) (placed : List PlacedTable) (s : State) (d : Disk)
        → IsStoredWithJobs p placed s d → IsStoredWithJobs p placed (after s Sync) (synced d) }
    ensures rotated { (p : Placement) (placed : List PlacedTable) (s t : State) (o : OpenRegion)
        (start d : Disk) → IsStoredWithJobs p placed s start
        → IsInstalled start (Stands p.logs.log_sectors (contents_for (rotated_placement p o))) d
        → IsStoredIn (rotated_placement p o) t d
        → IsStoredWithJobs (rotated_placement p o) placed t d }
    ensures flush { (p : Placement) (xs own ys : List PlacedTable) (s : State) (start d : Disk)
        (next_table : ℕ) → IsStoredWithJobs p (xs ++ (own ++ ys)) s start
        → AreFlushed p (seen start) (tables_of own)
        → IsInstalled start
        (Stands p.logs.log_sectors
        (contents_for (flushed p (length (closed_in p (seen start))) next_table
        (tables_of own)))) d
        → IsStoredWithJobs
        (flushed p (length (closed_in p (seen start))) next_table (tables_of own)) (xs ++ ys)
        (installed true s) d }
    ensures merge { (p : Placement) (xs own ys : List PlacedTable) (s : State) (start d : Disk)
        (next_table runs : ℕ) (x : Parts) → IsStoredWithJobs p (xs ++ (own ++ ys)) s start
        → AreMerged p (seen start) x (tables_of own)
        → IsInstalled start
        (Stands p.logs.log_sectors
        (contents_for (merged p next_table runs (with_outputs x (tables_of own))))) d
        → IsStoredWithJobs (merged p next_table runs (with_outputs x (tables_of own))) (xs ++ ys)
        (installed false s) d }
{}

/// What an opening with tables makes of what a crash left is a running store, in which nothing is placed yet.
pub fn recovered_tables_are_stored()
    ensures { (log_sectors : ℕ) (left : CrashState) (p : Placement) (count : ℕ)
        (sealed : Option (List Version)) (levels : Levels) (d : Disk)
        → IsRecovered log_sectors left p count sealed levels d
        → IsStoredWithJobs p [] (reopened log_sectors left) d }
{}

/// The tables that levels keep stay on the device, and their data blocks the same, as long as reads give what they gave in the
/// extents of a placement's tables and the levels have just these. So do those that a job takes in; and after an install those
/// of the levels with its outputs, where these stand. No two tables that a manifest names have one number.
pub fn levels_stay_stored()
    ensures kept { (p : Placement) (levels : Levels) (old new : Disk) → records_of levels ≡ p.tables
        → KeepsExtents p old new
        → AreStored (seen old) (first_data p.logs.log_sectors) (places levels)
        → AreStored (seen new) (first_data p.logs.log_sectors) (places levels) }
    ensures blocks { (p : Placement) (levels : Levels) (old new : Disk)
        → records_of levels ≡ p.tables → KeepsExtents p old new
        → AllByRecursion (HasSameBlocks (first_data p.logs.log_sectors) (seen old) (seen new))
        (all_tables (places levels)) }
    ensures numbers { (p : Placement) (levels : Levels) → IsManifest (contents_for p)
        → records_of levels ≡ p.tables → AreNumberedApart (all_tables (places levels)) }
    ensures jobs { (sectors : List (List ℕ)) (area : ℕ) (levels : Levels) (slot : Slot)
        → AreStored sectors area (places levels) → IsHeld levels slot.input.bottom slot.job
        → AreRuns slot.input.runs
        → HasStored sectors area slot }
    ensures installed { (sectors : List (List ℕ)) (area : ℕ) (levels : Levels) (job : Job)
        (new : List Table) → AreStored sectors area (places levels)
        → AllByRecursion (IsStoredTable sectors area) new
        → AreStored sectors area (places (installed_levels levels job new)) }
{}
