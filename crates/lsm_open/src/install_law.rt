// Laws of installations: what may be installed, and what each moment of that leaves.
ghost use Rattle.std.specs.Prelude.{◌≡◌, ◌≤◌, ℕ, ◌+◌, List, [], length, Option, Some};
ghost use Rattle.lsm_codec.specs.Manifests.{Contents};
ghost use Rattle.lsm_codec.specs.declared.table_record.TableRecord.{TableRecord};
ghost use Rattle.lsm_device.specs.Disk.{Disk, seen};
ghost use Rattle.lsm_device.specs.History.{present, EachSince};
ghost use Rattle.lsm_device.specs.Outcomes.{Leaves};
ghost use Rattle.lsm_root.specs.CrashState.{CrashState, in_next_generation};
ghost use Rattle.lsm_open.specs.Layout.{open_records};
ghost use Rattle.lsm_open.specs.Counting.{counted};
ghost use Rattle.lsm_open.specs.Image.{count_in, StandFor};
ghost use Rattle.lsm_open.specs.Placements.{Placement, contents_for, closed_in, Carries, present_state, MayBeLeft};
ghost use Rattle.lsm_open.specs.Reopening.{kept_records};
ghost use Rattle.lsm_open.specs.Switching.{MayBeInstalled, IsSwitched, rotated_placement, left_rotated, MayRotate, IsInLeastFree, flushed, left_flushed, AreFlushed, merged, Parts, with_outputs, AreMerged, reopened_at, MayReopen};
ghost use Rattle.lsm_open.specs.declared.regions.OpenRegion.{OpenRegion};
ghost use Rattle.lsm_root.specs.Installed.{IsOldOrNew, IsInstalled};
ghost use Rattle.lsm_root.specs.Roots.{Stands};

/// An installation of a placement that may be installed switches from what crashes could leave before to what it says,
/// exactly with the root; and after it the disk carries the placement.
pub fn installs_switch()
    ensures moments { (p q : Placement) (left : CrashState) (old new : List Disk)
        → Carries (present old) p → q.logs.log_sectors ≡ p.logs.log_sectors
        → MayBeInstalled q left (present old)
        → EachSince (Leaves (IsOldOrNew (present old) (Stands p.logs.log_sectors (contents_for q))))
        old new
        → EachSince (Leaves
        (IsSwitched p.logs.log_sectors (MayBeLeft p (present old)) (present old) q left))
        old new }

    // So it is on a disk at rest, of which crashes leave what reads give.
    ensures at_rest { (log_sectors : ℕ) (q : Placement) (before left : CrashState)
        (old new : List Disk)
        → (present old).pending ≡ [] → StandFor log_sectors before (seen (present old))
        → q.logs.log_sectors ≡ log_sectors → MayBeInstalled q left (present old)
        → EachSince (Leaves (IsOldOrNew (present old) (Stands log_sectors (contents_for q)))) old
        new
        → EachSince (Leaves (IsSwitched log_sectors (λ x. x ≡ before) (present old) q left)) old
        new }
    ensures after { (start d : Disk) (q : Placement) (left : CrashState) → 1 ≤ q.logs.log_sectors
        → MayBeInstalled q left start
        → IsInstalled start (Stands q.logs.log_sectors (contents_for q)) d
        → Carries d q × (left ≡ present_state q d) }
{}

/// A rotation may be installed: the open log's region is closed, and a new log is open in the least free one. It leaves the
/// same count and map.
pub fn rotations_may_be_installed()
    ensures { (p : Placement) (d : Disk) (o : OpenRegion) → Carries d p → MayRotate p d
        → IsInLeastFree p.logs.log_sectors (p.logs.generation + 1) (present_state p d).count
        (open_records p.logs.open_region) (Some o)
        → MayBeInstalled (rotated_placement p o) (left_rotated p d) d }
{}

/// A flush may be installed where its tables are written: they are the newest run, and the batches of the closed regions are
/// in tables. It leaves the same count and map.
pub fn flushes_may_be_installed()
    ensures { (p : Placement) (d : Disk) (next_table : ℕ) (new : List TableRecord) → Carries d p
        → AreFlushed p (seen d) new
        → MayBeInstalled (flushed p (length (closed_in p (seen d))) next_table new)
        (left_flushed p d) d }
{}

/// A merge of levels may be installed where its tables are written. It leaves the same in the next generation.
pub fn merges_may_be_installed()
    ensures { (p : Placement) (d : Disk) (next_table runs : ℕ) (x : Parts) (new : List TableRecord)
        → Carries d p → AreMerged p (seen d) x new
        → MayBeInstalled (merged p next_table runs (with_outputs x new))
        (in_next_generation (present_state p d)) d }
{}

/// An opening may be installed, over either version of the format: each table is counted, the regions that hold batches are
/// closed, and a new log is open in the least free one, if one is free. It leaves the same in the next generation.
pub fn openings_may_be_installed()
    ensures { (log_sectors : ℕ) (left : CrashState) (d : Disk) (m : Contents)
        (o : Option OpenRegion) → (is : StandFor log_sectors left (seen d))
        → counted log_sectors (seen d) is.manifest ≡ Some m
        → MayReopen log_sectors m (seen d)
        → IsInLeastFree log_sectors (m.generation + 1) (count_in log_sectors (seen d) m)
        (kept_records log_sectors (seen d) m.logs) o
        → MayBeInstalled (reopened_at log_sectors (seen d) m o) (in_next_generation left) d }
{}
