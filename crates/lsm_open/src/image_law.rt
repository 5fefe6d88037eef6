// Laws of what sectors stand for, tables and all.
ghost use Rattle.std.specs.Prelude.{◌≡◌, ℕ, ◌+◌, List, [], ◌++◌, length, drop, All};
ghost use Rattle.lsm_codec.specs.Map.{Operation, apply_all};
ghost use Rattle.lsm_codec.specs.Versions.{Version};
ghost use Rattle.lsm_device.specs.Disk.{Disk, Write, seen, synced};
ghost use Rattle.lsm_device.specs.History.{present, EachSince};
ghost use Rattle.lsm_device.specs.Outcomes.{Leaves};
ghost use Rattle.lsm_device.specs.Runs.{grown, HasSomeOf};
ghost use Rattle.lsm_mem.specs.EntryOrder.{with_batches};
ghost use Rattle.lsm_mem.specs.Versions.{NumberedAtMost, map_of};
ghost use Rattle.lsm_root.specs.CrashState.{CrashState};
ghost use Rattle.lsm_open.specs.Image.{StandFor, StandForSome};
ghost use Rattle.lsm_open.specs.Placements.{Placement, Carries, present_state, MayBeLeft, IsFreeWrite};
ghost use Rattle.lsm_open.specs.Tables.{extent_at};
ghost use Rattle.lsm_root.specs.Roots.{root_of};

/// The map of all versions is the map of the tables with the batches after the base applied, in their order.
pub fn batches_apply_to_tables()
    ensures { (base : ℕ) (batches : List (List Operation)) (tables : List Version)
        → NumberedAtMost base tables
        → map_of (with_batches base batches [] ++ tables) (base + length batches)
        ≡ apply_all (map_of tables base) batches }
{}

/// Sectors stand for at most one crash state, and sectors that agree in the root and after it stand for the same one.
pub fn sectors_have_one_meaning()
    ensures meaning { (log_sectors other_log : ℕ) (left other : CrashState)
        (sectors : List (List ℕ)) → StandFor log_sectors left sectors
        → StandFor other_log other sectors
        → (log_sectors ≡ other_log) × (left ≡ other) }
    ensures decided { (log_sectors : ℕ) (left : CrashState) (sectors others : List (List ℕ))
        → drop 130 sectors ≡ drop 130 others → root_of sectors ≡ root_of others
        → StandFor log_sectors left others → StandFor log_sectors left sectors }
{}

/// Each crash of a disk that carries a placement leaves sectors that stand for the map after a beginning of its batches, which
/// has all that stand; and reads give those that stand for all of them.
pub fn crashes_leave_beginnings()
    ensures crashes { (p : Placement) (d : Disk) → Carries d p
        → Leaves (StandForSome p.logs.log_sectors (MayBeLeft p d)) d }
    ensures reads { (p : Placement) (d : Disk) → Carries d p
        → StandFor p.logs.log_sectors (present_state p d) (seen d) }
{}

/// Writes to blocks of no table leave the placement, what each crash may leave, at each moment, and what reads stand for.
pub fn free_writes_change_nothing()
    ensures carried { (p : Placement) (d : Disk) (writes : List Write) → All (IsFreeWrite p) writes
        → Carries d p → Carries (grown writes d) p }
    ensures present { (p : Placement) (d : Disk) (writes : List Write) → All (IsFreeWrite p) writes
        → Carries d p → present_state p (grown writes d) ≡ present_state p d }
    ensures left { (p : Placement) (d : Disk) (writes : List Write) (left : CrashState)
        → All (IsFreeWrite p) writes → Carries d p → MayBeLeft p (grown writes d) left
        → MayBeLeft p d left }
    ensures moments { (p : Placement) (writes : List Write) (old new : List Disk)
        → All (IsFreeWrite p) writes → Carries (present old) p
        → EachSince (HasSomeOf (present old) writes) old new
        → EachSince (Leaves (StandForSome p.logs.log_sectors (MayBeLeft p (present old)))) old new }
{}

/// A sync leaves the placement and what reads stand for. Reads give what stands in the extents of the tables.
pub fn syncs_keep_placements()
    ensures carried { (p : Placement) (d : Disk) → Carries d p → Carries (synced d) p }
    ensures present { (p : Placement) (d : Disk) → Carries d p
        → present_state p (synced d) ≡ present_state p d }
    ensures tables { (p : Placement) (d : Disk) → Carries d p
        → All (λ t. extent_at p.logs.log_sectors (seen d) t
        ≡ extent_at p.logs.log_sectors d.stands t) p.tables }
{}
