// Laws of what jobs write of tables before these are installed.
ghost use Rattle.std.specs.Prelude.{◌≡◌, ◌≤◌, ℕ, ◌+◌, ◌^◌, true, List, [], ◌∷◌, ◌++◌, length, take, drop, All, IfSome};
ghost use Rattle.std.specs.List.{AllByRecursion};
ghost use Rattle.lsm_codec.specs.declared.table_record.TableRecord.{TableRecord};
ghost use Rattle.lsm_codec.specs.Pairs.{Pairwise};
ghost use Rattle.lsm_codec.specs.TableRecords.{extent_blocks, AreApart};
ghost use Rattle.lsm_device.specs.Disk.{Disk, seen, synced};
ghost use Rattle.lsm_device.specs.Runs.{run_at, grown};
ghost use Rattle.lsm_filter.specs.Bits.{is_perhaps};
ghost use Rattle.lsm_levels.specs.Stored.{blocks_from};
ghost use Rattle.lsm_codec.specs.Versions.{deletes_in};
ghost use Rattle.lsm_mem.specs.Versions.{NumberedAtMost};
ghost use Rattle.lsm_open.specs.Placements.{Placement, contents_for, closed_in, Carries, IsFreeWrite};
ghost use Rattle.lsm_open.specs.Switching.{flushed, AreFlushed, merged, Parts, with_outputs, AreMerged};
ghost use Rattle.lsm_open.specs.Tables.{extent_start, extent_length, extent_at, IsTableAt};
ghost use Rattle.lsm_open.specs.Writing.{PlacedTable, tables_of, IsWritten, IsClear, CarriesJobs, MayBePlaced};
ghost use Rattle.lsm_root.specs.Installed.{IsInstalled};
ghost use Rattle.lsm_root.specs.Roots.{Stands};
ghost use Rattle.lsm_table.specs.Division.{TableBlocks, IsTable, entries_of};
ghost use Rattle.lsm_table.specs.Extents.{extent_in_blocks};
ghost use Rattle.lsm_table.specs.Outlines.{IsRecordOf, outline_in};

/// The next sectors of an image, in an extent that no table's meets, are writes to blocks of no table.
pub fn jobs_write_free_blocks()
    ensures { (p : Placement) (x : PlacedTable) (m : ℕ) → IsClear p x → x.done + m ≤ length x.image
        → length x.image ≡ extent_length x.table
        → All (IsFreeWrite p)
        (run_at (extent_start p.logs.log_sectors x.table + x.done)
        (take m (drop x.done x.image))) }
{}

/// What jobs have placed stays with what the disk carries: as one more is placed, as the next sectors of one are written, as a
/// job is dropped, under a sync, and under an installation that takes over what one job has placed.
pub fn jobs_keep_what_they_place()
    ensures placed { (p : Placement) (placed : List PlacedTable) (d : Disk) (x : PlacedTable)
        → MayBePlaced p placed d x → CarriesJobs p placed d → CarriesJobs p (placed ++ x ∷ []) d }
    ensures written { (p : Placement) (xs : List PlacedTable) (x : PlacedTable)
        (ys : List PlacedTable) (d : Disk) (m : ℕ) → x.done + m ≤ length x.image
        → CarriesJobs p (xs ++ x ∷ ys) d
        → CarriesJobs p (xs ++ record x { done = x.done + m } ∷ ys)
        (grown (run_at (extent_start p.logs.log_sectors x.table + x.done)
        (take m (drop x.done x.image))) d) }
    ensures dropped { (p : Placement) (xs own ys : List PlacedTable) (d : Disk)
        → CarriesJobs p (xs ++ (own ++ ys)) d → CarriesJobs p (xs ++ ys) d }
    ensures synced { (p : Placement) (placed : List PlacedTable) (d : Disk) → CarriesJobs p placed d
        → CarriesJobs p placed (synced d) }
    ensures installed { (p q : Placement) (xs own ys : List PlacedTable) (start d : Disk)
        → q.logs.log_sectors ≡ p.logs.log_sectors → CarriesJobs p (xs ++ (own ++ ys)) start
        → Carries d q → d.pending ≡ [] → drop 130 d.stands ≡ drop 130 (seen start)
        → Pairwise AreApart q.tables → All (IsClear q) (xs ++ ys) → CarriesJobs q (xs ++ ys) d }
{}

/// A flush or a merge that is installed takes over what its job has placed, and the other jobs go on.
pub fn installs_take_over()
    ensures flush { (p : Placement) (xs own ys : List PlacedTable) (start d : Disk) (next_table : ℕ)
        → CarriesJobs p (xs ++ (own ++ ys)) start → AreFlushed p (seen start) (tables_of own)
        → 1 ≤ p.logs.log_sectors
        → IsInstalled start
        (Stands p.logs.log_sectors
        (contents_for (flushed p (length (closed_in p (seen start))) next_table
        (tables_of own)))) d
        → CarriesJobs (flushed p (length (closed_in p (seen start))) next_table (tables_of own))
        (xs ++ ys) d }
    ensures merge { (p : Placement) (xs own ys : List PlacedTable) (start d : Disk)
        (next_table runs : ℕ) (x : Parts) → CarriesJobs p (xs ++ (own ++ ys)) start
        → AreMerged p (seen start) x (tables_of own) → 1 ≤ p.logs.log_sectors
        → IsInstalled start
        (Stands p.logs.log_sectors
        (contents_for (merged p next_table runs (with_outputs x (tables_of own))))) d
        → CarriesJobs (merged p next_table runs (with_outputs x (tables_of own))) (xs ++ ys) d }
{}

/// Reads give the whole image of a table once it is written, and one that is written whole as the blocks of a table's extent
/// stands there as a table.
pub fn written_tables_stand()
    ensures all { (log_sectors : ℕ) (d : Disk) (x : PlacedTable) → IsWritten log_sectors d x
        → x.done ≡ length x.image → extent_at log_sectors (seen d) x.table ≡ x.image }
    ensures stands { (log_sectors base : ℕ) (sectors : List (List ℕ)) (t : TableRecord)
        (filter : List ℕ) (table : TableBlocks)
        → blocks_from (extent_at log_sectors sectors t) 0 (extent_blocks t)
        ≡ extent_in_blocks t.number filter table → IsTable table → t.number ≤ 2 ^ 63
        → IsRecordOf t (outline_in t.number filter table)
        → AllByRecursion (λ v. is_perhaps filter v.key ≡ true) (entries_of table)
        → NumberedAtMost base (entries_of table)
        → IfSome t.deletes (λ deletes. deletes ≡ deletes_in (entries_of table))
        → IsTableAt log_sectors base sectors t }
{}
