// Laws of counting: what a manifest names stands for the same once its tables are counted, and which tables are.
ghost use Rattle.std.specs.Prelude.{◌≡◌, ℕ, List, Some};
ghost use Rattle.lsm_codec.specs.Manifests.{Contents, IsManifestOf};
ghost use Rattle.lsm_codec.specs.declared.superblock.FormatVersion.TheVariants.{One, Two};
ghost use Rattle.lsm_codec.specs.declared.superblock.Superblock.{Superblock};
ghost use Rattle.lsm_root.specs.CrashState.{CrashState};
ghost use Rattle.lsm_open.specs.Counting.{counted, all_uncounted, all_data, IsCountedRoot};
ghost use Rattle.lsm_open.specs.Image.{left_in, HoldNamed, StandFor};
ghost use Rattle.lsm_root.specs.Roots.{Names, Stands, superblock_in, root_of};

/// Sectors that stand for what a crash left, in either version of the format, hold a count of each table that the manifest
/// names; what the counted manifest names they hold too, and by it that is what was left.
pub fn counts_leave_the_same()
    ensures { (log_sectors : ℕ) (left : CrashState) (sectors : List (List ℕ))
        → (is : StandFor log_sectors left sectors)
        → (m : Contents) × (counted log_sectors sectors is.manifest ≡ Some m) × IsManifestOf Two m
        × HoldNamed log_sectors m sectors × (left ≡ left_in log_sectors sectors m) }
{}

/// So they stand for what a counted manifest leaves, if they hold what it names: what a check finds after counting, it finds of
/// the image, whichever version that is in.
pub fn counted_roots_stand()
    ensures { (log_sectors : ℕ) (m : Contents) (sectors : List (List ℕ))
        → IsCountedRoot log_sectors m sectors → HoldNamed log_sectors m sectors
        → StandFor log_sectors (left_in log_sectors sectors m) sectors }
{}

/// Where the superblock that counts is of version 2, no data block is read to count the deletes of tables; where it is of version
/// 1, those of all tables are.
pub fn only_old_tables_are_counted()
    ensures new { (log_sectors : ℕ) (m : Contents) (sectors : List (List ℕ)) (s : Superblock)
        → superblock_in sectors ≡ Names s → root_of sectors ≡ Stands log_sectors m
        → s.version ≡ Two → all_uncounted m.tables ≡ 0 }
    ensures old { (log_sectors : ℕ) (m : Contents) (sectors : List (List ℕ)) (s : Superblock)
        → superblock_in sectors ≡ Names s → root_of sectors ≡ Stands log_sectors m
        → s.version ≡ One → all_uncounted m.tables ≡ all_data m.tables }
{}
