//! Laws of the definitions.

ghost use Rattle.lsm_levels.specs.Cursors.{CursorLaw};
ghost use Rattle.lsm_levels.specs.Held.{PickLaw, ChoiceLaw, SurvivalLaw, RunsLaw, MergingLaw, OrderLaw, FlushLaw};
ghost use Rattle.lsm_levels.specs.Moving.{MovingLaw, LowerLaw};
ghost use Rattle.lsm_levels.specs.NamedBlocks.{NamedLaw};
ghost use Rattle.lsm_levels.specs.Sources.{NextLaw, PageLaw};

/// A job that is picked takes tables that no other job has as input, and all that it needs.
pub fn picked_jobs_have_free_tables()
    ensures { PickLaw }
{}

/// So does one that is chosen, whether or not a level is over its limit.
pub fn chosen_jobs_have_free_tables()
    ensures { ChoiceLaw }
{}

/// Another job's install leaves a job its tables, and the levels stay runs.
pub fn jobs_keep_their_tables()
    ensures survives { SurvivalLaw }
    ensures runs { RunsLaw }
{}

/// A merge puts versions in the place of its inputs', and leaves the others; and of one key the newer place keeps the
/// greater number.
pub fn merges_leave_other_versions()
    ensures merging { MergingLaw }
    ensures order { OrderLaw }
{}

/// A cursor gives the versions of its run, where the run's tables stand.
pub fn cursors_give_their_versions()
    ensures { CursorLaw }
{}

/// A flush of versions that are newer than those of their keys in all levels keeps the order of versions.
pub fn flushes_keep_the_order()
    ensures { FlushLaw }
{}

/// Sources of versions, read in the order of entries, come to a page of the map that all their places stand for.
pub fn sources_come_to_a_page()
    ensures next { NextLaw }
    ensures page { PageLaw }
{}

/// An install moves tables: its inputs go, its outputs come, and each other table stays. The lower inputs of a merge are all of
/// their level that meet the upper ones.
pub fn installs_move_tables()
    ensures moved { MovingLaw }
    ensures lower { LowerLaw }
{}

/// A cache stays fresh for tables whose data blocks stay, and for others that it has no block of; look-ups and scans take in
/// blocks of their tables alone.
pub fn caches_stay_fresh()
    ensures { NamedLaw }
{}
