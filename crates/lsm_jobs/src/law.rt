//! Laws of the definitions.

ghost use Rattle.lsm_jobs.specs.Keeping.{TakingLaw, InstallingLaw, GoingOnLaw, FreeingLaw, FoundLaw};
ghost use Rattle.lsm_jobs.specs.Outcomes.{OutputsLaw};
ghost use Rattle.lsm_jobs.specs.Installs.{InstallLaw};
ghost use Rattle.lsm_jobs.specs.Pieces.{PiecesLaw};
ghost use Rattle.lsm_jobs.specs.StoredJobs.{StoredTakingLaw, StoredReadingLaw, NeverBadLaw};

/// Jobs in slots have their tables and share none, whatever is taken, read, written, installed or dropped.
pub fn slots_stay_apart()
    ensures taking { TakingLaw }
    ensures installing { InstallingLaw }
    ensures going_on { GoingOnLaw }
    ensures freeing { FreeingLaw }
    ensures found { FoundLaw }
{}

/// A merge whose tables stand in the device is read as their versions: each step keeps its input, and none finds a bad block.
pub fn stored_tables_are_read()
    ensures taking { StoredTakingLaw }
    ensures reading { StoredReadingLaw }
    ensures good { NeverBadLaw }
{}

/// The tables that are made of a job's input may be installed: a merge's in the place of its inputs, a flush's as a run. Then
/// the levels stay runs in the order of versions, and the other jobs keep their tables.
pub fn outputs_may_be_installed()
    ensures outputs { OutputsLaw }
    ensures install { InstallLaw }
{}

/// The writes of a step of writing, all or those so far, which may cross from one output into the next, are in each output those
/// of its next sectors, within its extent.
pub fn pieces_stay_in_outputs()
    ensures { PiecesLaw }
{}
