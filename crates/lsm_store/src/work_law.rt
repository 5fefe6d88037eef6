// Laws of the work on storage under the map machine.
ghost use Rattle.lsm_store.specs.Accounted.{AccountedLaw};
ghost use Rattle.lsm_machine.specs.Accounts.{AccountsLaw};
ghost use Rattle.lsm_machine.specs.JobAnswers.{PlacingLaw, PlacedVersionsLaw, JobsLaw, CutsLaw};
ghost use Rattle.lsm_store.specs.FewTables.{FewLaw};
ghost use Rattle.lsm_machine.specs.WorkMaps.{InstallLaw, RotationLaw, CommitLaw};
ghost use Rattle.lsm_machine.specs.WorkSound.{SoundLaw, CallSoundLaw, RotationSoundLaw};

/// The map at each count that can be asked for stays what it is, whatever is installed, rotated or committed.
pub fn maps_stay()
    ensures install { InstallLaw }
    ensures rotation { RotationLaw }
    ensures commit { CommitLaw }
{}

/// What the slots of jobs answer and leave is what the work says, and so are their refusals, but for want of memory and faults;
/// and images are placed as the work says.
pub fn slots_answer_the_work()
    ensures placing { PlacingLaw }
    ensures versions { PlacedVersionsLaw }
    ensures jobs { JobsLaw }
    ensures cuts { CutsLaw }
{}

/// A piece of work that nothing refuses leaves the versions standing for the state, and each job ready for its install. So does
/// a call, and a rotation where no sealed versions wait.
pub fn work_stays_sound()
    ensures work { SoundLaw }
    ensures call { CallSoundLaw }
    ensures rotation { RotationSoundLaw }
{}

/// Just the extents of tables and of placed outputs are handed out, each of them to one: so it is after an opening, each piece of
/// work that nothing refuses keeps it, each call and a rotation. What a job has placed may be given back, and what it takes in.
pub fn extents_stay_accounted_for()
    ensures placed { AccountsLaw }
    ensures kept { AccountedLaw }
{}

/// How many runs and tables an install leaves, which its refusals say exactly; so a store has 12 runs of level 0 and 1,024 tables
/// at most, as a manifest has.
pub fn tables_stay_few()
    ensures { FewLaw }
{}
