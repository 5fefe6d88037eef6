// Laws of a store that has just been opened.
ghost use Rattle.std.specs.Prelude.{ℕ};
ghost use Rattle.lsm_device.specs.Medium.{Medium};
ghost use Rattle.lsm_root.specs.CrashState.{CrashState};
ghost use Rattle.lsm_store.specs.Backing.{StoreView, machine_of};
ghost use Rattle.lsm_store.specs.OpenedWork.{OpenedLaw};
ghost use Rattle.lsm_machine.specs.Promise.{IsOpened};
ghost use Rattle.lsm_store.specs.Serving.{OpensTo, ReopensTo};

/// The work of a store that is opened with its tables on what a crash left is sound: its versions stand for the state, which is
/// that of the map machine, and there is no job.
pub fn opened_work_is_sound()
    ensures { OpenedLaw }
{}

/// A store that an opening of what a crash left answers is the machine with which the promise over crashes begins.
pub fn openings_are_opened()
    ensures { (before : Medium) (log_sectors : ℕ) (left : CrashState) (s : StoreView)
        → OpensTo before log_sectors left s → ReopensTo before s
        → IsOpened log_sectors left (machine_of s) }
{}
