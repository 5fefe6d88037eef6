// What steps and lives come to, and when a device holds what a crash left.
ghost use Rattle.std.specs.Prelude.{ℕ, List, [], IsNone, Contains};
ghost use Rattle.lsm_codec.specs.Map.{Operation};
ghost use Rattle.lsm_device.specs.Disk.{Disk};
ghost use Rattle.lsm_device.specs.Medium.{Medium, disk};
ghost use Rattle.lsm_device.specs.Outcomes.{Leaves};
ghost use Rattle.lsm_lives.specs.Asked.{Asked, Told};
ghost use Rattle.lsm_lives.specs.Batches.{acts_asked, replies_told, KeepsBatches};
ghost use Rattle.lsm_lives.specs.Devices.{KeepsBatchesOn};
ghost use Rattle.lsm_lives.specs.Leading.{LifeView, LeadsTo, AreLed};
ghost use Rattle.lsm_lives.specs.Living.{asked_in, Holds, AfterCrash, AreLived, KeepPromise};
ghost use Rattle.lsm_lives.specs.Replaying.{MakesEach, AreReplayed, Replays, GoOn};
ghost use Rattle.lsm_root.specs.CrashState.{CrashState};
ghost use Rattle.lsm_open.specs.Image.{StandFor};
ghost use Rattle.lsm_store.specs.Backing.{StoreView, IsBacked};
ghost use Rattle.lsm_machine.specs.Calls.{Reply};
ghost use Rattle.lsm_machine.specs.Crash.{may_leave, last_crash_state};
ghost use Rattle.lsm_machine.specs.Machine.{Step};

/// Steps one after another, each as the store serves it, are a run of the machine where the device backs its state: the
/// machine allows the replies and goes on by them, and at every moment every crash leaves what the run may leave.
pub fn steps_go_on()
    ensures { (old : StoreView) (steps : List Step) (replies : List Reply) (new : StoreView)
        → Replays old steps replies new → GoOn old steps replies new }
{}

/// What was asked of a store one after another, and told, are steps that it made and its replies.
pub fn what_is_asked_is_replayed()
    ensures { (old : StoreView) (asked : List Asked) (told : List Told) (new : StoreView)
        → MakesEach [] old asked told new → AreReplayed [] old asked told new }
{}

/// Lives that were led on a device which held what a crash left are lives of the machine: each opening answers what the
/// crash before it left, each reply is one that the state allows, and the device holds what the last crash left.
pub fn led_lives_go_on()
    ensures life { (life : LifeView) (before : Medium) (told : List Told) (after : Medium)
        → LeadsTo life before told after
        → (log_sectors : ℕ) (opened : CrashState) (others : List CrashState)
        → Holds log_sectors opened others (disk before)
        → AfterCrash log_sectors opened others life.steps told (disk after) }
    ensures lives { (lives : List LifeView) (before : Medium) (told : List (List Told))
        (after : Medium) → AreLed lives before told after
        → (log_sectors : ℕ) (opened : CrashState) (others : List CrashState)
        → Holds log_sectors opened others (disk before)
        → AreLived log_sectors opened others (asked_in lives) told (disk after) }
{}

/// A device holds what a crash left where every crash of it leaves the same, as after a format and after other lives; and
/// where it is taken back of a store, without a crash.
pub fn devices_hold_what_was_left()
    ensures at_rest { (log_sectors : ℕ) (left : CrashState) (d : Disk)
        → Leaves (StandFor log_sectors left) d → Holds log_sectors left [] d }
    ensures running { (s : StoreView) → IsBacked s → IsNone s.state.stopped
        → Holds s.state.log_sectors (last_crash_state s.state) (may_leave s.state) (disk s.device) }
    ensures stopped { (s : StoreView) → IsBacked s
        → (left : CrashState) × Contains (may_leave s.state) left
        × Holds s.state.log_sectors left (may_leave s.state) (disk s.device) }
{}

/// Lives that keep the promise keep it in the words of calls, replies, batches and maps alone, and so on their device.
pub fn promise_keeps_batches()
    ensures batches { (log_sectors : ℕ) (before : List (List Operation)) (opened : CrashState)
        (lives : List (List Asked)) (answers : List (List Told)) (d : Disk)
        → KeepPromise log_sectors before opened lives answers d
        → KeepsBatches log_sectors before opened (acts_asked lives) (replies_told answers) }
    ensures device { (log_sectors : ℕ) (before : List (List Operation)) (opened : CrashState)
        (lives : List (List Asked)) (answers : List (List Told)) (d : Disk)
        → KeepPromise log_sectors before opened lives answers d
        → KeepsBatchesOn log_sectors before opened (acts_asked lives) (replies_told answers) d }
{}
