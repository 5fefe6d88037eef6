// Laws of the definitions: what the store promises, and what holds of steps one after another.
ghost use Rattle.std.specs.Prelude.{◌≡◌, ◌≢◌, ◌≤◌, false, List, ◌++◌, length, IsSome, Contains};
ghost use Rattle.lsm_device.specs.declared.refusal.Refusal.{Refusal};
ghost use Rattle.lsm_device.specs.declared.refusal.Refusal.TheVariants.{Stopped, Io, BadTable};
ghost use Rattle.lsm_root.specs.CrashState.{CrashState};
ghost use Rattle.lsm_machine.specs.Calls.{Reply, Refused};
ghost use Rattle.lsm_machine.specs.Crash.{may_leave};
ghost use Rattle.lsm_machine.specs.Machine.{Machine, Step};
ghost use Rattle.lsm_machine.specs.Run.{AllowsStep, AdmitsStep, asks_guards, next_machine, left_in_step, Run, Course, last_machine, left_in_run, ample_replies, ample_machine};
ghost use Rattle.lsm_machine.specs.Promise.{Promise, in_flight};
ghost use Rattle.lsm_machine.specs.Lives.{PromiseOverLives};

/// After any steps of a machine in the state of an opened store, whatever its work, a crash leaves the map after a beginning
/// of the accepted batches that holds every acknowledged one, and at most the one in flight after them.
pub fn crash_keeps_a_beginning()
    ensures promise { Promise }
    ensures at_most_one { (steps : List Step) (replies : List Reply)
        → length (in_flight steps replies) ≤ 1 }
{}

/// And so it is however often the device is stopped and opened again: each opening gives the map after the batches that
/// were kept, and each life keeps a beginning of these, of those accepted in it and of the one in flight.
pub fn crashes_keep_beginnings()
    ensures { PromiseOverLives }
{}

/// Memory admits each reply that the state allows, and so each run. A state allows no `BadTable`: only a device that
/// doesn't back it may make a store answer that.
pub fn allowed_is_admitted()
    ensures step { (m : Machine) (step : Step) (reply : Reply)
        → AllowsStep m step reply → AdmitsStep m step reply }
    ensures run { (m : Machine) (steps : List Step) (replies : List Reply)
        → Run m steps replies → Course m steps replies (last_machine m steps replies) }
    ensures tables { (m : Machine) (step : Step) → AllowsStep m step (Refused BadTable) → ⊥ }
{}

/// A stopped store refuses every step, and doesn't change.
pub fn stopped_refuses()
    ensures reply { (m : Machine) (step : Step) (reply : Reply)
        → IsSome m.state.stopped → AdmitsStep m step reply → reply ≡ Refused Stopped }
    ensures machine { (m : Machine) (step : Step) (reply : Reply)
        → IsSome m.state.stopped → AdmitsStep m step reply → next_machine m step reply ≡ m }
{}

/// One run after another is a run, and what a crash may leave in either of them it may leave in both.
pub fn runs_join()
    ensures run { (m : Machine) (steps more : List Step) (replies others : List Reply)
        → Run m steps replies → Run (last_machine m steps replies) more others
        → Run m (steps ++ more) (replies ++ others) }
    ensures course { (m mid end : Machine) (steps more : List Step) (replies others : List Reply)
        → Course m steps replies mid → Course mid more others end
        → Course m (steps ++ more) (replies ++ others) end }
    ensures machine { (m end : Machine) (steps more : List Step) (replies others : List Reply)
        → Course m steps replies end
        → last_machine m (steps ++ more) (replies ++ others)
        ≡ last_machine (last_machine m steps replies) more others }
    ensures before { (m end : Machine) (steps more : List Step) (replies others : List Reply)
        → (left : CrashState) → Course m steps replies end
        → Contains (left_in_run m steps replies) left
        → Contains (left_in_run m (steps ++ more) (replies ++ others)) left }
    ensures behind { (m end : Machine) (steps more : List Step) (replies others : List Reply)
        → (left : CrashState) → Course m steps replies end
        → Contains (left_in_run (last_machine m steps replies) more others) left
        → Contains (left_in_run m (steps ++ more) (replies ++ others)) left }
{}

/// What a crash may leave before a step or after its reply, it may leave inside the step: after a reply that memory admits, and
/// where guards were asked after one that the state allows. A refusal that tells of no fault changes nothing, so a crash leaves
/// what it left.
pub fn crash_states_go_on()
    ensures before { (m : Machine) (step : Step) (left : CrashState)
        → Contains (may_leave m.state) left → Contains (left_in_step m step) left }
    ensures after { (m : Machine) (step : Step) (reply : Reply) (left : CrashState)
        → asks_guards step ≡ false
        → AdmitsStep m step reply → Contains (may_leave (next_machine m step reply).state) left
        → Contains (left_in_step m step) left }
    ensures guarded { (m : Machine) (step : Step) (reply : Reply) (left : CrashState)
        → AllowsStep m step reply → Contains (may_leave (next_machine m step reply).state) left
        → Contains (left_in_step m step) left }
    ensures refused { (m : Machine) (step : Step) (e : Refusal)
        → e ≢ Io → next_machine m step (Refused e) ≡ m }
{}

/// With ample memory and no fault the store gives the replies that its state decides.
pub fn ample_steps_run()
    ensures run { (m : Machine) (steps : List Step) → Run m steps (ample_replies m steps) }
    ensures machine { (m : Machine) (steps : List Step)
        → last_machine m steps (ample_replies m steps) ≡ ample_machine m steps }
{}
