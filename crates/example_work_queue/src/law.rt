// What deeds make of a queue, and what of them a crash keeps.
ghost use Rattle.std.specs.FinMap as finite;
ghost use Rattle.std.specs.Prelude.{◌≡◌, ℕ, ◌++◌, List, Some, map, slice_get};
ghost use Rattle.lsm_codec.specs.Keys.{Bytes};
ghost use Rattle.lsm_codec.specs.Map.{Map, Operation, apply};
ghost use Rattle.lsm_root.specs.CrashState.{CrashState};
ghost use Rattle.lsm_machine.specs.Lives.{IsAfter, IsPrefixFrom};
ghost use Rattle.example_work_queue.specs.Deeds.{AreDone, Deed, Claims, Does, GoesOn, MayBeDone, Tells, TellsBeginning, batch_of, map_after};
ghost use Rattle.example_work_queue.specs.Tasks.{IsQueue, status};

/// A deed that may be done moves its task to its next status, and no other task; and there is a queue again. An empty map is a queue.
pub fn deeds_change_one_task()
    ensures does { (m : Map) (deed : Deed) → IsQueue m → MayBeDone m deed
        → Does deed m (apply m (batch_of deed)) }
    ensures empty { IsQueue finite.empty }
{}

/// The map after deeds tells of each task just what they have done to it. What becomes of a task is never undone by later
/// deeds, and it is claimed once at most.
pub fn deeds_are_told()
    ensures told { (deeds : List Deed) → AreDone finite.empty deeds
        → Tells deeds (map_after finite.empty deeds) }
    ensures onward { (deeds more : List Deed) → AreDone finite.empty (deeds ++ more) → (number : ℕ)
        → GoesOn (status (map_after finite.empty deeds) number)
        (status (map_after finite.empty (deeds ++ more)) number) }
    ensures once { (deeds : List Deed) → AreDone finite.empty deeds
        → (number : ℕ) (task other : Bytes) (i j : ℕ)
        → slice_get deeds i ≡ Some (Claims number task)
        → slice_get deeds j ≡ Some (Claims number other) → i ≡ j }
{}

/// Deeds go on where others ended, and a beginning of deeds may be done without the rest.
pub fn deeds_go_on()
    ensures joined { (m : Map) (deeds more : List Deed) → AreDone m deeds
        → AreDone (map_after m deeds) more → AreDone m (deeds ++ more) }
    ensures parted { (m : Map) (deeds more : List Deed) → AreDone m (deeds ++ more)
        → AreDone m deeds × AreDone (map_after m deeds) more }
{}

/// What a crash leaves of the batches of deeds is the map after a beginning of them, and tells just what these have done: no task of them is
/// lost, and none is half added, half claimed or half finished.
pub fn crashes_keep_tasks()
    ensures { (deeds : List Deed) (least : ℕ) (kept : List (List Operation)) (left : CrashState)
        → AreDone finite.empty deeds
        → IsPrefixFrom least (map batch_of deeds) kept → IsAfter kept left
        → TellsBeginning least deeds left.map }
{}
