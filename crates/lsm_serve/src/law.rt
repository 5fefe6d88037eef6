//! What the answers to lines come to.

ghost use Rattle.std.specs.Prelude.{List, ℕ};
ghost use Rattle.lsm_store.specs.Backing.{StoreView};
ghost use Rattle.lsm_serve.specs.Answering.{Answered, AnswersLines};
ghost use Rattle.lsm_serve.specs.Course.{IsCourse};

use lsm_lives::laws::steps_go_on;

/// Answers to lines one after another are a run of the machine: the calls of the lines, and the work that was done before them, are
/// steps of the store, and what the answers tell are its replies. Where the device backs the state the machine allows them, and at
/// every moment every crash leaves what that run may leave.
pub fn answered_lines_go_on()
    ensures { (before : StoreView) (lines : List (List ℕ)) (answers : List Answered)
        (after : StoreView) → AnswersLines before lines answers after
        → IsCourse before lines answers after }
{
    steps_go_on();
}
