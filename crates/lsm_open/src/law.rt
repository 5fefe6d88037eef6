// Laws of what an opening leaves.
ghost use Rattle.std.specs.Prelude.{◌≤◌, ℕ};
ghost use Rattle.lsm_root.specs.CrashState.{CrashState, last_number, IsLeftAgain, IsSameAgain};

/// However many openings after one another are crashed or refused, the same is left again.
pub fn openings_leave_the_same()
    ensures { (first last : CrashState) (openings : ℕ) → first.generation ≤ last_number
        → IsLeftAgain first openings last → IsSameAgain first openings last }
{}
