// Laws of histories.
ghost use Rattle.std.specs.Prelude.{◌≡◌, List, true};
ghost use Rattle.lsm_machine.specs.RecoveryPoints.{present_map};
ghost use Rattle.lsm_machine.specs.State.{may_ask, map_at};
ghost use Rattle.lsm_machine.specs.declared.asked.At.TheVariants.{Snap};
ghost use Rattle.lsm_trail.specs.Begins.{Begin, base_of};
ghost use Rattle.lsm_trail.specs.History.{Event, IsLegal, state_after};

/// In every legal history of a session its base stays live, with the map of the begin: so each read of it there asks this
/// map.
pub fn base_stays()
    ensures live { (b : Begin) (log : List Event) → IsLegal b log
        → may_ask (state_after b log) (Snap (base_of b)) ≡ true }
    ensures map { (b : Begin) (log : List Event) → IsLegal b log
        → map_at (state_after b log) (Snap (base_of b)) ≡ present_map b.store.state.points }
{}
