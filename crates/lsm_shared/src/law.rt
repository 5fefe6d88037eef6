// Laws of sessions.
ghost use Rattle.std.specs.Prelude.{◌≡◌, ℕ, List, ◌∷◌, ◌++◌};
ghost use mathlib.Core.List.{IsPrefix};
ghost use Rattle.lsm_device.specs.Medium.{disk};
ghost use Rattle.lsm_device.specs.Outcomes.{Leaves};
ghost use Rattle.lsm_open.specs.Recovering.{StandForOne};
ghost use Rattle.lsm_store.specs.Backing.{StoreView, machine_of, IsBacked};
ghost use Rattle.lsm_machine.specs.Calls.{Snapshot, Number};
ghost use Rattle.lsm_machine.specs.Crash.{may_leave};
ghost use Rattle.lsm_machine.specs.Machine.{Called};
ghost use Rattle.lsm_machine.specs.Run.{Run};
ghost use Rattle.lsm_trail.specs.Begins.{Begin, base_of};
ghost use Rattle.lsm_trail.specs.History.{Event, steps_of, replies_of, IsLegal, state_after, TrailView};
ghost use Rattle.lsm_trail.specs.Knowledge.{SessionId, Known, Sees};
ghost use Rattle.lsm_shared.specs.Clients.{Adds};
ghost use Rattle.lsm_shared.specs.Sessions.{IsSession, IsEnded};

/// What a crash may leave of a shared store, where its device backed it when the session began: whenever the lock is free,
/// what the state after the trail may leave; and so it is when the session has ended.
///
/// A legal history, with the pinning of the base before it, is a run of the store from its begin, where the device backed it
/// then: so the promise over crashes holds of it.
pub fn trail_tells_what_a_crash_leaves()
    ensures free { (id : SessionId) (base : ℕ) (store : StoreView) (log : List Event)
        → IsSession id base store log → IsBacked id.begin.store
        → Leaves (StandForOne id.begin.store.state.log_sectors
        (may_leave (state_after id.begin log))) (disk store.device) }
    ensures ended { (b : Begin) (clients : List Known) (store : StoreView) (trail : TrailView)
        → IsEnded b clients store trail → IsBacked b.store
        → Leaves (StandForOne b.store.state.log_sectors (may_leave (state_after b trail.log)))
        (disk store.device) }
    ensures run { (b : Begin) (log : List Event) → IsLegal b log → IsBacked b.store
        → Run (machine_of b.store) (Called Snapshot ∷ steps_of log)
        (Number (base_of b) ∷ replies_of log) }
{}

/// What a client has heard comes before all that it does then, in the one history, and it knows so from then on.
pub fn what_is_heard_comes_first()
    ensures done { (told : List Event) (c d : Known) (others entries : List Event)
        → IsPrefix told c.seen → Adds c others entries d
        → (between : List Event) × (d.seen ≡ (told ++ between) ++ entries) }
    ensures kept { (told : List Event) (c d : Known) → IsPrefix told c.seen → Sees c d
        → IsPrefix told d.seen }
{}
