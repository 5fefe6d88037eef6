// Laws of the definitions: what the store promises, and what holds of steps one after another.
ghost use Rattle.std.specs.Prelude.{◌≡◌, ◌↔◌, [], List};
ghost use Rattle.lsm_codec.specs.Map.{Operation};
ghost use Rattle.lsm_store.specs.Backing.{StoreView};
ghost use Rattle.lsm_machine.specs.Calls.{Reply, Commit, CommitIf};
ghost use Rattle.lsm_store.specs.Serving.{Serves};
ghost use Rattle.lsm_machine.specs.Machine.{Machine, Called};
ghost use Rattle.lsm_machine.specs.Run.{AllowsStep, next_machine, left_in_step};

/// A commit under no guards is a commit: the store does the same, the machine allows the same replies and goes on alike, and a crash
/// inside it leaves the same.
pub fn no_guards_are_a_commit()
    ensures serves { (old new : StoreView) (batch : List Operation) (reply : Reply)
        → Serves old (CommitIf [] batch) reply new ↔ Serves old (Commit batch) reply new }
    ensures allows { (m : Machine) (batch : List Operation) (reply : Reply)
        → AllowsStep m (Called (CommitIf [] batch)) reply
        ↔ AllowsStep m (Called (Commit batch)) reply }
    ensures machine { (m : Machine) (batch : List Operation) (reply : Reply)
        → next_machine m (Called (CommitIf [] batch)) reply
        ≡ next_machine m (Called (Commit batch)) reply }
    ensures left { (m : Machine) (batch : List Operation)
        → left_in_step m (Called (CommitIf [] batch)) ≡ left_in_step m (Called (Commit batch)) }
{}
