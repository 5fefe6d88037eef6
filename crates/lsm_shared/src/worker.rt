//! A client of a shared store that works on its jobs: flushes and compactions are taken, built and installed while other clients
//! make their calls.
//!
//! | call | what it does |
//! |---|---|
//! | [`take_turn`] | one turn, and what it hands out is built and brought |
//! | [`work`] | such turns until nothing is left to do |
//!
//! A flush that waits is taken before all else. Merges are taken as a policy advises (`lsm_policy`), one at a time, and only when no job
//! that is held can go on: so a slot is always left for a flush.
//!
//! A worker makes no call of the store: whatever it enters in the trail are pieces of work. If it is idle it has seen a
//! history after which nothing is left for it to do; others go on, so it is asked again later.
//!
//! ```
//! let policy = Policy::new();
//! for _ in rt.forever() {
//!     if *stopping.lock(rt) {
//!         break;
//!     }
//!     if work(rt, alloc, shared, me, &policy, 4, 1_000)? {
//!         sleep(rt, Duration::from_millis(10));
//!     }
//! }
//! ```

ghost use Rattle.std.specs.Prelude.{◌≡◌, false, true, IfOk, MatchResult};
ghost use Rattle.std.specs.Arc.{arc_value};
ghost use Rattle.lsm_shared.specs.Turns.{IsNoNext, WasLent};
ghost use Rattle.lsm_shared.specs.Workers.{MakesNoCall, Rests, Delivers, DeliversNot, Chooses, TakesWhole, TakesPart, TakesUpTo, StopsWithin};

use crate::client::Client;
use crate::shared::Shared;
use crate::turn::Turn;
use lsm_device::{Device, Refusal};
use lsm_merge::{Input, build};
use lsm_policy::Policy;
use lsm_trail::SessionName;
use std::alloc::Global;
use std::sync::{Arc, Wait};
use std::thread::Threads;

// Builds the result of an input that a turn handed out, with no lock in hand, and brings it.
fn merge<D: Device, B: SessionName, R: Threads + Wait + Sync>(
    rt: &R,
    alloc: Global,
    shared: &Shared<D, Global, B>,
    me: &mut Client<Global, B>,
    lent: (u64, u64, Arc<Input>),
    parts: u8,
) -> Result<(), Refusal>
    requires { WasLent me.old.mine lent.0 lent.1 (arc_value lent.2) }
    ensures works { MakesNoCall me.old me.new }
    ensures delivers { MatchResult result
        (λ _. Delivers parts lent.0 lent.1 (arc_value lent.2) me.old me.new)
        (λ e. DeliversNot parts e lent.0 lent.1 (arc_value lent.2) me.old me.new) }
{
    let (job, number, input) = lent;
    let built = build(rt, alloc, input, parts)?;
    let _reply = me.bring(rt, shared, job, number, &built)?;
    Ok(())
}

// Takes the merge that a policy advises. Whether there was one.
fn choose<D: Device, B: SessionName, R: Threads + Wait + Sync>(
    rt: &R,
    shared: &Shared<D, Global, B>,
    me: &mut Client<Global, B>,
    policy: &Policy,
) -> Result<bool, Refusal>
    ensures { MatchResult result (λ busy. Chooses busy me.old me.new)
        (λ e. IsNoNext me.old e me.new) }
{
    let taken = me.take_next(rt, shared, policy)?;
    Ok(taken.is_some())
}

/// Takes a turn at the jobs of a store: a flush that waits is taken first, and then the next piece of a job that is held is done. If that
/// hands out an input, the result is built in `parts` parts, 1 to 8, each in a thread of its own and without the lock, and brought. If
/// nothing of the kind is left to do, and no merge is held, the merge that a policy advises is taken. It returns whether there was
/// something to do.
///
/// So there is one merge at a time, and a slot is left for each flush.
///
/// Fails as a turn and a bringing do, with `TrailFull` and `NoMemory`, and with `BadLimit` where a result is to be built in another
/// number of parts. What was entered before stands.
///
/// No clause says that the policy is asked, nor how many threads there are: the tables of a result are the same for each number
/// of parts. Tests show the first.
pub fn take_turn<D: Device, B: SessionName, R: Threads + Wait + Sync>(
    rt: &R,
    alloc: Global,
    shared: &Shared<D, Global, B>,
    me: &mut Client<Global, B>,
    policy: &Policy,
    parts: u8,
) -> Result<bool, Refusal>
    ensures takes { MatchResult result (λ busy. TakesWhole parts busy me.old me.new)
        (λ e. TakesPart parts e me.old me.new) }
    ensures works { MakesNoCall me.old me.new }
    ensures rests { IfOk result (λ busy. busy ≡ false → Rests me.new) }
{
    match me.turn_due(rt, shared)? {
        Turn::Idle => {
            let busy = choose(rt, shared, me, policy)?;
            Ok(busy)
        }
        Turn::Did(_) => Ok(true),
        Turn::Merge { job, result, input } => {
            merge(rt, alloc, shared, me, (job, result, input), parts)?;
            Ok(true)
        }
    }
}

/// Takes at most `turns` turns by a policy, until nothing is left to do. Returns whether nothing was left.
pub fn work<D: Device, B: SessionName, R: Threads + Wait + Sync>(
    rt: &R,
    alloc: Global,
    shared: &Shared<D, Global, B>,
    me: &mut Client<Global, B>,
    policy: &Policy,
    parts: u8,
    turns: u32,
) -> Result<bool, Refusal>
    ensures takes { MatchResult result (λ idle. TakesUpTo turns parts idle me.old me.new)
        (λ e. StopsWithin turns parts e me.old me.new) }
    ensures works { MakesNoCall me.old me.new }
    ensures rests { IfOk result (λ idle. idle ≡ true → Rests me.new) }
{
    for _ in 0..turns {
        if !take_turn(rt, alloc, shared, me, policy, parts)? {
            return Ok(true);
        }
    }
    Ok(false)
}
