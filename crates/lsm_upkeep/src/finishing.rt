//! One job, taken and finished.

ghost use Rattle.std.specs.Prelude.{◌≡◌, true, false, Some, None, MatchResult};
ghost use Rattle.lsm_machine.specs.Work.{Read, Write};
ghost use Rattle.lsm_upkeep.specs.Finishing.{GoesThrough, IsFinished, IsGivenUp, DoesNotGoThrough, IsReadWhole, IsStuck, IsUndone, IsUnread, Taken};

use lsm_codec::Key;
use lsm_device::{Device, Refusal};
use lsm_room::Step;
use lsm_store::{Store, TakenJob};
use std::alloc::Global;

/// Takes the job that comes next and finishes it. Returns whether it did.
pub(crate) fn finish_next<D: Device>(alloc: Global, store: &mut Store<D>) -> bool
    ensures finished { result ≡ true → Taken IsFinished None store.old store.new }
    ensures undone { result ≡ false → IsUndone None store.old store.new }
{
    match store.job_take() {
        Ok(Some(taken)) => finish_or_drop(store, taken, Vec::new(alloc)),
        Ok(None) | Err(_) => false,
    }
}

/// Takes a step and finishes it. Returns whether it did.
pub(crate) fn finish_step<D: Device>(store: &mut Store<D>, step: Step) -> bool
    ensures finished { result ≡ true → Taken IsFinished (Some step.choice) store.old store.new }
    ensures undone { result ≡ false → IsUndone (Some step.choice) store.old store.new }
{
    match store.job_take_of(step.choice) {
        Ok(Some(taken)) => finish_or_drop(store, taken, step.divisions),
        Ok(None) | Err(_) => false,
    }
}

// Finishes a job, or gives it up.
fn finish_or_drop<D: Device>(store: &mut Store<D>, taken: TakenJob, divisions: Vec<Key>) -> bool
    ensures finished { result ≡ true → IsFinished taken.number taken.level store.old store.new }
    ensures given_up { result ≡ false → IsGivenUp taken.number taken.level store.old store.new }
{
    match finish(store, taken, divisions) {
        Ok(()) => true,
        Err(_) => {
            let _ = store.job_drop(taken.number);
            false
        }
    }
}

// Does all the work on a job that was taken.
fn finish<D: Device>(
    store: &mut Store<D>,
    taken: TakenJob,
    divisions: Vec<Key>,
) -> Result<(), Refusal>
    ensures { MatchResult result (λ _. IsFinished taken.number taken.level store.old store.new)
        (λ _. IsStuck taken.number taken.level store.old store.new) }
{
    read(store, taken)?;
    store.job_merge(taken.number, divisions)?;
    write(store, taken.number)?;
    store.job_install(taken.number)
}

// Reads what a merge takes in. A flush has its input at once.
fn read<D: Device>(store: &mut Store<D>, taken: TakenJob) -> Result<(), Refusal>
    ensures { MatchResult result (λ _. IsReadWhole taken.number taken.level store.old store.new)
        (λ _. IsUnread taken.number taken.level store.old store.new) }
{
    match taken.level {
        Some(_) => read_tables(store, taken.number),
        None => Ok(()),
    }
}

fn read_tables<D: Device>(store: &mut Store<D>, job: u64) -> Result<(), Refusal>
    ensures { MatchResult result (λ _. GoesThrough (Read job) store.old store.new)
        (λ _. DoesNotGoThrough (Read job) store.old store.new) }
{
    let mut left = store.job_read(job)?;
    while left > 0 {
        let now = store.job_read(job)?;
        if now >= left {
            return Err(Refusal::WrongState);
        }
        left = now;
    }
    Ok(())
}

fn write<D: Device>(store: &mut Store<D>, job: u64) -> Result<(), Refusal>
    ensures { MatchResult result (λ _. GoesThrough (Write job) store.old store.new)
        (λ _. DoesNotGoThrough (Write job) store.old store.new) }
{
    let mut left = store.job_write(job)?;
    while left > 0 {
        let now = store.job_write(job)?;
        if now >= left {
            return Err(Refusal::WrongState);
        }
        left = now;
    }
    Ok(())
}
