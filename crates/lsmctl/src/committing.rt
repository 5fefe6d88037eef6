//! Batches are committed to a store that is kept up.

ghost use Rattle.std.specs.Prelude.{IfOk, IfErr, option_map};
ghost use Rattle.lsm_upkeep.specs.Steps.{IsUpkept};
ghost use Rattle.lsmctl.specs.Commits.{HasCommitted, IsKeptUp};
ghost use Rattle.lsmctl.specs.Refusing.{RefusesToCommit};

use crate::answer::Output;
use lsm_codec::{Batch, Guard};
use lsm_device::{Device, Refusal};
use lsm_policy::Policy;
use lsm_store::Store;
use lsm_upkeep::{Upkeep, keep_up, write};
use std::alloc::Global;

/// Keeps a store up, commits a batch, where guards are given under them, and syncs it. A batch that puts values fails with `NoSpace`
/// where it finds no room in tables, though all were merged down as far as they go; a batch of deletes only where a snapshot is
/// live, so that a store can be emptied.
pub fn commit<D: Device>(
    alloc: Global,
    store: &mut Store<D>,
    guards: Option<&[Guard]>,
    batch: &Batch,
) -> Result<Output, Refusal>
    ensures gives { IfOk result
        (HasCommitted (option_map (λ g. g.now) guards.entry) batch.now store.old store.new) }
    ensures refused { IfErr result
        (RefusesToCommit (option_map (λ g. g.now) guards.entry) batch.now store.old) }
{
    keep(alloc, store);
    let number = write(alloc, store, &mut Upkeep::at_once(), guards, batch)?;
    store.sync()?;
    Ok(Output::Batch(number))
}

/// Keeps a store up: it is settled, and compacted where less than half of its blocks is free, or more than 768 tables live.
pub fn keep<D: Device>(alloc: Global, store: &mut Store<D>)
    ensures keeps { IsKeptUp store.old store.new }
    ensures upkept { IsUpkept store.old store.new }
{
    keep_up(alloc, store, &Policy::new());
}
