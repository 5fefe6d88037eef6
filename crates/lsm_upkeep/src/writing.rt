//! A commit that finds room.

ghost use Rattle.std.specs.Prelude.{◌≡◌, option_map};
ghost use Rattle.lsm_machine.specs.Calls.{Number, reply_of};
ghost use Rattle.lsm_upkeep.specs.Writing.{IsServed, Writes, commit_of, without_log_full};

use crate::admitting::admit;
use crate::upkeep::Upkeep;
use lsm_codec::{Batch, Guard};
use lsm_device::{Device, Refusal};
use lsm_store::Store;
use std::alloc::Global;

/// Commits a batch, where guards are given under them, and returns its sequence number. Before that the store is made ready
/// for it ([`admit`]).
///
/// Fails as a commit of the store ([`Store::commit`], [`Store::commit_if`]), and with `NoSpace` where a batch that puts values
/// finds no room in tables, though all were merged down as far as they go; a batch of deletes only where a snapshot is live. It
/// never fails with `LogFull`: where no log with room can be opened, that is `NoSpace`.
pub fn write<D: Device>(
    alloc: Global,
    store: &mut Store<D>,
    upkeep: &mut Upkeep,
    guards: Option<&[Guard]>,
    batch: &Batch,
) -> Result<u64, Refusal>
    ensures { Writes (option_map (λ g. g.now) guards.entry) batch.now store.old
        (reply_of Number result) store.new }
{
    match admit(alloc, store, upkeep, batch) {
        Ok(()) => without_log_full(commit(store, guards, batch)),
        Err(refusal) => Err(refusal),
    }
}

fn commit<D: Device>(
    store: &mut Store<D>,
    guards: Option<&[Guard]>,
    batch: &Batch,
) -> Result<u64, Refusal>
    ensures { IsServed (commit_of (option_map (λ g. g.now) guards.entry) batch.now) store.old
        (reply_of Number result) store.new }
{
    match guards {
        Some(guards) => store.commit_if(guards, batch),
        None => store.commit(batch),
    }
}

/// The result of a commit, with `NoSpace` for `LogFull`: the log has no room though it was made ready.
pub fn without_log_full(told: Result<u64, Refusal>) -> Result<u64, Refusal>
    ensures { reply_of Number result ≡ without_log_full (reply_of Number told) }
{
    match told {
        Err(Refusal::LogFull) => Err(Refusal::NoSpace),
        other => other,
    }
}
