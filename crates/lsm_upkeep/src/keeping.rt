//! A store is kept up: before a commit, so that there is room for it.

ghost use Rattle.std.specs.Prelude.{◌≡◌, ◌&&◌, not, is_some};
ghost use Rattle.lsm_upkeep.specs.Keeping.{KeepsMap};
ghost use Rattle.lsm_upkeep.specs.Steps.{IsUpkept};
ghost use Rattle.lsm_upkeep.specs.Upkeep.{IsEased, KeepsUp, is_scarce};

use crate::compacting::compact;
use crate::settling::settle;
use lsm_device::Device;
use lsm_policy::Policy;
use lsm_store::Store;
use std::alloc::Global;

/// Settles a store, and compacts it where room is scarce then, by the policy: less than half of its blocks are free, or there are
/// too many tables.
///
/// Errors are skipped: the store goes on as it then is, and its map is the same.
pub fn keep_up<D: Device>(alloc: Global, store: &mut Store<D>, policy: &Policy)
    ensures settles { KeepsUp policy.now.most_tables store.old store.new }
    ensures upkept { IsUpkept store.old store.new }
    ensures map { KeepsMap store.old store.new }
{
    settle(alloc, store);
    ease(alloc, store, policy);
}

// Compacts a store where room is scarce.
fn ease<D: Device>(alloc: Global, store: &mut Store<D>, policy: &Policy)
    ensures eases { IsEased policy.now.most_tables store.old store.new }
    ensures upkept { IsUpkept store.old store.new }
{
    if is_scarce(policy, store) {
        compact(alloc, store, policy);
    }
}

// Whether a store runs, and room is scarce in it.
fn is_scarce<D: Device>(policy: &Policy, store: &Store<D>) -> bool
    ensures { result
        ≡ (not (is_some store.now.state.stopped) && is_scarce policy.now.most_tables store.now) }
{
    match store.stat() {
        Ok(stat) => policy.is_scarce(store.levels(), stat.free_blocks),
        Err(_) => false,
    }
}
