//! A store that was just opened is made ready for writes.

ghost use Rattle.lsm_upkeep.specs.Flushing.{ReadiesLog};
ghost use Rattle.lsm_upkeep.specs.Steps.{IsUpkept};
ghost use Rattle.corwaphi.specs.Upkeep.{IsReadied};

use lsm_device::Device;
use lsm_policy::Policy;
use lsm_store::Store;
use lsm_upkeep::{compact, open_log};
use std::alloc::Global;

/// The store, ready for writes.
pub(crate) fn readied<D: Device>(alloc: Global, store: Store<D>) -> Store<D>
    ensures readied { IsReadied store result }
    ensures upkept { IsUpkept store result }
{
    let mut store = store;
    ready(alloc, &mut store);
    store
}

// Finishes a flush that waits, compacts by the policy, and opens a log where the open one has no room, or none is open.
fn ready<D: Device>(alloc: Global, store: &mut Store<D>)
    ensures readied { IsReadied store.old store.new }
    ensures upkept { IsUpkept store.old store.new }
{
    compact(alloc, store, &Policy::new());
    begin_log(alloc, store);
}

fn begin_log<D: Device>(alloc: Global, store: &mut Store<D>)
    ensures upkept { IsUpkept store.old store.new }
    ensures readies { ReadiesLog store.old store.new }
{
    open_log(alloc, store);
}
