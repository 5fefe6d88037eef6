//! A store is made ready for a batch.

ghost use Rattle.std.specs.Prelude.{◌≡◌, true, IfErr, IfOk};
ghost use Rattle.lsm_device.specs.declared.refusal.Refusal.TheVariants.{NoSpace};
ghost use Rattle.lsm_store.specs.Backing.{StoreView};
ghost use Rattle.lsm_upkeep.specs.Flushing.{BeginsLog, BeginsLogAmid, IsMadeReady, OpensAnother, ReadiesLog};
ghost use Rattle.lsm_upkeep.specs.Steps.{IsUpkept};
ghost use Rattle.lsm_upkeep.specs.Writing.{FindsNoRoom, HasRoomFor, LacksRoom, wants_room};

use crate::demand::Demand;
use crate::flushing::{flush, is_waiting};
use crate::pushing::push;
use crate::upkeep::Upkeep;
use lsm_codec::Batch;
use lsm_device::{Device, Refusal};
use lsm_store::Store;
use std::alloc::Global;

/// Makes a store ready for a batch: what the batch makes of its keys will find room in tables, and the open log has room for it. Where
/// that is so at once, nothing is done.
///
/// It is refused with `NoSpace` where a batch that puts values finds no room, though all tables were brought down as far as they go. A
/// batch of deletes is not, unless a snapshot is live. What else is refused is passed over: the store goes on as it then is, and its map
/// is the same. A stopped store is left as it is, since it refuses the batch itself. Where puts are let in, the flushes of memory with the
/// batch and of what waits for one leave a hundred blocks free.
///
/// The upkeep is what the last call left: mostly no table is looked at, and of merges that are due some pieces are done.
pub fn admit<D: Device>(
    alloc: Global,
    store: &mut Store<D>,
    upkeep: &mut Upkeep,
    batch: &Batch,
) -> Result<(), Refusal>
    ensures upkept { IsUpkept store.old store.new }
    ensures ready { IsMadeReady store.old store.new }
    ensures room { IfOk result (λ done. HasRoomFor batch.now store.new) }
    ensures refused { IfErr result
        (λ e. (e ≡ NoSpace) × FindsNoRoom batch.now store.old store.new) }
{
    if store.is_stopped() {
        return Ok(());
    }
    let is_full = matches!(store.log_room(), Ok(0));
    begin_write(alloc, store, upkeep, is_full, batch.text_len());
    if upkeep.admits(alloc, store, batch) {
        return Ok(());
    }
    let demand = Demand::of(store, batch);
    let has_log = demand.has_log(store);
    if has_log && !demand.puts && demand.joins(store) {
        push(alloc, store, Some(demand));
        return Ok(());
    }
    change_log(alloc, store, upkeep, has_log);
    make_room(alloc, store, upkeep, batch)
}

// Before so many bytes are written: opens a log where the open one has no room, before which a merge that was begun is finished, and goes on
// with merges.
fn begin_write<D: Device>(
    alloc: Global,
    store: &mut Store<D>,
    upkeep: &mut Upkeep,
    is_full: bool,
    bytes: usize,
)
    ensures upkept { IsUpkept store.old store.new }
    ensures readies { (ready : StoreView) × ReadiesLog store.old ready × IsUpkept ready store.new }
{
    finish_before_flush(alloc, store, upkeep, is_full);
    open_log(alloc, store);
    upkeep.go_on(alloc, store, is_full, bytes);
}

// Finishes the merge that was begun, where a flush comes next.
fn finish_before_flush<D: Device>(
    alloc: Global,
    store: &mut Store<D>,
    upkeep: &mut Upkeep,
    is_full: bool,
)
    ensures { IsUpkept store.old store.new }
{
    if is_full || is_waiting(store) {
        upkeep.finish_begun(alloc, store);
    }
}

/// Finishes the flush that waits, and opens a log where the open one has no room, or none is open.
pub fn open_log<D: Device>(alloc: Global, store: &mut Store<D>)
    ensures upkept { IsUpkept store.old store.new }
    ensures readies { ReadiesLog store.old store.new }
{
    flush(alloc, store);
    open_another(alloc, store);
}

// Opens another log where the open one has no room, or none is open.
fn open_another<D: Device>(alloc: Global, store: &mut Store<D>)
    ensures upkept { IsUpkept store.old store.new }
    ensures opens { OpensAnother store.old store.new }
{
    if let Ok(0) = store.log_room() {
        next_log(alloc, store);
    }
}

// Opens another log, and flushes what was in the one before.
fn next_log<D: Device>(alloc: Global, store: &mut Store<D>)
    ensures upkept { IsUpkept store.old store.new }
    ensures begins { BeginsLog store.old store.new }
{
    if flush(alloc, store) {
        let _ = store.rotate();
        flush(alloc, store);
    }
}

// Opens another log, behind the merge that was begun. Where the one before had no room for a batch, that is the time to merge.
fn change_log<D: Device>(alloc: Global, store: &mut Store<D>, upkeep: &mut Upkeep, had_room: bool)
    ensures upkept { IsUpkept store.old store.new }
    ensures begins { BeginsLogAmid store.old store.new }
{
    upkeep.finish_begun(alloc, store);
    next_log(alloc, store);
    if !had_room {
        upkeep.merge(alloc, store);
    }
}

// Finishes the merges that are due, and brings tables down, until a batch is admitted. It is refused where puts are not.
fn make_room<D: Device>(
    alloc: Global,
    store: &mut Store<D>,
    upkeep: &mut Upkeep,
    batch: &Batch,
) -> Result<(), Refusal>
    ensures upkept { IsUpkept store.old store.new }
    ensures room { IfOk result (λ done. HasRoomFor batch.now store.new) }
    ensures refused { IfErr result
        (λ e. (e ≡ NoSpace) × (wants_room batch.now store.new.state ≡ true)
        × LacksRoom batch.now store.new) }
{
    if Demand::of(store, batch).is_met(store) {
        return Ok(());
    }
    upkeep.finish(alloc, store);
    let demand = Demand::of(store, batch);
    if demand.is_met(store) {
        return Ok(());
    }
    push(alloc, store, Some(demand));
    if Demand::of(store, batch).is_refused(store) {
        return Err(Refusal::NoSpace);
    }
    Ok(())
}
