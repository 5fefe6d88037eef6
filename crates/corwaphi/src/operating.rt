//! A batch of one operation.

ghost use Rattle.std.specs.Prelude.{◌≡◌, None, Some};
ghost use Rattle.lsm_codec.specs.Answers.{key_refusal, or_then, value_refusal};
ghost use Rattle.lsm_machine.specs.Calls.{Number, reply_of};
ghost use Rattle.corwaphi.specs.Writing.{WritesOne};

use lsm_codec::{Batch, Op};
use lsm_device::{Device, Refusal};
use lsm_store::Store;
use lsm_upkeep::{Upkeep, write};
use std::alloc::Global;

/// Puts a value.
pub(crate) fn put<D: Device>(
    alloc: Global,
    store: &mut Store<D>,
    upkeep: &mut Upkeep,
    key: &[u8],
    value: &[u8],
) -> Result<u64, Refusal>
    ensures { WritesOne (or_then (key_refusal key.now) (value_refusal value.now))
        (record { key = key.now; value = Some value.now }) store.old
        (reply_of Number result) store.new }
{
    match Op::put(alloc, key, value) {
        Ok(operation) => write_one(alloc, store, upkeep, operation),
        Err(refusal) => Err(refusal),
    }
}

/// Deletes a key.
pub(crate) fn delete<D: Device>(
    alloc: Global,
    store: &mut Store<D>,
    upkeep: &mut Upkeep,
    key: &[u8],
) -> Result<u64, Refusal>
    ensures { WritesOne (key_refusal key.now) (record { key = key.now; value = None }) store.old
        (reply_of Number result) store.new }
{
    match Op::delete(alloc, key) {
        Ok(operation) => write_one(alloc, store, upkeep, operation),
        Err(refusal) => Err(refusal),
    }
}

fn write_one<D: Device>(
    alloc: Global,
    store: &mut Store<D>,
    upkeep: &mut Upkeep,
    operation: Op,
) -> Result<u64, Refusal>
    ensures { WritesOne None operation store.old (reply_of Number result) store.new }
{
    match Batch::new(alloc, operation) {
        Ok(batch) => write(alloc, store, upkeep, None, &batch),
        Err(refusal) => Err(refusal),
    }
}
