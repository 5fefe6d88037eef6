//! A batch that gathers operations.

ghost use Rattle.std.specs.Prelude.{◌≡◌, ◌∷◌, [], None, Some, option_map};
ghost use Rattle.lsm_codec.specs.Answers.{UnlessNoMemory, key_refusal, or_then, value_refusal};
ghost use Rattle.lsm_codec.specs.References.{shown_operation};
ghost use Rattle.corwaphi.specs.Buffering.{later_on, last_on, operations_of, Takes, taken};

use lsm_codec::{Batch, Op, OpRef, Operations};
use lsm_device::Refusal;
use std::alloc::Global;

/// A batch with this number of bytes of text is full: a commit of it is then cheap for each of its operations, and so is a look at each.
const FULL: usize = 16_384;

/// A batch of one operation.
pub(crate) fn begun(alloc: Global, operation: Op) -> Result<Batch, Refusal>
    ensures { UnlessNoMemory result (λ b. b ≡ operation ∷ []) }
{
    Batch::new(alloc, operation)
}

/// Adds a put to a batch. Returns whether it was added: not where there is no batch, or it is full.
pub(crate) fn took_put(batch: &mut Option<Batch>, key: &[u8], value: &[u8]) -> Result<bool, Refusal>
    ensures { Takes (or_then (key_refusal key.now) (value_refusal value.now))
        (record { key = key.now; value = Some value.now }) (operations_of batch.old) result
        (operations_of batch.new) }
{
    match batch {
        Some(batch) if batch.text_len() < FULL => told(batch.put(key, value)),
        Some(_) | None => Ok(false),
    }
}

/// Adds a delete to a batch. Returns whether it was added: not where there is no batch, or it is full.
pub(crate) fn took_delete(batch: &mut Option<Batch>, key: &[u8]) -> Result<bool, Refusal>
    ensures { Takes (key_refusal key.now) (record { key = key.now; value = None })
        (operations_of batch.old) result (operations_of batch.new) }
{
    match batch {
        Some(batch) if batch.text_len() < FULL => told(batch.delete(key)),
        Some(_) | None => Ok(false),
    }
}

// Whether an operation was added. A full batch is no error.
fn told(added: Result<(), Refusal>) -> Result<bool, Refusal>
    ensures { result ≡ taken added }
{
    match added {
        Ok(()) => Ok(true),
        Err(Refusal::BatchTooBig) => Ok(false),
        Err(refusal) => Err(refusal),
    }
}

/// The last operation on a key in a batch, if there is one.
pub(crate) fn last_on<'a>(batch: &'a Option<Batch>, key: &[u8]) -> Option<OpRef<'a>>
    ensures { option_map shown_operation result ≡ last_on key.now (operations_of batch.now) }
{
    match batch {
        Some(batch) => last_of(batch.operations(), key),
        None => None,
    }
}

fn last_of<'a>(operations: Operations<'a>, key: &[u8]) -> Option<OpRef<'a>>
    ensures { option_map shown_operation result ≡ later_on key.now None operations.entry }
{
    let mut found = None;
    for operation in operations {
        if key.cmp(operation.key).is_eq() {
            found = Some(operation);
        }
    }
    found
}
