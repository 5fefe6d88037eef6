// The batch of each deed, and the guard under which it is committed.
ghost use Rattle.std.specs.Prelude.{◌≡◌, Some, option_map, IfOk};
ghost use Rattle.example_work_queue.specs.Deeds.{Adds, Claims, Finishes, batch_of};
ghost use Rattle.example_work_queue.specs.Tasks.{claimed_key, last_key, waiting_key};

use crate::rows::{LAST_KEY, claimed_key, number_bytes, waiting_key};
use corwaphi::{Batch, Guard, Op, Refusal};
use std::alloc::Global;

/// A task is added under a number.
pub(crate) fn adds(alloc: Global, number: u64, task: &[u8]) -> Result<Batch, Refusal>
    ensures { IfOk result (λ batch. batch ≡ batch_of (Adds number task.now)) }
{
    let number_row = Op::put(alloc, LAST_KEY, &number_bytes(number))?;
    let mut batch = Batch::new(alloc, number_row)?;
    batch.put(&waiting_key(number), task)?;
    Ok(batch)
}

/// The task of a number is claimed.
pub(crate) fn claims(alloc: Global, number: u64, task: &[u8]) -> Result<Batch, Refusal>
    ensures { IfOk result (λ batch. batch ≡ batch_of (Claims number task.now)) }
{
    let mut batch = Batch::new(alloc, Op::delete(alloc, &waiting_key(number))?)?;
    batch.put(&claimed_key(number), task)?;
    Ok(batch)
}

/// And finished.
pub(crate) fn finishes(alloc: Global, number: u64) -> Result<Batch, Refusal>
    ensures { IfOk result (λ batch. batch ≡ batch_of (Finishes number)) }
{
    let batch = Batch::new(alloc, Op::delete(alloc, &claimed_key(number))?)?;
    Ok(batch)
}

/// The row of the last number is still this one, or still absent.
pub(crate) fn still_last(alloc: Global, row: &Option<Vec<u8>>) -> Result<Guard, Refusal>
    ensures { IfOk result (λ guard. guard
        ≡ record { key = last_key; value = option_map (λ v. v.items) row.now }) }
{
    match row {
        Some(row) => Ok(Guard::holds(alloc, LAST_KEY, row)?),
        None => Ok(Guard::absent(alloc, LAST_KEY)?),
    }
}

/// The task of a number still waits, with these bytes.
pub(crate) fn still_waits(alloc: Global, number: u64, task: &[u8]) -> Result<Guard, Refusal>
    ensures { IfOk result (λ guard. guard
        ≡ record { key = waiting_key number; value = Some task.now }) }
{
    Ok(Guard::holds(alloc, &waiting_key(number), task)?)
}

/// It is still claimed, with these bytes.
pub(crate) fn still_claimed(alloc: Global, number: u64, task: &[u8]) -> Result<Guard, Refusal>
    ensures { IfOk result (λ guard. guard
        ≡ record { key = claimed_key number; value = Some task.now }) }
{
    Ok(Guard::holds(alloc, &claimed_key(number), task)?)
}
