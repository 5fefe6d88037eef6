// Plain maps: rows in the order of keys.
ghost use Rattle.std.specs.Prelude.{◌≡◌, ◌≤◌, ◌++◌, length, drop, option_map, IfOk, OnOk};
ghost use Rattle.lsm_codec.specs.Map.{Map, changed, apply};
ghost use Rattle.lsm_codec.specs.References.{shown_operation};
ghost use Rattle.lsm_explore.specs.Plain.{AreRows, behind, place_in, row_of, rows_of, with_row};

use lsm_codec::{OpRef, Operations};
use lsm_store::RowRef;
use std::alloc::{AllocError, Allocator};

// How many of the first rows have keys before this one.
fn place_of(rows: &[RowRef<'_>], key: &[u8]) -> usize
    ensures place { result ≡ place_in key.now (rows_of rows.now) }
    ensures within { result ≤ length rows.now }
{
    for (i, row) in rows.iter().enumerate() {
        if !key.cmp(row.key).is_gt() {
            return i;
        }
    }
    rows.len()
}

// Where the rows after a key begin; the key itself would stand at `place`.
fn end_of(rows: &[RowRef<'_>], place: usize, key: &[u8]) -> usize
    requires { place ≤ length rows.now }
    ensures end { rows_of (drop result rows.now) ≡ behind key.now (rows_of (drop place rows.now)) }
    ensures within { result ≤ length rows.now }
{
    match rows.get(place) {
        Some(row) if key.cmp(row.key).is_eq() => place + 1,
        _ => place,
    }
}

// Adds the row of an operation, if it puts a value.
fn add_row<'s, A: Allocator>(
    rows: &mut Vec<RowRef<'s>, A>,
    operation: OpRef<'s>,
) -> Result<(), AllocError>
    ensures { OnOk result (rows_of rows.new.items
        ≡ rows_of rows.old.items
        ++ row_of (shown_operation operation.entry).key
        (shown_operation operation.entry).value) }
{
    if let Some(value) = operation.value {
        rows.push(RowRef {
            key: operation.key,
            value,
        })?;
    }
    Ok(())
}

// The rows after an operation: the key's row, if it had one, is gone, and stands there anew where the operation puts a value.
fn with_change<'s, A: Allocator>(
    alloc: A,
    rows: &[RowRef<'s>],
    operation: OpRef<'s>,
) -> Result<Vec<RowRef<'s>, A>, AllocError>
    ensures { IfOk result (λ after. rows_of after.items
        ≡ with_row (rows_of rows.now) (shown_operation operation.entry).key
        (shown_operation operation.entry).value) }
{
    let place = place_of(rows, operation.key);
    let end = end_of(rows, place, operation.key);
    let mut after = Vec::from_slice(alloc, &rows[..place])?;
    add_row(&mut after, operation)?;
    after.extend_from_slice(&rows[end..])?;
    Ok(after)
}

/// The rows of the map after a batch.
pub(crate) fn applied<'s, A: Allocator + Clone>(
    alloc: &A,
    rows: &[RowRef<'s>],
    operations: Operations<'s>,
) -> Result<Vec<RowRef<'s>, A>, AllocError>
    ensures { IfOk result (λ after. (m : Map) → AreRows rows.now m
        → AreRows after.items (apply m operations.entry)) }
{
    let mut after = Vec::from_slice(alloc.clone()?, rows)?;
    for operation in operations {
        after = with_change(alloc.clone()?, &after, operation)?;
    }
    Ok(after)
}
