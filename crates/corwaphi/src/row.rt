//! A row that is owned.

ghost use Rattle.std.specs.Prelude.{◌≡◌, IfOk};
ghost use Rattle.lsm_mem.specs.Rows.{shown_row};
ghost use Rattle.corwaphi.specs.Advancing.{pair_of};

use lsm_store::RowRef;
use std::alloc::{AllocError, Global};

/// A key and its value.
#[derive(Debug, Drop)]
pub struct Row {
    pub key: Vec<u8>,
    pub value: Vec<u8>,
}

impl Row {
    /// A copy of a row that was lent.
    pub(crate) fn of(alloc: Global, row: RowRef<'_>) -> Result<Row, AllocError>
        ensures { IfOk result (λ copy. pair_of copy ≡ shown_row row.entry) }
    {
        let key = Vec::from_slice(alloc, row.key)?;
        let value = Vec::from_slice(alloc, row.value)?;
        Ok(Row { key, value })
    }
}
