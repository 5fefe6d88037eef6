//! An example of lines that are answered.

use lsm_device::Device;
use lsm_language::{ProgramError, buffered};
use lsm_serve::serve;
use lsm_store::Store;
use std::alloc::Global;
use std::io::{Read, Write};

/// The example of `lsm_serve`.
pub fn serve_lines<D: Device + Drop, I: Read, O: Write>(
    alloc: Global,
    mut store: Store<D>,
    input: &mut I,
    output: &mut O,
) -> Result<(), ProgramError> {
    let mut lines = buffered(alloc, input)?;
    serve(alloc, &mut store, &mut lines, output)?;
    Ok(())
}
