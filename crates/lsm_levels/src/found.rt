//! What is answered of what a look-up finds.

ghost use Rattle.std.specs.Prelude.{option_map};
ghost use Rattle.lsm_levels.specs.Lookups.{Copies, answer_of};

use lsm_device::Refusal;
use std::alloc::Allocator;

/// A copy of a value, if there is one. Fails only with `NoMemory`, for the copy.
pub(crate) fn copied<A: Allocator + Clone>(
    alloc: &A,
    value: Option<&[u8]>,
) -> Result<Option<Vec<u8, A>>, Refusal>
    ensures { Copies (option_map (λ v. v.now) value.entry) (answer_of result) }
{
    let Some(value) = value else {
        return Ok(None);
    };
    let copy = Vec::from_slice(alloc.clone()?, value)?;
    Ok(Some(copy))
}
