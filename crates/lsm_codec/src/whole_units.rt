//! Texts in whole sectors or blocks.

ghost use Rattle.std.specs.Prelude.{◌≡◌, ◌≤◌, ◌-◌, ◌%◌, ◌++◌, ◌↔◌, IsTrue, OnOk, length, replicate};

use crate::lending::is_zero;
use std::alloc::{AllocError, Allocator};

/// Whether the bytes are the zeros that fill the last unit of a text of the size.
pub(crate) fn is_padding(bytes: &[u8], size: usize, unit: usize) -> bool
    requires { 1 ≤ unit }
    ensures { IsTrue result ↔ (bytes.now ≡ replicate ((unit - size % unit) % unit) 0) }
{
    bytes.len() == (unit - size % unit) % unit && is_zero(bytes)
}

/// Fills up the last unit with zeros.
pub(crate) fn put_padding<A: Allocator>(out: &mut Vec<u8, A>, unit: usize) -> Result<(), AllocError>
    requires low { 1 ≤ unit }
    requires high { unit ≤ 4096 }
    ensures { OnOk result (out.new.items
        ≡ out.old.items ++ replicate ((unit - length out.old.items % unit) % unit) 0) }
{
    let size = out.len();
    out.resize(size + (unit - size % unit) % unit, 0)?;
    Ok(())
}
