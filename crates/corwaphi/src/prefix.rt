//! The keys that begin with a prefix.

ghost use Rattle.std.specs.Prelude.{◌≡◌, ◌∷◌, ◌++◌, [], Some, IfOk, option_map};
ghost use Rattle.corwaphi.specs.Prefix.{behind_prefix};

use std::alloc::{AllocError, Global};

/// The least key after all keys that begin with a prefix; `None` where no key is after them, since the prefix has no byte but 255.
pub(crate) fn behind_prefix(alloc: Global, prefix: &[u8]) -> Result<Option<Vec<u8>>, AllocError>
    ensures { IfOk result (λ end. option_map (λ v. v.items) end ≡ behind_prefix prefix.now) }
{
    let Some((last, front)) = prefix.split_last() else {
        return Ok(None);
    };
    if *last < 255 {
        raised(alloc, front, *last + 1)
    } else {
        behind_prefix(alloc, front)
    }
}

// These bytes, and one more.
fn raised(alloc: Global, front: &[u8], last: u8) -> Result<Option<Vec<u8>>, AllocError>
    ensures { IfOk result (λ end. option_map (λ v. v.items) end ≡ Some (front.now ++ last ∷ [])) }
{
    let mut end = Vec::from_slice(alloc, front)?;
    end.push(last)?;
    Ok(Some(end))
}
