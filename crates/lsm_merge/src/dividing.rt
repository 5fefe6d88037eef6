//! The division of what a merge keeps at keys.

ghost use Rattle.std.specs.Prelude.{◌≡◌, IfOk, OnOk};
ghost use Rattle.lsm_codec.specs.Versions.{AreOrdered};
ghost use Rattle.lsm_table.specs.Division.{IsInput};
ghost use Rattle.lsm_merge.specs.Divisions.{AreTablesAt, before, from};

use crate::input::entries_until;
use lsm_codec::{Entry, Key};
use lsm_table::{Image, images};
use std::alloc::{AllocError, Allocator};

/// Takes the entries before a key from the others, of which those from the key on are left.
fn take_before<A: Allocator + Clone>(
    entries: &mut Vec<Entry<A>, A>,
    key: &[u8],
) -> Result<Vec<Entry<A>, A>, AllocError>
    requires { AreOrdered entries.old.items }
    ensures taken { IfOk result (λ v. v.items ≡ before key.now entries.old.items) }
    ensures left { OnOk result (entries.new.items ≡ from key.now entries.old.items) }
{
    let end = entries_until(entries, Some(key)).len();
    let rest = entries.split_off(end)?;
    Ok(std::mem::replace(entries, rest))
}

/// The tables of entries that are divided at keys: of those before the first key, of those from it to the next, and so on,
/// and of those from the last one on. A key that is not above the one before it divides nothing.
pub(crate) fn divided<A: Allocator + Clone>(
    alloc: &A,
    entries: Vec<Entry<A>, A>,
    divisions: &[Key<A>],
) -> Result<Vec<Image<A>, A>, AllocError>
    requires { IsInput entries.items }
    ensures { IfOk result (λ v. AreTablesAt divisions.now entries.items v.items) }
{
    let mut rest = entries;
    let mut all = Vec::new(alloc.clone()?);
    for key in divisions {
        let front = take_before(&mut rest, key.as_slice())?;
        all.append(&mut images(alloc.clone()?, front)?)?;
    }
    all.append(&mut images(alloc.clone()?, rest)?)?;
    Ok(all)
}
