//! Entries to divide.

ghost use Rattle.std.specs.Prelude.{IsTrue};
ghost use Rattle.lsm_table.specs.Division.{IsInput};

use lsm_codec::{Entry, VersionRef};
use lsm_table::{Image, images};
use std::alloc::{AllocError, Allocator};

/// The entry of batch 1, or none where it is outside the limits.
pub fn entry<A: Allocator + Clone>(
    alloc: A,
    key: &[u8],
    value: Option<&[u8]>,
) -> Result<Option<Entry<A>>, AllocError> {
    let is_fitting = (1..=255).contains(&key.len())
        && value.is_none_or(|value| value.len() <= 2_048);
    if !is_fitting {
        return Ok(None);
    }
    let version = VersionRef {
        key,
        number: 1,
        value,
    };
    Ok(Some(Entry::from_ref(alloc, version)?))
}

/// Whether the entries are one version each of keys that rise.
fn are_input<A: Allocator>(entries: &[Entry<A>]) -> bool
    ensures { IsTrue result → IsInput entries.now }
{
    for i in 1..entries.len() {
        if !entries[i - 1].key().cmp(entries[i].key()).is_lt() {
            return false;
        }
    }
    true
}

/// The images of the entries, none where their keys don't rise.
pub fn images_of<A: Allocator + Clone>(
    alloc: A,
    entries: Vec<Entry<A>, A>,
) -> Result<Vec<Image<A>, A>, AllocError> {
    if !are_input(&entries) {
        return Ok(Vec::new(alloc));
    }
    images(alloc, entries)
}

/// The images of puts of one value under these keys.
pub fn images_of_puts<A: Allocator + Clone>(
    alloc: A,
    keys: &[&[u8]],
    value: &[u8],
) -> Result<Vec<Image<A>, A>, AllocError> {
    let mut entries = Vec::new(alloc.clone()?);
    for key in keys {
        if let Some(entry) = entry(alloc.clone()?, key, Some(value))? {
            entries.push(entry)?;
        }
    }
    images_of(alloc, entries)
}
