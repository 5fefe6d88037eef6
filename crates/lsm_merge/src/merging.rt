//! Runs merged in order.

ghost use Rattle.std.specs.Prelude.{◌≡◌, ◌<◌, IfOk, length};
ghost use Rattle.lsm_codec.specs.Versions.{AreOrdered};
ghost use Rattle.lsm_merge.specs.Keeping.{all_placed};
ghost use Rattle.lsm_merge.specs.Loops.{shown, TakesFirst};

use crate::order::compare;
use lsm_codec::Entry;
use std::alloc::{AllocError, Allocator};
use std::cmp::Ordering;

/// The first entry of both lists, of two with one key and number the left one, and how many it takes of each list.
fn first_of<'a, A: Allocator>(
    left: &[&'a Entry<A>],
    right: &[&'a Entry<A>],
) -> (&'a Entry<A>, usize, usize)
    requires left_ordered { AreOrdered (shown left.now) }
    requires right_ordered { AreOrdered (shown right.now) }
    requires left_has_one { 0 < length left.now }
    requires right_has_one { 0 < length right.now }
    ensures { TakesFirst left.now right.now result.0.now result.1 result.2 }
{
    let (x, y) = (left[0], right[0]);
    match compare(x, y) {
        Ordering::Less => (x, 1, 0),
        Ordering::Equal => (x, 1, 1),
        Ordering::Greater => (y, 0, 1),
    }
}

/// The entries of both lists, in order; of two with one key and number the left one.
pub(crate) fn merge_two<'a, A: Allocator>(
    alloc: A,
    left: &[&'a Entry<A>],
    right: &[&'a Entry<A>],
) -> Result<Vec<&'a Entry<A>, A>, AllocError>
    requires left_ordered { AreOrdered (shown left.now) }
    requires right_ordered { AreOrdered (shown right.now) }
    ensures { IfOk result (λ v. shown v.items ≡ all_placed (shown left.now) (shown right.now)) }
{
    let (mut i, mut j) = (0, 0);
    let mut both = Vec::new(alloc);
    while i < left.len() && j < right.len() {
        let (first, from_left, from_right) = first_of(&left[i..], &right[j..]);
        both.push(first)?;
        i += from_left;
        j += from_right;
    }
    both.extend_from_slice(&left[i..])?;
    both.extend_from_slice(&right[j..])?;
    Ok(both)
}

/// References to the entries.
pub(crate) fn referred<A: Allocator>(
    alloc: A,
    entries: &[Entry<A>],
) -> Result<Vec<&Entry<A>, A>, AllocError>
    ensures { IfOk result (λ v. shown v.items ≡ entries.now) }
{
    let mut all = Vec::with_capacity(alloc, entries.len())?;
    for entry in entries {
        all.push(entry)?;
    }
    Ok(all)
}
