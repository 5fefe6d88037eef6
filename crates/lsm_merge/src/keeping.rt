//! Which versions of a merge are kept.

ghost use Rattle.std.specs.Prelude.{◌≡◌, ◌<◌, IfOk, OnOk, Option, length, filter, slice_index_or, reverse, is_none, not, ◌&&◌};
ghost use Rattle.std.specs.List.{list_any};
ghost use Rattle.lsm_codec.specs.Versions.{Version, AreOrdered};
ghost use Rattle.lsm_merge.specs.Keeping.{is_newest_at_a_cut, settled};
ghost use Rattle.lsm_merge.specs.Loops.{starts_with_key, settled_onto, number_before, previous, shows_at as is_shown_at, shown, KeepsOf};

use crate::order::{have_one_key, is_delete};
use lsm_codec::Entry;
use std::alloc::{AllocError, Allocator};

/// Whether a version of this number is the newest at a cut, where the next newer one of its key has the other number.
fn shows_at(cut: u64, number: u64, above: Option<u64>) -> bool
    ensures { result ≡ is_shown_at cut number above }
{
    match above {
        Some(above) => number <= cut && cut < above,
        None => number <= cut,
    }
}

/// Whether a version of this number is shown at one of the cuts.
fn is_shown(cuts: &[u64], number: u64, above: Option<u64>) -> bool
    ensures { result ≡ list_any (λ cut. is_shown_at cut number above) cuts.now }
{
    cuts.iter().any(|cut| shows_at(*cut, number, above))
}

/// The number of the version before a place, where it is of the same key.
fn number_before<A: Allocator>(versions: &[&Entry<A>], i: usize) -> Option<u64>
    requires { i < length versions.now }
    ensures { (d : Version) → result
        ≡ number_before (slice_index_or (shown versions.now) i d)
        (previous (shown versions.now) i d) }
{
    if i == 0 {
        return None;
    }
    let (entry, before) = (versions[i], versions[i - 1]);
    if !have_one_key(entry, before) {
        return None;
    }
    Some(before.number())
}

/// Whether the version at a place is the newest of its key at one of the cuts.
fn is_newest_at_a_cut<A: Allocator>(versions: &[&Entry<A>], i: usize, cuts: &[u64]) -> bool
    requires ordered { AreOrdered (shown versions.now) }
    requires within { i < length versions.now }
    ensures { (d : Version) → result
        ≡ is_newest_at_a_cut cuts.now (shown versions.now)
        (slice_index_or (shown versions.now) i d) }
{
    is_shown(cuts, versions[i].number(), number_before(versions, i))
}

/// The versions that are the newest of their key at one of the cuts.
pub(crate) fn newest_at_cuts<'a, A: Allocator>(
    alloc: A,
    versions: &[&'a Entry<A>],
    cuts: &[u64],
) -> Result<Vec<&'a Entry<A>, A>, AllocError>
    requires { AreOrdered (shown versions.now) }
    ensures { IfOk result (λ v. shown v.items
        ≡ filter (is_newest_at_a_cut cuts.now (shown versions.now)) (shown versions.now)) }
{
    let mut kept = Vec::with_capacity(alloc, versions.len())?;
    for i in 0..versions.len() {
        if is_newest_at_a_cut(versions, i, cuts) {
            kept.push(versions[i])?;
        }
    }
    Ok(kept)
}

/// Whether the last of these entries is of the key.
fn ends_with_key<A: Allocator>(entries: &[&Entry<A>], entry: &Entry<A>) -> bool
    ensures { result ≡ starts_with_key entry.now.key (reverse (shown entries.now)) }
{
    match entries.last() {
        Some(last) => have_one_key(last, entry),
        None => false,
    }
}

/// Whether it is a delete of a key that none of these later places has, the last of them being the next.
fn deletes_nothing<A: Allocator>(entry: &Entry<A>, later: &[&Entry<A>]) -> bool
    ensures { result
        ≡ (is_none entry.now.value
        && not (starts_with_key entry.now.key (reverse (shown later.now)))) }
{
    is_delete(entry) && !ends_with_key(later, entry)
}

/// Puts the entry among the later ones, the last of which is the next, unless it deletes nothing.
fn settle<'a, A: Allocator>(
    kept: &mut Vec<&'a Entry<A>, A>,
    entry: &'a Entry<A>,
) -> Result<(), AllocError>
    ensures { OnOk result (reverse (shown kept.new.items)
        ≡ settled_onto entry.now (reverse (shown kept.old.items))) }
{
    if deletes_nothing(entry, kept) {
        return Ok(());
    }
    kept.push(entry)?;
    Ok(())
}

/// The versions without the deletes that have no older put of their key, found from the back.
pub(crate) fn settled<'a, A: Allocator>(
    alloc: A,
    mut versions: Vec<&'a Entry<A>, A>,
) -> Result<Vec<&'a Entry<A>, A>, AllocError>
    requires { AreOrdered (shown versions.items) }
    ensures { IfOk result (λ v. shown v.items ≡ settled (shown versions.entry.items)) }
{
    let mut kept = Vec::new(alloc);
    while let Some(entry) = versions.pop() {
        settle(&mut kept, entry)?;
    }
    kept.reverse();
    Ok(kept)
}

/// What is kept of versions in order.
pub(crate) fn keep<'a, A: Allocator + Clone>(
    alloc: &A,
    entries: &[&'a Entry<A>],
    cuts: &[u64],
    bottom: bool,
) -> Result<Vec<&'a Entry<A>, A>, AllocError>
    requires { AreOrdered (shown entries.now) }
    ensures { IfOk result (λ v. KeepsOf cuts.now bottom (shown entries.now) (shown v.items)) }
{
    let newest = newest_at_cuts(alloc.clone()?, entries, cuts)?;
    if bottom {
        let kept = settled(alloc.clone()?, newest)?;
        return Ok(kept);
    }
    Ok(newest)
}

/// The entries that references show, which share their memory with these.
pub(crate) fn shared<A: Allocator>(
    alloc: A,
    entries: &[&Entry<A>],
) -> Result<Vec<Entry<A>, A>, AllocError>
    ensures { IfOk result (λ v. v.items ≡ shown entries.now) }
{
    let mut all = Vec::with_capacity(alloc, entries.len())?;
    for entry in entries {
        all.push(entry.share()?)?;
    }
    Ok(all)
}
