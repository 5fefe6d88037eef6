//! The order of entries.

ghost use Rattle.std.specs.Prelude.{◌≡◌, is_none};
ghost use Rattle.lsm_codec.specs.Versions.{entry_order, is_same_key};

use lsm_codec::Entry;
use std::alloc::Allocator;
use std::cmp::Ordering;

/// Whether both are of one key.
pub(crate) fn have_one_key<A: Allocator>(entry: &Entry<A>, other: &Entry<A>) -> bool
    ensures { result ≡ is_same_key entry.now.key other.now.key }
{
    entry.key().cmp(other.key()).is_eq()
}

/// The place of an entry before or after another: by key, and then the newer first.
pub(crate) fn compare<A: Allocator>(entry: &Entry<A>, other: &Entry<A>) -> Ordering
    ensures { result ≡ entry_order entry.now other.now }
{
    match entry.key().cmp(other.key()) {
        Ordering::Equal => other.number().cmp(&entry.number()),
        unequal => unequal,
    }
}

/// Whether the entry deletes its key.
pub(crate) fn is_delete<A: Allocator>(entry: &Entry<A>) -> bool
    ensures { result ≡ is_none entry.now.value }
{
    entry.value().is_none()
}
