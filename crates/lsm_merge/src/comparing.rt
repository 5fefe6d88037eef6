//! Whether two inputs are the same.

ghost use Rattle.std.specs.Prelude.{◌≡◌, IsTrue, ◌↔◌, option_map};
ghost use Rattle.lsm_merge.specs.Inputs.{items_of};

use byteorder::{BigEndian, ByteOrder};
use lsm_codec::Entry;
use std::alloc::Allocator;

/// Whether both flags are set, or neither is.
pub(crate) fn are_same_flags(flag: bool, other: bool) -> bool
    ensures { IsTrue result ↔ (flag ≡ other) }
{
    flag == other
}

/// Whether these are the same bytes, which are compared eight at a time.
fn are_same_bytes(bytes: &[u8], others: &[u8]) -> bool
    ensures { IsTrue result ↔ (bytes.now ≡ others.now) }
{
    if bytes.len() != others.len() {
        return false;
    }
    let words = bytes.len() / 8;
    for i in 0..words {
        if BigEndian::read_u64(&bytes[8 * i..]) != BigEndian::read_u64(&others[8 * i..]) {
            return false;
        }
    }
    bytes[8 * words..].cmp(&others[8 * words..]).is_eq()
}

/// Whether both are `None`, or the same bytes.
fn are_same_values(value: Option<&[u8]>, other: Option<&[u8]>) -> bool
    ensures { IsTrue result
        ↔ (option_map (λ v. v.now) value.entry ≡ option_map (λ v. v.now) other.entry) }
{
    match (value, other) {
        (Some(value), Some(other)) => are_same_bytes(value, other),
        (None, None) => true,
        _ => false,
    }
}

/// Whether both have the same key, number and value.
fn are_same<A: Allocator>(entry: &Entry<A>, other: &Entry<A>) -> bool
    ensures { IsTrue result ↔ (entry.now ≡ other.now) }
{
    if entry.number() != other.number() {
        return false;
    }
    if !are_same_bytes(entry.key(), other.key()) {
        return false;
    }
    are_same_values(entry.value(), other.value())
}

/// Whether these are the same entries.
fn are_same_entries<A: Allocator>(entries: &[Entry<A>], others: &[Entry<A>]) -> bool
    ensures { IsTrue result ↔ (entries.now ≡ others.now) }
{
    if entries.len() != others.len() {
        return false;
    }
    for i in 0..entries.len() {
        if !are_same(&entries[i], &others[i]) {
            return false;
        }
    }
    true
}

/// Whether these are runs of the same entries.
pub(crate) fn are_same_runs<A: Allocator>(
    runs: &[Vec<Entry<A>, A>],
    others: &[Vec<Entry<A>, A>],
) -> bool
    ensures { IsTrue result ↔ (items_of runs.now ≡ items_of others.now) }
{
    if runs.len() != others.len() {
        return false;
    }
    for i in 0..runs.len() {
        if !are_same_entries(&runs[i], &others[i]) {
            return false;
        }
    }
    true
}

/// Whether these are the same counts.
pub(crate) fn are_same_counts(counts: &[u64], others: &[u64]) -> bool
    ensures { IsTrue result ↔ (counts.now ≡ others.now) }
{
    counts.cmp(others).is_eq()
}
