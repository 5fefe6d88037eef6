//! The input of a merge.

ghost use Rattle.std.specs.Prelude.{◌≡◌, ◌↔◌, IsTrue, filter};
ghost use Rattle.lsm_merge.specs.Inputs.{MergeInput, IsMergeInput, IsCuts, AreRuns, items_of};
ghost use Rattle.lsm_merge.specs.Ranges.{shown_key, is_from, is_until, within};
ghost use Rattle.lsm_codec.specs.Versions.{AreOrdered};

use crate::comparing::{are_same_counts, are_same_flags, are_same_runs};
use lsm_codec::Entry;
use std::alloc::{Allocator, Global};
use std::cmp::Ordering;
use std::marker::Model;

/// What is to be merged: runs, the newer first, each in the order of entries with no key and number twice; the cuts, 1 to
/// 33 ascending counts at which the map is kept; and whether nothing older is below. Contracts see these three.
#[derive(Drop)]
pub struct Input<A: Allocator = Global> {
    runs: Vec<Vec<Entry<A>, A>, A>,
    cuts: Vec<u64, A>,
    bottom: bool,
}

impl<A: Allocator> Model for Input<A> {
    ghost use Rattle.lsm_merge.specs.Inputs.{MergeInput, IsMergeInput, items_of};

    ghost Value = { MergeInput };

    ghost view = { λ i. record { runs = items_of i.runs.items; cuts = i.cuts.items; bottom = i.bottom } };

    ghost invariant = { λ i. IsMergeInput (record { runs = items_of i.runs.items; cuts = i.cuts.items; bottom = i.bottom }) };
}

impl<A: Allocator> Input<A> {
    /// An input of runs, the newer first, cuts and bottom flag. Each run is in the order of entries, with no key and number
    /// twice, and there are 1 to 33 cuts, which ascend.
    pub fn new(runs: Vec<Vec<Entry<A>, A>, A>, cuts: Vec<u64, A>, bottom: bool) -> Input<A>
        requires runs { AreRuns (items_of runs.items) }
        requires cuts { IsCuts cuts.items }
        ensures { result ≡ record
            { runs = items_of runs.items; cuts = cuts.items; bottom = bottom } }
    {
        Input { runs, cuts, bottom }
    }

    /// The runs, the cuts and the flag that it was made of. It takes no memory.
    pub fn into_parts(self) -> (Vec<Vec<Entry<A>, A>, A>, Vec<u64, A>, bool)
        ensures same { self ≡ record {
          runs = items_of result.0.items;
          cuts = result.1.items;
          bottom = result.2;
        } }
        ensures limits { IsMergeInput self }
    {
        (self.runs, self.cuts, self.bottom)
    }

    /// The runs, the newer first.
    pub(crate) fn runs(&self) -> &[Vec<Entry<A>, A>]
        ensures same { items_of result.now ≡ self.now.runs }
        ensures ordered { AreRuns self.now.runs }
    {
        &self.runs
    }

    /// The counts at which the map is kept.
    pub(crate) fn cuts(&self) -> &[u64]
        ensures same { result.now ≡ self.now.cuts }
        ensures limits { IsCuts self.now.cuts }
    {
        &self.cuts
    }

    /// Whether nothing older is below.
    pub(crate) fn is_bottom(&self) -> bool
        ensures { result ≡ self.now.bottom }
    {
        self.bottom
    }

    /// Whether both have the same entries, cuts and flag.
    pub fn is_same(&self, other: &Input<A>) -> bool
        ensures { IsTrue result ↔ (self.now ≡ other.now) }
    {
        if !are_same_flags(self.bottom, other.bottom) {
            return false;
        }
        if !are_same_counts(&self.cuts, &other.cuts) {
            return false;
        }
        are_same_runs(&self.runs, &other.runs)
    }
}

/// Whether a key isn't before the beginning of a range.
fn is_from(from: Option<&[u8]>, key: &[u8]) -> bool
    ensures { result ≡ is_from (shown_key from.entry) key.now }
{
    let Some(from) = from else {
        return true;
    };
    match from.cmp(key) {
        Ordering::Less => true,
        Ordering::Equal => true,
        Ordering::Greater => false,
    }
}

/// Whether a key is before the end of a range.
fn is_until(to: Option<&[u8]>, key: &[u8]) -> bool
    ensures { result ≡ is_until (shown_key to.entry) key.now }
{
    let Some(to) = to else {
        return true;
    };
    match key.cmp(to) {
        Ordering::Less => true,
        Ordering::Equal => false,
        Ordering::Greater => false,
    }
}

/// The entries from a key on.
fn entries_from<'e, A: Allocator>(entries: &'e [Entry<A>], from: Option<&[u8]>) -> &'e [Entry<A>]
    requires { AreOrdered entries.now }
    ensures { result.now ≡ filter (λ v. is_from (shown_key from.entry) v.key) entries.now }
{
    let start = entries.partition_point(|entry| !is_from(from, entry.key()));
    &entries[start..]
}

/// The entries until a key.
pub(crate) fn entries_until<'e, A: Allocator>(
    entries: &'e [Entry<A>],
    to: Option<&[u8]>,
) -> &'e [Entry<A>]
    requires { AreOrdered entries.now }
    ensures { result.now ≡ filter (λ v. is_until (shown_key to.entry) v.key) entries.now }
{
    let end = entries.partition_point(|entry| is_until(to, entry.key()));
    &entries[..end]
}

/// The entries of a run with keys in a range.
pub(crate) fn within<'e, A: Allocator>(
    run: &'e [Entry<A>],
    from: Option<&[u8]>,
    to: Option<&[u8]>,
) -> &'e [Entry<A>]
    requires { AreOrdered run.now }
    ensures { result.now ≡ within (shown_key from.entry) (shown_key to.entry) run.now }
{
    entries_until(entries_from(run, from), to)
}
