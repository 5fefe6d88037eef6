//! Parts of a run, found by binary search.

ghost use Rattle.std.specs.Prelude.{◌≡◌, ◌≤◌, ◌<◌, ◌+◌, ◌-◌, ℕ, true, false, slice_index_or, ◌++◌, [], length, filter, take, drop, is_ok, if◌then◌else◌, option_map};
ghost use Rattle.std.specs.Vec.{vec_len};
ghost use Rattle.lsm_levels.specs.Tables.{IsRun, KeyRange, Table, at_most, hull, is_below, meets};

use crate::table::PlacedTable;
use std::alloc::{AllocError, Allocator};

/// How many tables of a run end before a key.
pub(crate) fn count_before<A: Allocator>(run: &[PlacedTable<A>], key: &[u8]) -> usize
    requires { IsRun run.now }
    ensures bound { result ≤ length run.now }
    ensures passed { take result run.now ≡ filter (λ t. is_below t.last key.now) run.now }
    ensures left { drop result run.now ≡ filter (λ t. at_most key.now t.last) run.now }
{
    run.partition_point(|t: &PlacedTable<A>| t.ends_before(key))
}

/// How many tables of a run begin at a key or before it.
pub(crate) fn count_up_to<A: Allocator>(run: &[PlacedTable<A>], key: &[u8]) -> usize
    requires { IsRun run.now }
    ensures bound { result ≤ length run.now }
    ensures passed { take result run.now ≡ filter (λ t. at_most t.first key.now) run.now }
    ensures left { drop result run.now ≡ filter (λ t. is_below key.now t.first) run.now }
{
    run.partition_point(|t: &PlacedTable<A>| t.begins_by(key))
}

/// Whether the table before a place ends before a key, if there is one.
fn is_passed<A: Allocator>(run: &[PlacedTable<A>], key: &[u8], place: usize) -> bool
    requires { place ≤ length run.now }
    ensures { result ≡ true → (d : Table) → 0 < place
        → is_below (slice_index_or run.now (place - 1) d).last key.now ≡ true }
{
    if place == 0 {
        return true;
    }
    run[place - 1].ends_before(key)
}

/// Whether the table at a place doesn't, if there is one.
fn is_left<A: Allocator>(run: &[PlacedTable<A>], key: &[u8], place: usize) -> bool
    ensures { result ≡ true → (d : Table) → place < length run.now
        → is_below (slice_index_or run.now place d).last key.now ≡ false }
{
    if place >= run.len() {
        return true;
    }
    !run[place].ends_before(key)
}

/// Whether the tables before a place end before a key, and the others don't.
fn is_place<A: Allocator>(run: &[PlacedTable<A>], key: &[u8], place: usize) -> bool
    requires { IsRun run.now }
    ensures bound { result ≡ true → place ≤ length run.now }
    ensures left { result ≡ true
        → drop place run.now ≡ filter (λ t. at_most key.now t.last) run.now }
{
    if place > run.len() {
        return false;
    }
    if !is_passed(run, key, place) {
        return false;
    }
    is_left(run, key, place)
}

/// The tables of a run that end at a key or after it, which are looked for at a guess first.
pub(crate) fn ending_from<'a, A: Allocator>(
    run: &'a [PlacedTable<A>],
    key: &[u8],
    guess: usize,
) -> &'a [PlacedTable<A>]
    requires { IsRun run.now }
    ensures { result.now ≡ filter (λ t. at_most key.now t.last) run.now }
{
    if is_place(run, key, guess) {
        return &run[guess..];
    }
    &run[count_before(run, key)..]
}

/// The tables of a run that meet the range from a key to another. Where the first of them is, is guessed.
pub(crate) fn meeting<'a, A: Allocator>(
    run: &'a [PlacedTable<A>],
    first: &[u8],
    last: &[u8],
    guess: usize,
) -> &'a [PlacedTable<A>]
    requires { IsRun run.now }
    ensures { result.now ≡ filter (meets (record { first = first.now; last = last.now })) run.now }
{
    let rest = ending_from(run, first, guess);
    &rest[..count_up_to(rest, last)]
}

/// The least and the greatest key of a run.
pub(crate) fn ends<A: Allocator>(run: &[PlacedTable<A>]) -> Option<(&[u8], &[u8])>
    requires { IsRun run.now }
    ensures { option_map (λ r. record { first = r.0.now; last = r.1.now }) result ≡ hull run.now }
{
    match run {
        [] => None,
        [table] => Some((table.first(), table.last())),
        [least, .., greatest] => Some((least.first(), greatest.last())),
    }
}

/// Rotates the tables from index `from` on left by `by` places.
fn rotate_from<A: Allocator>(tables: &mut [PlacedTable<A>], from: usize, by: usize)
    requires { from + by ≤ length tables.old }
    ensures { tables.new ≡ take from tables.old
        ++ (drop by (drop from tables.old) ++ take by (drop from tables.old)) }
{
    tables[from..].rotate_left(by);
}

/// Puts tables in the place of those from a start to an end. Where memory is refused, both are as they were.
pub(crate) fn splice<A: Allocator>(
    tables: &mut Vec<PlacedTable<A>, A>,
    start: usize,
    end: usize,
    new: &mut Vec<PlacedTable<A>, A>,
) -> Result<(), AllocError>
    requires order { start ≤ end }
    requires inside { end ≤ vec_len tables.old }
    ensures items { tables.new.items
        ≡ (if is_ok result then take start tables.old.items
        ++ (new.old.items ++ drop end tables.old.items) else tables.old.items) }
    ensures moved { new.new.items ≡ (if is_ok result then [] else new.old.items) }
{
    let rest = tables.len() - end;
    let gone = end - start;
    tables.append(new)?;
    rotate_from(tables, start, gone);
    tables.truncate(tables.len() - gone);
    rotate_from(tables, start, rest);
    Ok(())
}

/// Removes the tables from a start to an end. It takes no memory.
pub(crate) fn cut<A: Allocator>(tables: &mut Vec<PlacedTable<A>, A>, start: usize, end: usize)
    requires order { start ≤ end }
    requires inside { end ≤ vec_len tables.old }
    ensures { tables.new.items ≡ take start tables.old.items ++ drop end tables.old.items }
{
    let gone = end - start;
    rotate_from(tables, start, gone);
    tables.truncate(tables.len() - gone);
}
