// One table is checked.
ghost use Rattle.std.specs.Prelude.{◌≡◌, ◌≤◌, ◌<◌, ◌+◌, ◌*◌, ◌^◌, ◌++◌, List, length, nat_le, true, IsTrue, ◌↔◌, IfErr, OnOk, MatchResult};
ghost use Rattle.std.specs.List.{list_all};
ghost use Rattle.std.specs.Ordering.{is_lt};
ghost use Rattle.lsm_codec.specs.Versions.{Version, AreOrdered, one_if_none, deletes_in, entry_order};
ghost use Rattle.lsm_device.specs.Disk.{seen};
ghost use Rattle.lsm_device.specs.Medium.{disk};
ghost use Rattle.lsm_filter.specs.Bits.{is_perhaps};
ghost use Rattle.lsm_levels.specs.Orders.{IsNewerPlace};
ghost use Rattle.lsm_levels.specs.Stored.{LiesWithin};
ghost use Rattle.lsm_open.specs.ReadParts.{ReadsAtMost};
ghost use Rattle.lsm_check.specs.Counted.{ReadsBetween};
ghost use Rattle.lsm_check.specs.Found.{IsOfTable};
ghost use Rattle.lsm_check.specs.Images.{IsNoVerdict, is_faultless};
ghost use Rattle.lsm_check.specs.Seen.{IsSeen};
ghost use Rattle.lsm_check.specs.Sound.{tells_entries, Fits, IsTold, IsSound};

use crate::entries::entries_of;
use crate::finding::Finding;
use crate::seen::Seen;
use lsm_codec::Entry;
use lsm_device::Device;
use lsm_levels::PlacedTable;
use lsm_table::Table;
use std::alloc::Allocator;
use std::cmp::Ordering;

// 1 where an entry is a delete.
fn one_if_delete<A: Allocator>(entry: &Entry<A>) -> usize
    ensures count { result ≡ one_if_none entry.now.value }
    ensures few { result ≤ 1 }
{
    match entry.value() {
        Some(_value) => 0,
        None => 1,
    }
}

// How many of these entries are deletes.
fn deletes_in<A: Allocator>(entries: &[Entry<A>]) -> usize
    ensures { result ≡ deletes_in entries.now }
{
    let mut deletes = 0;
    for entry in entries {
        deletes += one_if_delete(entry);
    }
    deletes
}

// Whether a table's footer tells the count of these entries and their first key, and its record how many of them are deletes.
fn tells_entries<A: Allocator>(table: &PlacedTable<A>, entries: &[Entry<A>]) -> bool
    ensures told { result ≡ tells_entries table.now entries.now }
    ensures few { IsTrue result → length entries.now ≤ 3200 }
{
    let outline = table.table();
    let count = outline.entries() as usize;
    match entries.first() {
        Some(first) => {
            count == entries.len()
                && (outline.first().cmp(first.key()).is_eq()
                    && table.deletes() as usize == deletes_in(entries))
        }
        None => false,
    }
}

// Whether an entry comes before another.
fn is_before<A: Allocator>(entry: &Entry<A>, next: &Entry<A>) -> bool
    ensures { result ≡ is_lt (entry_order entry.now next.now) }
{
    match entry.key().cmp(next.key()) {
        Ordering::Less => true,
        Ordering::Equal => entry.number() > next.number(),
        Ordering::Greater => false,
    }
}

// Whether entries are in order.
fn are_ordered<A: Allocator>(entries: &[Entry<A>]) -> bool
    ensures { IsTrue result ↔ AreOrdered entries.now }
{
    for place in 1..entries.len() {
        if !is_before(&entries[place - 1], &entries[place]) {
            return false;
        }
    }
    true
}

// Whether a table's filter has each key of these entries.
fn has_keys<A: Allocator>(table: &Table<A>, entries: &[Entry<A>]) -> bool
    ensures { result ≡ list_all (λ v. is_perhaps table.now.filter v.key) entries.now }
{
    entries.iter().all(|entry| table.perhaps(entry.key()))
}

// Whether entries are of batches up to a number.
fn are_numbered<A: Allocator>(entries: &[Entry<A>], base: u64) -> bool
    ensures { result ≡ list_all (λ v. nat_le v.number base) entries.now }
{
    entries.iter().all(|entry| entry.number() <= base)
}

// Tests the entries of a table that comes after those seen so far.
fn test<A: Allocator>(
    table: &PlacedTable<A>,
    entries: &[Entry<A>],
    base: u64,
    so_far: &Seen<A>,
) -> Result<(), Finding>
    ensures fits { (versions : List Version) → IsSeen versions so_far.now → MatchResult result
        (λ _. Fits table.now base versions entries.now)
        (λ _. ¬ Fits table.now base versions entries.now) }
    ensures few { OnOk result (length entries.now ≤ 3200) }
    ensures refused { IfErr result (IsOfTable table.now.number) }
    ensures no_fault { is_faultless result ≡ true }
{
    let number = table.number();
    if !tells_entries(table, entries) {
        return Err(Finding::Entries(number));
    }
    if !are_ordered(entries) {
        return Err(Finding::Order(number));
    }
    if !has_keys(table.table(), entries) {
        return Err(Finding::Filter(number));
    }
    if !are_numbered(entries, base) || !so_far.are_older(entries) {
        return Err(Finding::Versions(number));
    }
    Ok(())
}

/// Checks a table after those seen so far, the newer places first, and counts it as seen then. It holds the entries of this
/// table, and no other's.
pub(crate) fn check_table<D: Device, A: Allocator + Clone>(
    alloc: &A,
    device: &mut D,
    area: u32,
    table: &PlacedTable<A>,
    base: u64,
    so_far: &mut Seen<A>,
) -> Result<(), Finding>
    requires within { LiesWithin (D.medium device.old).size area table.now }
    requires few { so_far.old.entries + 3200 < 2 ^ 64 }
    ensures sound { (versions : List Version) → IsSeen versions so_far.old
        → IsTrue (D.medium device.old).lasting.tells
        → IsTold (seen (disk (D.medium device.old))) area table.now → OnOk result
        (IsSound (seen (disk (D.medium device.old))) area base table.now
        × IsNewerPlace versions table.now.versions
        × IsSeen (versions ++ table.now.versions) so_far.new) }
    ensures fair { (versions : List Version) → IsSeen versions so_far.old
        → IsTrue (D.medium device.old).lasting.tells
        → IsSound (seen (disk (D.medium device.old))) area base table.now
        → IsNewerPlace versions table.now.versions → IfErr result IsNoVerdict }
    ensures few { OnOk result (so_far.new.entries ≤ so_far.old.entries + 3200) }
    ensures refused { IfErr result (IsOfTable table.now.number) }
    ensures device { ReadsAtMost 512 (is_faultless result) (D.medium device.old)
        (D.medium device.new) }
    ensures whole { OnOk result
        (ReadsBetween (8 * length table.now.outline.edges) 512 (D.medium device.old).calls
        (D.medium device.new).calls) }
{
    let entries = entries_of(alloc, device, area, table)?;
    test(table, &entries, base, so_far)?;
    so_far.take_in_all(alloc, &entries)?;
    Ok(())
}
