// Whether what a crash left is opened as one of the maps that may be left.
ghost use Rattle.std.specs.Prelude.{◌≡◌, ◌⊎◌, ◌≤◌, ◌-◌, ◌↔◌, IsTrue, ℕ, List, [], None, Some, IsNone, IfOk, IfErr, Ok, Err, option_map, slice_get, length, true};
ghost use Rattle.lsm_codec.specs.Map.{Operation};
ghost use Rattle.lsm_device.specs.declared.refusal.Refusal.TheVariants.{NoMemory, Io};
ghost use Rattle.lsm_mem.specs.Paging.{pairs_in};
ghost use Rattle.lsm_mem.specs.Rows.{shown_row};
ghost use Rattle.lsm_store.specs.Backing.{IsBacked};
ghost use Rattle.lsm_machine.specs.RecoveryPoints.{present_map};
ghost use Rattle.lsm_explore.specs.Expected.{AreExpected, IsFound, MayBeLeft};
ghost use Rattle.lsm_explore.specs.Plain.{rows_of};

use crate::expected::Expected;
use lsm_device::{Device, Refusal};
use lsm_image::Image;
use lsm_lives::open;
use lsm_store::{At, Page, RowRef, Store};
use std::alloc::Allocator;

/// The most rows of a page.
const ROWS: u64 = 64;

// Whether two rows are the same.
fn is_same(row: RowRef<'_>, other: RowRef<'_>) -> bool
    ensures { IsTrue result ↔ (shown_row row.entry ≡ shown_row other.entry) }
{
    row.key == other.key && row.value == other.value
}

// Whether the rows of a page are just these.
fn has_rows<A: Allocator>(page: &Page<A>, rows: &[RowRef<'_>]) -> bool
    ensures { IsTrue result ↔ (rows_of rows.now ≡ page.now.rows) }
{
    if page.rows().len() != rows.len() {
        return false;
    }
    for (i, row) in rows.iter().enumerate() {
        match page.rows().get(i) {
            Some(other) if is_same(*row, other) => (),
            _ => return false,
        }
    }
    true
}

/// Whether the pairs of a store's map from a key on are just these rows. It scans them page by page.
fn has_map<D: Device, A: Allocator + Clone>(
    store: &mut Store<D, A>,
    from: &[u8],
    rows: &[RowRef<'_>],
) -> Result<bool, Refusal>
    requires backed { IsBacked store.old }
    requires runs { IsNone store.old.state.stopped }
    ensures same { IfOk result
        (λ same. IsTrue same
        ↔ (rows_of rows.now ≡ pairs_in (present_map store.old.state.points) from.now None)) }
    ensures refused { IfErr result (λ e. (e ≡ NoMemory) ⊎ (e ≡ Io)) }
{
    let page = store.scan(At::Now, from, None, ROWS)?;
    let count = page.rows().len();
    if count > rows.len() {
        return Ok(false);
    }
    if !has_rows(&page, &rows[..count]) {
        return Ok(false);
    }
    let rest = &rows[count..];
    match page.next_key() {
        Some(key) => {
            if count == 0 {
                return Ok(false);
            }
            let same = has_map(store, key, rest)?;
            Ok(same)
        }
        None => Ok(rest.is_empty()),
    }
}

// Whether a store has one of the maps, after as many batches as it tells.
fn has_one<D: Device, A: Allocator + Clone>(
    store: &mut Store<D, A>,
    expected: &Expected<'_, A>,
) -> Result<bool, Refusal>
    requires found { (least : ℕ) × (batches : List (List Operation))
        × AreExpected least batches expected.now × IsFound least batches store.old }
    ensures same { IfOk result (λ same. same ≡ true) }
    ensures refused { IfErr result (λ e. (e ≡ NoMemory) ⊎ (e ≡ Io)) }
{
    let Some(place) = store.batch_count().checked_sub(expected.least as u64) else {
        return Ok(false);
    };
    match expected.maps.get(place as usize) {
        Some(rows) => {
            let same = has_map(store, &[], rows)?;
            Ok(same)
        }
        None => Ok(false),
    }
}

// What is answered of a refusal. That of the want of memory ends the exploration, and so does that of a fault, which is a write
// for which there was no memory where no fuse is set. No other may be.
fn judged(refusal: Refusal) -> Result<bool, Refusal>
    ensures wanting { (refusal ≡ NoMemory) ⊎ (refusal ≡ Io) → result ≡ Err NoMemory }
    ensures refused { IfErr result (λ e. e ≡ NoMemory) }
{
    match refusal {
        Refusal::NoMemory | Refusal::Io => Err(Refusal::NoMemory),
        _ => Ok(false),
    }
}

// Whether a store that was opened has one of the maps.
fn has_expected<D: Device + Drop, A: Allocator + Clone>(
    store: Store<D, A>,
    expected: &Expected<'_, A>,
) -> Result<bool, Refusal>
    requires found { (least : ℕ) × (batches : List (List Operation))
        × AreExpected least batches expected.now × IsFound least batches store }
    ensures same { IfOk result (λ same. same ≡ true) }
    ensures refused { IfErr result (λ e. e ≡ NoMemory) }
{
    let mut store = store;
    match has_one(&mut store, expected) {
        Ok(same) => Ok(same),
        Err(refusal) => judged(refusal),
    }
}

/// Opens what a crash left, scans its whole map, and tells whether that is one that may be left.
pub(crate) fn is_expected<A: Allocator + Clone>(
    alloc: &A,
    left: &Image<'_, A>,
    expected: &Expected<'_, A>,
) -> Result<bool, Refusal>
    requires may { (least : ℕ) × (batches : List (List Operation))
        × AreExpected least batches expected.now × MayBeLeft 0 least batches left.now }
    ensures right { IfOk result (λ right. right ≡ true) }
    ensures refused { IfErr result (λ e. e ≡ NoMemory) }
{
    let device = left.device(alloc.clone()?, None)?;
    match open(alloc, device) {
        Ok(store) => {
            let right = has_expected(store, expected)?;
            Ok(right)
        }
        Err((refusal, _)) => {
            let right = judged(refusal)?;
            Ok(right)
        }
    }
}
