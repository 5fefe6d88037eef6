//! Gets and scans, whose answers are compared with what was put.

use crate::keys::{key_of, value_of};
use crate::sizes::PAGE_ROWS;
use lsm_device::{Device, Refusal};
use lsm_store::{At, Store};

/// More pages than are read one after another.
const MOST_PAGES: u32 = 1_000_000;

/// Which values are asked for.
#[derive(Clone, Copy)]
pub(crate) enum ReadPattern {
    /// Those of a round, in another order than that in which they were put.
    Put,
    /// Of every second key that of a round, and of the others none.
    Thinned,
    /// None, of keys after those that were put.
    Nothing,
}

/// Whether a get of a number's key finds the value of a round, or none where no round is given.
fn finds<D: Device>(store: &mut Store<D>, number: u32, round: Option<u8>) -> Result<bool, Refusal> {
    let key = key_of(number);
    match (store.get(At::Now, &key)?, round) {
        (Some(value), Some(round)) => Ok(value.as_slice() == value_of(&key, round).as_slice()),
        (None, None) => Ok(true),
        _ => Ok(false),
    }
}

/// How many of `count` gets are answered right.
pub(crate) fn count_right<D: Device>(
    store: &mut Store<D>,
    pattern: ReadPattern,
    count: u32,
    round: u8,
) -> Result<u32, Refusal> {
    let mut right = 0_u32;
    for place in 0..count {
        let (number, wanted) = match pattern {
            ReadPattern::Put => (place.wrapping_mul(7_919) % count.max(1), Some(round)),
            ReadPattern::Thinned if place % 2 == 0 => (place, None),
            ReadPattern::Thinned => (place, Some(round)),
            ReadPattern::Nothing => (count.wrapping_add(place), None),
        };
        if finds(store, number, wanted)? {
            right = right.wrapping_add(1);
        }
    }
    Ok(right)
}

/// Whether a value is that of a key in a round, by its beginning and its end.
fn is_value(value: &[u8], key: &[u8], round: u8) -> bool {
    value.len() == 100 && value.starts_with(key) && value[99] == round
}

/// Reads the page from a key on. Returns how many rows have the value of a round, and where the next page begins.
fn read_page<D: Device>(
    store: &mut Store<D>,
    from: &[u8; 16],
    round: u8,
) -> Result<(u32, Option<[u8; 16]>), Refusal> {
    let page = store.scan(At::Now, from, None, PAGE_ROWS)?;
    let mut right = 0_u32;
    for row in page.rows() {
        if is_value(row.value, row.key, round) {
            right = right.wrapping_add(1);
        }
    }
    match page.next_key() {
        Some(next) if next.len() == 16 => {
            let mut key = [0; 16];
            key.copy_from_slice(next);
            Ok((right, Some(key)))
        }
        _ => Ok((right, None)),
    }
}

/// Scans the whole map `times` times. Returns how many pages were read, and how many rows have the value of a round.
pub(crate) fn scan<D: Device>(
    store: &mut Store<D>,
    times: u32,
    round: u8,
) -> Result<(u32, u32), Refusal> {
    let mut from = [0; 16];
    let mut ends = 0_u32;
    let mut rows = 0_u32;
    for pages in 1..MOST_PAGES {
        let (right, next) = read_page(store, &from, round)?;
        rows = rows.wrapping_add(right);
        from = next.unwrap_or([0; 16]);
        ends = ends.wrapping_add(u32::from(next.is_none()));
        if ends >= times {
            return Ok((pages, rows));
        }
    }
    Err(Refusal::BadLimit)
}
