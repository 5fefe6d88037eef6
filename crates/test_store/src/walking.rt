//! Walks over the rows of a store, page by page.

use crate::subject::{Subject, begun};
use lsm_store::{At, Page, RowRef};
use lsm_upkeep::Walk;
use std::alloc::Global;
use std::process::Abort;

/// Puts the row of a number: a key that is greater where the number is, and a value.
fn put_row<R: Abort>(rt: &R, store: &mut Subject, number: u8) {
    store
        .put(rt, &[0x6b, number], &[number, 0x76, number])
        .expect(rt, "a batch");
}

fn is_row(row: Option<RowRef<'_>>, number: u8) -> bool {
    match row {
        Some(row) => row.key == [0x6b, number].as_slice()
            && row.value == [number, 0x76, number].as_slice(),
        None => false,
    }
}

/// A store of 150 rows, of which every second one is in a table, and the others are in memory.
fn with_rows<R: Abort>(rt: &R, alloc: Global) -> Subject {
    let mut store = begun(rt, alloc);
    for half in 0..75_u8 {
        put_row(rt, &mut store, 2 * half);
    }
    store.rotate(rt);
    store.settle();
    for half in 0..75_u8 {
        put_row(rt, &mut store, 2 * half + 1);
    }
    store
}

/// How many rows a page has, none where these aren't the rows of the numbers from one on.
fn rows_from(page: &Page, first: u8) -> Option<usize> {
    let count = page.rows().len();
    let mut number = first;
    for place in 0..count {
        if !is_row(page.rows().get(place), number) {
            return None;
        }
        number = number.wrapping_add(1);
    }
    Some(count)
}

/// How many rows each of the next four pages has, which are those of the numbers from one on. None where there is no page, or
/// another row.
fn pages<R: Abort>(rt: &R, store: &mut Subject, walk: &mut Walk, first: u8) -> [Option<usize>; 4] {
    let mut counts = [None; 4];
    let mut next = first;
    for count in counts.iter_mut() {
        if let Some(page) = store.next_page(rt, walk) {
            *count = rows_from(&page, next);
            next = next.wrapping_add(64);
        }
    }
    counts
}

/// The pages of a walk over the present map, from a key on.
fn walked<R: Abort>(rt: &R, store: &mut Subject, from: &[u8], first: u8) -> [Option<usize>; 4] {
    let mut walk = store.walk(rt, At::Now, from);
    pages(rt, store, &mut walk, first)
}

/// Keys with which walks begin, the number of the first row from there on, and how many rows each page has. The last page is told
/// before the end, where it is full too, and where it has no row.
const WALKS: &[(&[u8], u8, [Option<usize>; 4])] = &[
    (b"", 0, [Some(64), Some(64), Some(22), None]),
    (&[0x6b, 0], 0, [Some(64), Some(64), Some(22), None]),
    (&[0x6b, 22], 22, [Some(64), Some(64), None, None]),
    (&[0x6b, 99, 0], 100, [Some(50), None, None, None]),
    (&[0x6b, 149], 149, [Some(1), None, None, None]),
    (&[0x6b, 150], 150, [Some(0), None, None, None]),
];

#[test]
fn a_walk_gives_all_rows_from_a_key_on(rt: HostRuntime) {
    let mut store = with_rows(&rt, rt.alloc());
    for &(from, first, wanted) in WALKS {
        let counts = walked(&rt, &mut store, from, first);
        assert!(rt; counts == wanted, "{first}: {counts:?}");
    }
}

#[test]
fn a_walk_over_a_snapshot_sees_one_map(rt: HostRuntime) {
    let mut store = with_rows(&rt, rt.alloc());
    let before = store.snapshot(&rt);
    let mut walk = store.walk(&rt, before, b"");
    let first = store.next_page(&rt, &mut walk);
    // A row is deleted, and one put behind all.
    store.delete(&rt, &[0x6b, 100]).expect(&rt, "a batch");
    put_row(&rt, &mut store, 150);
    let counts = pages(&rt, &mut store, &mut walk, 64);
    assert!(rt; first.is_some() && counts == [Some(64), Some(22), None, None]);
    // In the present map the rows from there on are those of the numbers from 101 to 150.
    assert!(rt; walked(&rt, &mut store, &[0x6b, 100], 101) == [Some(50), None, None, None]);
}
