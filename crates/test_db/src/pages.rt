//! Rows of a range, page by page.

use crate::subject::{Subject, begun};
use corwaphi::Pages;
use lsm_device::{Device, MemDevice};
use lsm_store::{Page, RowRef};
use std::process::Abort;

fn is_row(row: Option<RowRef<'_>>, number: u8) -> bool {
    match row {
        Some(row) => row.key == [0x6b, number].as_slice()
            && row.value == [number, 0x76, number].as_slice(),
        None => false,
    }
}

/// Puts the row of a number: a key that is greater where the number is, and a value.
fn put_row<R: Abort>(rt: &R, db: &mut Subject<MemDevice>, number: u8) {
    db.put(&[0x6b, number], &[number, 0x76, number])
        .expect(rt, "a batch");
}

/// A store of 150 rows.
fn with_rows<R: AllocGlobal + Abort>(rt: &R) -> Subject<MemDevice> {
    let mut db = begun(rt);
    for number in 0..150_u8 {
        put_row(rt, &mut db, number);
    }
    db
}

/// How many rows a page has, none where these aren't the rows of the numbers from one on.
fn rows_from(page: &Page, first: u8) -> Option<usize> {
    let count = page.rows().len();
    let mut number = first;
    for place in 0..count {
        if !is_row(page.rows().get(place), number) {
            return None;
        }
        number = number.wrapping_add(1);
    }
    Some(count)
}

/// How many rows each of the next four pages has, which are those of the numbers from one on. None where there is no page, or
/// another row.
fn next_four<R: Abort, D: Device>(
    rt: &R,
    db: &mut Subject<D>,
    pages: &mut Pages,
    first: u8,
) -> [Option<usize>; 4] {
    let mut counts = [None; 4];
    let mut next = first;
    for count in counts.iter_mut() {
        if let Some(page) = db.next_page(rt, pages) {
            *count = rows_from(&page, next);
            next = next.wrapping_add(64);
        }
    }
    counts
}

#[test]
fn pages_give_their_rows(rt: HostRuntime) {
    let mut db = with_rows(&rt);
    let mut all = db.pages(&rt, b"", None);
    let mut some = db.pages(&rt, &[0x6b, 22], Some(&[0x6b, 90]));
    let counts = (
        next_four(&rt, &mut db, &mut all, 0),
        next_four(&rt, &mut db, &mut some, 22),
    );
    assert!(rt;
        counts.0 == [Some(64), Some(64), Some(22), None],
        "{counts:?}"
    );
    assert!(rt;
        counts.1 == [Some(64), Some(4), None, None] && db.page(&rt, &[0x6b, 140], None) == 10
    );
}

#[test]
fn pages_are_of_one_moment(rt: HostRuntime) {
    let mut db = with_rows(&rt);
    let mut pages = db.pages(&rt, b"", None);
    let first = db.next_page(&rt, &mut pages);
    db.delete(&[0x6b, 100]).expect(&rt, "a batch");
    put_row(&rt, &mut db, 150);
    let counts = next_four(&rt, &mut db, &mut pages, 64);
    assert!(rt; first.is_some() && counts == [Some(64), Some(22), None, None]);
}

/// Begins pages again and again, and ends them by the last one or before.
fn begin_often<R: Abort>(rt: &R, db: &mut Subject<MemDevice>, times: u8) {
    for number in 0..times {
        let mut pages = db.pages(rt, &[0x6b, 100], None);
        if number % 2 == 0 {
            let _page = db.next_page(rt, &mut pages);
        } else {
            db.end(pages);
        }
    }
}

// At most 32 snapshots live.
#[test]
fn pages_let_their_snapshot_go(rt: HostRuntime) {
    let mut db = with_rows(&rt);
    begin_often(&rt, &mut db, 100);
    assert!(rt; db.snapshot(&rt) == 101);
}
