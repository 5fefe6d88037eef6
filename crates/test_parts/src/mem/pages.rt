//! Pages of versions that come from many places.

use lsm_codec::VersionRef;
use lsm_mem::{Page, PageBuilder};
use std::alloc::Global;
use std::process::Abort;

fn put<'v>(key: &'v [u8], number: u64, value: &'v [u8]) -> VersionRef<'v> {
    VersionRef {
        key,
        number,
        value: Some(value),
    }
}

fn delete(key: &[u8], number: u64) -> VersionRef<'_> {
    VersionRef {
        key,
        number,
        value: None,
    }
}

/// The versions of five keys in the order of entries: `a` and `c` are put twice, `b` is put and deleted, `d` and `e` are put
/// once.
fn versions() -> [VersionRef<'static>; 9] {
    [
        put(b"a", 5, b"5"),
        put(b"a", 2, b"2"),
        delete(b"b", 4),
        put(b"b", 3, b"3"),
        put(b"b", 1, b"1"),
        put(b"c", 9, b"9"),
        put(b"c", 3, b"3"),
        put(b"d", 2, b"2"),
        put(b"e", 1, b"1"),
    ]
}

/// The page of the first so many versions.
fn page_of<R: Abort>(
    rt: &R,
    alloc: Global,
    count: usize,
    to: Option<&[u8]>,
    (at, limit): (u64, u64),
) -> Page {
    let mut builder = PageBuilder::new(&alloc, to, at, limit).expect(rt, "memory");
    for version in versions().into_iter().take(count) {
        if !builder.take(&alloc, version).expect(rt, "memory") {
            break;
        }
    }
    builder.into_page()
}

/// Whether the page has these bytes: key and value of each row, and behind a `>` the next key.
fn is_listed<R: Abort>(rt: &R, alloc: Global, page: &Page, wanted: &[u8]) -> bool {
    let mut out = Vec::new(alloc);
    for row in page.rows() {
        out.extend_from_slice(row.key).expect(rt, "memory");
        out.extend_from_slice(row.value).expect(rt, "memory");
    }
    if let Some(key) = page.next_key() {
        out.push(b'>').expect(rt, "memory");
        out.extend_from_slice(key).expect(rt, "memory");
    }
    out.as_slice() == wanted
}

/// Whether the page of the first so many versions is this one, and so is a copy of it.
fn is_page<R: Abort>(
    rt: &R,
    alloc: Global,
    count: usize,
    to: Option<&[u8]>,
    numbers: (u64, u64),
    wanted: &[u8],
) -> bool {
    let page = page_of(rt, alloc, count, to, numbers);
    is_listed(rt, alloc, &page, wanted)
        && is_listed(rt, alloc, &page.copy().expect(rt, "memory"), wanted)
}

#[test]
fn a_page_has_the_newest_put_of_each_key(rt: HostRuntime) {
    for (count, to, at, limit, wanted) in [
        (9, None, 9, 64, b"a5c9d2e1".as_slice()),
        (9, None, 5, 64, b"a5c3d2e1"),
        (9, None, 3, 64, b"a2b3c3d2e1"),
        (9, None, 1, 64, b"b1e1"),
        (9, None, 0, 64, b""),
        (9, None, 5, 2, b"a5c3>d"),
        (9, None, 5, 1, b"a5>c"),
        (9, None, 5, 4, b"a5c3d2e1"),
        (9, Some(b"d".as_slice()), 5, 2, b"a5c3"),
        (9, Some(b"c"), 5, 64, b"a5"),
        (9, Some(b"a"), 5, 64, b""),
        // It is whole where no version is left.
        (0, None, 5, 64, b""),
        (1, None, 5, 64, b"a5"),
        (4, None, 5, 64, b"a5"),
        (6, None, 5, 64, b"a5"),
        (8, None, 5, 64, b"a5c3d2"),
        // Full pages, behind which no key with a row has come.
        (0, None, 5, 0, b""),
        (6, None, 5, 1, b"a5"),
        (7, None, 5, 2, b"a5c3"),
        // One row more is the next key.
        (1, None, 5, 0, b">a"),
        (7, None, 5, 1, b"a5>c"),
        (8, None, 5, 2, b"a5c3>d"),
    ] {
        assert!(rt;
            is_page(&rt, rt.alloc(), count, to, (at, limit), wanted),
            "{count} {at} {limit}"
        );
    }
}

/// Whether a page has this row at a place.
fn has_row(page: &Page, place: usize, key: &[u8], value: &[u8]) -> bool {
    match page.rows().get(place) {
        Some(row) => row.key == key && row.value == value,
        None => false,
    }
}

/// Whether it has just four rows, of which the first and the last are these.
fn has_four_rows(page: &Page) -> bool {
    page.rows().len() == 4
        && page.rows().get(4).is_none()
        && !page.rows().is_empty()
        && has_row(page, 0, b"a", b"5")
        && has_row(page, 3, b"e", b"1")
}

#[test]
fn rows_are_found_by_their_place(rt: HostRuntime) {
    assert!(rt; has_four_rows(&page_of(&rt, rt.alloc(), 9, None, (5, 64))));
    assert!(rt; page_of(&rt, rt.alloc(), 0, None, (5, 64)).rows().is_empty());
}
