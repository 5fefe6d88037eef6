//! What a store answers, compared with what a book has.

use crate::book::Book;
use crate::stream::KEYS;
use crate::trouble::Trouble;
use corwaphi::Db;
use lsm_device::MemDevice;
use lsm_store::{At, Page};
use std::alloc::{AllocError, Global};

/// What is asked for.
#[derive(Clone, Copy)]
pub(crate) enum RowQuery {
    /// All rows.
    All,
    /// The value of the key of a number.
    Value(u32),
    /// The rows from the key of a number on, and up to that of another one, which is outside.
    Range(u32, Option<u32>),
}

/// Compares what is asked for.
pub(crate) fn compare(
    alloc: Global,
    db: &mut Db<MemDevice>,
    book: &Book,
    at: At,
    query: RowQuery,
) -> Result<(), Trouble> {
    match query {
        RowQuery::All => compare_all(alloc, db, book, at),
        RowQuery::Value(number) => compare_value(db, book, at, number),
        RowQuery::Range(from, to) => compare_range(db, book, at, (from, to)),
    }
}

/// Compares all rows.
fn compare_all(alloc: Global, db: &mut Db<MemDevice>, book: &Book, at: At) -> Result<(), Trouble> {
    let mut from = book.key(0)?;
    let mut number = 0;
    for _ in 0..KEYS {
        let page = db.page(at, &from, None, 64)?;
        let Some(next) = matched(book, &page, number)? else {
            return Err(Trouble::Rows);
        };
        number = next;
        match page.next_key() {
            Some(key) => from = Vec::from_slice(alloc, key)?,
            None => return ended(book, number, None, Trouble::Rows),
        }
    }
    Err(Trouble::Rows)
}

/// No row comes from the key of a number on, up to that of another one.
pub(crate) fn ended(
    book: &Book,
    from: u32,
    to: Option<u32>,
    trouble: Trouble,
) -> Result<(), Trouble> {
    match book.next_number(from) {
        Some(number) if number < to.unwrap_or(KEYS) => Err(trouble),
        _ => Ok(()),
    }
}

/// Compares the rows of a page with those from a number on, and returns the number after them, `None` where they differ.
pub(crate) fn matched(book: &Book, page: &Page, from: u32) -> Result<Option<u32>, AllocError> {
    let mut next = from;
    for place in 0..page.rows().len() {
        let (Some(row), Some(number)) = (page.rows().get(place), book.next_number(next)) else {
            return Ok(None);
        };
        if !book.is_row(number, row.key, row.value)? {
            return Ok(None);
        }
        next = number.saturating_add(1);
    }
    Ok(Some(next))
}

/// Compares the value of a key.
fn compare_value(db: &mut Db<MemDevice>, book: &Book, at: At, number: u32) -> Result<(), Trouble> {
    let key = book.key(number)?;
    let found = match at {
        At::Now => db.get(&key)?,
        At::Snap(snapshot) => db.get_at(snapshot, &key)?,
    };
    if book.is_value(number, &found) {
        return Ok(());
    }
    Err(Trouble::Value)
}

fn slice_of(key: &Option<Vec<u8>>) -> Option<&[u8]> {
    match key {
        Some(key) => Some(key),
        None => None,
    }
}

/// The key of a number, where there is one.
fn key_of(book: &Book, number: Option<u32>) -> Result<Option<Vec<u8>>, AllocError> {
    match number {
        Some(number) => Ok(Some(book.key(number)?)),
        None => Ok(None),
    }
}

/// Compares the rows of a range.
fn compare_range(
    db: &mut Db<MemDevice>,
    book: &Book,
    at: At,
    (from, to): (u32, Option<u32>),
) -> Result<(), Trouble> {
    let first = book.key(from)?;
    let behind = key_of(book, to)?;
    let mut next = from;
    for row in db.rows_at(at, &first, slice_of(&behind))? {
        let row = row?;
        let Some(number) = book.next_number(next) else {
            return Err(Trouble::Range);
        };
        if !book.is_row(number, &row.key, &row.value)? {
            return Err(Trouble::Range);
        }
        next = number.saturating_add(1);
    }
    ended(book, next, to, Trouble::Range)
}
