//! Guards that are true of a book, and guards that are not.

use crate::book::Book;
use crate::draws::Draws;
use crate::stream::KEYS;
use lsm_codec::Guard;
use lsm_device::Refusal;
use std::alloc::{AllocError, Global};

/// Guards of a batch, and the first that is false, if one is.
pub(crate) struct Guarded {
    pub guards: Vec<Guard>,
    pub false_at: Option<u32>,
}

impl Drop for Guarded {
    fn drop(self) {
        let Guarded {
            guards: _,
            false_at: _,
        } = self;
    }
}

/// Another value: one byte shorter, or one byte where it has none.
fn other(value: Vec<u8>) -> Result<Vec<u8>, AllocError> {
    let mut value = value;
    if value.pop().is_none() {
        value.push(0)?;
    }
    Ok(value)
}

/// A guard that is true of the key of a number.
fn true_guard(alloc: Global, book: &Book, number: u32) -> Result<Guard, Refusal> {
    let key = book.key(number)?;
    match book.value(number)? {
        Some(value) => Guard::holds(alloc, &key, &value),
        None => Guard::absent(alloc, &key),
    }
}

/// A guard that is false of it.
fn false_guard(alloc: Global, book: &Book, number: u32, is_absent: bool) -> Result<Guard, Refusal> {
    let key = book.key(number)?;
    match book.value(number)? {
        Some(_) if is_absent => Guard::absent(alloc, &key),
        Some(value) => Guard::holds(alloc, &key, &other(value)?),
        None => Guard::holds(alloc, &key, &[]),
    }
}

/// The number of a key: every other one has a value, as long as there are rows after it.
pub(crate) fn drawn_key(book: &Book, draws: &mut Draws) -> u32 {
    let number = draws.below(KEYS);
    if draws.below(2) == 0 {
        return number;
    }
    book.next_number(number).unwrap_or(number)
}

/// Guards of a batch. Of two lists one has a false guard.
pub(crate) fn drawn_guards(
    alloc: Global,
    book: &Book,
    draws: &mut Draws,
) -> Result<Guarded, Refusal> {
    let count = draws.one_of(&[1, 1, 1, 2, 3, 16]);
    let place = draws.below(count);
    let is_one_false = draws.below(2) == 0;
    let mut guards = Vec::new(alloc);
    for i in 0..count {
        let number = drawn_key(book, draws);
        if is_one_false && i == place {
            guards.push(false_guard(alloc, book, number, draws.below(2) == 0)?)?;
        } else {
            guards.push(true_guard(alloc, book, number)?)?;
        }
    }
    let false_at = if is_one_false { Some(place) } else { None };
    Ok(Guarded { guards, false_at })
}

/// One guard more than a batch may have, each of them true.
pub(crate) fn too_many(alloc: Global, book: &Book, number: u32) -> Result<Vec<Guard>, Refusal> {
    let mut guards = Vec::new(alloc);
    for _ in 0..17 {
        guards.push(true_guard(alloc, book, number)?)?;
    }
    Ok(guards)
}
