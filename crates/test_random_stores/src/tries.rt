//! Stores that were once stuck, led the same way again.

use crate::stream::Deed;
use crate::subject::{Subject, Went};
use crate::tally::{Course, Tally};
use crate::trouble::Trouble;
use std::alloc::{AllocError, Global};

/// A store that is filled and emptied.
#[derive(Clone, Copy)]
struct Try {
    pub sectors: u32,
    pub log_sectors: u16,
    /// The bytes of a key.
    pub key: u32,
    /// The bytes of a value.
    pub value: u32,
    /// The rows of a batch of those that are put.
    pub batch: u32,
}

/// The stores that are filled and emptied: the sectors, those of a log region, the bytes of a key and of a value, and the rows of a batch.
const TRIES: &[(u32, u16, u32, u32, u32)] = &[
    (8_192, 128, 16, 8, 1_000),
    (8_192, 128, 255, 0, 100),
    (8_192, 128, 128, 0, 100),
    (8_192, 128, 64, 0, 100),
    (8_192, 128, 32, 0, 100),
    (8_192, 128, 64, 64, 100),
    (8_192, 128, 64, 64, 1),
    (16_384, 2_042, 16, 2_048, 20),
    (8_192, 1_018, 16, 2_048, 20),
    (8_192, 2_042, 16, 2_048, 1),
    (8_192, 2_048, 16, 2_048, 1),
    (65_536, 2_042, 16, 100, 100),
];

/// The rows of the store of which each is replaced by another.
const REPLACED: u32 = 45_000;

/// At about this number of rows a store is filled enough.
const MOST: u32 = 65_500;

/// The number of the key of a turn: scattered over all numbers.
fn scattered(turn: u32) -> u32 {
    turn.wrapping_mul(40_503) % 65_536
}

/// The puts of the next batch, after `rows` rows.
fn next_puts(alloc: Global, it: Try, rows: u32) -> Result<Vec<Deed>, AllocError> {
    let mut deeds = Vec::new(alloc);
    for i in 0..it.batch {
        deeds.push(Deed {
            key: scattered(rows.wrapping_add(i)),
            value: Some(it.value),
        })?;
    }
    Ok(deeds)
}

/// Fills a store until it is full, or about all keys are there. It tells how many rows it took.
fn fill(subject: &mut Subject, it: Try) -> Result<u32, Trouble> {
    let mut rows: u32 = 0;
    for _ in 0..MOST {
        if rows >= MOST {
            break;
        }
        let deeds = next_puts(subject.alloc, it, rows)?;
        if let Went::Full = subject.make_all(&deeds)? {
            break;
        }
        rows = rows.saturating_add(it.batch);
    }
    Ok(rows)
}

/// Deletes all keys, each alone.
fn empty(subject: &mut Subject) -> Result<(), Trouble> {
    for key in subject.keys()?.iter() {
        subject.make(*key, None)?;
    }
    Ok(())
}

/// Fills a store, empties it, and fills it again.
fn fill_twice(subject: &mut Subject, it: Try) -> Result<Course, Trouble> {
    let rows = fill(subject, it)?;
    subject.compare()?;
    empty(subject)?;
    if !subject.compact() {
        return Err(Trouble::Compaction);
    }
    subject.compare()?;
    let again = fill(subject, it)?;
    subject.compare()?;
    if again < rows / 2 {
        return Err(Trouble::Room);
    }
    Ok(Course::of(2))
}

fn run<R: AllocGlobal>(rt: &R, it: Try) -> Result<Course, Trouble> {
    let mut subject = Subject::new(rt, it.sectors, it.log_sectors, it.key)?;
    fill_twice(&mut subject, it)
}

/// Puts rows, and replaces them one by one, for `turns` turns.
fn replace_each(subject: &mut Subject, turns: u32) -> Result<Course, Trouble> {
    for i in 0..REPLACED {
        subject.make(scattered(i), Some(8))?;
    }
    for turn in 0..turns {
        subject.make(scattered(turn), None)?;
        subject.make(scattered(turn.wrapping_add(REPLACED)), Some(8))?;
    }
    subject.compare()?;
    Ok(Course::of(0))
}

fn replace<R: AllocGlobal>(rt: &R, turns: u32) -> Result<Course, Trouble> {
    let mut subject = Subject::new(rt, 8_192, 128, 16)?;
    replace_each(&mut subject, turns)
}

/// Puts a value under `count` keys, `apart` from each other by number, until there is no room.
fn put_each(subject: &mut Subject, keys: (u32, u32, u32), value: u32) -> Result<(), Trouble> {
    let (first, apart, count) = keys;
    for i in 0..count {
        let deed = Deed {
            key: first.wrapping_add(i.wrapping_mul(apart)),
            value: Some(value),
        };
        if let Went::Full = subject.make_all(&[deed])? {
            return Ok(());
        }
    }
    Ok(())
}

/// Large rows, then tiny ones between them, then large ones again.
fn put_between(subject: &mut Subject) -> Result<Course, Trouble> {
    put_each(subject, (0, 2, 174), 2_031)?;
    put_each(subject, (1, 2, 174), 1)?;
    put_each(subject, (1_000, 1, 400), 2_031)?;
    subject.compare()?;
    empty(subject)?;
    subject.make(7, Some(2_048))?;
    subject.compare()?;
    Ok(Course::of(1))
}

fn between<R: AllocGlobal>(rt: &R) -> Result<Course, Trouble> {
    let mut subject = Subject::new(rt, 8_192, 2_042, 16)?;
    put_between(&mut subject)
}

/// Leads the stores that were once stuck the same way again, and replaces rows of one of them for `turns` turns. With no turn it does
/// nothing. They are counted from 0 where they stand for seeds.
pub fn try_all<R: AllocGlobal>(rt: &R, turns: u32, tally: &mut Tally) {
    if turns == 0 {
        return;
    }
    let mut number: u64 = 0;
    for &(sectors, log_sectors, key, value, batch) in TRIES {
        let it = Try {
            sectors,
            log_sectors,
            key,
            value,
            batch,
        };
        tally.count(number, run(rt, it));
        number = number.saturating_add(1);
    }
    tally.count(number, between(rt));
    tally.count(number.saturating_add(1), replace(rt, turns));
}
