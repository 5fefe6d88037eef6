//! Rows of a range, one after another.

use crate::subject::{Subject, begun, opened};
use corwaphi::{At, Row};
use lsm_device::{MemDevice, Refusal};
use std::process::Abort;

/// The key of a number, which is greater where the number is.
fn key_of(number: u8) -> [u8; 2] {
    [0x6b, number]
}

fn is_row(row: &Row, number: u8) -> bool {
    let key = key_of(number);
    let value = [number; 100];
    row.key.as_slice() == key.as_slice() && row.value.as_slice() == value.as_slice()
}

/// A store of 200 rows.
fn with_rows<R: AllocGlobal + Abort>(rt: &R) -> Subject<MemDevice> {
    let mut db = begun(rt);
    for number in 0..200_u8 {
        db.put(&key_of(number), &[number; 100])
            .expect(rt, "a batch");
    }
    db
}

/// How many rows a range has, which are those of each number from one on, or of each second one. None where another row comes.
fn count(
    db: &mut Subject<MemDevice>,
    at: At,
    range: (&[u8], Option<&[u8]>),
    first: u8,
    step: u8,
) -> Result<Option<u8>, Refusal> {
    let mut number = first;
    let mut count = 0_u8;
    for row in db.rows_at(at, range.0, range.1)? {
        if !is_row(&row?, number) {
            return Ok(None);
        }
        number = number.wrapping_add(step);
        count = count.wrapping_add(1);
    }
    Ok(Some(count))
}

// The borders of pages lie at each 64.
#[test]
fn all_rows_come(rt: HostRuntime) {
    let mut db = with_rows(&rt);
    assert!(rt; count(&mut db, At::Now, (b"", None), 0, 1) == Ok(Some(200)));
    const ENDS: &[u8] = &[0, 1, 63, 64, 65, 127, 128, 129, 199];
    for &end in ENDS {
        assert!(rt; count(&mut db, At::Now, (b"", Some(&key_of(end))), 0, 1) == Ok(Some(end)));
    }
}

#[test]
fn a_range_has_its_rows_alone(rt: HostRuntime) {
    let mut db = with_rows(&rt);
    assert!(rt; count(&mut db, At::Now, (&key_of(22), Some(&key_of(90))), 22, 1) == Ok(Some(68)));
    assert!(rt; count(&mut db, At::Now, (&key_of(22), Some(&key_of(22))), 22, 1) == Ok(Some(0)));
    assert!(rt; count(&mut db, At::Now, (&key_of(200), None), 0, 1) == Ok(Some(0)));
    let backwards = count(&mut db, At::Now, (&key_of(2), Some(&key_of(1))), 0, 1);
    assert!(rt; backwards == Err(Refusal::BadRange));
}

#[test]
fn rows_at_a_snapshot_are_those_of_then(rt: HostRuntime) {
    let mut db = with_rows(&rt);
    let then = db.snapshot(&rt);
    for number in 0..100_u8 {
        db.delete(&key_of(number.wrapping_mul(2)))
            .expect(&rt, "a batch");
    }
    assert!(rt; count(&mut db, At::Snap(then), (b"", None), 0, 1) == Ok(Some(200)));
    assert!(rt; count(&mut db, At::Now, (b"", None), 1, 2) == Ok(Some(100)));
    assert!(rt; db.release(then) == Ok(()));
    let gone = count(&mut db, At::Snap(then), (b"", None), 0, 1);
    assert!(rt; gone == Err(Refusal::NoSuchSnapshot));
}

/// How many calls a device has had.
fn calls_of(device: &MemDevice) -> u64 {
    device
        .reads()
        .wrapping_add(device.writes())
        .wrapping_add(device.syncs())
}

/// The store with its rows in a table, opened on a device of which the read behind so many after the opening fails.
fn armed<R: AllocGlobal + Abort>(rt: &R, reads: u64) -> Subject<MemDevice> {
    let mut db = with_rows(rt);
    db.sync().expect(rt, "a sync");
    let device = opened(rt, db.into_device().crash(&[])).into_device();
    let before = calls_of(&device);
    let mut device = opened(rt, device).into_device();
    let opening = calls_of(&device).wrapping_sub(before);
    device.fail(opening.wrapping_add(reads), false);
    opened(rt, device)
}

/// How many rows come, which are those of the numbers from 0 on, and how many refusals with Io. None where something else comes.
fn count_with_faults<R: Abort>(rt: &R, db: &mut Subject<MemDevice>) -> Option<(u8, u8)> {
    let mut counts = (0_u8, 0_u8);
    for row in db.rows_at(At::Now, b"", None).expect(rt, "rows") {
        match row {
            Ok(row) if is_row(&row, counts.0) => counts.0 = counts.0.wrapping_add(1),
            Err(Refusal::Io) => counts.1 = counts.1.wrapping_add(1),
            _ => return None,
        }
    }
    Some(counts)
}

// The rows lie in six blocks of eight sectors.
#[test]
fn behind_a_refusal_it_goes_on(rt: HostRuntime) {
    const READS: &[u64] = &[0, 20, 40];
    for &reads in READS {
        let mut db = armed(&rt, reads);
        assert!(rt; count_with_faults(&rt, &mut db) == Some((200, 1)));
    }
}

#[test]
fn rows_are_asked_for_one_by_one(rt: HostRuntime) {
    let mut db = with_rows(&rt);
    let mut rows = db.rows_at(At::Now, &key_of(198), None).expect(&rt, "rows");
    for number in 198..200 {
        let row = rows.next_row().expect(&rt, "a row");
        assert!(rt; matches!(&row, Some(row) if is_row(row, number)));
    }
    assert!(rt; matches!(rows.next_row(), Ok(None)) && matches!(rows.next_row(), Ok(None)));
}
