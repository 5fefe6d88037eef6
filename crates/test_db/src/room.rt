//! There is room.

use crate::subject::{Subject, begun, opened};
use lsm_device::MemDevice;
use std::process::Abort;

/// The key of a number, which may repeat.
fn key_of(number: u64) -> [u8; 2] {
    [(number % 200) as u8, 0x6b]
}

/// Puts values of 1,000 bytes one after another, under 200 keys. It tells how many were answered with their numbers.
fn fill<R: Abort>(rt: &R, db: &mut Subject<MemDevice>, puts: u64) -> u64 {
    for number in 0..puts {
        let told = db.put(&key_of(number), &[(number % 251) as u8; 1_000]);
        if told != Ok(number.wrapping_add(1)) {
            return number;
        }
    }
    puts
}

// Each such put takes three sectors of a log of 128.
#[test]
fn a_full_log_is_never_told(rt: HostRuntime) {
    let mut db = begun(&rt);
    assert!(rt; fill(&rt, &mut db, 300) == 300);
    assert!(rt;
        db.has(&rt, &key_of(99), Some(&[48; 1_000]))
            && db.has(&rt, &key_of(100), Some(&[100; 1_000]))
    );
}

// They are 4,000,000 bytes, where the data area has 959 blocks, 3,928,064 bytes. A third of them stays free.
#[test]
fn puts_make_room_for_more(rt: HostRuntime) {
    let mut db = begun(&rt);
    assert!(rt; fill(&rt, &mut db, 4_000) == 4_000);
    // They are joined into few tables.
    assert!(rt; db.compact() && db.counts(&rt).0 == 4_000);
}

/// Opens a store again and again, and puts one row each time. It tells how many puts were answered with their numbers.
fn reopen<R: AllocGlobal + Abort>(rt: &R, times: u64) -> u64 {
    let mut db = begun(rt);
    for number in 0..times {
        if db.put(&key_of(number), b"red") != Ok(number.wrapping_add(1)) {
            return number;
        }
        db.sync().expect(rt, "a sync");
        db = opened(rt, db.into_device().crash(&[]));
    }
    times
}

#[test]
fn openings_with_a_put_each_go_on(rt: HostRuntime) {
    const TIMES: &[u64] = &[4, 100];
    for &times in TIMES {
        assert!(rt; reopen(&rt, times) == times);
    }
}

/// Puts values of 1,000 bytes, and tells how many runs level 0 had at most behind one of them.
fn most_runs<R: Abort>(rt: &R, db: &mut Subject<MemDevice>, puts: u64) -> usize {
    let mut most = 0;
    for number in 0..puts {
        db.put(&key_of(number), &[7; 1_000]).expect(rt, "a put");
        most = most.max(db.runs(rt));
    }
    most
}

// 48 logs are flushed. From eleven runs on tables are brought down before a flush; the merges that are due leave far fewer.
#[test]
fn merges_that_are_due_are_done(rt: HostRuntime) {
    let mut db = begun(&rt);
    assert!(rt; most_runs(&rt, &mut db, 2_000) <= 5);
}
